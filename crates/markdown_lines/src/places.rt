//! Where runs are.

ghost use Rattle.std.specs.Prelude.{◌≡◌};
ghost use Rattle.mad_md.specs.Flagged;
ghost use Rattle.markdown_inlines.specs.Looks.{is_same, is_same_number};
ghost use Rattle.markdown_lines.specs.Glyphs.{is_same_flags};
ghost use Rattle.markdown_lines.specs.Runs.{flags_said};

use mad_md::Compound;

/// The flags of a run.
#[derive(Debug, Clone, Copy, PartialEq, Eq)]
pub struct RunFlags {
    pub bold: bool,
    pub italic: bool,
    pub code: bool,
    pub strikeout: bool,
    pub link: bool,
    /// Whether it is what is said of a picture.
    pub picture: bool,
    /// Whether it is the sign in front of that. No run of Markdown is.
    pub picture_sign: bool,
}

impl RunFlags {
    /// No flag is on.
    pub const NONE: RunFlags = RunFlags {
        bold: false,
        italic: false,
        code: false,
        strikeout: false,
        link: false,
        picture: false,
        picture_sign: false,
    };
}

/// Where a run is in a text, in bytes, and its flags.
#[derive(Debug, Clone, Copy, PartialEq, Eq)]
pub struct RunPlace {
    pub flags: RunFlags,
    pub start: usize,
    pub end: usize,
}

/// Some of the runs, one after the other.
#[derive(Debug, Clone, Copy, PartialEq, Eq)]
pub struct RunRange {
    pub start: usize,
    pub count: usize,
}

// The flags of a compound.
pub(crate) fn flags_of(compound: Compound<'_>) -> RunFlags
    ensures { flags_said result ≡ Flagged.flags_of compound.entry }
{
    RunFlags {
        bold: compound.bold,
        italic: compound.italic,
        code: compound.code,
        strikeout: compound.strikeout,
        link: compound.link,
        picture: compound.picture,
        picture_sign: compound.picture_sign,
    }
}

// Whether both hold, or none.
fn is_same(a: bool, b: bool) -> bool
    ensures { result ≡ is_same a b }
{
    if a { b } else { !b }
}

// Whether the flags are the same.
pub(crate) fn is_same_flags(a: RunFlags, b: RunFlags) -> bool
    ensures { result ≡ is_same_flags a b }
{
    is_same(a.bold, b.bold)
        && is_same(a.italic, b.italic)
        && is_same(a.code, b.code)
        && is_same(a.strikeout, b.strikeout)
        && is_same(a.link, b.link)
        && is_same(a.picture, b.picture)
        && is_same(a.picture_sign, b.picture_sign)
}

// Whether both are the same number, or none.
pub(crate) fn is_same_number(a: Option<usize>, b: Option<usize>) -> bool
    ensures { result ≡ is_same_number a b }
{
    match (a, b) {
        (Some(a), Some(b)) => a == b,
        (None, None) => true,
        _ => false,
    }
}

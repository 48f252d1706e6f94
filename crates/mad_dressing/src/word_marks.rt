//! Marks that stand at words where nothing is styled: where a flag of the text begins, and where it ends.

ghost use Rattle.std.specs.Prelude.{◌≡◌, ◌++◌, nat_eq, map, IfOk, OnOk};
ghost use Rattle.std.specs.List.{starts_with};
ghost use Rattle.mad_md.specs.Flagged.{run_of, unflagged};
ghost use Rattle.mad_md.specs.Lines.{styled_runs};
ghost use Rattle.mad_dressing.specs.WordFlags.{flags_said};
ghost use Rattle.mad_dressing.specs.WordMarks.{beginnings, endings, first_flags, is_address, last_flags, mark_if, marked_flags, marked_runs, marked_text};

use mad_md::{Composite, Compound};
use std::alloc::{AllocError, Global};

/// The flags of a text that have marks. Pictures have none.
#[derive(Debug, Clone, Copy, PartialEq, Eq)]
pub(crate) struct WordFlags {
    bold: bool,
    italic: bool,
    code: bool,
    strikeout: bool,
    link: bool,
}

/// No flag.
pub(crate) fn no_flags() -> WordFlags
    ensures { flags_said result ≡ unflagged }
{
    WordFlags {
        bold: false,
        italic: false,
        code: false,
        strikeout: false,
        link: false,
    }
}

/// The flags of a compound that have marks: bold has none in a line that is bold as a whole, and a link has none that is an address as it stands.
fn flags_of(compound: &Compound, strong: bool) -> WordFlags
    ensures { flags_said result ≡ marked_flags strong (run_of compound.now) }
{
    WordFlags {
        bold: compound.bold && !strong,
        italic: compound.italic,
        code: compound.code,
        strikeout: compound.strikeout,
        link: compound.link && !is_address(compound.src),
    }
}

// Whether a text is an address as it stands.
fn is_address(text: &str) -> bool
    ensures { result ≡ is_address text.now }
{
    begins(text, "http://")
        || (begins(text, "https://")
            || (begins(text, "ftp://") || (begins(text, "mailto:") || begins(text, "www."))))
}

fn begins(text: &str, front: &str) -> bool
    ensures { result ≡ starts_with nat_eq text.now front.now }
{
    text.as_bytes().starts_with(front.as_bytes())
}

/// The flags of the first compound, or without one those of what follows.
pub(crate) fn first_flags(text: &[Compound], strong: bool, after: WordFlags) -> WordFlags
    ensures { flags_said result ≡ first_flags strong (flags_said after) (map run_of text.now) }
{
    match text {
        [first, ..] => flags_of(first, strong),
        [] => after,
    }
}

/// The flags of the last compound, or without one none.
pub(crate) fn last_flags(text: &[Compound], strong: bool) -> WordFlags
    ensures { flags_said result ≡ last_flags strong unflagged (map run_of text.now) }
{
    let mut last = no_flags();
    let mut rest = text;
    while let [compound, next @ ..] = rest {
        last = flags_of(compound, strong);
        rest = next;
    }
    last
}

/// A line or cell with marks at its words, between texts with these flags; it is bold as a whole, or isn't.
///
/// # Errors
///
/// Out of memory is the only error.
pub(crate) fn marked_composite<'s>(
    alloc: Global,
    composite: &Composite<'s>,
    strong: bool,
    before: WordFlags,
    after: WordFlags,
) -> Result<Composite<'s>, AllocError>
    ensures { IfOk result (λ marked. styled_runs marked ≡ marked_text strong (flags_said before) (flags_said after) (styled_runs composite.now)) }
{
    let mut compounds = Vec::new(alloc);
    push_marked(&mut compounds, &composite.compounds, strong, before, after)?;
    Ok(Composite {
        style: composite.style,
        compounds,
    })
}

// Puts a text behind what is there, with marks at its words.
fn push_marked<'s>(
    compounds: &mut Vec<Compound<'s>>,
    text: &[Compound<'s>],
    strong: bool,
    before: WordFlags,
    after: WordFlags,
) -> Result<(), AllocError>
    ensures { OnOk result (map run_of compounds.new.items ≡ map run_of compounds.old.items ++ marked_runs strong (flags_said before) (flags_said after) (map run_of text.now)) }
{
    let mut before = before;
    let mut rest = text;
    while let [compound, next @ ..] = rest {
        let own = flags_of(compound, strong);
        let following = first_flags(next, strong, after);
        push_beginnings(compounds, before, own)?;
        compounds.push(*compound)?;
        push_endings(compounds, own, following)?;
        before = own;
        rest = next;
    }
    Ok(())
}

// Puts the marks of the flags behind what is there that the text before hasn't got, the outermost first.
fn push_beginnings(
    compounds: &mut Vec<Compound<'_>>,
    before: WordFlags,
    own: WordFlags,
) -> Result<(), AllocError>
    ensures { OnOk result (map run_of compounds.new.items ≡ map run_of compounds.old.items ++ beginnings (flags_said before) (flags_said own)) }
{
    push_mark(compounds, own.link && !before.link, "[")?;
    push_mark(compounds, own.italic && !before.italic, "_")?;
    push_mark(compounds, own.bold && !before.bold, "*")?;
    push_mark(compounds, own.strikeout && !before.strikeout, "~")?;
    push_mark(compounds, own.code && !before.code, "`")
}

// Puts the marks of the flags behind what is there that the text after hasn't got, the innermost first.
fn push_endings(
    compounds: &mut Vec<Compound<'_>>,
    own: WordFlags,
    after: WordFlags,
) -> Result<(), AllocError>
    ensures { OnOk result (map run_of compounds.new.items ≡ map run_of compounds.old.items ++ endings (flags_said own) (flags_said after)) }
{
    push_mark(compounds, own.code && !after.code, "`")?;
    push_mark(compounds, own.strikeout && !after.strikeout, "~")?;
    push_mark(compounds, own.bold && !after.bold, "*")?;
    push_mark(compounds, own.italic && !after.italic, "_")?;
    push_mark(compounds, own.link && !after.link, "]")
}

// Puts a mark behind what is there, if it is there.
fn push_mark<'s>(
    compounds: &mut Vec<Compound<'s>>,
    there: bool,
    mark: &'s str,
) -> Result<(), AllocError>
    ensures { OnOk result (map run_of compounds.new.items ≡ map run_of compounds.old.items ++ mark_if there mark.now) }
{
    if there {
        compounds.push(Compound::raw_str(mark))?;
    }
    Ok(())
}

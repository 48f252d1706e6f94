//! The style that the end of a row is in.

ghost use Rattle.std.specs.Prelude.{IfSome, ◌++◌, ◌∷◌, []};
ghost use Rattle.mad_live.specs.StyledRows.{IsStyling, GrowsInStyle};

// What begins a command, and the bytes before the last of the one that ends a style.
const ESCAPE: u8 = 27;

const RESET_FRONT: &[u8] = b"\x1b[0";

const RESET: &[u8] = b"\x1b[0m";

// Numbers and what parts them come before this byte.
const FIRST_LETTER: u8 = 60;

/// What the end of some bytes is.
#[derive(Clone, Copy)]
pub(crate) enum Styling {
    /// Text without a style.
    Plain,
    /// Commands that set a style, the first at an index, and one that has begun.
    Begun(usize),
    /// The same, where the numbers of that one come.
    Numbers(usize),
    /// Text in a style. Its commands begin at the first index and end at the other.
    Styled(usize, usize),
    /// Something else.
    Other,
}

// What the end is once a byte came.
fn styling_after(front: &[u8], styling: Styling, byte: u8) -> Styling
    ensures { IsStyling front.now styling → IsStyling (front.now ++ byte ∷ []) result }
{
    if byte == b'\n' {
        return Styling::Plain;
    }
    if byte == b'm' && front.ends_with(RESET_FRONT) {
        return Styling::Plain;
    }
    match styling {
        Styling::Plain => {
            if byte == ESCAPE {
                Styling::Begun(front.len())
            } else {
                Styling::Plain
            }
        }
        Styling::Begun(begin) => {
            if byte == b'[' {
                Styling::Numbers(begin)
            } else {
                Styling::Other
            }
        }
        Styling::Numbers(begin) => {
            if byte == b'm' {
                Styling::Styled(begin, front.len() + 1)
            } else if byte < FIRST_LETTER {
                Styling::Numbers(begin)
            } else {
                Styling::Other
            }
        }
        Styling::Styled(begin, end) => {
            if byte != ESCAPE {
                Styling::Styled(begin, end)
            } else if end == front.len() {
                Styling::Begun(begin)
            } else {
                Styling::Other
            }
        }
        Styling::Other => Styling::Other,
    }
}

/// Where rows that are wanted go on from those that are shown in the style that these end in: the commands that set it, and what comes.
pub(crate) fn growth_in_style<'r>(shown: &'r [u8], wanted: &'r [u8]) -> Option<(&'r [u8], &'r [u8])>
    ensures { IfSome result (λ found. GrowsInStyle shown.now wanted.now found.0.now found.1.now) }
{
    let front = shown.strip_suffix(RESET)?;
    let more = wanted.strip_prefix(front)?;
    let mut styling = Styling::Plain;
    for (i, byte) in front.iter().enumerate() {
        styling = styling_after(&front[..i], styling, *byte);
    }
    match styling {
        Styling::Styled(begin, end) => Some((&front[begin..end], more)),
        _ => None,
    }
}

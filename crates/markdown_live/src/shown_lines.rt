//! What is shown of a line that has begun.

ghost use Rattle.std.specs.Prelude.{◌≡◌, ◌-◌, length, take};
ghost use Rattle.std.specs.List.{list_all, suffix_len};
ghost use Rattle.markdown_live.specs.ShownLines.{is_sign, may_begin, shown_words, shown_line};

use markdown_leaves::Kind;
use markdown_marks::bytes::{first, without_blanks};

// Whether more of this sign, or what comes behind it, tells what it begins or ends.
fn is_sign(b: u8) -> bool
    ensures { result ≡ is_sign b }
{
    matches!(
        b,
        b' ' | b'\t'
            | b'!'
            | b'#'
            | b'&'
            | b'*'
            | b'+'
            | b'-'
            | b'<'
            | b'='
            | b'>'
            | b'['
            | b'\\'
            | b'_'
            | b'`'
            | b'|'
            | b'~'
    )
}

// Whether a block may begin with it: a sign, or what is in the number of an item.
fn may_begin(b: u8) -> bool
    ensures { result ≡ may_begin b }
{
    is_sign(b) || b.is_ascii_digit() || b == b'.' || b == b')'
}

// Whether there is nothing but what a block may begin with.
fn is_undecided(line: &[u8]) -> bool
    ensures { result ≡ list_all may_begin line.now }
{
    line.iter().all(|byte| may_begin(*byte))
}

// The line without the signs at its end.
fn without_signs(line: &[u8]) -> &[u8]
    ensures { result.now ≡ take (length line.entry.now - suffix_len is_sign line.entry.now) line.entry.now }
{
    let mut len = line.len();
    while len > 0 && is_sign(line[len - 1]) {
        len -= 1;
    }
    &line[..len]
}

// What is shown of words. What begins with a bar may be the head of a table.
fn shown_words(line: &[u8]) -> &[u8]
    ensures { result.now ≡ shown_words line.entry.now }
{
    if first(without_blanks(line)) == b'|' {
        return &line[..0];
    }
    without_signs(line)
}

/// What is shown of a line that has begun behind a leaf that is open, or behind none: its front without what decides nothing yet.
///
/// - Signs that a block may begin with are kept back as long as nothing else stands in the line: `- ` and `12.` may be an item.
/// - Of words the signs at the end are kept back, as `**` and `[`: the next character tells what they begin or end.
/// - A line that begins with a bar is kept back, and so is each line below a table, since it may be a row of it.
/// - Code and html are shown as they stand.
pub fn shown_line(leaf: Kind, line: &[u8]) -> &[u8]
    ensures { result.now ≡ shown_line leaf line.entry.now }
{
    if is_undecided(line) {
        return &line[..0];
    }
    match leaf {
        Kind::Table(_) => &line[..0],
        Kind::Indented | Kind::Fenced | Kind::Html => line,
        Kind::Nothing | Kind::Paragraph | Kind::Heading(_) | Kind::Rule | Kind::Definitions =>
            shown_words(line),
    }
}

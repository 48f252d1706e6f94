//! How blocks of html begin, and what ends each.

ghost use Rattle.std.specs.Prelude.{◌≡◌, ◌≤◌, ◌&&◌, codes, nat_eq, length, drop, IsTrue};
ghost use Rattle.std.specs.List.{starts_with};
ghost use Rattle.std.specs.Char.{is_ascii_alphabetic};
ghost use Rattle.markdown_marks.specs.Bytes.{first};
ghost use Rattle.markdown_html.specs.Names.{is_raw_tag, is_block_tag};
ghost use Rattle.markdown_html.specs.Starts.{begins, without_slash, blank_ending, ending_after, html_start};

use crate::names::{cut_word, ends_name, is_block_name, is_raw_name};
use markdown_marks::bytes::{first, tail};
use markdown_marks::tags::is_tag_alone;

/// What ends a block of html.
#[derive(Debug, Clone, Copy, PartialEq, Eq)]
pub enum Ending {
    /// A closing tag whose content is raw: `</script>`, `</pre>`, `</style>` or `</textarea>`.
    RawTag,
    /// `-->`
    Comment,
    /// `?>`
    Instruction,
    /// `>`
    Declaration,
    /// `]]>`
    Cdata,
    /// A blank line, which isn't part of the block.
    BlankLine,
}

// Whether the name of a tag is in front whose content is raw.
fn is_raw_tag(bytes: &[u8]) -> bool
    ensures { result ≡ is_raw_tag bytes.now }
{
    let (word, after) = cut_word(bytes);
    is_raw_name(word) && ends_name(false, after)
}

// Whether the name of a tag of a block is in front.
fn is_block_tag(bytes: &[u8]) -> bool
    ensures { result ≡ is_block_tag bytes.now }
{
    let (word, after) = cut_word(bytes);
    is_block_name(word) && ends_name(true, after)
}

/// The bytes without a slash in front.
pub fn without_slash(bytes: &[u8]) -> &[u8]
    ensures { result.now ≡ without_slash bytes.entry.now }
{
    if first(bytes) == b'/' {
        tail(bytes, 1)
    } else {
        bytes
    }
}

/// Whether the bytes begin with these.
pub fn begins(bytes: &[u8], prefix: &[u8]) -> bool
    ensures value { result ≡ starts_with nat_eq bytes.now prefix.now }
    ensures within { IsTrue result → length prefix.now ≤ length bytes.now }
{
    bytes.starts_with(prefix)
}

/// Whether a declaration begins here, after its sign `<`: `!` and a letter.
pub fn is_declaration(bytes: &[u8]) -> bool
    ensures { result ≡ (begins bytes.now (codes "!") && is_ascii_alphabetic (first (drop 1 bytes.now))) }
{
    begins(bytes, b"!") && first(tail(bytes, 1)).is_ascii_alphabetic()
}

fn blank_ending(begins_html: bool) -> Option<Ending>
    ensures { result ≡ blank_ending begins_html }
{
    if begins_html {
        Some(Ending::BlankLine)
    } else {
        None
    }
}

// What ends the block that begins after the sign `<`.
fn ending_after(in_paragraph: bool, bytes: &[u8]) -> Option<Ending>
    ensures { result ≡ ending_after in_paragraph bytes.now }
{
    if is_raw_tag(bytes) {
        return Some(Ending::RawTag);
    }
    if begins(bytes, b"!--") {
        return Some(Ending::Comment);
    }
    if begins(bytes, b"?") {
        return Some(Ending::Instruction);
    }
    if begins(bytes, b"![CDATA[") {
        return Some(Ending::Cdata);
    }
    if is_declaration(bytes) {
        return Some(Ending::Declaration);
    }
    blank_ending(is_block_tag(without_slash(bytes)) || (!in_paragraph && is_tag_alone(bytes)))
}

/// What ends the block of html that begins here, if one does. In a paragraph's next line a tag that is alone begins none, unless it is a block's.
#[tactic(auto, unfolding(crate::specs::Starts::html_start))]
pub fn html_start(in_paragraph: bool, bytes: &[u8]) -> Option<Ending>
    ensures { result ≡ html_start in_paragraph bytes.now }
{
    if first(bytes) != b'<' {
        return None;
    }
    ending_after(in_paragraph, tail(bytes, 1))
}

//! Names of tags, in letters of any case.

ghost use Rattle.std.specs.Prelude.{◌≡◌, ◌≤◌, length};
ghost use Rattle.std.specs.List.{list_any, prefix_len};
ghost use Rattle.std.specs.Char.{is_ascii_alphanumeric};
ghost use Rattle.markdown_html.specs.Names.{same_letters, is_among, raw_names, block_names, word, after_word, ends_name};

use markdown_marks::bytes::{first, is_blank_byte, tail};

/// The names of the tags whose content is raw.
pub(crate) const RAW_NAMES: [&str; 4] = ["script", "pre", "style", "textarea"];

/// The names of the tags of blocks.
pub(crate) const BLOCK_NAMES: [&str; 62] = [
    "address",
    "article",
    "aside",
    "base",
    "basefont",
    "blockquote",
    "body",
    "caption",
    "center",
    "col",
    "colgroup",
    "dd",
    "details",
    "dialog",
    "dir",
    "div",
    "dl",
    "dt",
    "fieldset",
    "figcaption",
    "figure",
    "footer",
    "form",
    "frame",
    "frameset",
    "h1",
    "h2",
    "h3",
    "h4",
    "h5",
    "h6",
    "head",
    "header",
    "hr",
    "html",
    "iframe",
    "legend",
    "li",
    "link",
    "main",
    "menu",
    "menuitem",
    "nav",
    "noframes",
    "ol",
    "optgroup",
    "option",
    "p",
    "param",
    "search",
    "section",
    "summary",
    "table",
    "tbody",
    "td",
    "tfoot",
    "th",
    "thead",
    "title",
    "tr",
    "track",
    "ul",
];

/// Whether the word is this name, which has small letters, in letters of any case.
#[tactic(auto, unfolding(crate::specs::Names::same_letters))]
pub fn same_letters(name: &[u8], word: &[u8]) -> bool
    ensures { result ≡ same_letters name.now word.now }
{
    let mut names = name;
    let mut words = word;
    while let [n, names_left @ ..] = names {
        let [w, words_left @ ..] = words else {
            return false;
        };
        if *n != w.to_ascii_lowercase() {
            return false;
        }
        names = names_left;
        words = words_left;
    }
    words.is_empty()
}

// Whether the word is one of these names.
fn is_among(names: &[&str], word: &[u8]) -> bool
    ensures { result ≡ list_any (λ name. same_letters name.now word.now) names.now }
{
    names.iter().any(|name| same_letters(name.as_bytes(), word))
}

/// Whether the word names a tag whose content is raw.
#[tactic(auto, unfolding(crate::specs::Names::raw_names))]
pub(crate) fn is_raw_name(word: &[u8]) -> bool
    ensures { result ≡ is_among raw_names word.now }
{
    is_among(&RAW_NAMES, word)
}

/// Whether the word names a tag of a block.
#[tactic(auto, unfolding(crate::specs::Names::block_names))]
pub fn is_block_name(word: &[u8]) -> bool
    ensures { result ≡ is_among block_names word.now }
{
    is_among(&BLOCK_NAMES, word)
}

// How many letters and digits are in front.
fn word_len(bytes: &[u8]) -> usize
    ensures value { result ≡ prefix_len is_ascii_alphanumeric bytes.now }
    ensures within { result ≤ length bytes.now }
{
    let mut i = 0;
    while i < bytes.len() && bytes[i].is_ascii_alphanumeric() {
        i += 1;
    }
    i
}

/// The letters and digits in front, and what follows them.
pub(crate) fn cut_word(bytes: &[u8]) -> (&[u8], &[u8])
    ensures word { result.0.now ≡ word bytes.entry.now }
    ensures after { result.1.now ≡ after_word bytes.entry.now }
{
    let len = word_len(bytes);
    (&bytes[..len], tail(bytes, len))
}

/// Whether the name of a tag ends here: a blank, `>` or nothing follows, or, where a slash may stand, `/>`.
pub(crate) fn ends_name(slash: bool, bytes: &[u8]) -> bool
    ensures { result ≡ ends_name slash bytes.now }
{
    match bytes {
        [] => true,
        [b, bs @ ..] => is_blank_byte(*b)
            || *b == b'>'
            || (slash && *b == b'/' && first(bs) == b'>'),
    }
}

//! A block of html as leaves: each tag of a heading begins another one.

ghost use Rattle.std.specs.Prelude.{◌≡◌, ◌≤◌, IfOk, length, map};
ghost use Rattle.markdown_html_text.specs.HtmlLeaves.{level_named, is_heading_tag, begins_leaf, markup_len, markup_more, html_leaves, html_level};

use crate::markup::{is_tag, markup_of};
use markdown_html::starts::without_slash;
use markdown_spans::attributes::is_tag_named;
use markdown_spans::words::{bytes_from, bytes_up_to};
use std::alloc::{AllocError, Global};

// The level of the heading that the name in front says, or 0.
fn level_named(tag: &[u8]) -> usize
    ensures { result ≡ level_named tag.now }
{
    if is_tag_named(b"h1", tag) {
        return 1;
    }
    if is_tag_named(b"h2", tag) {
        return 2;
    }
    if is_tag_named(b"h3", tag) {
        return 3;
    }
    if is_tag_named(b"h4", tag) {
        return 4;
    }
    if is_tag_named(b"h5", tag) {
        return 5;
    }
    if is_tag_named(b"h6", tag) {
        return 6;
    }
    0
}

// Whether a tag of a heading stands after a sign `<`.
fn is_heading_tag(bytes: &[u8]) -> bool
    ensures { result ≡ is_heading_tag bytes.now }
{
    is_tag(without_slash(bytes)) && level_named(without_slash(bytes)) != 0
}

fn begins_leaf(b: u8, next: &[u8]) -> bool
    ensures { result ≡ begins_leaf b next.now }
{
    b == b'<' && is_heading_tag(next)
}

// How many bytes belong to a byte, after which these are.
fn markup_more(b: u8, next: &[u8]) -> usize
    ensures { result ≡ markup_more b next.now }
{
    if b != b'<' {
        return 0;
    }
    match markup_of(next) {
        None => 0,
        Some(markup) => markup.len,
    }
}

/// The leaves of a block with this text, in order. The first may show nothing.
///
/// # Errors
///
/// Out of memory is the only error.
pub fn html_leaves(alloc: Global, text: &[u8]) -> Result<Vec<&[u8]>, AllocError>
    ensures { IfOk result (λ leaves. map (λ leaf. leaf.now) leaves.items ≡ html_leaves text.entry.now) }
{
    let mut leaves = Vec::new(alloc);
    let mut begun = text;
    let mut rest = text;
    while let [b, next @ ..] = rest {
        let len = begun.len().saturating_sub(rest.len());
        if len > 0 && begins_leaf(*b, next) {
            leaves.push(bytes_up_to(begun, len))?;
            begun = rest;
        }
        rest = bytes_from(next, markup_more(*b, next));
    }
    leaves.push(begun)?;
    Ok(leaves)
}

/// The level of the heading that a leaf is, or 0. Its tag is in front.
pub fn html_level(leaf: &[u8]) -> usize
    ensures { result ≡ html_level leaf.now }
{
    match leaf {
        [] => 0,
        [b, next @ ..] => {
            if *b == b'<' && is_tag(next) {
                level_named(next)
            } else {
                0
            }
        }
    }
}

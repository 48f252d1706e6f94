//! What tags of html say of the pieces behind them.

ghost use Rattle.std.specs.Prelude.{◌≡◌, IfOk, length};
ghost use Rattle.markdown_inlines.specs.Tags.{no_tags, next, with_flag, without_flag, after_html, after_kind, after_piece, flags_on, html_picture, tag_picture, tagged_over, tagged};

use crate::links::{Over, links_in, or_number};
use markdown_pieces::pieces::{Kind, Piece};
use markdown_spans::attributes::{Flag, Html};
use std::alloc::{AllocError, Global};

/// The flags that tags give to a piece.
#[derive(Debug, Clone, Copy)]
pub struct TagFlags {
    pub bold: bool,
    pub italic: bool,
    pub strikeout: bool,
    pub code: bool,
}

/// What is open: how many tags give each flag, and the number of the link that a tag has begun.
#[derive(Debug, Clone, Copy)]
pub struct Tags {
    pub bold: usize,
    pub italic: usize,
    pub strikeout: usize,
    pub code: usize,
    pub link: Option<usize>,
}

fn no_tags() -> Tags
    ensures { result ≡ no_tags }
{
    Tags {
        bold: 0,
        italic: 0,
        strikeout: 0,
        code: 0,
        link: None,
    }
}

fn next(count: usize) -> usize
    ensures { result ≡ next count }
{
    count.saturating_add(1)
}

fn with_flag(flag: Flag, tags: Tags) -> Tags
    ensures { result ≡ with_flag flag tags }
{
    match flag {
        Flag::Bold => Tags {
            bold: next(tags.bold),
            ..tags
        },
        Flag::Italic => Tags {
            italic: next(tags.italic),
            ..tags
        },
        Flag::Strikeout => Tags {
            strikeout: next(tags.strikeout),
            ..tags
        },
        Flag::Code => Tags {
            code: next(tags.code),
            ..tags
        },
    }
}

fn without_flag(flag: Flag, tags: Tags) -> Tags
    ensures { result ≡ without_flag flag tags }
{
    match flag {
        Flag::Bold => Tags {
            bold: tags.bold.saturating_sub(1),
            ..tags
        },
        Flag::Italic => Tags {
            italic: tags.italic.saturating_sub(1),
            ..tags
        },
        Flag::Strikeout => Tags {
            strikeout: tags.strikeout.saturating_sub(1),
            ..tags
        },
        Flag::Code => Tags {
            code: tags.code.saturating_sub(1),
            ..tags
        },
    }
}

// What is open behind raw html. A link that begins has this number.
fn after_html(number: usize, html: Html, tags: Tags) -> Tags
    ensures { result ≡ after_html number html tags }
{
    match html {
        Html::On(flag) => with_flag(flag, tags),
        Html::Off(flag) => without_flag(flag, tags),
        Html::Link(_) => Tags {
            link: Some(number),
            ..tags
        },
        Html::LinkEnd => Tags { link: None, ..tags },
        Html::Nothing | Html::Break | Html::Alternative(_) | Html::Source(_) => tags,
    }
}

fn after_kind(number: usize, kind: &Kind, tags: Tags) -> Tags
    ensures { result ≡ after_kind number kind.now tags }
{
    match kind {
        Kind::Html(html) => after_html(number, *html, tags),
        _ => tags,
    }
}

// What is open behind a piece. Tags that a picture says change nothing.
fn after_piece(number: usize, kind: &Kind, over: &Over, tags: Tags) -> Tags
    ensures { result ≡ after_piece number kind.now over.now tags }
{
    if over.picture.is_some() {
        tags
    } else {
        after_kind(number, kind, tags)
    }
}

fn flags_on(tags: Tags) -> TagFlags
    ensures { result ≡ flags_on tags }
{
    TagFlags {
        bold: tags.bold != 0,
        italic: tags.italic != 0,
        strikeout: tags.strikeout != 0,
        code: tags.code != 0,
    }
}

fn html_picture(index: usize, html: Html) -> Option<usize>
    ensures { result ≡ html_picture index html }
{
    match html {
        Html::Alternative(_) | Html::Source(_) => Some(index),
        Html::Nothing | Html::Break | Html::On(_) | Html::Off(_) | Html::Link(_) | Html::LinkEnd =>
            None,
    }
}

// The picture that a piece is by itself.
fn tag_picture(index: usize, kind: &Kind) -> Option<usize>
    ensures { result ≡ tag_picture index kind.now }
{
    match kind {
        Kind::Html(html) => html_picture(index, *html),
        _ => None,
    }
}

fn tagged_over(index: usize, kind: &Kind, tags: Tags, over: &Over) -> Over
    ensures { result ≡ tagged_over index kind.now tags over.now }
{
    Over {
        link: or_number(over.link, tags.link),
        picture: or_number(over.picture, tag_picture(index, kind)),
        opens: over.opens,
        silent: over.silent,
        tags: flags_on(tags),
    }
}

/// What links, pictures and tags have to do with each piece, where this is what links and pictures of brackets and addresses have.
///
/// # Errors
///
/// Out of memory is the only error.
pub fn tagged(alloc: Global, pieces: &[Piece], overs: &[Over]) -> Result<Vec<Over>, AllocError>
    requires { length overs.now ≡ length pieces.now }
    ensures { IfOk result (λ made. made.items ≡ tagged pieces.now overs.now) }
{
    let mut made = Vec::with_capacity(alloc, pieces.len())?;
    let mut tags = no_tags();
    let mut number = 0;
    for index in 0..pieces.len() {
        let kind = pieces[index].kind;
        let over = overs[index];
        made.push(tagged_over(index, &kind, tags, &over))?;
        tags = after_piece(number, &kind, &over, tags);
        number += links_in(&kind);
    }
    Ok(made)
}

//! A page as Markdown, on standard output. It is proved that this text is read as the page again, whatever its words are.
#![tactic(auto)]

use mad_md::Alignment;
use markdown_writing::{PageBlock, PagePhrase, markdown_of};
use std::alloc::{AllocError, Global};
use std::io::{self, Write};

// A page of a heading, two paragraphs, code, a table, a break and a list of two items.
fn page_text<'p>(
    alloc: Global,
    title: &'p [PagePhrase<'p>],
    two: &'p [&'p [PagePhrase<'p>]],
    rule: &'p [Alignment],
    rows: &'p [&'p [&'p [PagePhrase<'p>]]],
    code: &'p [PageBlock<'p>],
    held: &'p [PageBlock<'p>],
    lines: &'p [&'p str],
) -> Result<Vec<u8>, AllocError> {
    let page = [
        PageBlock::Heading(1, title),
        PageBlock::Paragraph(two),
        PageBlock::Code("rust", lines),
        PageBlock::Table(rule, two, rows),
        PageBlock::Break,
        PageBlock::Item(code),
        PageBlock::Item(held),
        PageBlock::Paragraph(two),
    ];
    markdown_of(alloc, &page)
}

// Its second item holds a quote and an item of these blocks.
fn held_text<'p>(
    alloc: Global,
    title: &'p [PagePhrase<'p>],
    two: &'p [&'p [PagePhrase<'p>]],
    row: &'p [&'p [PagePhrase<'p>]],
    inner: &'p [PageBlock<'p>],
    code: &'p [PageBlock<'p>],
    lines: &'p [&'p str],
) -> Result<Vec<u8>, AllocError> {
    let rule = [Alignment::Left, Alignment::Center];
    let rows = [&*row];
    let held = [PageBlock::Quote(inner), PageBlock::Item(inner)];
    page_text(alloc, title, two, &rule, &rows, code, &held, lines)
}

// Its lines and cells are these.
fn lines_text<'p>(
    alloc: Global,
    title: &'p [PagePhrase<'p>],
    two: &'p [&'p [PagePhrase<'p>]],
    row: &'p [&'p [PagePhrase<'p>]],
    lines: &'p [&'p str],
) -> Result<Vec<u8>, AllocError> {
    let inner = [PageBlock::Paragraph(two)];
    let code = [PageBlock::Code("rust", lines)];
    held_text(alloc, title, two, row, &inner, &code, lines)
}

// Its phrases are these.
fn phrases_text<'p>(
    alloc: Global,
    title: &'p [PagePhrase<'p>],
    marks: &'p [PagePhrase<'p>],
    spans: &'p [PagePhrase<'p>],
    stressed: &'p [PagePhrase<'p>],
    bars: &'p [PagePhrase<'p>],
    lines: &'p [&'p str],
) -> Result<Vec<u8>, AllocError> {
    let two = [&*spans, &*stressed];
    let row = [&*bars, &*marks];
    lines_text(alloc, title, &two, &row, lines)
}

fn main(rt: HostRuntime) -> Result<(), anyhow::Error> {
    let title = [PagePhrase::Words("C# & *more*")];
    let marks = [PagePhrase::Words(
        "2. Words with ![every] <b>mark</b>: www.example.com, a_b_c and #1 #",
    )];
    let spans = [
        PagePhrase::Words("Call "),
        PagePhrase::Code("a*b"),
        PagePhrase::Words("; write "),
        PagePhrase::Code("`` ` ``"),
        PagePhrase::Words(" for "),
        PagePhrase::Code("`"),
    ];
    let stressed = [
        PagePhrase::Words("- no item, and "),
        PagePhrase::Strong("no"),
        PagePhrase::Words(" mark is "),
        PagePhrase::Emphasis("a*b"),
        PagePhrase::Words(", nor *this*."),
    ];
    let bars = [PagePhrase::Words("a | b, or "), PagePhrase::Code("a|b")];
    let lines = ["fn main() {}", "```", "    ````"];
    let text = phrases_text(rt.alloc(), &title, &marks, &spans, &stressed, &bars, &lines)?;
    io::writer(&rt).write_all(text.as_slice())?;
    Ok(())
}

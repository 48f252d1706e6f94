//! The sections that are shown of a text: their gutters, and what each line is, its runs, each with its flags and its text in quotes. The picture of a
//! control character is its number.

use mad_md::{Alignment, Composite, CompositeStyle, Compound, Line};
use mad_sections::{Alert, Gutter, Section};
use markdown_reader::{Markdown, read_anchors};
use std::alloc::{AllocError, Global};
use std::fmt::Write;

fn draw_flag(picture: &mut String, holds: bool, letter: char) -> Result<(), AllocError> {
    if holds {
        picture.push(letter)?;
    }
    Ok(())
}

fn draw_character(picture: &mut String, c: char) -> Result<(), AllocError> {
    match c {
        '\u{2400}'..='\u{2426}' => write!(picture, "({:X})", c as u32),
        _ => picture.push(c),
    }
}

fn draw_run(picture: &mut String, run: &Compound<'_>) -> Result<(), AllocError> {
    draw_flag(picture, run.bold, 'b')?;
    draw_flag(picture, run.italic, 'i')?;
    draw_flag(picture, run.code, 'c')?;
    draw_flag(picture, run.strikeout, 's')?;
    draw_flag(picture, run.link, 'l')?;
    draw_flag(picture, run.picture, 'p')?;
    picture.push('"')?;
    for c in run.src.chars() {
        match c {
            '"' => picture.push_str("\\\"")?,
            '\\' => picture.push_str("\\\\")?,
            _ => draw_character(picture, c)?,
        }
    }
    picture.push('"')
}

fn draw_style(picture: &mut String, style: CompositeStyle) -> Result<(), AllocError> {
    match style {
        CompositeStyle::Paragraph => picture.push_str("Paragraph"),
        CompositeStyle::Header(level) => write!(picture, "Header {level}"),
        CompositeStyle::ListItem(level) => write!(picture, "ListItem {level}"),
        CompositeStyle::OrderedListItem { level, index } => {
            write!(picture, "OrderedListItem {level} {index}")
        }
        CompositeStyle::ListItemFollowUp(level) => write!(picture, "ListItemFollowUp {level}"),
        CompositeStyle::Code => picture.push_str("Code"),
        CompositeStyle::Quote => picture.push_str("Quote"),
    }
}

fn draw_cell(picture: &mut String, cell: &Composite<'_>) -> Result<(), AllocError> {
    picture.push_str(" [")?;
    for (index, run) in cell.compounds.iter().enumerate() {
        if index > 0 {
            picture.push(' ')?;
        }
        draw_run(picture, run)?;
    }
    picture.push(']')
}

fn alignment_word(alignment: Alignment) -> &'static str {
    match alignment {
        Alignment::Unspecified => " Unspecified",
        Alignment::Left => " Left",
        Alignment::Center => " Center",
        Alignment::Right => " Right",
    }
}

fn draw_line(picture: &mut String, line: &Line<'_>) -> Result<(), AllocError> {
    match line {
        Line::Normal(row) => {
            draw_style(picture, row.style)?;
            for run in &row.compounds {
                picture.push(' ')?;
                draw_run(picture, run)?;
            }
        }
        Line::TableRow(row) => {
            picture.push_str("row")?;
            for cell in &row.cells {
                draw_cell(picture, cell)?;
            }
        }
        Line::TableRule(rule) => {
            picture.push_str("rule")?;
            for alignment in &rule.cells {
                picture.push_str(alignment_word(*alignment))?;
            }
        }
        Line::HorizontalRule => picture.push_str("---")?,
    }
    picture.push('\n')
}

fn alert_word(alert: Alert) -> &'static str {
    match alert {
        Alert::Note => "note",
        Alert::Tip => "tip",
        Alert::Important => "important",
        Alert::Warning => "warning",
        Alert::Caution => "caution",
    }
}

fn draw_gutter(picture: &mut String, gutter: Gutter) -> Result<(), AllocError> {
    match gutter {
        Gutter::Bar => picture.push_str(" |"),
        Gutter::AlertBar(alert) => {
            let word = alert_word(alert);
            write!(picture, " |{word}")
        }
        Gutter::Bullet => picture.push_str(" *"),
        Gutter::Number(number) => write!(picture, " {number}."),
        Gutter::Task(false) => picture.push_str(" [ ]"),
        Gutter::Task(true) => picture.push_str(" [x]"),
        Gutter::Code => picture.push_str(" ="),
        Gutter::Signs(level) => write!(picture, " #{level}"),
        Gutter::Below(level) => write!(picture, " _{level}"),
    }
}

fn draw_gutters(picture: &mut String, gutters: &[Gutter]) -> Result<(), AllocError> {
    for gutter in gutters {
        draw_gutter(picture, *gutter)?;
    }
    Ok(())
}

fn draw_section(picture: &mut String, section: &Section<'_>) -> Result<(), AllocError> {
    let fresh = section.fresh;
    write!(picture, "= {fresh}")?;
    draw_gutters(picture, section.gutters)?;
    if let Some(gutters) = section.list {
        picture.push_str(", items")?;
        draw_gutters(picture, gutters)?;
    }
    picture.push('\n')?;
    for line in &section.text.lines {
        draw_line(picture, line)?;
    }
    Ok(())
}

/// The sections of a text: how many of the gutters begin with it, the gutters, of a table those of its items too, and the lines.
pub(crate) fn draw_sections(alloc: Global, text: &str) -> Result<String, AllocError> {
    let markdown = Markdown::read(alloc, text)?;
    let page = markdown.page(alloc)?;
    let mut picture = String::new(alloc);
    for section in &page.sections {
        draw_section(&mut picture, section)?;
    }
    Ok(picture)
}

/// The links of a text: the number of a section, and an address.
pub(crate) fn draw_links(alloc: Global, text: &str) -> Result<String, AllocError> {
    let markdown = Markdown::read(alloc, text)?;
    let mut picture = String::new(alloc);
    for link in markdown.links() {
        let section = link.section;
        write!(picture, "{section} ")?;
        for c in link.address.chars() {
            draw_character(&mut picture, c)?;
        }
        picture.push('\n')?;
    }
    Ok(picture)
}

/// The names that links go to: the number of a section, and a name.
pub(crate) fn draw_anchors(alloc: Global, text: &str) -> Result<String, AllocError> {
    let anchors = read_anchors(alloc, text)?;
    let mut picture = String::new(alloc);
    for anchor in &anchors {
        let section = anchor.section;
        write!(picture, "{section} ")?;
        for c in anchor.name.chars() {
            draw_character(&mut picture, c)?;
        }
        picture.push('\n')?;
    }
    Ok(picture)
}

/// The marks of links: of each section that has some, its number, and for each run of characters how many there are and their mark.
pub(crate) fn draw_marks(alloc: Global, text: &str) -> Result<String, AllocError> {
    let markdown = Markdown::read(alloc, text)?;
    let page = markdown.page(alloc)?;
    let mut picture = String::new(alloc);
    for section in 0..page.sections.len() {
        let mut before = 0;
        for run in &markdown.link_marks(alloc, section)? {
            if before == 0 {
                write!(picture, "{section}")?;
            }
            let count = run.end.saturating_sub(before);
            let mark = run.value;
            write!(picture, " {count}x{mark}")?;
            before = run.end;
        }
        if before > 0 {
            picture.push('\n')?;
        }
    }
    Ok(picture)
}

//! A report of data: a file of CSV from standard input, its name the first argument. A heading, a line that counts its rows, and the rows as a table in 60
//! columns. A column with numbers alone stands on the right.
//!
//! No field can add a column or a mark, and none reaches the terminal as an escape sequence.
#![tactic(auto)]

use csv::{Reader, ReaderBuilder, StringRecord};
use std::alloc::{AllocError, Global};
use std::env;
use std::io::{self, BufWriter, Error as IoError, ErrorKind, Read, Write};
use termimad::{
    Alignment, Error, FmtText, Out, PageSkin, Stream, Text, printable, put_all, put_displayed,
    write_markdown_on,
};

const COLUMNS: usize = 60;

fn main(rt: HostRuntime) -> Result<(), Error> {
    let alloc = rt.alloc();
    let name = env::args(&rt)?.nth(1);
    let name = name.as_ref().map_or("Report", |word| word.as_str());
    let rows = read_rows(alloc, rt.reader())?;
    let mut out = Stream::new(BufWriter::new(alloc, io::writer(&rt))?);
    write_report(alloc, &mut out, name, &rows)?;
    out.flush()?;
    Ok(())
}

/// The records of CSV, the heads first: each field as it can be shown.
fn read_rows<R: Read + Drop>(alloc: Global, input: R) -> Result<Vec<Vec<String>>, Error> {
    let reader = ReaderBuilder::new()
        .has_headers(false)
        .flexible(true)
        .from_reader(alloc, input);
    let mut rows = Vec::new(alloc);
    for record in reader.into_records() {
        match record {
            Ok(record) => rows.push(fields_of(alloc, &record)?)?,
            Err(_) => return Err(unreadable()),
        }
    }
    Ok(rows)
}

fn fields_of(alloc: Global, record: &StringRecord) -> Result<Vec<String>, AllocError> {
    let mut fields = Vec::with_capacity(alloc, record.len())?;
    for field in record {
        fields.push(printable(alloc, field)?.into_owned(alloc)?)?;
    }
    Ok(fields)
}

fn unreadable() -> Error {
    Error::from(IoError::new(ErrorKind::InvalidData, "that is no CSV in UTF-8"))
}

fn write_report<O: Out>(
    alloc: Global,
    out: &mut O,
    name: &str,
    rows: &[Vec<String>],
) -> Result<(), Error> {
    let skin = PageSkin::dark();
    let count = rows.len().saturating_sub(1);
    let head = format!(in alloc; "# {name}\n\n**{count}** rows, and their heads:\n")?;
    write_markdown_on(alloc, out, &skin, head.as_str(), Some(COLUMNS))?;
    put_all(out, b"\n")?;
    let table = FmtText::from_text(alloc, &skin.text, table_of(alloc, rows)?, Some(COLUMNS))?;
    put_displayed(alloc, out, 0, &table)
}

// The rows as a table below their heads.
fn table_of<'r>(alloc: Global, rows: &'r [Vec<String>]) -> Result<Text<'r>, AllocError> {
    let mut lines = Vec::with_capacity(alloc, rows.len())?;
    for row in rows {
        lines.push(words_of(alloc, row)?)?;
    }
    match lines.as_slice() {
        [heads, lines @ ..] => Text::from_table(
            alloc,
            heads,
            &sides_of(alloc, heads.len(), lines)?,
            lines,
        ),
        [] => Ok(Text {
            lines: Vec::new(alloc),
        }),
    }
}

fn words_of<'r>(alloc: Global, row: &'r [String]) -> Result<Vec<&'r str>, AllocError> {
    let mut words = Vec::with_capacity(alloc, row.len())?;
    for word in row {
        words.push(word.as_str())?;
    }
    Ok(words)
}

// The side of each column.
fn sides_of(
    alloc: Global,
    columns: usize,
    lines: &[Vec<&str>],
) -> Result<Vec<Alignment>, AllocError> {
    let mut sides = Vec::with_capacity(alloc, columns)?;
    for column in 0..columns {
        let has_numbers = lines
            .iter()
            .all(|line| line.get(column).is_none_or(|word| is_number(word)));
        sides.push(if has_numbers {
            Alignment::Right
        } else {
            Alignment::Left
        })?;
    }
    Ok(sides)
}

fn is_number(word: &str) -> bool {
    word.chars()
        .all(|c| c.is_ascii_digit() || c == '.' || c == '-')
}

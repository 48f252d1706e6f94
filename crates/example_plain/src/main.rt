//! What standard input shows as text that isn't Markdown, each piece behind its style: `dump`, `wrap WIDTH`, `cut WIDTH MOVED`.
#![tactic(auto)]

use mad_plain::{
    Pen, PlainLine, content_style, cut_row, lossy_text, plain_line, plain_pen, row_ends, take_part,
    text_lines,
};
use mad_term::{Color, StyledContent};
use std::alloc::{AllocError, Global};
use std::io::{BufWriter, Read, Write};
use std::{env, io};

fn number(text: &str) -> usize {
    let n: u16 = text.parse().unwrap_or(0);
    usize::from(n)
}

fn main(rt: HostRuntime) -> Result<(), anyhow::Error> {
    let mut mode = 0;
    let mut first: usize = 0;
    let mut second: usize = 0;
    let mut k: u8 = 0;
    for arg in env::args(&rt)? {
        match k {
            1 => {
                mode = match arg.as_str() {
                    "wrap" => 1,
                    "cut" => 2,
                    "none" => 3,
                    "show" => 4,
                    "show_cut" => 5,
                    _ => 0,
                };
            }
            2 => first = number(arg.as_str()),
            3 => second = number(arg.as_str()),
            _ => {}
        }
        k = k.saturating_add(1);
    }
    let mut bytes = Vec::new(rt.alloc());
    let mut reader = rt.reader();
    let mut block = [0; 16384];
    for _ in 0..u64::MAX {
        let n = reader.read(&mut block)?;
        if n == 0 || n > 16384 {
            break;
        }
        bytes.extend_from_slice(&block[..n])?;
    }
    let mut out = BufWriter::new(rt.alloc(), io::writer(&rt))?;
    show(rt.alloc(), &mut out, &bytes, mode, first, second)?;
    out.flush()?;
    Ok(())
}

fn show<W: Write>(
    alloc: Global,
    out: &mut W,
    bytes: &[u8],
    mode: u8,
    first: usize,
    second: usize,
) -> Result<(), anyhow::Error> {
    let text = lossy_text(alloc, bytes)?;
    for source in text_lines(alloc, text.as_str())? {
        let line = plain_line(alloc, source)?;
        if mode == 0 {
            dump(alloc, out, &line)?;
        } else if mode == 1 {
            wrap(alloc, out, &line, first)?;
        } else if mode == 2 && first < 65536 && second < 65536 {
            let row = cut_row(alloc, &line, second, first)?;
            dump(alloc, out, &row)?;
        } else if mode == 4 {
            for row in rows_of(alloc, &line, first)? {
                write_row(alloc, out, &row)?;
            }
        } else if mode == 5 && first < 65536 && second < 65536 {
            let row = cut_row(alloc, &line, second, first)?;
            write_row(alloc, out, &row)?;
        }
    }
    Ok(())
}

fn rows_of(
    alloc: Global,
    line: &PlainLine<'_>,
    width: usize,
) -> Result<Vec<PlainLine<'static>>, AllocError> {
    let mut rows = Vec::new(alloc);
    let mut rest = line.chars();
    let mut from: usize = 0;
    for end in row_ends(alloc, line.text.as_str(), width)? {
        rows.push(take_part(alloc, &mut rest, end.saturating_sub(from))?)?;
        from = end;
    }
    Ok(rows)
}

// Each piece in its style.
fn write_row<W: Write>(
    alloc: Global,
    out: &mut W,
    row: &PlainLine<'_>,
) -> Result<(), anyhow::Error> {
    let mut rest = row.chars();
    let mut text = String::new(alloc);
    let mut open = plain_pen();
    while let Some((style, c)) = rest.next() {
        if style != open {
            let piece = StyledContent {
                style: content_style(open),
                content: text.as_str(),
            };
            write!(out, "{piece}")?;
            text = String::new(alloc);
            open = style;
        }
        text.push(c)?;
    }
    let piece = StyledContent {
        style: content_style(open),
        content: text.as_str(),
    };
    writeln!(out, "{piece}")?;
    Ok(())
}

fn wrap<W: Write>(
    alloc: Global,
    out: &mut W,
    line: &PlainLine<'_>,
    width: usize,
) -> Result<(), anyhow::Error> {
    for row in rows_of(alloc, line, width)? {
        dump(alloc, out, &row)?;
    }
    Ok(())
}

// Each piece behind its style.
fn dump<W: Write>(alloc: Global, out: &mut W, line: &PlainLine<'_>) -> Result<(), anyhow::Error> {
    let mut rest = line.chars();
    let mut text = String::new(alloc);
    let mut open: Option<Pen> = None;
    while let Some((style, c)) = rest.next() {
        let same = match open {
            Some(pen) => pen == style,
            None => false,
        };
        if !same {
            let said = text.as_str();
            write!(out, "{said}")?;
            text = String::new(alloc);
            style_text(out, style)?;
            open = Some(style);
        }
        text.push(c)?;
    }
    let said = text.as_str();
    writeln!(out, "{said}|")?;
    Ok(())
}

fn style_text<W: Write>(out: &mut W, pen: Pen) -> Result<(), anyhow::Error> {
    write!(out, "[")?;
    color_text(out, "f", pen.foreground)?;
    color_text(out, "b", pen.background)?;
    color_text(out, "l", pen.underline)?;
    flag(out, "B", pen.bold)?;
    flag(out, "D", pen.dim)?;
    flag(out, "I", pen.italic)?;
    flag(out, "U", pen.underlined)?;
    flag(out, "K", pen.blinking)?;
    flag(out, "R", pen.reversed)?;
    flag(out, "H", pen.hidden)?;
    flag(out, "X", pen.crossed_out)?;
    flag(out, "O", pen.overlined)?;
    write!(out, "]")?;
    Ok(())
}

fn flag<W: Write>(out: &mut W, name: &str, there: bool) -> Result<(), anyhow::Error> {
    if there {
        write!(out, "{name}")?;
    }
    Ok(())
}

fn color_text<W: Write>(
    out: &mut W,
    name: &str,
    color: Option<Color>,
) -> Result<(), anyhow::Error> {
    match color {
        Some(Color::AnsiValue(n)) => write!(out, "{name}{n},")?,
        Some(Color::Rgb { r, g, b }) => write!(out, "{name}{r}/{g}/{b},")?,
        _ => {}
    }
    Ok(())
}

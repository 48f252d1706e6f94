//! Rows of tests as texts for people to read, and a report of the rows that are answered otherwise than wanted.
//!
//! A row begins with a line `$ CALL`. Lines after it that begin with `<` are the text that the call is given. Those that begin with
//! `>` are what it has to answer. A blank comes after `<` and `>`. All other lines, those before the first row too, are for the reader.
//! What can't be seen has signs: `·` is a blank, `␛` an escape, `␍` a carriage return, `␉` a tab.
//!
//! [`devices`]: what a row writes goes to devices that fail.
#![tactic(auto)]

pub mod devices;

use std::alloc::{AllocError, Global};
use std::{env, fs, io};

/// What answers the calls of rows.
pub trait Calls {
    /// What a call answers of a text: lines, or one without a newline.
    ///
    /// # Errors
    ///
    /// Out of memory. Any other refusal is an answer.
    fn answer(&self, alloc: Global, call: &str, text: &str) -> Result<String, AllocError>;
}

// The argument after which files are tried on devices that fail.
const DEVICES: &str = "--devices";

/// Prints the reports of the files that the program's arguments name. After the argument `--devices`, each row of a file is the call
/// `devices CALL` in place of `CALL`, and the report is how many of them wrote.
///
/// # Errors
///
/// A file can't be read, or a report can't be printed; out of memory.
pub fn run<C: Calls>(rt: &HostRuntime, calls: &C) -> io::Result<()> {
    let mut on_devices = false;
    for file in env::args(rt)?.skip(1) {
        if file.as_str() == DEVICES {
            on_devices = true;
            continue;
        }
        let rows = fs::read_to_string(rt, file.as_str())?;
        let report = if on_devices {
            devices_report(rt.alloc(), calls, rows.as_str())?
        } else {
            report(rt.alloc(), calls, rows.as_str())?
        };
        print!(rt; "{file}: {report}")?;
    }
    Ok(())
}

/// How many rows a text has, after each that is answered otherwise than wanted. Of such a row it says the number of its line, its call, what was
/// wanted, what was answered, and where the two part.
///
/// # Errors
///
/// Out of memory.
pub fn report<C: Calls>(alloc: Global, calls: &C, rows: &str) -> Result<String, AllocError> {
    let rows: String = rows.chars().map(meant).collect(alloc)?;
    let mut report = String::new(alloc);
    let mut count: u64 = 0;
    let mut line: usize = 1;
    for (number, row) in rows.split("\n$ ").enumerate() {
        if number > 0 {
            judge(alloc, calls, line, row, &mut report)?;
            count = count.saturating_add(1);
        }
        line = line.saturating_add(lines_of(row));
    }
    write!(report, "{count} rows\n")?;
    Ok(report)
}

/// How many rows of a text write, each on devices that fail, after each row on which a device did otherwise than it should.
///
/// # Errors
///
/// Out of memory.
pub fn devices_report<C: Calls>(
    alloc: Global,
    calls: &C,
    rows: &str,
) -> Result<String, AllocError> {
    let rows: String = rows.chars().map(meant).collect(alloc)?;
    let mut report = String::new(alloc);
    let mut count: u64 = 0;
    for row in rows.split("\n$ ").skip(1) {
        let call = row.split('\n').next().unwrap_or("");
        let asked = format!(in alloc; "devices {}", call.strip_prefix("devices ").unwrap_or(call))?;
        let answer = answer_of(alloc, calls, asked.as_str(), row)?;
        if answer.lines().any(devices::is_fault) {
            write!(report, "{call}\n{answer}")?;
        }
        if answer.lines().any(devices::is_cut) {
            count = count.saturating_add(1);
        }
    }
    write!(report, "{count} rows on devices that fail\n")?;
    Ok(report)
}

// How many lines a text has, also where the last one is empty.
fn lines_of(text: &str) -> usize {
    text.split('\n').count()
}

fn judge<C: Calls>(
    alloc: Global,
    calls: &C,
    line: usize,
    row: &str,
    report: &mut String,
) -> Result<(), AllocError> {
    let call = row.split('\n').next().unwrap_or("");
    let answer = answer_of(alloc, calls, call, row)?;
    let wanted = lines_after(alloc, row, '>')?;
    if answer != wanted {
        let parting = Parting::of(wanted.as_str(), answer.as_str());
        let wanted: String = wanted.chars().map(sign_of).collect(alloc)?;
        let answer: String = answer.chars().map(sign_of).collect(alloc)?;
        write!(
            report,
            "line {line}: $ {call}\nwanted\n{wanted}answered\n{answer}"
        )?;
        let Parting { line, column } = parting;
        write!(report, "they part in line {line}, character {column}\n")?;
    }
    Ok(())
}

// The first place where two texts part, its line and its character in that line counted from 1.
#[derive(Clone, Copy)]
struct Parting {
    line: usize,
    column: usize,
}

impl Parting {
    fn of(wanted: &str, answered: &str) -> Parting {
        let mut parting = Parting { line: 1, column: 1 };
        for (want, answer) in wanted.chars().zip(answered.chars()) {
            if want != answer {
                return parting;
            }
            parting.pass(want);
        }
        parting
    }

    fn pass(&mut self, c: char) {
        if c == '\n' {
            self.line = self.line.saturating_add(1);
            self.column = 1;
        } else {
            self.column = self.column.saturating_add(1);
        }
    }
}

// What a row's call answers, each line with its newline.
fn answer_of<C: Calls>(
    alloc: Global,
    calls: &C,
    call: &str,
    row: &str,
) -> Result<String, AllocError> {
    let text = lines_after(alloc, row, '<')?;
    let text = text.strip_suffix('\n').unwrap_or("");
    let mut answer = calls.answer(alloc, call, text)?;
    if !answer.is_empty() && !answer.ends_with('\n') {
        answer.push('\n')?;
    }
    Ok(answer)
}

// What is after a sign in the lines that begin with it, each with its newline.
fn lines_after(alloc: Global, row: &str, sign: char) -> Result<String, AllocError> {
    let mut lines = String::new(alloc);
    for line in row.split('\n') {
        if let Some(line) = line.strip_prefix(sign) {
            lines.push_str(line.strip_prefix(' ').unwrap_or(line))?;
            lines.push('\n')?;
        }
    }
    Ok(lines)
}

// The character that a sign means.
fn meant(sign: char) -> char {
    match sign {
        '·' => ' ',
        '␛' => '\u{1b}',
        '␍' => '\r',
        '␉' => '\t',
        _ => sign,
    }
}

// The sign of a character that can't be seen.
fn sign_of(c: char) -> char {
    match c {
        ' ' => '·',
        '\u{1b}' => '␛',
        '\r' => '␍',
        '\t' => '␉',
        _ => c,
    }
}

//! A program whose `--help` is a page of Markdown: `count` tells how many words, lines and characters standard input has. Its options stand once, in a
//! list, of which both the page and the rules of `clap` are made.
#![tactic(auto)]

use clap::builder::ValueParser;
use clap::{Arg, ArgAction, ArgMatches, Command};
use std::alloc::{AllocError, Global};
use std::env;
use std::io::{self, BufWriter, Error as IoError, ErrorKind, Read};
use termimad::{Error, Out, PageSkin, Stream, put_displayed, put_text, write_markdown_on};

const COLUMNS: usize = 60;

// What the page says in front of the options, and behind them.
const INTRODUCTION: &str = "\
# count

Counts the words of *standard input*:

```sh
count --lines <notes.md
```
";

const NOTES: &str = "
> [!TIP]
> Several counts go on one line, in the order of the table.
";

/// An option, and what the page says of it.
#[derive(Clone, Copy)]
struct Listed {
    name: &'static str,
    value: Option<&'static str>,
    about: &'static str,
}

const OPTIONS: [Listed; 5] = [
    Listed {
        name: "lines",
        value: None,
        about: "counts *lines* too",
    },
    Listed {
        name: "chars",
        value: None,
        about: "counts *characters* too",
    },
    Listed {
        name: "columns",
        value: Some("N"),
        about: "lays this page out in **N** columns",
    },
    Listed {
        name: "skin",
        value: Some("WORD"),
        about: "shows this page in `dark`, `light` or `sixteen`",
    },
    Listed {
        name: "help",
        value: None,
        about: "shows this page",
    },
];

fn main(rt: HostRuntime) -> Result<(), Error> {
    let alloc = rt.alloc();
    let mut words = Vec::new(alloc);
    for word in env::args(&rt)? {
        words.push(word)?;
    }
    let mut out = Stream::new(BufWriter::new(alloc, io::writer(&rt))?);
    let mut command = command(alloc)?;
    match command.try_get_matches_from_mut(words.as_slice()) {
        Ok(given) => answer(alloc, &mut out, &given, rt.reader())?,
        Err(e) => {
            put_displayed(alloc, &mut Stream::new(rt.stderr()), 0, &e)?;
            return Err(Error::from(IoError::new(
                ErrorKind::InvalidInput,
                "--help tells the options",
            )));
        }
    }
    out.flush()?;
    Ok(())
}

// The rules of the options. `--help` is one of them, so that the page takes its place.
fn command<'a>(alloc: Global) -> Result<Command<'a>, AllocError> {
    let mut command = Command::new(alloc, "count").disable_help_flag(true);
    for option in OPTIONS {
        command = command.arg(rule_of(alloc, option))?;
    }
    Ok(command)
}

fn rule_of<'a>(alloc: Global, option: Listed) -> Arg<'a> {
    let rule = Arg::new(alloc, option.name).long(option.name);
    match option.value {
        None => rule.action(ArgAction::SetTrue),
        Some("N") => rule
            .action(ArgAction::Set)
            .value_parser(ValueParser::Unsigned(1, 65_535)),
        Some(_) => rule.action(ArgAction::Set),
    }
}

// Writes the page, or what is counted.
fn answer<O: Out, R: Read + Drop>(
    alloc: Global,
    out: &mut O,
    given: &ArgMatches,
    input: R,
) -> Result<(), Error> {
    if given.get_flag("help") {
        let columns = given.get_one("columns").unwrap_or(COLUMNS);
        let page = page(alloc)?;
        return write_markdown_on(alloc, out, &skin_of(given), page.as_str(), Some(columns));
    }
    let text = io::read_to_string(alloc, input)?;
    let mut said = format!(in alloc; "{} words", text.split_whitespace().count())?;
    if given.get_flag("lines") {
        write!(said, ", {} lines", text.lines().count())?;
    }
    if given.get_flag("chars") {
        write!(said, ", {} characters", text.chars().count())?;
    }
    said.push('\n')?;
    put_text(out, said.as_str())?;
    Ok(())
}

// The page: a table of the options between its words.
fn page(alloc: Global) -> Result<String, AllocError> {
    let mut page = String::from_str(alloc, INTRODUCTION)?;
    page.push_str("\n| option | what it does |\n|:-|:-|\n")?;
    for option in &OPTIONS {
        match option.value {
            None => write!(page, "| `--{}` | {} |\n", option.name, option.about)?,
            Some(value) => {
                write!(
                    page,
                    "| `--{} {}` | {} |\n",
                    option.name, value, option.about
                )?
            }
        }
    }
    page.push_str(NOTES)?;
    Ok(page)
}

// The skin of that name; without one the page has no styles.
fn skin_of(given: &ArgMatches) -> PageSkin {
    match given.get_str("skin") {
        Some("dark") => PageSkin::dark(),
        Some("light") => PageSkin::light(),
        Some("sixteen") => PageSkin::sixteen(),
        _ => PageSkin::plain(),
    }
}

//! Examples that read keys, answers or a script, each a module that runs by itself: `rt try -- question <data/question.txt`. Without a name all run, in
//! order, each behind a line with its name, and each on its file of data/.
//!
//! 1. [`question`]: a question that reads its answer.
//! 2. [`chooser`]: a list that is filtered as one types.
//! 3. [`list`]: a list that is filtered, sorted, scrolled and chosen from.
//! 4. [`reader`]: files of Markdown, one of them beside the list of their names.
//!
//! [`panel`]: what [`chooser`] and [`reader`] share: keys, and a terminal.
#![tactic(auto)]

mod chooser;
mod list;
mod panel;
mod question;
mod reader;

use std::env;
use std::fs::File;
use std::io::{Error as IoError, ErrorKind, Read};
use termimad::{AskError, Error};

fn main(rt: HostRuntime) -> Result<(), Error> {
    let mut words = env::args(&rt)?.skip(1);
    if let Some(name) = words.next() {
        return run(&rt, name.as_str(), rt.reader());
    }
    println!(rt; "\n--- question")?;
    run(&rt, "question", File::open(&rt, "question.txt")?)?;
    println!(rt; "\n--- chooser")?;
    run(&rt, "chooser", File::open(&rt, "chooser.txt")?)?;
    println!(rt; "\n--- list")?;
    run(&rt, "list", File::open(&rt, "list.txt")?)?;
    println!(rt; "\n--- reader")?;
    run(&rt, "reader", File::open(&rt, "reader.txt")?)
}

// Runs the example of that name.
fn run<R: Read + Drop>(rt: &HostRuntime, name: &str, input: R) -> Result<(), Error> {
    match name {
        "question" => question::run(rt, input).map_err(|e| match e {
            AskError::IO(e) => Error::IO(e),
            _ => unknown(),
        }),
        "chooser" => chooser::run(rt, input),
        "list" => list::run(rt, input),
        "reader" => reader::run(rt, input),
        _ => Err(unknown()),
    }
}

fn unknown() -> Error {
    Error::from(IoError::new(ErrorKind::InvalidInput, "there is no example of that name"))
}

//! Examples that read Markdown, each a module that runs by itself: `rt try -- markdown <data/markdown.txt`. Without a name all run, in order, each behind
//! a line with its name, and each on its file of data/.
//!
//! 1. [`markdown`]: a README in 72 columns.
//! 2. [`help_page`]: a help page in an area.
//! 3. [`picture`]: pictures of screens.
#![tactic(auto)]

mod help_page;
mod markdown;
mod picture;

use std::env;
use std::fs::File;
use std::io::{Error as IoError, ErrorKind};
use termimad::Error;

fn main(rt: HostRuntime) -> Result<(), Error> {
    let mut words = env::args(&rt)?.skip(1);
    match words.next() {
        Some(name) => match name.as_str() {
            "markdown" => markdown::run(&rt, rt.reader()),
            "help_page" => match (words.next(), words.next(), words.next()) {
                (Some(file), Some(width), Some(height)) => {
                    help_page::run(&rt, file.as_str(), width.as_str(), height.as_str())
                }
                _ => Err(unknown()),
            },
            "picture" => picture::run(&rt, rt.reader()),
            _ => Err(unknown()),
        },
        None => run_all(&rt),
    }
}

// Runs each on its file.
fn run_all(rt: &HostRuntime) -> Result<(), Error> {
    println!(rt; "\n--- markdown")?;
    markdown::run(rt, File::open(rt, "markdown.txt")?)?;
    println!(rt; "\n--- help_page")?;
    help_page::run(rt, "help.md", "44", "12")?;
    println!(rt; "\n--- picture")?;
    picture::run(rt, File::open(rt, "picture.txt")?)
}

fn unknown() -> Error {
    Error::from(IoError::new(ErrorKind::InvalidInput, "there is no example of that name"))
}

//! Tests of the tables of languages: code, with the class of each of its characters.
//!
//! The rows are in the files of `data/`. A row's call says what answers it:
//!
//! 1. `colors LANG`: for each character of a text in a language a sign of its class, in as many lines.
//! 2. `named`: of each line, which is what stands behind a fence, the language that it names.
//! 3. `file`: of each line, which is a word or the name of a file, the language that it stands for.
#![tactic(auto)]

use code_colors::tokens::{Token, tokens_by};
use code_names::language_of;
use code_tables::rules::{Class, Language};
use code_words::language_word;
use std::alloc::{AllocError, Global};
use std::io;
use test_rows::Calls;

struct CodeCalls;

impl Calls for CodeCalls {
    fn answer(&self, alloc: Global, call: &str, text: &str) -> Result<String, AllocError> {
        let mut picture = String::new(alloc);
        match call.split_once(' ') {
            Some(("colors", name)) => draw_colors(&mut picture, name, text)?,
            _ => draw_languages(&mut picture, call, text)?,
        }
        Ok(picture)
    }
}

// The language of each line.
fn draw_languages(picture: &mut String, call: &str, text: &str) -> Result<(), AllocError> {
    for line in text.split('\n') {
        let word = if call == "file" {
            language_word(line)
        } else {
            line.as_bytes()
        };
        match language_of(word) {
            Some(language) => write!(picture, "{language:?}\n")?,
            None => picture.push_str("none\n")?,
        }
    }
    Ok(())
}

// The signs of a text's characters, in its lines.
fn draw_colors(picture: &mut String, name: &str, text: &str) -> Result<(), AllocError> {
    let alloc = *picture.allocator();
    let language: Option<Language> = language_of(name.as_bytes());
    let tokens = tokens_by(alloc, language, text.as_bytes())?;
    let signs = signs_of(alloc, &tokens)?;
    for (at, c) in text.char_indices() {
        let sign = signs.get(at).copied().unwrap_or('?');
        picture.push(if c == '\n' { '\n' } else { sign })?;
    }
    Ok(())
}

// A sign for each byte of some tokens.
fn signs_of(alloc: Global, tokens: &[Token]) -> Result<Vec<char>, AllocError> {
    let mut signs = Vec::new(alloc);
    for token in tokens {
        signs.push(sign_of(token.class))?;
        for _ in 0..token.more {
            signs.push(sign_of(token.class))?;
        }
    }
    Ok(signs)
}

// What a class is drawn as.
fn sign_of(class: Class) -> char {
    match class {
        Class::Plain => '.',
        Class::Comment => '#',
        Class::Text => '"',
        Class::Number => '1',
        Class::Keyword => 'w',
        Class::Name => 'n',
        Class::Key => 'k',
        Class::Inserted => '+',
        Class::Deleted => '-',
    }
}

fn main(rt: HostRuntime) -> io::Result<()> {
    test_rows::run(&rt, &CodeCalls)
}

//! How a text is read by its file's name.

ghost use Rattle.std.specs.Prelude.{◌≡◌, option_map};
ghost use Rattle.termimad_options.specs.Calls.{reading_of};
ghost use Rattle.termimad_options.specs.Names.{ends_with, is_plain_name, is_understood, reading_by_name, reading_of_file};

use crate::calls::Grammar;
use code_names::language_of;
use code_words::{language_word, names_language};

/// How a file of this name is read: as an option says, or else by the name.
pub fn grammar_of_file<'a>(said: Option<Grammar<'a>>, name: &'a str) -> Grammar<'a>
    ensures { reading_of result ≡ reading_of_file (option_map reading_of said.entry) name.entry.now }
{
    match said {
        Some(grammar) => grammar,
        None => grammar_by_name(name),
    }
}

/// Whether a word of `--code` is understood: it says a language, as a name of it or of a file does, or that there is none.
pub fn is_understood(word: &str) -> bool
    ensures { result ≡ is_understood word.now }
{
    word == "text" || word == "plain" || language_of(language_word(word)).is_some()
}

// How a file of this name is read where no option says it.
fn grammar_by_name<'a>(name: &'a str) -> Grammar<'a>
    ensures { reading_of result ≡ reading_by_name name.entry.now }
{
    if names_language(name) {
        Grammar::Code(name)
    } else if is_plain_name(name) {
        Grammar::Plain
    } else {
        Grammar::Markdown
    }
}

// Whether a name is of text that isn't Markdown.
fn is_plain_name(name: &str) -> bool
    ensures { result ≡ is_plain_name name.now }
{
    ends_with(name, ".txt") || ends_with(name, ".log")
}

// Whether a name ends with another text.
fn ends_with(name: &str, ending: &str) -> bool
    ensures { result ≡ ends_with name.now ending.now }
{
    let name = name.as_bytes();
    &name[name.len().saturating_sub(ending.len())..] == ending.as_bytes()
}

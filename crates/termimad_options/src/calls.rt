//! What the words of a call ask for.

ghost use Rattle.std.specs.Prelude.{◌≡◌, [], IfOk, IfErr, Some, is_some, map, option_map, option_and_then, true, unwrap_or, codes};
ghost use Rattle.clap.specs.Words.{all_of, found_of, kind_of, rows_of};
ghost use Rattle.termimad_options.specs.Calls.{IsAskedBy, IsCallOf, IsErrorIn, IsErrorOf, columns_written, is_call, is_said, last_said, links_named, links_said, mistakes_of, reading_of, reading_said};

use crate::rules::options;
use clap::error::ErrorKind;
use clap::{ArgMatches, Command, Error};
use std::alloc::{AllocError, Global};
use std::convert::AsStr;

/// How a text is read.
#[derive(Clone, Copy, Debug, PartialEq, Eq)]
pub enum Grammar<'a> {
    /// As people write Markdown.
    Markdown,
    /// Each line by itself, in the smaller grammar.
    Lines,
    /// As text that isn't Markdown.
    Plain,
    /// As code, in the language of this word, or of a file of this name.
    Code(&'a str),
}

/// When it is written where links lead.
#[derive(Clone, Copy, Debug, PartialEq, Eq)]
pub enum Links {
    /// Where a terminal shows styles.
    Auto,
    /// Wherever there are styles.
    Always,
    /// Nowhere.
    Never,
}

/// What the words of a call ask for.
#[derive(Drop)]
pub struct Call<'a> {
    /// The texts to show, in order.
    pub files: Vec<&'a str>,
    /// The columns of what is written.
    pub width: Option<u16>,
    /// The skin: a name, a file or JSON text.
    pub skin: Option<&'a str>,
    /// How texts are read, where an option says so.
    pub grammar: Option<Grammar<'a>>,
    /// When it is written where links lead.
    pub links: Links,
    /// Whether each part is written as it comes.
    pub streams: bool,
    /// Whether a terminal is shown what comes, and what still changes is redrawn.
    pub lives: bool,
    /// Whether nothing is paged.
    pub writes: bool,
    /// Whether what fits on one screen isn't paged.
    pub fits: bool,
}

/// What words ask for, of which the first is the program's name.
///
/// # Errors
///
/// Words that aren't options, or values that these don't take: the error says so, and its status is 2. Help and the version are told by an
/// error too, whose status is 0. Or out of memory.
pub fn call_of<'a, S: AsStr>(alloc: Global, words: &'a [S]) -> Result<Call<'a>, Error>
    ensures call { IfOk result (λ call. IsCallOf (map S.text words.entry.now) call) }
    ensures passes { IfErr result (λ e. is_call (map S.text words.entry.now) ≡ true → kind_of e ≡ ErrorKind.OutOfMemory) }
    ensures taken { IfOk result (λ _. mistakes_of (map S.text words.entry.now) ≡ []) }
    ensures kinds { IfErr result (IsErrorOf (map S.text words.entry.now)) }
{
    let mut command = options(alloc)?;
    let matches = command.try_get_matches_from_mut(words)?;
    call_in(alloc, &mut command, &matches)
}

// What options ask for, with an error where they say another word of links.
fn call_in<'a>(
    alloc: Global,
    command: &mut Command<'a>,
    matches: &ArgMatches<'a>,
) -> Result<Call<'a>, Error>
    ensures call { IfOk result (λ call. IsAskedBy (rows_of (found_of matches.now)) call) }
    ensures passes { IfErr result (λ e. is_some (links_said (rows_of (found_of matches.now))) ≡ true → kind_of e ≡ ErrorKind.OutOfMemory) }
    ensures kinds { IfErr result (IsErrorIn matches.now) }
{
    match links_asked(matches) {
        Some(links) => Ok(asked(alloc, matches, links)?),
        None => Err(command.error(
            ErrorKind::InvalidValue,
            "--links takes auto, always or never",
        )?),
    }
}

// What options ask for.
fn asked<'a>(alloc: Global, matches: &ArgMatches<'a>, links: Links) -> Result<Call<'a>, AllocError>
    requires { Some links ≡ links_said (rows_of (found_of matches.now)) }
    ensures { IfOk result (λ call. IsAskedBy (rows_of (found_of matches.now)) call) }
{
    let files = files(alloc, matches)?;
    Ok(Call {
        files,
        width: width_asked(matches),
        skin: last(matches, "skin"),
        grammar: grammar_asked(matches),
        links,
        streams: is_there(matches, "stream"),
        lives: is_there(matches, "live"),
        writes: is_there(matches, "no-pager"),
        fits: is_there(matches, "fits"),
    })
}

// The texts to show.
fn files<'a>(alloc: Global, matches: &ArgMatches<'a>) -> Result<Vec<&'a str>, AllocError>
    ensures { IfOk result (λ files. map (λ file. file.now) files.items ≡ unwrap_or (all_of (codes "FILE") (rows_of (found_of matches.now))) []) }
{
    match matches.get_strs("FILE") {
        Some(files) => Vec::from_slice(alloc, files),
        None => Ok(Vec::new(alloc)),
    }
}

// The columns that the options say.
fn width_asked(matches: &ArgMatches) -> Option<u16>
    ensures { result ≡ option_and_then columns_written (last_said (codes "width") (rows_of (found_of matches.now))) }
{
    columns_written(last(matches, "width")?)
}

/// The number of columns that a text writes: digits, a plus sign before them or none, of a value below 65,536.
pub fn columns_written(text: &str) -> Option<u16>
    ensures { result ≡ columns_written text.now }
{
    text.parse::<u16>().ok()
}

// The last value of an option, if it has one.
fn last<'a>(matches: &ArgMatches<'a>, id: &str) -> Option<&'a str>
    ensures { option_map (λ text. text.now) result ≡ last_said id.now (rows_of (found_of matches.now)) }
{
    match matches.get_strs(id) {
        Some(values) => values.last().copied(),
        None => None,
    }
}

// Whether an option without a value is there.
fn is_there(matches: &ArgMatches, id: &str) -> bool
    ensures { result ≡ is_said id.now (rows_of (found_of matches.now)) }
{
    match matches.get_str(id) {
        Some(text) => text == "true",
        None => false,
    }
}

// How texts are read.
fn grammar_asked<'a>(matches: &ArgMatches<'a>) -> Option<Grammar<'a>>
    ensures { option_map reading_of result ≡ reading_said (rows_of (found_of matches.now)) }
{
    if let Some(language) = last(matches, "code") {
        Some(Grammar::Code(language))
    } else if is_there(matches, "plain") {
        Some(Grammar::Plain)
    } else if is_there(matches, "lines") {
        Some(Grammar::Lines)
    } else {
        None
    }
}

// When it is written where links lead, if the options say a word for that.
fn links_asked(matches: &ArgMatches) -> Option<Links>
    ensures { result ≡ links_said (rows_of (found_of matches.now)) }
{
    match last(matches, "links") {
        Some(name) => links_named(name),
        None => Some(Links::Auto),
    }
}

// When it is written where links lead, by the name of that.
fn links_named(name: &str) -> Option<Links>
    ensures { result ≡ links_named name.now }
{
    if name == "auto" {
        Some(Links::Auto)
    } else if name == "always" {
        Some(Links::Always)
    } else if name == "never" {
        Some(Links::Never)
    } else {
        None
    }
}

//! Which options there are.

ghost use Rattle.std.specs.Prelude.{◌≡◌, IfOk, codes, false};
ghost use Rattle.clap.specs.Words.{app_of, rule_of};
ghost use Rattle.termimad_options.specs.Rules.{flag, files_rule, fits_rule, termimad_rules, valued, versioned, width_rule};

use clap::builder::ValueParser;
use clap::{Arg, ArgAction, Command};
use std::alloc::{AllocError, Global};

/// The command with its options, each with what help says of it.
///
/// # Errors
///
/// Out of memory is the only error.
pub fn options<'a>(alloc: Global) -> Result<Command<'a>, AllocError>
    ensures { IfOk result (λ c. app_of c ≡ termimad_rules) }
{
    let skin = valued(
        alloc,
        "skin",
        "SKIN",
        "Skin: auto, dark, light, sixteen, none, a file or JSON",
    );
    let code = valued(
        alloc,
        "code",
        "LANGUAGE",
        "Shows code of this language, or as a file of this name",
    );
    let links = valued(
        alloc,
        "links",
        "WHEN",
        "Links that a terminal can follow: auto, always or never",
    );
    let lines = flag(
        alloc,
        "lines",
        "Shows each line by itself, in the smaller grammar",
    );
    let plain = flag(
        alloc,
        "plain",
        "Shows text that isn't Markdown, with its colors",
    );
    let stream = flag(alloc, "stream", "Writes Markdown from a pipe as it comes");
    let live = flag(alloc, "live", "Does so on a terminal, redrawn in place");
    let no_pager = flag(alloc, "no-pager", "Writes, and doesn't page");
    bare(alloc)
        .arg(files(alloc))?
        .arg(width(alloc))?
        .arg(skin)?
        .arg(code)?
        .arg(links)?
        .arg(lines)?
        .arg(plain)?
        .arg(stream)?
        .arg(live)?
        .arg(no_pager)?
        .arg(fits(alloc))
}

// The command without its options.
fn bare<'a>(alloc: Global) -> Command<'a>
    ensures { app_of result ≡ versioned (codes "termimad") }
{
    Command::new(alloc, "termimad")
        .version("0.3.0")
        .args_override_self(true)
        .about("Shows Markdown: pages it on a terminal, and writes it elsewhere")
        .after_help("Without FILE, standard input is read.")
}

// The texts to show.
fn files<'a>(alloc: Global) -> Arg<'a>
    ensures rule { rule_of result ≡ files_rule }
    ensures own { result.global ≡ false }
{
    Arg::new(alloc, "FILE")
        .action(ArgAction::Append)
        .help("Shows this text; - is standard input")
}

// The columns of what is written.
fn width<'a>(alloc: Global) -> Arg<'a>
    ensures rule { rule_of result ≡ width_rule }
    ensures own { result.global ≡ false }
{
    valued(alloc, "width", "COLUMNS", "Lays out in so many columns")
        .short('w')
        .value_parser(ValueParser::Unsigned(1, 65_535))
}

// No pager for a text that fits on the screen.
fn fits<'a>(alloc: Global) -> Arg<'a>
    ensures rule { rule_of result ≡ fits_rule }
    ensures own { result.global ≡ false }
{
    Arg::new(alloc, "fits")
        .short('F')
        .action(ArgAction::SetTrue)
        .help("Doesn't page what fits on one screen")
}

// An option with a value.
fn valued<'a>(alloc: Global, name: &'a str, value: &'a str, help: &'a str) -> Arg<'a>
    ensures rule { rule_of result ≡ valued name.now }
    ensures own { result.global ≡ false }
{
    Arg::new(alloc, name)
        .long(name)
        .action(ArgAction::Set)
        .value_name(value)
        .help(help)
}

// An option without a value.
fn flag<'a>(alloc: Global, name: &'a str, help: &'a str) -> Arg<'a>
    ensures rule { rule_of result ≡ flag name.now }
    ensures own { result.global ≡ false }
{
    Arg::new(alloc, name)
        .long(name)
        .action(ArgAction::SetTrue)
        .help(help)
}

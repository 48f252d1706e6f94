//! Why a call isn't done, or not all of it, and what is said of that.

ghost use Rattle.std.specs.Prelude.{◌≡◌, ◌⊎◌, IfOk, string_bytes};
ghost use Rattle.termimad_command.specs.Refusals.{Says, front_of, named_line, obstacle_line, obstacle_of, refusal_of, refusal_reading, rest_of, short_line, short_skin_line, skin_line, status_of, stream_refusal};
ghost use Rattle.termimad_words.specs.Failures.{SaysOnce};

use mad_measure::printable;
use mad_stream::SourceError;
use mad_term::{Error, Out, put_all};
use std::alloc::{AllocError, Global};
use std::io::{self, ErrorKind};

// The status of a program that writes where nobody reads: 128 and the number of the signal that ends others then.
const UNREAD: u8 = 141;

/// Why the text of a name isn't read, or is none.
#[derive(Clone, Copy, Debug, PartialEq, Eq)]
pub enum Obstacle {
    /// Nothing has that name.
    NoFile,
    /// It is a folder.
    Folder,
    /// It may not be read.
    Denied,
    /// It isn't UTF-8.
    NoText,
    /// Another fault.
    Other,
}

/// Why a call isn't done, or not all of it.
#[derive(Drop)]
pub enum Refusal<'a> {
    /// The words are no call: what is wrong with them.
    Mistaken(String),
    /// One of the words isn't UTF-8.
    Undecoded,
    /// The words ask for what isn't there yet.
    Lacking,
    /// The word that says where a text is shown first has characters that a terminal obeys.
    Misplaced,
    /// This word for the skin says none, and this is why it names no text of one.
    Skin(&'a str, Obstacle),
    /// The text of a skin says none: the line that says what is wrong with it.
    FaultySkin(String),
    /// The text of this name can't be read, for this reason.
    Unreadable(&'a str, Obstacle),
    /// What came isn't UTF-8.
    NotUtf8,
    /// The output failed.
    Output,
    /// Nobody reads the output any more.
    Unread,
    /// Out of memory.
    Memory,
}

impl Refusal<'_> {
    /// The exit status.
    pub fn status(&self) -> u8
        ensures { result ≡ status_of self.now }
    {
        match self {
            Refusal::Unreadable(_, _) | Refusal::Output => 1,
            Refusal::Mistaken(_) | Refusal::Undecoded | Refusal::Lacking | Refusal::Misplaced => 2,
            Refusal::NotUtf8 => 3,
            Refusal::Skin(_, _) | Refusal::FaultySkin(_) => 4,
            Refusal::Memory => 5,
            Refusal::Unread => UNREAD,
        }
    }
}

/// What the refusal of a writing call makes of a call.
pub(crate) fn refusal_of<'a>(e: Error) -> Refusal<'a>
    ensures { result ≡ refusal_of e }
{
    match e {
        Error::IO(e) => match e.kind() {
            ErrorKind::BrokenPipe => Refusal::Unread,
            ErrorKind::OutOfMemory => Refusal::Memory,
            _ => Refusal::Output,
        },
        Error::InsufficientWidth(_) => Refusal::Output,
        Error::Memory => Refusal::Memory,
    }
}

/// What a fault in reading the text of a name makes of a call.
pub(crate) fn refusal_reading<'a>(name: &'a str, e: &io::Error) -> Refusal<'a>
    ensures { result ≡ refusal_reading name.entry e.now }
{
    match e.kind() {
        ErrorKind::OutOfMemory => Refusal::Memory,
        kind => Refusal::Unreadable(name, obstacle_of(kind)),
    }
}

/// Why a text isn't read, by the kind of the fault.
pub(crate) fn obstacle_of(kind: ErrorKind) -> Obstacle
    ensures { result ≡ obstacle_of kind }
{
    match kind {
        ErrorKind::NotFound | ErrorKind::NotADirectory => Obstacle::NoFile,
        ErrorKind::IsADirectory => Obstacle::Folder,
        ErrorKind::PermissionDenied => Obstacle::Denied,
        _ => Obstacle::Other,
    }
}

/// What makes of a call that the text of a name isn't written whole as it comes.
pub(crate) fn stream_refusal<'a>(name: &'a str, e: SourceError) -> Refusal<'a>
    ensures { result ≡ stream_refusal name.entry e }
{
    match e {
        SourceError::Source(e) => refusal_reading(name, &e),
        SourceError::Device(e) => refusal_of(Error::IO(e)),
        SourceError::NotUtf8 => Refusal::NotUtf8,
        SourceError::Memory => Refusal::Memory,
    }
}

/// Says a refusal on a device, and answers its status. Where nobody reads the output, nothing is said. A fault of the device changes nothing.
pub fn refuse<E: Out>(alloc: Global, err: &mut E, refusal: Refusal) -> u8
    ensures status { result ≡ status_of refusal.entry }
    ensures said { Says refusal.entry (E.seen err.old) (E.seen err.new) }
{
    let status = refusal.status();
    say_refusal(alloc, err, refusal);
    status
}

// Says a refusal on a device.
fn say_refusal<E: Out>(alloc: Global, err: &mut E, refusal: Refusal)
    ensures { Says refusal.entry (E.seen err.old) (E.seen err.new) }
{
    match refusal {
        Refusal::Mistaken(text) => say(err, &text),
        Refusal::Undecoded => say(err, "termimad: a word isn't UTF-8\n"),
        Refusal::Lacking => {
            say(
                err,
                "termimad: --stream and --live of what isn't Markdown aren't there yet\n",
            )
        }
        Refusal::Misplaced => {
            say(
                err,
                "termimad: +/TEXT and +?TEXT have no control characters\n",
            )
        }
        Refusal::Skin(word, obstacle) => say_no_skin(alloc, err, word, obstacle),
        Refusal::FaultySkin(line) => say(err, &line),
        Refusal::Unreadable(name, obstacle) => say_unreadable(alloc, err, name, obstacle),
        Refusal::NotUtf8 => say(err, "termimad: what came isn't UTF-8\n"),
        Refusal::Output => say(err, "termimad: the output failed\n"),
        Refusal::Unread => {}
        Refusal::Memory => say(err, "termimad: out of memory\n"),
    }
}

// Says a text on a device.
fn say<E: Out>(err: &mut E, text: &str)
    ensures { SaysOnce (E.seen err.old) text.now (E.seen err.new) }
{
    let _ = put_all(err, text.as_bytes());
}

// Says why the text of a name isn't read; without the name, where there is no memory for it.
fn say_unreadable<E: Out>(alloc: Global, err: &mut E, name: &str, obstacle: Obstacle)
    ensures { SaysOnce (E.seen err.old) (obstacle_line name.now obstacle) (E.seen err.new) ⊎ SaysOnce (E.seen err.old) short_line (E.seen err.new) }
{
    match obstacle_line(alloc, name, obstacle) {
        Ok(line) => say(err, &line),
        Err(_) => say(err, "termimad: a text can't be read\n"),
    }
}

// Says why a word is no skin; without the word, where there is no memory for it.
fn say_no_skin<E: Out>(alloc: Global, err: &mut E, word: &str, obstacle: Obstacle)
    ensures { SaysOnce (E.seen err.old) (skin_line word.now obstacle) (E.seen err.new) ⊎ SaysOnce (E.seen err.old) short_skin_line (E.seen err.new) }
{
    match skin_line(alloc, word, obstacle) {
        Ok(line) => say(err, &line),
        Err(_) => say(
            err,
            "termimad: SKIN is no name, no file and no JSON of a skin\n",
        ),
    }
}

// The line that says why a word is no skin.
fn skin_line(alloc: Global, word: &str, obstacle: Obstacle) -> Result<String, AllocError>
    ensures { IfOk result (λ line. string_bytes line ≡ skin_line word.now obstacle) }
{
    match obstacle {
        Obstacle::NoFile => named_line(
            alloc,
            "termimad: ",
            word,
            " is no name, no file and no JSON of a skin\n",
        ),
        _ => obstacle_line(alloc, word, obstacle),
    }
}

// The line that says why the text of a name isn't read.
fn obstacle_line(alloc: Global, name: &str, obstacle: Obstacle) -> Result<String, AllocError>
    ensures { IfOk result (λ line. string_bytes line ≡ obstacle_line name.now obstacle) }
{
    named_line(alloc, front_of(obstacle), name, rest_of(obstacle))
}

// What that line says before the name.
fn front_of(obstacle: Obstacle) -> &'static str
    ensures { result.now ≡ front_of obstacle }
{
    match obstacle {
        Obstacle::NoFile => "termimad: there is no file ",
        _ => "termimad: ",
    }
}

// What it says behind the name.
fn rest_of(obstacle: Obstacle) -> &'static str
    ensures { result.now ≡ rest_of obstacle }
{
    match obstacle {
        Obstacle::NoFile => "\n",
        Obstacle::Folder => " is a folder\n",
        Obstacle::Denied => " can't be read: permission denied\n",
        Obstacle::NoText => " isn't UTF-8\n",
        Obstacle::Other => " can't be read\n",
    }
}

// The line that says something of a name: what stands before it, what is printable of it, and the rest.
fn named_line(alloc: Global, front: &str, name: &str, rest: &str) -> Result<String, AllocError>
    ensures { IfOk result (λ line. string_bytes line ≡ named_line front.now name.now rest.now) }
{
    let name = printable(alloc, name)?;
    let mut line = String::from_str(alloc, front)?;
    line.push_str(&name)?;
    line.push_str(rest)?;
    Ok(line)
}

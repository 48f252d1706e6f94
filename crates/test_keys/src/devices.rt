//! Devices that fail, and those of the standard library.

use crate::queued::sent;
use crate::words::number;
use mad_md::Alignment;
use mad_parse::{StyleToken, write_align, write_attribute, write_color, write_style_tokens};
use mad_screen::CutOut;
use mad_term::{
    Attribute, Attributes, ClearType, Color, ContentStyle, Error, Out, Source, Stream, put_all,
    queue_bg, queue_clear, queue_fg, queue_move, queue_styled,
};
use std::alloc::{AllocError, Global};
use std::io;

/// The answer of a call of this module.
pub fn answer(alloc: Global, name: &str, first: &str, text: &str) -> Result<String, AllocError> {
    match name {
        "commands" => commands(alloc, first),
        "written_tokens" => written_tokens(alloc),
        "stuck_writer" => stuck_writer(alloc, text),
        "sound_writer" => sound_writer(alloc, text),
        "sound_reader" => sound_reader(alloc, text),
        "filled" => filled(alloc, text),
        "stuck_reader" => stuck_reader(alloc),
        _ => String::from_str(alloc, "no such call"),
    }
}

// One of each command.
fn queue_commands(alloc: Global, out: &mut CutOut) -> Result<(), Error> {
    queue_move(alloc, out, 2, 4)?;
    queue_clear(out, ClearType::All)?;
    queue_fg(alloc, out, Color::Red)?;
    queue_bg(alloc, out, Color::Rgb { r: 1, g: 2, b: 3 })?;
    queue_bg(alloc, out, Color::Reset)
}

/// One of each command, and two pieces.
pub fn queue_all(alloc: Global, out: &mut CutOut) -> Result<(), Error> {
    queue_commands(alloc, out)?;
    let bold = ContentStyle {
        foreground_color: Some(Color::Red),
        attributes: Attributes::from(Attribute::Bold),
        ..ContentStyle::default()
    };
    queue_styled(alloc, out, bold, "bold")?;
    queue_styled(alloc, out, ContentStyle::default(), "plain")
}

// The commands and two pieces, on a device with this room.
fn commands(alloc: Global, room: &str) -> Result<String, AllocError> {
    let mut out = CutOut::new(alloc, 1, number(Some(room)).unwrap_or(0), true)?;
    let queued = queue_all(alloc, &mut out);
    sent(alloc, queued, &out)
}

// Three of them have no text.
const TOKENS: &[StyleToken] = &[
    StyleToken::Color(Color::Reset),
    StyleToken::Char('é'),
    StyleToken::Align(Alignment::Unspecified),
    StyleToken::Color(Color::AnsiValue(11)),
    StyleToken::Attribute(Attribute::Reset),
    StyleToken::None,
    StyleToken::Dimension(7),
];

/// Styles as texts.
pub fn write_all(alloc: Global, out: &mut CutOut) -> Result<(), Error> {
    write_style_tokens(alloc, out, TOKENS)?;
    let color = Color::Rgb {
        r: 1,
        g: 20,
        b: 255,
    };
    write_color(alloc, out, color)?;
    write_attribute(out, Attribute::NotFramedOrEncircled)?;
    write_align(out, Alignment::Center)
}

fn written_tokens(alloc: Global) -> Result<String, AllocError> {
    let mut out = CutOut::new(alloc, 3, 1000, true)?;
    let written = write_all(alloc, &mut out);
    sent(alloc, written, &out)
}

/// A writer that takes nothing and fails at its flush, and a reader that fails.
#[derive(Drop)]
struct Stuck;

impl io::Write for Stuck {
    fn write(&mut self, _bytes: &[u8]) -> io::Result<usize> {
        Ok(0)
    }

    fn flush(&mut self) -> io::Result<()> {
        Err(io::Error::new(io::ErrorKind::Other, "stuck"))
    }
}

impl io::Read for Stuck {
    fn read(&mut self, _buffer: &mut [u8]) -> io::Result<usize> {
        Err(io::Error::new(io::ErrorKind::TimedOut, "stuck"))
    }
}

fn kind_of<T: Drop>(done: io::Result<T>) -> Option<io::ErrorKind> {
    match done {
        Ok(_) => None,
        Err(error) => Some(error.kind()),
    }
}

// How a put of a text fails, and how a flush does.
fn stuck_writer(alloc: Global, text: &str) -> Result<String, AllocError> {
    let mut out = Stream::new(Stuck);
    let put = kind_of(put_all(&mut out, text.as_bytes()));
    let flush = kind_of(out.flush());
    format!(in alloc; "{put:?} {flush:?}")
}

// How many bytes one put takes of a text a thousand times, and whether a flush is well.
fn sound_writer(alloc: Global, text: &str) -> Result<String, AllocError> {
    let text = text.repeat(alloc, 1000)?;
    let mut out = Stream::new(Vec::with_capacity(alloc, text.len())?);
    let put = out.put(text.as_bytes()).ok();
    let flush = out.flush().ok();
    format!(in alloc; "{put:?} {flush:?}")
}

// How many bytes of a text a thousand times a reader gives, and what comes after them.
fn sound_reader(alloc: Global, text: &str) -> Result<String, AllocError> {
    let text = text.repeat(alloc, 1000)?;
    let mut source = Stream::new(text.as_bytes());
    let mut count: u64 = 0;
    for _ in 0..10_000 {
        if let Ok(Some(_)) = source.get() {
            count = count.saturating_add(1);
        }
    }
    let end = source.get().ok();
    format!(in alloc; "{count} {end:?}")
}

// What a buffer of eight bytes is filled with from a text, and the byte that comes after them.
fn filled(alloc: Global, text: &str) -> Result<String, AllocError> {
    let mut source = Stream::new(text.as_bytes());
    let mut buffer = [0; 8];
    let count = source.fill(&mut buffer).ok();
    let next = source.get().ok();
    let filled = String::from_utf8_lossy(alloc, &buffer)?;
    format!(in alloc; "{count:?} {filled} {next:?}")
}

// How a reader's get fails, and how its fill does.
fn stuck_reader(alloc: Global) -> Result<String, AllocError> {
    let mut source = Stream::new(Stuck);
    let get = kind_of(source.get());
    let fill = kind_of(source.fill(&mut [0; 8]));
    format!(in alloc; "{get:?} {fill:?}")
}

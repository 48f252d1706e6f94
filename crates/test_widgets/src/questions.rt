//! Questions that are asked: `Go?` with the answers `y` and `n`.

use crate::refusal::Refusal;
use mad_ask::{AskError, Question};
use mad_layout::MadSkin;
use mad_screen::{CutOut, ScriptSource};
use mad_term::Error;
use std::alloc::{AllocError, Global};
use std::io;
use test_rows::devices::Writing;

// More bytes than any row here writes.
const ROOM: usize = 2_000;

// What is asked: a default, `-` for none; whether the input ends in a fault; the input.
#[derive(Clone, Copy)]
struct Asking<'a> {
    default_answer: &'a str,
    fails: bool,
    input: &'a str,
}

fn asking_of(words: &str) -> Asking<'_> {
    let (default_answer, words) = words.split_once(' ').unwrap_or((words, ""));
    let (end, input) = words.split_once(' ').unwrap_or((words, ""));
    Asking {
        default_answer,
        fails: end == "fails",
        input,
    }
}

/// What a question writes, its answer or refusal, and how many bytes of its input are left. The words are the default or `-`, `ends` or
/// `fails` as the input does, and the input, in which `⏎` is a newline and `ÿ` a byte that is no UTF-8.
pub fn asked(alloc: Global, words: &str) -> Result<String, Refusal> {
    let asking = asking_of(words);
    let input = input_of(alloc, asking.input)?;
    let question = question(alloc, asking.default_answer)?;
    let mut reader = ScriptSource::new(input.as_slice(), asking.fails);
    let mut out = CutOut::new(alloc, ROOM, ROOM, false)?;
    let answer = question.ask(alloc, &MadSkin::no_style(), Some(20), &mut reader, &mut out);
    let mut told = String::new(alloc);
    told.push_str(str::from_utf8(out.taken()).unwrap_or("no text"))?;
    match answer {
        Ok(answer) => write!(told, "answers {answer}")?,
        Err(AskError::Memory) => return Err(Refusal::Memory),
        Err(error) => write!(told, "{error}")?,
    }
    write!(
        told,
        ", {} left, {} flushes\n",
        reader.left().len(),
        out.flushes()
    )?;
    Ok(told)
}

fn question(alloc: Global, default_answer: &str) -> Result<Question, Refusal> {
    let mut question = Question::new(alloc, "Go?")?;
    change(alloc, &mut question, Some("y"), "Yes")?;
    change(alloc, &mut question, Some("n"), "No")?;
    match default_answer {
        "-" => (),
        "empty" => change(alloc, &mut question, Some(""), "Empty")?,
        default_answer => change(alloc, &mut question, None, default_answer)?,
    }
    Ok(question)
}

// Adds an answer with a key, or sets a default. Where that is refused, the question has to be what it was.
fn change(
    alloc: Global,
    question: &mut Question,
    key: Option<&str>,
    text: &str,
) -> Result<(), Refusal> {
    let before = at_end(alloc, question)?;
    let changed = match key {
        Some(key) => question.add_answer(alloc, key, text),
        None => question.set_default(alloc, text),
    };
    if changed.is_ok() {
        return Ok(());
    }
    if at_end(alloc, question)? == before {
        return Err(Refusal::Memory);
    }
    Err(Refusal::Changed)
}

// What a question writes, and answers where the input is at its end.
fn at_end(alloc: Global, question: &Question) -> Result<String, AllocError> {
    let mut reader = ScriptSource::new(b"", false);
    let mut out = CutOut::new(alloc, ROOM, ROOM, false)?;
    let answer = question.ask(alloc, &MadSkin::no_style(), Some(20), &mut reader, &mut out);
    let mut told = String::from_utf8_lossy(alloc, out.taken())?;
    match answer {
        Ok(answer) => told.push_str(answer.as_str())?,
        Err(AskError::Memory) => return Err(AllocError),
        Err(_) => (),
    }
    Ok(told)
}

fn input_of(alloc: Global, signs: &str) -> Result<Vec<u8>, AllocError> {
    let mut input = Vec::new(alloc);
    for c in signs.chars() {
        match c {
            '⏎' => input.push(b'\n')?,
            'ÿ' => input.push(0xff)?,
            c => push_char(&mut input, c)?,
        }
    }
    Ok(input)
}

fn push_char(bytes: &mut Vec<u8>, c: char) -> Result<(), AllocError> {
    let mut buffer = [0; 4];
    Ok(bytes.extend_from_slice(c.encode_utf8(&mut buffer).as_bytes())?)
}

/// Whether devices that fail get what they should of what the question writes, and whether readers that fail are the fault.
pub fn tried(alloc: Global, words: &str) -> Result<String, Refusal> {
    let asking = asking_of(words);
    let input = input_of(alloc, asking.input)?;
    let asked = Inquiry {
        question: question(alloc, asking.default_answer)?,
        input: input.as_slice(),
        fails: asking.fails,
    };
    let devices = test_rows::devices::tried(alloc, &asked)?;
    let readers = asked.readers_tried(alloc)?;
    Ok(format!(in alloc; "{devices}\n{readers}")?)
}

// A question and its input.
#[derive(Drop)]
struct Inquiry<'a> {
    question: Question,
    input: &'a [u8],
    fails: bool,
}

impl Writing for Inquiry<'_> {
    // The answer, and what else it is refused by, is no matter of the device.
    fn write(&self, alloc: Global, out: &mut CutOut) -> Result<(), Error> {
        let mut reader = ScriptSource::new(self.input, self.fails);
        match self.ask(alloc, &mut reader, out) {
            Err(AskError::Memory) => Err(Error::Memory),
            Err(AskError::IO(error)) if reader.faults() == 0 => Err(Error::IO(error)),
            _ => Ok(()),
        }
    }
}

impl Inquiry<'_> {
    fn ask(
        &self,
        alloc: Global,
        reader: &mut ScriptSource,
        out: &mut CutOut,
    ) -> Result<String, AskError> {
        self.question
            .ask(alloc, &MadSkin::no_style(), Some(20), reader, out)
    }

    // Tries readers that fail, or end, after each count of the bytes that are read of the input. Where one fails, a beginning went out, and
    // the call is refused by the fault. One that ends is no fault.
    fn readers_tried(&self, alloc: Global) -> Result<String, AllocError> {
        let mut reader = ScriptSource::new(self.input, self.fails);
        let mut whole = CutOut::new(alloc, ROOM, ROOM, false)?;
        if let Err(AskError::Memory) = self.ask(alloc, &mut reader, &mut whole) {
            return Err(AllocError);
        }
        let count = self.input.len().saturating_sub(reader.left().len());
        for (read, _) in self.input.iter().take(count).enumerate() {
            let front = self.input.get(..read).unwrap_or(&[]);
            if !self.fails_after(alloc, front, whole.taken())? {
                return format!(in alloc; "a reader that fails after {read} bytes goes wrong");
            }
            if !self.ends_after(alloc, front)? {
                return format!(in alloc; "a reader that ends after {read} bytes goes wrong");
            }
        }
        format!(in alloc; "readers cut after each of {count} bytes")
    }

    fn fails_after(&self, alloc: Global, front: &[u8], whole: &[u8]) -> Result<bool, AllocError> {
        let mut reader = ScriptSource::new(front, true);
        let mut out = CutOut::new(alloc, ROOM, ROOM, false)?;
        match self.ask(alloc, &mut reader, &mut out) {
            Err(AskError::Memory) => Err(AllocError),
            Err(AskError::IO(_)) => Ok(reader.faults() == 1 && whole.starts_with(out.taken())),
            _ => Ok(false),
        }
    }

    fn ends_after(&self, alloc: Global, front: &[u8]) -> Result<bool, AllocError> {
        let mut reader = ScriptSource::new(front, false);
        let mut out = CutOut::new(alloc, ROOM, ROOM, false)?;
        match self.ask(alloc, &mut reader, &mut out) {
            Err(AskError::Memory) => Err(AllocError),
            Err(AskError::IO(_)) => Ok(false),
            _ => Ok(true),
        }
    }
}

/// The texts of the refusals, and whether the defaults `n` and `maybe` are no keys.
pub fn texts(alloc: Global) -> Result<String, Refusal> {
    let device = io::Error::new(io::ErrorKind::Other, "broken");
    let (device, end) = (AskError::from(device), AskError::EndOfInput);
    let (text, memory) = (AskError::NotUtf8, AskError::from(AllocError));
    let usual = question(alloc, "n")?.has_exotic_default();
    let exotic = question(alloc, "maybe")?.has_exotic_default();
    Ok(format!(in alloc; "{device}\n{end}\n{text}\n{memory}\nn {usual}, maybe {exotic}\n")?)
}

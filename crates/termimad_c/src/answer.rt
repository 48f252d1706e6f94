//! What a call answers, and what it leaves in the caller's buffer.

ghost use Rattle.std.specs.Prelude.{◌≡◌, MatchResult, drop, length};
ghost use Rattle.termimad_c.specs.Answers.{HandsOut, HandsOutParts, IsNoPlace, IsNoProgress, IsRefused, bit, place_of, status_of, refusal_of};

use std::alloc::AllocError;
use termimad::Error;
use termimad_words::Failure;

// All of it is in the buffer.
const DONE: u32 = 0;

// The buffer is too small, and has the beginning.
const SHORT: u32 = 1;

/// What a call answers.
#[repr(C)]
#[derive(Clone, Copy, PartialEq, Eq, Debug, Drop)]
pub struct Answer {
    /// How many bytes the whole has, or how many rows were counted; 0 where the call was refused.
    pub count: usize,
    /// How the call ended.
    pub status: u32,
}

/// What a call answers that lays out a text as it comes.
#[repr(C)]
#[derive(Clone, Copy, PartialEq, Eq, Debug, Drop)]
pub struct Progress {
    /// How many bytes the rows have; 0 where the call was refused.
    pub count: usize,
    /// How many bytes of the text they are of; 0 where not all rows are in the buffer.
    pub used: usize,
    /// 1 where a fence is open after these, else 0.
    pub fenced: u32,
    /// How the call ended.
    pub status: u32,
}

/// What a call answers that looks for a section.
#[repr(C)]
#[derive(Clone, Copy, PartialEq, Eq, Debug, Drop)]
pub struct Place {
    /// The number of the section; 0 where there is none, and where the call was refused.
    pub section: usize,
    /// 1 where there is one, else 0.
    pub found: u32,
    /// How the call ended.
    pub status: u32,
}

/// The parts at the front of a text, laid out.
#[derive(Drop)]
pub struct Parts {
    /// Their rows.
    pub rows: Vec<u8>,
    /// How many bytes of the text they are.
    pub used: usize,
    /// Whether a fence is open after them.
    pub is_open: bool,
}

/// Why a call is refused.
#[derive(Clone, Copy, PartialEq, Eq, Debug)]
pub enum Refusal {
    /// A number is none that the call takes.
    Condition,
    /// The text or the skin is not UTF-8.
    NotUtf8,
    /// The skin is no name of one, no JSON text, or says no skin.
    Skin,
    /// Out of memory.
    Memory,
}

impl Refusal {
    /// Its status.
    pub fn status(self) -> u32
        ensures { result ≡ status_of self }
    {
        match self {
            Refusal::Condition => 2,
            Refusal::NotUtf8 => 3,
            Refusal::Skin => 4,
            Refusal::Memory => 5,
        }
    }
}

impl From<Failure> for Refusal {
    ghost from_gives = { λ failure refusal. refusal ≡ refusal_of failure };

    /// What is written is kept in memory, so a fault of the output is one of memory.
    fn from(failure: Failure) -> Self {
        match failure {
            Failure::Usage => Refusal::Condition,
            Failure::NotUtf8 => Refusal::NotUtf8,
            Failure::Skin => Refusal::Skin,
            Failure::Io | Failure::Memory => Refusal::Memory,
        }
    }
}

impl From<AllocError> for Refusal {
    ghost use Rattle.termimad_c.specs.declared.answer.Refusal.TheVariants.{Memory};

    ghost from_gives = { λ _ refusal. refusal ≡ Memory };

    fn from(_: AllocError) -> Self {
        Refusal::Memory
    }
}

impl From<Error> for Refusal {
    ghost use Rattle.termimad_c.specs.declared.answer.Refusal.TheVariants.{Memory};

    ghost from_gives = { λ _ refusal. refusal ≡ Memory };

    /// What is written is kept in memory, and no call here refuses by a width.
    fn from(_: Error) -> Self {
        Refusal::Memory
    }
}

/// Hands out what a call made, or why it was refused.
///
/// Of a whole that doesn't fit the buffer has the beginning. What is behind a whole that fits stays, and so does all of it where
/// the call was refused.
pub fn hand_out(made: Result<Vec<u8>, Refusal>, buffer: &mut [u8]) -> Answer
    ensures { MatchResult made (λ whole. HandsOut whole.items buffer.old result buffer.new)
        (λ refusal. IsRefused refusal result × (buffer.new ≡ buffer.old)) }
{
    match made {
        Ok(whole) => copy_front(whole.as_slice(), buffer),
        Err(refusal) => refuse(refusal),
    }
}

/// Hands out the rows of the parts of a text, or why they were refused; `fenced` is whether a fence is open before the text.
///
/// Where not all of them fit the buffer, nothing of the text is used.
pub fn hand_out_parts(made: Result<Parts, Refusal>, fenced: bool, buffer: &mut [u8]) -> Progress
    ensures { MatchResult made (λ parts. HandsOutParts parts.rows.items parts.used parts.is_open fenced buffer.old result buffer.new)
        (λ refusal. IsNoProgress refusal fenced result × (buffer.new ≡ buffer.old)) }
{
    match made {
        Ok(parts) => {
            let answer = copy_front(parts.rows.as_slice(), buffer);
            if answer.status == DONE {
                return progress_of(answer, parts.used, parts.is_open);
            }
            progress_of(answer, 0, fenced)
        }
        Err(refusal) => progress_of(refuse(refusal), 0, fenced),
    }
}

// An answer, and how far the text was used.
fn progress_of(answer: Answer, used: usize, fenced: bool) -> Progress
    ensures { result ≡ record { count = answer.count; used = used; fenced = bit fenced; status = answer.status } }
{
    Progress {
        count: answer.count,
        used,
        fenced: u32::from(fenced),
        status: answer.status,
    }
}

/// The answer of a call that is refused.
pub fn refuse(refusal: Refusal) -> Answer
    ensures { IsRefused refusal result }
{
    Answer {
        count: 0,
        status: refusal.status(),
    }
}

/// The answer of a call that counted rows.
pub fn count_out(made: Result<usize, Refusal>) -> Answer
    ensures { MatchResult made (λ count. result ≡ record { count = count; status = 0 }) (λ refusal. IsRefused refusal result) }
{
    match made {
        Ok(count) => Answer {
            count,
            status: DONE,
        },
        Err(refusal) => refuse(refusal),
    }
}

/// The answer of a call that looked for a section.
pub fn place_out(made: Result<Option<usize>, Refusal>) -> Place
    ensures { MatchResult made (λ section. result ≡ place_of section) (λ refusal. IsNoPlace refusal result) }
{
    match made {
        Ok(Some(section)) => Place {
            section,
            found: 1,
            status: DONE,
        },
        Ok(None) => no_place(DONE),
        Err(refusal) => no_place(refusal.status()),
    }
}

// The answer of a call that ended so, and found no section.
fn no_place(status: u32) -> Place
    ensures { result ≡ record { section = 0; found = 0; status = status } }
{
    Place {
        section: 0,
        found: 0,
        status,
    }
}

/// Copies what fits into the buffer.
pub(crate) fn copy_front(whole: &[u8], buffer: &mut [u8]) -> Answer
    ensures { HandsOut whole.now buffer.old result buffer.new }
{
    let count = whole.len();
    let fitting = count.min(buffer.len());
    buffer[..fitting].copy_from_slice(&whole[..fitting]);
    let status = if fitting == count { DONE } else { SHORT };
    Answer { count, status }
}

/// Hands out the bytes that wait, as many as fit the buffer. The others wait on.
pub(crate) fn hand_out_front(waiting: &mut Vec<u8>, buffer: &mut [u8]) -> Answer
    ensures handed { HandsOut waiting.old.items buffer.old result buffer.new }
    ensures rest { waiting.new.items ≡ drop (length buffer.old) waiting.old.items }
{
    let answer = copy_front(waiting.as_slice(), buffer);
    let count = waiting.len().min(buffer.len());
    waiting.rotate_left(count);
    waiting.truncate(waiting.len() - count);
    answer
}

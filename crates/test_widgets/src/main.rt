//! What fields, lists and questions do, and what an event is, by the rows of the files in `data/`.
//!
//! Fields:
//!
//! 1. [`words`]: keys, events and numbers of a row.
//! 2. [`fields`]: a field of a row, and the calls that it is given, one after the other.
//! 3. [`calls`], [`texts`], [`inputs`]: what each call does: moves and settings, texts, and keys, clicks and events.
//! 4. [`pictures`]: a field's text, and what a screen shows of it. [`devices`]: its bytes, and devices that fail.
//!
//! Lists and questions:
//!
//! 1. [`items`]: the rows of the lists that are tried.
//! 2. [`rows`]: rows of a list without a terminal; [`lists`]: lists that are drawn.
//! 3. [`questions`]: questions that are asked.
//! 4. [`refusal`]: why a call has no answer.
#![tactic(auto)]

mod calls;
mod devices;
mod fields;
mod inputs;
mod items;
mod lists;
mod pictures;
mod questions;
mod refusal;
mod rows;
mod texts;
mod words;

use refusal::Refusal;
use std::alloc::{AllocError, Global};
use std::io;
use test_rows::Calls;

fn main(rt: HostRuntime) -> io::Result<()> {
    test_rows::run(&rt, &WidgetCalls)
}

struct WidgetCalls;

impl Calls for WidgetCalls {
    fn answer(&self, alloc: Global, call: &str, text: &str) -> Result<String, AllocError> {
        let (call, on_devices) = match call.strip_prefix("devices ") {
            Some(call) => (call, true),
            None => (call, false),
        };
        match answer_of(alloc, call, text, on_devices) {
            Ok(answer) => Ok(answer),
            Err(refusal) => refusal.told(alloc),
        }
    }
}

// What a call answers. On devices, what it writes goes to those that fail.
fn answer_of(alloc: Global, call: &str, text: &str, on_devices: bool) -> Result<String, Refusal> {
    let (name, words) = call.split_once(' ').unwrap_or((call, ""));
    match name {
        "rows" => Ok(rows::shown(alloc, words.parse().unwrap_or(0), text)?),
        "list" => lists::told(alloc, words, text, on_devices),
        "many" => lists::many(alloc, words.parse().unwrap_or(0)),
        "ask" if on_devices => questions::tried(alloc, words),
        "ask" => questions::asked(alloc, words),
        "texts" => questions::texts(alloc),
        "field" => Ok(fields::told(alloc, words, text, on_devices)?),
        _ => Ok(inputs::told(alloc, call)?),
    }
}

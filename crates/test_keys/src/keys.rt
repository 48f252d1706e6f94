//! What a terminal sends, and the events that it is.
//!
//! Each line of a row's text is a block, with a pause after it. What can't be typed is `\` and two digits to base 16.

use crate::blocks::{bytes_of, push_line};
use crate::event_words::event_of;
use crate::events::push_event;
use mad_keys::{Keys, event_bytes};
use mad_term::Event;
use std::alloc::{AllocError, Global};

/// The events of blocks: a line for each block.
pub fn read(alloc: Global, text: &str) -> Result<String, AllocError> {
    let mut answer = String::new(alloc);
    let mut keys = Keys::new();
    for line in text.lines() {
        let block = bytes_of(alloc, line)?;
        let mut events = Vec::new(alloc);
        read_all(&mut keys, &block, &mut events)?;
        if let Some(event) = keys.pause() {
            events.push(event)?;
        }
        push_events(&mut answer, &events)?;
    }
    Ok(answer)
}

fn read_all(keys: &mut Keys, block: &[u8], events: &mut Vec<Event>) -> Result<(), AllocError> {
    for b in block {
        if let Some(event) = keys.byte(*b) {
            events.push(event)?;
        }
    }
    Ok(())
}

fn push_events(answer: &mut String, events: &[Event]) -> Result<(), AllocError> {
    for (index, event) in events.iter().enumerate() {
        if index > 0 {
            answer.push_str(", ")?;
        }
        push_event(answer, event)?;
    }
    answer.push('\n')
}

/// The bytes of events: a line for each of them.
pub fn written(alloc: Global, text: &str) -> Result<String, AllocError> {
    let mut answer = String::new(alloc);
    for line in text.lines() {
        match event_bytes(alloc, &event_of(line))? {
            Some(bytes) => push_line(&mut answer, &bytes)?,
            None => answer.push_str("none\n")?,
        }
    }
    Ok(answer)
}

/// How many events one block is that has its second line `count` times, between the first and the third, and the last of them.
pub fn read_repeated(alloc: Global, count: &str, text: &str) -> Result<String, AllocError> {
    let events = repeated_events(alloc, count.parse::<u32>().unwrap_or(0), text)?;
    let mut answer = String::new(alloc);
    write!(answer, "{} events", events.len())?;
    if let Some(event) = events.last() {
        answer.push_str(", the last ")?;
        push_event(&mut answer, event)?;
    }
    Ok(answer)
}

fn repeated_events(alloc: Global, count: u32, text: &str) -> Result<Vec<Event>, AllocError> {
    let mut lines = text.lines();
    let before = bytes_of(alloc, lines.next().unwrap_or(""))?;
    let middle = bytes_of(alloc, lines.next().unwrap_or(""))?;
    let after = bytes_of(alloc, lines.next().unwrap_or(""))?;
    let mut keys = Keys::new();
    let mut events = Vec::new(alloc);
    read_all(&mut keys, &before, &mut events)?;
    for _ in 0..count {
        read_all(&mut keys, &middle, &mut events)?;
    }
    read_all(&mut keys, &after, &mut events)?;
    Ok(events)
}

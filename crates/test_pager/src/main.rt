//! Sessions of the pager: blocks of keys, and what the screen shows after each.
//!
//! A row is called by the screen's columns and rows and the text's name, after `markdown` where the text is Markdown as people write it, and after
//! `colors` or `bare` where it is no Markdown. After `grows` it comes in parts, one with each reading. Its
//! text comes first, then a line `==`, then one block of keys a line; `--` is the end of the input before that.
//!
//! 1. [`devices`]: a source that hands out a block a line, and a device that knows its pictures apart.
//! 2. [`sessions`]: what a session shows.
#![tactic(auto)]

mod devices;
mod sessions;

use std::alloc::{AllocError, Global};
use std::io;
use test_rows::Calls;

fn main(rt: HostRuntime) -> io::Result<()> {
    test_rows::run(&rt, &PageCalls)
}

struct PageCalls;

impl Calls for PageCalls {
    fn answer(&self, alloc: Global, call: &str, text: &str) -> Result<String, AllocError> {
        sessions::shown(alloc, call, text)
    }
}

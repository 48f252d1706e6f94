//! What drawings and cropped writing write, and what lines and tables are laid out as, by the rows of the files in `data/`: what no contract
//! says, and devices that fail.
//!
//! In the order of the work:
//!
//! 1. [`devices`]: what a device takes of a drawing, and that it may fail after each byte.
//! 2. [`drawings`]: rectangles, fillings, texts in a place of some columns, progress bars. [`bars`]: rows beside a scroll bar.
//! 3. [`crops`]: the calls of a crop writer.
//! 4. [`screens`]: what a screen shows of a drawing.
//! 5. [`layouts`]: the calls that lay out. [`words`] and [`skins`] are what they are given, and [`pictures`] what they answer.
//! 6. [`lines`], [`wraps`], [`fits`], [`tables`], [`plain`]: lines, wraps of one composite, what is fitted to a width, tables, plain texts.
#![tactic(auto)]

mod bars;
mod crops;
mod devices;
mod drawings;
mod fits;
mod layouts;
mod lines;
mod pictures;
mod plain;
mod screens;
mod skins;
mod tables;
mod words;
mod wraps;

use std::alloc::{AllocError, Global};
use std::io;
use test_rows::Calls;

struct DrawingCalls;

impl Calls for DrawingCalls {
    fn answer(&self, alloc: Global, call: &str, text: &str) -> Result<String, AllocError> {
        let (name, rest) = call.split_once(' ').unwrap_or((call, ""));
        match name {
            "bar" => drawings::bar(alloc, rest),
            "crop" => crops::crop(alloc, rest, text),
            "cropped" => crops::cropped(alloc, rest, text),
            "devices" => devices::tried(alloc, rest, text),
            "screen" => screens::screen(alloc, rest, text),
            _ if drawings::draws(name) => devices::taken(alloc, call, text),
            _ => layouts::answer(alloc, name, rest, text),
        }
    }
}

fn main(rt: HostRuntime) -> io::Result<()> {
    test_rows::run(&rt, &DrawingCalls)
}

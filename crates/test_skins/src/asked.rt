//! What a call asks for.

ghost use Rattle.termimad.specs.Areas.{IsWithinLimits};

use std::alloc::Global;
use termimad::{Area, MadSkin};

/// A call on a text in a skin.
#[derive(Drop)]
pub struct Asked<'a> {
    /// The allocator.
    pub alloc: Global,
    /// The skin.
    pub skin: MadSkin,
    /// The numbers after the call's name, and zeros where there are fewer.
    pub numbers: [usize; 5],
    /// The text.
    pub text: &'a str,
}

impl Asked<'_> {
    /// The area whose left, top, width and height the first numbers are.
    pub fn area(&self) -> Area
        ensures { IsWithinLimits result }
    {
        area_from(self.numbers)
    }
}

/// The area whose left, top, width and height the first numbers are.
pub fn area_from(numbers: [usize; 5]) -> Area
    ensures { IsWithinLimits result }
{
    let [left, top, width, height, _] = numbers;
    let (left, top) = (side(left), side(top));
    Area::new(
        left,
        top,
        side(width).min(u16::MAX - left),
        side(height).min(u16::MAX - top),
    )
}

fn side(number: usize) -> u16 {
    u16::try_from(number).unwrap_or(u16::MAX)
}

/// The numbers at the front of some words, and the words after them.
pub fn numbers_of(words: &str) -> ([usize; 5], &str) {
    let mut numbers = [0; 5];
    let mut words = words;
    for number in &mut numbers {
        let (word, rest) = words.split_once(' ').unwrap_or((words, ""));
        let Ok(value) = word.parse() else {
            break;
        };
        *number = value;
        words = rest;
    }
    (numbers, words)
}

//! The numbers of a sequence.

ghost use Rattle.std.specs.Prelude.{◌≡◌, ℕ, ◌<◌, ◌≤◌, ◌^◌, List, [], ◌∷◌, ◌++◌, length, take, Some, None, MatchBool};
ghost use Rattle.mad_keys.specs.Digits.{with_byte, with_number, numbers_at};

use std::marker::Model;

/// At most three numbers.
#[derive(Drop)]
pub(crate) struct Numbers {
    numbers: [u32; 3],
    count: usize,
}

impl Model for Numbers {
    ghost Value = { List ℕ };

    ghost view = { λ n. take n.count n.numbers };

    ghost invariant = { λ n. n.count ≤ 3 };
}

impl Numbers {
    // No number.
    fn new() -> Numbers
        ensures { result ≡ [] }
    {
        Numbers {
            numbers: [0; 3],
            count: 0,
        }
    }

    /// The numbers as a slice.
    pub(crate) fn as_slice(&self) -> &[u32]
        ensures { result.now ≡ self.now }
    {
        &self.numbers[..self.count]
    }

    // One more number, if there is one, and room for it.
    fn push(&mut self, number: Option<u32>) -> bool
        ensures { MatchBool result (with_number self.old number ≡ Some self.new) (with_number self.old number ≡ None) }
    {
        match number {
            Some(number) if self.count < 3 => {
                self.numbers[self.count] = number;
                self.count += 1;
                true
            }
            _ => false,
        }
    }
}

// The number with one more digit: none has a leading zero.
fn with_byte(number: Option<u32>, b: u8) -> Option<u32>
    ensures { result ≡ with_byte number b }
{
    if !b.is_ascii_digit() {
        return None;
    }
    let digit = u32::from(b - b'0');
    match number {
        None => Some(digit),
        Some(0) => None,
        Some(n) => n.checked_mul(10)?.checked_add(digit),
    }
}

/// The numbers that these bytes write, with semicolons between them.
pub(crate) fn numbers_of(bytes: &[u8]) -> Option<Numbers>
    ensures { result ≡ numbers_at bytes.now }
{
    let mut numbers = Numbers::new();
    if bytes.is_empty() {
        return Some(numbers);
    }
    let mut number = None;
    for b in bytes {
        if *b == b';' {
            if !numbers.push(number) {
                return None;
            }
            number = None;
        } else {
            number = Some(with_byte(number, *b)?);
        }
    }
    if !numbers.push(number) {
        return None;
    }
    Some(numbers)
}

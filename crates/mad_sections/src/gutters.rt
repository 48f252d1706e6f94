//! What quotes and items show in front of their rows.

ghost use Rattle.std.specs.Prelude.{◌≡◌, ◌<◌, ◌^◌, length, decimal};
ghost use Rattle.mad_sections.specs.Gutters.{gutter_columns};

/// What a quote says that is an alert.
#[derive(Debug, Clone, Copy, PartialEq, Eq)]
pub enum Alert {
    Note,
    Tip,
    Important,
    Warning,
    Caution,
}

/// What a quote or an item shows in front of its rows. It has two faces of the same columns: one in front of its first row, and one in
/// front of all others.
#[derive(Debug, Clone, Copy, PartialEq, Eq)]
pub enum Gutter {
    /// A quote's bar, in front of each row.
    Bar,
    /// The bar of a quote that is an alert, in front of each row.
    AlertBar(Alert),
    /// An item's bullet; in front of its other rows blanks.
    Bullet,
    /// An item's number; in front of its other rows blanks.
    Number(u32),
    /// The box of a task, ticked where it is done; in front of its other rows blanks.
    Task(bool),
    /// The sides of code: in a skin that draws boxes a blank in front of each row and one behind it, else two blanks in front.
    Code,
    /// The signs of a heading of this level, counted from 0, one more than the level; in front of its other rows blanks.
    Signs(u8),
    /// Nothing: what is behind it is the rule below a heading of this level, counted from 0.
    Below(u8),
}

/// The columns of a gutter, its last blank among them. The box of a task is one character, or three ASCII ones.
pub fn gutter_columns(gutter: Gutter, ascii: bool) -> usize
    ensures columns { result ≡ gutter_columns ascii gutter }
    ensures few { result < 2 ^ 33 }
{
    match gutter {
        Gutter::Bar | Gutter::AlertBar(_) | Gutter::Bullet | Gutter::Code => 2,
        Gutter::Number(number) => digit_count(number) as usize + 2,
        Gutter::Task(_) => { if ascii { 4 } else { 2 } }
        Gutter::Signs(level) => usize::from(level) + 2,
        Gutter::Below(_) => 0,
    }
}

// The digits that a number is written with.
#[tactic(auto, using(std::proofs::lemmas::Fmt::decimal_digit, crate::proofs::Digits::length_decimal))]
fn digit_count(number: u32) -> u32
    ensures { result ≡ length (decimal number) }
{
    match number.checked_ilog10() {
        Some(power) => power + 1,
        None => 1,
    }
}

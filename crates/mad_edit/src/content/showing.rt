//! A text as it is displayed and gone over.

ghost use Rattle.std.specs.Prelude.{◌≡◌, ℕ, Some, encode_utf8_all};
ghost use Rattle.std.specs.Iterator.{YieldsFirst};
ghost use Rattle.std.specs.Iterator.Runs.{YieldsInOrder};

use crate::content::InputFieldContent;
use mad_edit_lines::Chars;
use std::fmt;

impl fmt::Display for InputFieldContent {
    ghost output = { λ e. Some (encode_utf8_all e.text) };

    fn fmt<W: fmt::Write>(&self, f: &mut fmt::Formatter<W>) -> fmt::Result {
        for c in self.chars() {
            write!(f, "{c}")?;
        }
        Ok(())
    }
}

impl<'c> IntoIterator for &'c InputFieldContent {
    type Item = char;

    type IntoIter = Chars<'c>;

    ghost into_iter_gives = { λ e it. (it ≡ e.now.text) × YieldsInOrder (YieldsFirst {A = ℕ} (λ rest. rest)) (λ rest. rest) };

    fn into_iter(self) -> Chars<'c> {
        self.chars()
    }
}

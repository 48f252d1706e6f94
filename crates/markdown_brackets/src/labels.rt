//! Labels of references.

ghost use Rattle.std.specs.Prelude.{◌≡◌, [], IfOk, OnOk, OnErr, not, option_map, position, string_bytes};
ghost use Rattle.std.specs.List.{list_any};
ghost use Rattle.std.specs.Option.{option_copied};
ghost use Rattle.std.specs.Str.{bytes_eq};
ghost use Rattle.markdown_brackets.specs.Labels.{text_of, normal, label_index, with_label};

use caseless::default_case_fold_str;
use markdown_spans::words::words;
use std::alloc::{AllocError, Global};
use std::collections::BTreeMap;
use std::marker::Model;

/// The labels of definitions, each as [`normal`] gives it, in the order in which they are defined first. Contracts see the list of their
/// texts.
#[derive(Drop)]
pub struct Labels {
    // Each label's number in that list. A hash would let a text choose labels that collide.
    numbers: BTreeMap<String, usize>,
}

impl Model for Labels {
    ghost use Rattle.std.specs.Prelude.{ℕ, List};
    ghost use Rattle.markdown_brackets.specs.Numbers.{by_number, IsNumbered};

    ghost Value = { List (List ℕ) };

    ghost view = { λ l. by_number l.numbers.entries };

    ghost invariant = { λ l. IsNumbered l.numbers.entries };
}

impl Labels {
    /// No labels.
    pub fn new(alloc: Global) -> Labels
        ensures { result ≡ [] }
    {
        Labels {
            numbers: BTreeMap::new(alloc),
        }
    }

    /// The same labels, which are owned.
    ///
    /// # Errors
    ///
    /// Out of memory is the only error.
    pub fn copied(&self) -> Result<Labels, AllocError>
        ensures { IfOk result (λ labels. labels ≡ self.now) }
    {
        let numbers = self.numbers.clone()?;
        Ok(Labels { numbers })
    }

    /// The number of a label in the list, from 0 on.
    pub fn number_of(&self, label: &str) -> Option<usize>
        ensures { result ≡ position (bytes_eq label.now) self.now }
    {
        self.numbers.get(label).copied()
    }

    /// Adds a label at the end if it is new, and says whether it is.
    ///
    /// # Errors
    ///
    /// Out of memory is the only error. The labels are as before then.
    pub fn insert(&mut self, label: String) -> Result<bool, AllocError>
        ensures labels { OnOk result (self.new ≡ with_label self.old (string_bytes label)) }
        ensures is_new { IfOk result (λ is_new. is_new ≡ not (list_any (bytes_eq (string_bytes label)) self.old)) }
        ensures unchanged { OnErr result (self.new ≡ self.old) }
    {
        if self.numbers.contains_key(label.as_str()) {
            return Ok(false);
        }
        let number = self.numbers.len();
        self.numbers.insert(label, number)?;
        Ok(true)
    }
}

// These bytes, if they are a text.
fn text_of(bytes: &[u8]) -> Option<&str>
    ensures { option_copied result ≡ text_of bytes.entry.now }
{
    match str::from_utf8(bytes) {
        Ok(text) => Some(text),
        Err(_) => None,
    }
}

/// A label as it is compared: without blanks at its ends, with one space for those inside, and with its case folded. Nothing if it is
/// no text.
///
/// # Errors
///
/// Out of memory is the only error.
pub fn normal(alloc: Global, label: &[u8]) -> Result<Option<String>, AllocError>
    ensures { IfOk result (λ out. option_map string_bytes out ≡ normal label.now) }
{
    let words = words(alloc, label)?;
    match text_of(&words) {
        None => Ok(None),
        Some(text) => {
            let folded = default_case_fold_str(alloc, text)?;
            Ok(Some(folded))
        }
    }
}

/// The number of a label among those of definitions. The first definition of a label counts.
///
/// # Errors
///
/// Out of memory is the only error.
pub fn label_index(
    alloc: Global,
    labels: &Labels,
    label: &[u8],
) -> Result<Option<usize>, AllocError>
    ensures { IfOk result (λ index. index ≡ label_index labels.now label.now) }
{
    match normal(alloc, label)? {
        None => Ok(None),
        Some(normal) => Ok(labels.number_of(normal.as_str())),
    }
}

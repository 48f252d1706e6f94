//! A line of a wrap.

ghost use Rattle.std.specs.Prelude.{◌≡◌, ◌+◌, ◌++◌, ◌∷◌, [], IfOk, OnOk};
ghost use Rattle.mad_wrap.specs.WrapLines.{capped};

use mad_md::Compound;
use std::alloc::{AllocError, Global};

/// A line of a text that was too wide.
#[derive(Debug, Drop)]
pub struct WrappedLine<'s> {
    /// Its text.
    pub compounds: Vec<Compound<'s>>,
    /// The columns of its text, `usize::MAX` where there are more.
    pub columns: usize,
}

impl<'s> WrappedLine<'s> {
    /// A line without text.
    pub(crate) fn new(alloc: Global) -> Self
        ensures empty { result.compounds.items ≡ [] }
        ensures columns { result.columns ≡ 0 }
    {
        WrappedLine {
            compounds: Vec::new(alloc),
            columns: 0,
        }
    }

    /// A line without text, which has memory for `count` compounds.
    pub(crate) fn with_capacity(alloc: Global, count: usize) -> Result<Self, AllocError>
        ensures empty { IfOk result (λ line. line.compounds.items ≡ []) }
        ensures columns { IfOk result (λ line. line.columns ≡ 0) }
    {
        Ok(WrappedLine {
            compounds: Vec::with_capacity(alloc, count)?,
            columns: 0,
        })
    }

    /// Puts a compound of `columns` columns after the others.
    pub(crate) fn add(&mut self, compound: Compound<'s>, columns: usize) -> Result<(), AllocError>
        ensures text { OnOk result (self.new.compounds.items ≡ self.old.compounds.items ++ compound.entry ∷ []) }
        ensures columns { OnOk result (self.new.columns ≡ capped (self.old.columns + columns)) }
    {
        self.compounds.push(compound)?;
        self.columns = self.columns.saturating_add(columns);
        Ok(())
    }
}

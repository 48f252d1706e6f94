//! Writing a composite in a place of some width.

ghost use Rattle.std.specs.Prelude.{◌≡◌, IfOk, IsErrOf};
ghost use Rattle.mad_term.specs.declared.errors.Error.TheVariants.{Memory};
ghost use Rattle.mad_layout.specs.FilledComposites.{IsFilled, WritesFilled};
ghost use Rattle.mad_layout.specs.RowSkins.{row_skin};

use crate::skin::MadSkin;
use mad_format::FmtComposite;
use mad_md::{Alignment, Composite};
use mad_term::{Error, Out};
use std::alloc::{AllocError, Global};

impl MadSkin {
    /// Writes a composite in a place of `width` columns, after the left margin of its style. Nothing is flushed.
    ///
    /// One that is wider is fitted first, as [`mad_format::Fitter`] does it by this alignment. One that is narrower is aligned in the
    /// place, between blanks in its style. It is never wrapped.
    ///
    /// # Errors
    ///
    /// A fault of the device; what went out by then is a beginning of the whole. Or out of memory, before the first byte.
    pub fn write_composite_fill<O: Out>(
        &self,
        alloc: Global,
        out: &mut O,
        composite: &Composite,
        width: usize,
        align: Alignment,
    ) -> Result<(), Error>
        ensures writes { WritesFilled (row_skin self.now) align width composite.now (O.seen out.old) result (O.seen out.new) }
        ensures early { IsErrOf result Memory → O.seen out.new ≡ O.seen out.old }
    {
        let filled = self.filled(alloc, composite, width, align)?;
        self.write_fmt_composite(alloc, out, &filled, None, false)
    }

    // The composite, fitted to a width and in a place as wide.
    fn filled<'s>(
        &self,
        alloc: Global,
        composite: &Composite<'s>,
        width: usize,
        align: Alignment,
    ) -> Result<FmtComposite<'s>, AllocError>
        ensures { IfOk result (IsFilled (row_skin self.now) align width composite.now) }
    {
        let copy = Composite {
            style: composite.style,
            compounds: composite.compounds.as_slice().to_vec(alloc)?,
        };
        let mut filled = FmtComposite::from(copy, self);
        filled.fill_width(width, align, self)?;
        Ok(filled)
    }
}

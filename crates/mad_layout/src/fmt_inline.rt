//! Inline texts: one line, without a width.

ghost use Rattle.std.specs.Prelude.{IfOk, Some};
ghost use Rattle.mad_draw.specs.Pieces.{pieces_bytes};
ghost use Rattle.mad_layout.specs.LaidOutTexts.{IsInlineRead};
ghost use Rattle.mad_layout.specs.RowSkins.{row_skin};

use crate::skin::MadSkin;
use mad_format::FmtComposite;
use mad_md::Composite;
use mad_rows::PlacedComposite;
use std::alloc::{AllocError, Global};
use std::fmt::{self, Display};

/// One line of text with inline marks, measured.
#[derive(Debug, Drop)]
pub struct FmtInline<'k, 's> {
    /// The styles that it is written in.
    pub skin: &'k MadSkin,
    /// The line.
    pub composite: FmtComposite<'s>,
}

impl fmt::Display for FmtInline<'_, '_> {
    ghost use Rattle.std.specs.Prelude.{None, false};
    ghost use Rattle.mad_rows.specs.Rows.{composite_pieces, margins_of};

    ghost output = { λ i. Some (pieces_bytes (composite_pieces (row_skin i.skin.now) None (margins_of (row_skin i.skin.now) None i.composite) false i.composite)) };

    fn fmt<W: fmt::Write>(&self, f: &mut fmt::Formatter<W>) -> fmt::Result {
        PlacedComposite::at(&self.skin.row_skin(), &self.composite, None, false).fmt(f)
    }
}

impl MadSkin {
    /// A line of text, its inline marks read. Only out of memory is an error.
    pub fn inline<'k, 's>(
        &'k self,
        alloc: Global,
        src: &'s str,
    ) -> Result<FmtInline<'k, 's>, AllocError>
        ensures { IfOk result (IsInlineRead self.now src.now) }
    {
        let composite = Composite::from_inline(alloc, src)?;
        Ok(FmtInline {
            skin: self,
            composite: FmtComposite::from(composite, self),
        })
    }
}

/// A line of text, its inline marks read, as [`MadSkin::inline`] makes it. Only out of memory is an error.
pub fn inline<'k, 's>(
    alloc: Global,
    skin: &'k MadSkin,
    src: &'s str,
) -> Result<FmtInline<'k, 's>, AllocError>
    ensures { IfOk result (IsInlineRead skin.now src.now) }
{
    skin.inline(alloc, src)
}

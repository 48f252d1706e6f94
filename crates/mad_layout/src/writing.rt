//! The writing calls of a skin.

ghost use Rattle.std.specs.Prelude.{◌≡◌, ◌≤◌, IsErrOf, OnOk};
ghost use Rattle.mad_term.specs.Draws.{Draws, AndFlushes};
ghost use Rattle.mad_term.specs.declared.errors.Error.TheVariants.{Memory};
ghost use Rattle.mad_measure.specs.Areas.{IsWithinLimits};
ghost use Rattle.mad_layout.specs.Headline.{ShowsHeadline};
ghost use Rattle.mad_layout.specs.InArea.{WritesInArea, ShowsText};
ghost use Rattle.mad_layout.specs.Inlines.{WritesInline};
ghost use Rattle.mad_rows.specs.Rows.{composite_bytes};
ghost use Rattle.mad_layout.specs.Sources.{LinesTakeColumns, ShowsSource};
ghost use Rattle.mad_layout.specs.RowSkins.{row_skin};

use crate::drawing::draw_text;
use crate::skin::MadSkin;
use mad_md::Composite;
use mad_measure::Area;
use mad_rows::FreeComposite;
use mad_style::CompositeKind;
use mad_term::{Error, Out, put_displayed};
use std::alloc::Global;

impl MadSkin {
    /// Writes a Markdown text in an area: its first rows, each filling the area's width, and below the last
    /// one spaces in the paragraph's style. Nothing is flushed.
    ///
    /// The area's right and bottom have to fit a `u16`. What it shows is promised from four columns on. In fewer nothing is
    /// wrapped, and a line can go past the area.
    ///
    /// # Errors
    ///
    /// A fault of the device, or out of memory. What went out by then is a beginning of the whole.
    pub fn write_in_area_on<O: Out>(
        &self,
        alloc: Global,
        out: &mut O,
        markdown: &str,
        area: &Area,
    ) -> Result<(), Error>
        requires { IsWithinLimits area.now }
        ensures writes { WritesInArea (row_skin self.now) markdown.now area.now (O.seen out.old) result (O.seen out.new) }
        ensures shown { OnOk result (4 ≤ area.now.width → ShowsText (row_skin self.now) markdown.now area.now (O.seen out.old) (O.seen out.new)) }
        ensures headline { OnOk result (4 ≤ area.now.width → ShowsHeadline (row_skin self.now) markdown.now area.now (O.seen out.old) (O.seen out.new)) }

        // The same with no premise but on the source: its lines begin as paragraphs, and each of its characters takes columns, line ends apart.
        ensures shown_source { OnOk result (4 ≤ area.now.width → LinesTakeColumns markdown.now → ShowsSource (row_skin self.now) markdown.now area.now (O.seen out.old) (O.seen out.new)) }
    {
        let text = self.area_front(alloc, markdown, area)?;
        draw_text(alloc, out, &text, area, 0, false)
    }

    /// Writes a text in an area, as [`MadSkin::write_in_area_on`] does, and flushes. The area's right and bottom have to fit a `u16`.
    ///
    /// # Errors
    ///
    /// A fault of the device, at its flush too, or out of memory. What went out by then is a beginning of the whole.
    pub fn write_in_area<O: Out>(
        &self,
        alloc: Global,
        out: &mut O,
        markdown: &str,
        area: &Area,
    ) -> Result<(), Error>
        requires { IsWithinLimits area.now }
        ensures writes { AndFlushes (WritesInArea (row_skin self.now) markdown.now area.now) (O.seen out.old) result (O.seen out.new) }
        ensures shown { OnOk result (4 ≤ area.now.width → ShowsText (row_skin self.now) markdown.now area.now (O.seen out.old) (O.seen out.new)) }
        ensures headline { OnOk result (4 ≤ area.now.width → ShowsHeadline (row_skin self.now) markdown.now area.now (O.seen out.old) (O.seen out.new)) }
        ensures shown_source { OnOk result (4 ≤ area.now.width → LinesTakeColumns markdown.now → ShowsSource (row_skin self.now) markdown.now area.now (O.seen out.old) (O.seen out.new)) }
    {
        self.write_in_area_on(alloc, out, markdown, area)?;
        out.flush()?;
        Ok(())
    }

    /// Writes a composite by itself, without a width: its style's left margin, its prefix, its compounds. Nothing is
    /// flushed.
    ///
    /// # Errors
    ///
    /// A fault of the device; what went out by then is a beginning of the whole. Or out of memory, before the first byte.
    pub fn write_composite<O: Out>(
        &self,
        alloc: Global,
        out: &mut O,
        composite: &Composite,
    ) -> Result<(), Error>
        ensures writes { Draws (O.seen out.old) (composite_bytes (row_skin self.now) composite.now) result (O.seen out.new) }
        ensures early { IsErrOf result Memory → O.seen out.new ≡ O.seen out.old }
    {
        let style = self.line_style(CompositeKind::from(composite.style));
        let free = FreeComposite {
            skin: &self.row_skin(),
            composite,
        };
        put_displayed(alloc, out, style.left_margin, &free)
    }

    /// Writes a composite, as [`MadSkin::write_composite`] does.
    ///
    /// # Errors
    ///
    /// A fault of the device; what went out by then is a beginning of the whole. Or out of memory, before the first byte.
    pub fn print_composite<O: Out>(
        &self,
        alloc: Global,
        out: &mut O,
        composite: &Composite,
    ) -> Result<(), Error>
        ensures writes { Draws (O.seen out.old) (composite_bytes (row_skin self.now) composite.now) result (O.seen out.new) }
        ensures early { IsErrOf result Memory → O.seen out.new ≡ O.seen out.old }
    {
        self.write_composite(alloc, out, composite)
    }

    /// Writes one line of text with inline marks, without a width. Nothing is flushed.
    ///
    /// # Errors
    ///
    /// A fault of the device; what went out by then is a beginning of the whole. Or out of memory, before the first byte.
    #[tactic(auto, using(crate::proofs::InlineLemmas::written))]
    pub fn write_inline_on<O: Out>(
        &self,
        alloc: Global,
        out: &mut O,
        src: &str,
    ) -> Result<(), Error>
        ensures writes { WritesInline (row_skin self.now) src.now (O.seen out.old) result (O.seen out.new) }
        ensures early { IsErrOf result Memory → O.seen out.new ≡ O.seen out.old }
    {
        let composite = Composite::from_inline(alloc, src)?;
        self.write_composite(alloc, out, &composite)
    }

    /// Writes one line of text with inline marks, as [`MadSkin::write_inline_on`] does.
    ///
    /// # Errors
    ///
    /// A fault of the device; what went out by then is a beginning of the whole. Or out of memory, before the first byte.
    pub fn print_inline<O: Out>(&self, alloc: Global, out: &mut O, src: &str) -> Result<(), Error>
        ensures writes { WritesInline (row_skin self.now) src.now (O.seen out.old) result (O.seen out.new) }
        ensures early { IsErrOf result Memory → O.seen out.new ≡ O.seen out.old }
    {
        self.write_inline_on(alloc, out, src)
    }

    /// Writes one line of text with inline marks, as [`MadSkin::write_inline_on`] does, and flushes.
    ///
    /// # Errors
    ///
    /// A fault of the device, at its flush too; what went out by then is a beginning of the whole. Or out of memory, before
    /// the first byte.
    pub fn write_inline<O: Out>(&self, alloc: Global, out: &mut O, src: &str) -> Result<(), Error>
        ensures writes { AndFlushes (WritesInline (row_skin self.now) src.now) (O.seen out.old) result (O.seen out.new) }
        ensures early { IsErrOf result Memory → O.seen out.new ≡ O.seen out.old }
    {
        self.write_inline_on(alloc, out, src)?;
        out.flush()?;
        Ok(())
    }
}

/// Writes one line of text with inline marks in a skin, as [`MadSkin::print_inline`] does.
///
/// # Errors
///
/// A fault of the device; what went out by then is a beginning of the whole. Or out of memory, before the first byte.
pub fn print_inline<O: Out>(
    alloc: Global,
    skin: &MadSkin,
    out: &mut O,
    src: &str,
) -> Result<(), Error>
    ensures writes { WritesInline (row_skin skin.now) src.now (O.seen out.old) result (O.seen out.new) }
    ensures early { IsErrOf result Memory → O.seen out.new ≡ O.seen out.old }
{
    skin.print_inline(alloc, out, src)
}

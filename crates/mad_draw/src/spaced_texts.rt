//! Texts written in a place of some columns.

ghost use Rattle.std.specs.Prelude.{◌≡◌, ℕ, length, chars, IsErrOf};
ghost use Rattle.mad_term.specs.Draws.{Draws};
ghost use Rattle.mad_term.specs.Styles.{piece_bytes};
ghost use Rattle.mad_term.specs.declared.errors.Error.TheVariants.{Memory};
ghost use Rattle.mad_style.specs.CompoundStyles.{unstyled};
ghost use Rattle.mad_measure.specs.declared.spacing.Spacing.{Spacing};
ghost use Rattle.mad_draw.specs.SpacedTexts.{spaced_text};

use crate::spaces::Spaces;
use mad_measure::{Spacing, first_chars};
use mad_style::CompoundStyle;
use mad_term::{Error, Out};
use std::alloc::Global;

/// The writing calls of a [`Spacing`], which is measured without a terminal.
pub trait WriteSpaced {
    /// The place that texts are written in.
    ghost place: { Self → Spacing };

    /// Writes a text that is counted as `str_width` columns, as one piece: between its completions, or its first characters
    /// where there is no column left, as many as there are columns.
    ///
    /// # Errors
    ///
    /// A fault of the device, or out of memory before anything went out.
    fn write_counted_str<O: Out>(
        &self,
        alloc: Global,
        out: &mut O,
        s: &str,
        str_width: usize,
        style: &CompoundStyle,
    ) -> Result<(), Error>
        ensures writes { Draws (O.seen out.old) (piece_bytes style.now.object_style (spaced_text (place self.now) s.now str_width)) result (O.seen out.new) }
        ensures early { IsErrOf result Memory → O.seen out.new ≡ O.seen out.old };

    /// Writes a text so, counting its characters.
    ///
    /// # Errors
    ///
    /// A fault of the device, or out of memory before anything went out.
    fn write_str<O: Out>(
        &self,
        alloc: Global,
        out: &mut O,
        s: &str,
        style: &CompoundStyle,
    ) -> Result<(), Error>
        ensures writes { Draws (O.seen out.old) (piece_bytes style.now.object_style (spaced_text (place self.now) s.now (length (chars s.now)))) result (O.seen out.new) }
        ensures early { IsErrOf result Memory → O.seen out.new ≡ O.seen out.old };
}

impl WriteSpaced for Spacing {
    ghost place = { λ spacing. spacing };

    #[tactic(auto, using(mad_term::proofs::QueueExits::memory_first))]
    fn write_counted_str<O: Out>(
        &self,
        alloc: Global,
        out: &mut O,
        s: &str,
        str_width: usize,
        style: &CompoundStyle,
    ) -> Result<(), Error> {
        if str_width >= self.width {
            let (front, _count) = first_chars(s, self.width);
            return style.queue_str(alloc, out, front);
        }
        let (left, right) = self.completions_for(str_width);
        let left = unstyled_spaces(left);
        let right = unstyled_spaces(right);
        let mut text = String::new(alloc);
        text.reserve(self.width - str_width)?;
        write!(text, "{left}{s}{right}")?;
        style.queue_str(alloc, out, &text)
    }

    fn write_str<O: Out>(
        &self,
        alloc: Global,
        out: &mut O,
        s: &str,
        style: &CompoundStyle,
    ) -> Result<(), Error> {
        self.write_counted_str(alloc, out, s, s.chars().count(), style)
    }
}

// Spaces without style.
fn unstyled_spaces(count: usize) -> Spaces
    ensures { result ≡ record { style = unstyled; count = count } }
{
    Spaces {
        style: CompoundStyle::default(),
        count,
    }
}

//! Where a text is in a wider place.

ghost use Rattle.std.specs.Prelude.{◌≡◌, ◌-◌, MatchOption};
ghost use Rattle.mad_md.specs.declared.alignment.Alignment.TheVariants.{Center};
ghost use Rattle.mad_measure.specs.Completions.{Completes};

use mad_md::Alignment;

/// A width in columns, and how a text that is narrower is placed in it.
#[derive(Clone, Copy, Debug)]
pub struct Spacing {
    /// The columns of the place.
    pub width: usize,
    /// Where in them the text is.
    pub align: Alignment,
}

impl Spacing {
    /// The blank columns (left, right) that fill a place of `outer_width` columns round a text of `inner_width`.
    ///
    /// A centered text has the odd column on its right; one without alignment is on the left. Both are 0 where the
    /// text doesn't leave any column.
    pub fn completions(align: Alignment, inner_width: usize, outer_width: usize) -> (usize, usize)
        ensures { Completes align inner_width outer_width result }
    {
        let rest = outer_width.saturating_sub(inner_width);
        match align {
            Alignment::Unspecified | Alignment::Left => (0, rest),
            Alignment::Center => (rest / 2, rest - rest / 2),
            Alignment::Right => (rest, 0),
        }
    }

    /// The completions in a place of that width; (0, 0) without a width.
    pub fn optional_completions(
        align: Alignment,
        inner_width: usize,
        outer_width: Option<usize>,
    ) -> (usize, usize)
        ensures { MatchOption outer_width ((result.0 ≡ 0) × (result.1 ≡ 0)) (λ outer. Completes align inner_width outer result) }
    {
        match outer_width {
            Some(outer_width) => Self::completions(align, inner_width, outer_width),
            None => (0, 0),
        }
    }

    /// The completions of a text of `inner_width` columns in this place.
    pub fn completions_for(&self, inner_width: usize) -> (usize, usize)
        ensures { Completes self.now.align inner_width self.now.width result }
    {
        Self::completions(self.align, inner_width, self.width)
    }
}

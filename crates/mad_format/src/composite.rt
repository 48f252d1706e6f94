//! Composites with their measured length.

ghost use Rattle.std.specs.Prelude.{◌≡◌, ◌+◌, ◌<◌, ◌≤◌, ◌++◌, ◌∷◌, [], IsOk, IfOk, OnOk, OnErr, MatchOption};
ghost use Rattle.mad_measure.specs.TextColumns.{width_of};
ghost use Rattle.mad_measure.specs.Completions.{Completes};
ghost use Rattle.mad_md.specs.Flagged.{flagged_of};
ghost use Rattle.mad_md.specs.Lines.{styled_runs};
ghost use Rattle.mad_md.specs.TypedLines.{IsTypedText};
ghost use Rattle.mad_format.specs.Fitting.{extended};

use crate::fitter::Fitter;
use crate::indents::composite_columns;
use crate::line_skin::LineSkin;
use mad_md::typed_texts::typed_composite;
use mad_md::{Alignment, Composite, Compound};
use mad_measure::{Spacing, columns};
use mad_style::CompositeKind;
use std::alloc::{AllocError, Global};

/// A line of compounds, with the columns that it takes.
#[derive(Debug, Drop)]
pub struct FmtComposite<'s> {
    /// What kind of line it is, which decides its indent and its style.
    pub kind: CompositeKind,
    /// Its text.
    pub compounds: Vec<Compound<'s>>,
    /// The columns of its indent and its text, `usize::MAX` where there are more.
    pub visible_length: usize,
    /// The place that it is to fill, and how it is aligned in it. Without one it takes the columns of its text.
    pub spacing: Option<Spacing>,
    /// The blank columns (left, right) that its layout left beside it. Without these it has its style's margins where it is written.
    pub margins: Option<(usize, usize)>,
}

impl<'s> FmtComposite<'s> {
    ghost use Rattle.mad_style.specs.Kinds.{kind_of};
    ghost use Rattle.mad_format.specs.Fitting.{IsCompositeFitted, IsCompositeReplaced};
    ghost use Rattle.mad_format.specs.Wraps.{IsMeasured};
    ghost use Rattle.mad_wrap.specs.WrapLines.{capped};

    /// An empty paragraph.
    pub fn new(alloc: Global) -> Self
        ensures kind { result.kind ≡ CompositeKind.Paragraph }
        ensures empty { result.compounds.items ≡ [] }
        ensures length { result.visible_length ≡ 0 }
        ensures spacing { result.spacing ≡ None }
        ensures margins { result.margins ≡ None }
    {
        FmtComposite {
            kind: CompositeKind::Paragraph,
            compounds: Vec::new(alloc),
            visible_length: 0,
            spacing: None,
            margins: None,
        }
    }

    /// A composite as it was read, measured with the indent that it has in this skin. What types promise of what was read is said.
    pub fn from<S: LineSkin>(composite: Composite<'s>, skin: &S) -> Self
        ensures kind { result.kind ≡ kind_of composite.entry.style }
        ensures text { result.compounds.items ≡ composite.entry.compounds.items }
        ensures measured { IsMeasured (S.rules skin.now) result }
        ensures spacing { result.spacing ≡ None }
        ensures margins { result.margins ≡ None }
        ensures typed { IsTypedText (styled_runs composite.entry) }
    {
        typed_composite(&composite);
        let Composite { style, compounds } = composite;
        let kind = CompositeKind::from(style);
        let visible_length = composite_columns(skin.items_indentation(), kind, &compounds);
        FmtComposite {
            kind,
            compounds,
            visible_length,
            spacing: None,
            margins: None,
        }
    }

    /// A paragraph of one compound. Only out of memory is an error.
    pub fn from_compound(alloc: Global, compound: Compound<'s>) -> Result<Self, AllocError>
        ensures kind { IfOk result (λ l. l.kind ≡ CompositeKind.Paragraph) }
        ensures text { IfOk result (λ l. l.compounds.items ≡ compound.entry ∷ []) }
        ensures length { IfOk result (λ l. l.visible_length ≡ capped (width_of (flagged_of compound.entry))) }
        ensures spacing { IfOk result (λ l. l.spacing ≡ None) }
        ensures margins { IfOk result (λ l. l.margins ≡ None) }
    {
        let mut composite = Self::new(alloc);
        composite.add_compound(compound)?;
        Ok(composite)
    }

    /// A copy, which borrows the same texts. Only out of memory is an error.
    pub fn try_clone(&self, alloc: Global) -> Result<Self, AllocError>
        ensures kind { IfOk result (λ l. l.kind ≡ self.now.kind) }
        ensures text { IfOk result (λ l. l.compounds.items ≡ self.now.compounds.items) }
        ensures length { IfOk result (λ l. l.visible_length ≡ self.now.visible_length) }
        ensures spacing { IfOk result (λ l. l.spacing ≡ self.now.spacing) }
        ensures margins { IfOk result (λ l. l.margins ≡ self.now.margins) }
    {
        Ok(FmtComposite {
            kind: self.kind,
            compounds: self.compounds.as_slice().to_vec(alloc)?,
            visible_length: self.visible_length,
            spacing: self.spacing,
            margins: self.margins,
        })
    }

    /// The blank columns (left, right) that fill its place, by its cached length; none where it has no spacing.
    pub fn completions(&self) -> (usize, usize)
        ensures { MatchOption self.now.spacing ((result.0 ≡ 0) × (result.1 ≡ 0)) (λ s. Completes s.align self.now.visible_length s.width result) }
    {
        match &self.spacing {
            Some(place) => place.completions_for(self.visible_length),
            None => (0, 0),
        }
    }

    /// The composite in this place, whatever place it had.
    pub fn in_place(self, place: Spacing) -> Self
        ensures { result ≡ record self.entry { spacing = Some place } }
    {
        let mut placed = self;
        placed.spacing = Some(place);
        placed
    }

    /// Measures it again, with the indent that it has in this skin.
    pub fn recompute_width<S: LineSkin>(&mut self, skin: &S)
        ensures measured { IsMeasured (S.rules skin.now) self.new }
        ensures kind { self.new.kind ≡ self.old.kind }
        ensures text { self.new.compounds.items ≡ self.old.compounds.items }
        ensures spacing { self.new.spacing ≡ self.old.spacing }
        ensures margins { self.new.margins ≡ self.old.margins }
    {
        let columns = composite_columns(skin.items_indentation(), self.kind, &self.compounds);
        self.visible_length = columns;
    }

    /// Puts a compound after the others, and its columns into the cached length. Only out of memory is an error, and
    /// leaves both as they were.
    pub fn add_compound(&mut self, compound: Compound<'s>) -> Result<(), AllocError>
        ensures text { OnOk result (self.new.compounds.items ≡ self.old.compounds.items ++ compound.entry ∷ []) }
        ensures length { OnOk result (self.new.visible_length ≡ capped (self.old.visible_length + width_of (flagged_of compound.entry))) }
        ensures err { OnErr result ((self.new.compounds.items ≡ self.old.compounds.items) × (self.new.visible_length ≡ self.old.visible_length)) }
        ensures kind { self.new.kind ≡ self.old.kind }
        ensures spacing { self.new.spacing ≡ self.old.spacing }
        ensures margins { self.new.margins ≡ self.old.margins }
    {
        let columns = columns(compound.src);
        self.compounds.push(compound)?;
        self.visible_length = self.visible_length.saturating_add(columns);
        Ok(())
    }

    /// Fits it to a width by an alignment, as a [`Fitter`] of that does. Only out of memory is an error, and leaves it as it was.
    pub fn fit_width<S: LineSkin>(
        &mut self,
        width: usize,
        align: Alignment,
        skin: &S,
    ) -> Result<(), AllocError>
        ensures fits { self.old.visible_length ≤ width → IsOk result × (self.new ≡ self.old) }
        ensures fitted { width < self.old.visible_length → IsMeasured (S.rules skin.now) self.old
            → OnOk result (IsCompositeFitted (S.rules skin.now) align width self.old self.new) }

        // How that is, exactly, at each width but 0 and 1.
        ensures replaced { 2 ≤ width → width < self.old.visible_length → IsMeasured (S.rules skin.now) self.old
            → OnOk result (IsCompositeReplaced (S.rules skin.now) align width self.old self.new) }
        ensures measured { width < self.old.visible_length → OnOk result (IsMeasured (S.rules skin.now) self.new) }
        ensures kind { self.new.kind ≡ self.old.kind }
        ensures spacing { self.new.spacing ≡ self.old.spacing }
        ensures margins { self.new.margins ≡ self.old.margins }
        ensures err { OnErr result (self.new ≡ self.old) }
    {
        Fitter::for_align(align).fit(self, width, skin)
    }

    /// Makes its place at least this wide, aligned so. Without a place it gets one, if it is narrower than that.
    pub fn extend_width(&mut self, width: usize, align: Alignment)
        ensures { self.new ≡ record self.old { spacing = extended self.old.spacing self.old.visible_length width align } }
    {
        self.spacing = extended(self.spacing, self.visible_length, width, align);
    }

    /// Fits it to a width, and then makes its place as wide. Only out of memory is an error, and leaves it as it was.
    pub fn fill_width<S: LineSkin>(
        &mut self,
        width: usize,
        align: Alignment,
        skin: &S,
    ) -> Result<(), AllocError>
        ensures fits { self.old.visible_length ≤ width
            → IsOk result × (self.new ≡ record self.old { spacing = extended self.old.spacing self.old.visible_length width align }) }
        ensures fitted { width < self.old.visible_length → IsMeasured (S.rules skin.now) self.old
            → OnOk result (IsCompositeFitted (S.rules skin.now) align width self.old self.new) }

        // How that is, exactly, at each width but 0 and 1.
        ensures replaced { 2 ≤ width → width < self.old.visible_length → IsMeasured (S.rules skin.now) self.old
            → OnOk result (IsCompositeReplaced (S.rules skin.now) align width self.old self.new) }
        ensures measured { width < self.old.visible_length → OnOk result (IsMeasured (S.rules skin.now) self.new) }
        ensures kind { self.new.kind ≡ self.old.kind }
        ensures spacing { OnOk result (self.new.spacing ≡ extended self.old.spacing self.new.visible_length width align) }
        ensures margins { self.new.margins ≡ self.old.margins }
        ensures err { OnErr result (self.new ≡ self.old) }
    {
        self.fit_width(width, align, skin)?;
        self.extend_width(width, align);
        Ok(())
    }
}

// A place made at least `width` wide, for a text of this length. Where there is none, a text that is narrower gets one.
fn extended(
    spacing: Option<Spacing>,
    length: usize,
    width: usize,
    align: Alignment,
) -> Option<Spacing>
    ensures { result ≡ extended spacing length width align }
{
    match spacing {
        Some(place) => Some(Spacing {
            width: place.width.max(width),
            align,
        }),
        None if length < width => Some(Spacing { width, align }),
        None => None,
    }
}

//! Composites as displayed values: piece by piece, without memory.

ghost use Rattle.std.specs.Prelude.{◌≡◌, ◌+◌, Some};
ghost use Rattle.mad_draw.specs.Pieces.{pieces_bytes};
ghost use Rattle.mad_rows.specs.Rows.{prefix_pieces};
ghost use Rattle.mad_wrap.specs.WrapLines.{capped};

use crate::row_skin::{RowSkin, is_bare};
use crate::rows::{RowPlace, blanks_beside, inner_blanks, margins_of};
use mad_draw::{SingleSpaces, Spaces};
use mad_format::{FmtComposite, indent_of};
use mad_md::{Composite, Compound};
use mad_style::{CompositeKind, LineStyle};
use mad_term::StyledNumber;
use std::fmt::{self, Display};

/// What is in front of a line's text.
#[derive(Clone, Copy)]
pub struct Prefix<'a> {
    /// The skin of the row.
    pub skin: &'a RowSkin,
    /// What the line is.
    pub kind: CompositeKind,
}

impl Prefix<'_> {
    fn spaces(&self, count: usize) -> SingleSpaces
        ensures { result ≡ record { style = self.now.skin.now.paragraph.compound_style; count = count } }
    {
        SingleSpaces {
            style: self.skin.paragraph.compound_style,
            count,
        }
    }
}

impl fmt::Display for Prefix<'_> {
    ghost output = { λ m. Some (pieces_bytes (prefix_pieces m.skin.now m.kind)) };

    fn fmt<W: fmt::Write>(&self, f: &mut fmt::Formatter<W>) -> fmt::Result {
        let space = self.spaces(1);
        match self.kind {
            CompositeKind::ListItem(depth) => {
                let depth = self.spaces(depth as usize);
                let bullet = self.skin.bullet;
                write!(f, "{depth}{bullet}{space}")
            }
            CompositeKind::OrderedListItem { level, index } => {
                let style = self.skin.ordered_item_style(level);
                let depth = self.spaces(level as usize);
                let number = StyledNumber {
                    style: style.index_style.object_style,
                    number: index,
                };
                let suffix = style.index_suffix;
                write!(f, "{depth}{number}{suffix}{space}")
            }
            CompositeKind::ListItemFollowUp(_) | CompositeKind::OrderedListItemFollowUp { .. } => {
                let mode = self.skin.list_items_indentation_mode;
                let indent = self.spaces(indent_of(self.kind, mode));
                indent.fmt(f)
            }
            CompositeKind::Quote => {
                let mark = self.skin.quote_mark;
                write!(f, "{mark}{space}")
            }
            CompositeKind::Paragraph | CompositeKind::Header(_) | CompositeKind::Code => Ok(()),
        }
    }
}

/// What is in front of a composite's compounds in its row: blanks outside of its place and in it, and its prefix.
#[derive(Clone, Copy)]
pub struct CompositeFront<'a> {
    /// The skin, in whose paragraphs' style the blanks outside are.
    pub skin: &'a RowSkin,
    /// The style of the composite's line.
    pub style: &'a LineStyle,
    /// What the composite is.
    pub kind: CompositeKind,
    /// The blank columns outside of its place.
    pub outer: usize,
    /// Those in it.
    pub inner: usize,
}

impl CompositeFront<'_> {
    /// The columns of its blanks.
    pub fn columns(&self) -> usize
        ensures { result ≡ capped (self.now.outer + self.now.inner) }
    {
        self.outer.saturating_add(self.inner)
    }
}

impl fmt::Display for CompositeFront<'_> {
    ghost use Rattle.std.specs.Prelude.{◌++◌};
    ghost use Rattle.mad_draw.specs.Pieces.{spaces};

    ghost output = { λ c. Some (pieces_bytes (spaces c.skin.now.paragraph.compound_style c.outer ++ (spaces c.style.now.compound_style c.inner ++ prefix_pieces c.skin.now c.kind))) };

    fn fmt<W: fmt::Write>(&self, f: &mut fmt::Formatter<W>) -> fmt::Result {
        let outer = self.skin.blanks(self.outer);
        let inner = Spaces {
            style: self.style.compound_style,
            count: self.inner,
        };
        let prefix = Prefix {
            skin: self.skin,
            kind: self.kind,
        };
        outer.fmt(f)?;
        inner.fmt(f)?;
        prefix.fmt(f)
    }
}

/// What is after a composite's compounds in its row: blanks in its place, and outside of it.
#[derive(Clone, Copy)]
pub struct CompositeEnd<'a> {
    /// The skin, in whose paragraphs' style the blanks outside are.
    pub skin: &'a RowSkin,
    /// The style of the composite's line.
    pub style: &'a LineStyle,
    /// The blank columns in its place.
    pub inner: usize,
    /// Those outside of it.
    pub outer: usize,
}

impl CompositeEnd<'_> {
    /// The columns of its blanks.
    pub(crate) fn columns(&self) -> usize
        ensures { result ≡ capped (self.now.inner + self.now.outer) }
    {
        self.inner.saturating_add(self.outer)
    }
}

impl fmt::Display for CompositeEnd<'_> {
    ghost use Rattle.std.specs.Prelude.{◌++◌};
    ghost use Rattle.mad_draw.specs.Pieces.{spaces};

    ghost output = { λ c. Some (pieces_bytes (spaces c.style.now.compound_style c.inner ++ spaces c.skin.now.paragraph.compound_style c.outer)) };

    fn fmt<W: fmt::Write>(&self, f: &mut fmt::Formatter<W>) -> fmt::Result {
        let inner = Spaces {
            style: self.style.compound_style,
            count: self.inner,
        };
        let outer = self.skin.blanks(self.outer);
        inner.fmt(f)?;
        outer.fmt(f)
    }
}

/// A compound in a line of that style.
#[derive(Clone, Copy)]
pub struct PlacedCompound<'a, 's> {
    /// The skin of the row.
    pub skin: &'a RowSkin,
    /// The style of its line.
    pub style: &'a LineStyle,
    /// The compound.
    pub compound: &'a Compound<'s>,
}

impl fmt::Display for PlacedCompound<'_, '_> {
    ghost use Rattle.mad_term.specs.Styles.{piece_bytes};
    ghost use Rattle.mad_rows.specs.Rows.{compound_piece};

    ghost output = { λ c. Some (piece_bytes (compound_piece c.skin.now c.style.now c.compound.now).style (compound_piece c.skin.now c.style.now c.compound.now).text) };

    fn fmt<W: fmt::Write>(&self, f: &mut fmt::Formatter<W>) -> fmt::Result {
        let style = self.skin.compound_style(self.style, self.compound);
        let piece = style.apply_to(self.compound.src);
        piece.fmt(f)
    }
}

// The compounds of a line of that style.
#[derive(Clone, Copy)]
struct Compounds<'a, 's> {
    skin: &'a RowSkin,
    style: &'a LineStyle,
    compounds: &'a [Compound<'s>],
}

impl fmt::Display for Compounds<'_, '_> {
    ghost use Rattle.std.specs.Prelude.{map};
    ghost use Rattle.mad_rows.specs.Rows.{compound_piece};

    ghost output = { λ c. Some (pieces_bytes (map (compound_piece c.skin.now c.style.now) c.compounds.now)) };

    fn fmt<W: fmt::Write>(&self, f: &mut fmt::Formatter<W>) -> fmt::Result {
        // Most compounds have no style, and need no commands.
        let unstyled = self.style.compound_style.object_style.is_unstyled();
        for compound in self.compounds {
            if unstyled && is_bare(compound) {
                f.write_str(compound.src)?;
                continue;
            }
            let placed = PlacedCompound {
                skin: self.skin,
                style: self.style,
                compound,
            };
            placed.fmt(f)?;
        }
        Ok(())
    }
}

/// A composite at its place in a row.
#[derive(Clone, Copy)]
pub struct PlacedComposite<'a, 's> {
    /// The skin that it is drawn in.
    pub skin: &'a RowSkin,
    /// The composite.
    pub composite: &'a FmtComposite<'s>,
    /// Where it is in the row.
    pub place: RowPlace,
}

impl<'a, 's> PlacedComposite<'a, 's> {
    ghost use Rattle.mad_rows.specs.Rows.{blanks_beside, inner_blanks, margins_of};

    /// A composite at an outer width, with its margins there; where `filled` is set, the columns right of it are filled up.
    pub fn at(
        skin: &'a RowSkin,
        composite: &'a FmtComposite<'s>,
        outer: Option<usize>,
        filled: bool,
    ) -> Self
        ensures { result ≡ record { skin = skin.entry; composite = composite.entry; place = record { outer = outer; margins = margins_of skin.now outer composite.now; filled = filled } } }
    {
        let margins = margins_of(skin, composite, outer);
        PlacedComposite {
            skin,
            composite,
            place: RowPlace {
                outer,
                margins,
                filled,
            },
        }
    }

    /// What is in front of its compounds, and what is after them. Its line's style is given.
    pub fn ends(&self, style: &'a LineStyle) -> (CompositeFront<'a>, CompositeEnd<'a>)
        ensures front { let beside = blanks_beside style.now.align self.now.place.outer self.now.place.margins self.now.place.filled self.now.composite.now in
            result.0 ≡ record { skin = self.now.skin; style = style.entry; kind = self.now.composite.now.kind; outer = beside.0; inner = (inner_blanks self.now.composite.now).0 } }
        ensures end { let beside = blanks_beside style.now.align self.now.place.outer self.now.place.margins self.now.place.filled self.now.composite.now in
            result.1 ≡ record { skin = self.now.skin; style = style.entry; inner = (inner_blanks self.now.composite.now).1; outer = beside.1 } }
    {
        let PlacedComposite {
            skin,
            composite,
            place,
        } = *self;
        let (left, right) = blanks_beside(composite, style.align, place);
        let (inner_left, inner_right) = inner_blanks(composite);
        let front = CompositeFront {
            skin,
            style,
            kind: composite.kind,
            outer: left,
            inner: inner_left,
        };
        let end = CompositeEnd {
            skin,
            style,
            inner: inner_right,
            outer: right,
        };
        (front, end)
    }
}

impl fmt::Display for PlacedComposite<'_, '_> {
    ghost use Rattle.mad_rows.specs.Rows.{composite_pieces};

    ghost output = { λ c. Some (pieces_bytes (composite_pieces c.skin.now c.place.outer c.place.margins c.place.filled c.composite.now)) };

    fn fmt<W: fmt::Write>(&self, f: &mut fmt::Formatter<W>) -> fmt::Result {
        let style = self.skin.line_style(self.composite.kind);
        let (front, end) = self.ends(style);
        let compounds = Compounds {
            skin: self.skin,
            style,
            compounds: &self.composite.compounds,
        };
        front.fmt(f)?;
        compounds.fmt(f)?;
        end.fmt(f)
    }
}

/// A composite that is by itself: its style's left margin, its prefix and its compounds.
#[derive(Clone, Copy)]
pub struct FreeComposite<'a, 's> {
    /// The skin that it is drawn in.
    pub skin: &'a RowSkin,
    /// The composite.
    pub composite: &'a Composite<'s>,
}

impl fmt::Display for FreeComposite<'_, '_> {
    ghost use Rattle.mad_rows.specs.Rows.{composite_bytes};

    ghost output = { λ c. Some (composite_bytes c.skin.now c.composite.now) };

    fn fmt<W: fmt::Write>(&self, f: &mut fmt::Formatter<W>) -> fmt::Result {
        let kind = CompositeKind::from(self.composite.style);
        let style = self.skin.line_style(kind);
        let margin = self.skin.blanks(style.left_margin);
        let prefix = Prefix {
            skin: self.skin,
            kind,
        };
        let compounds = Compounds {
            skin: self.skin,
            style,
            compounds: &self.composite.compounds,
        };
        write!(f, "{margin}{prefix}{compounds}")
    }
}

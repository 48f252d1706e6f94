//! What types promise of a text, whoever made it. Each function here does nothing, and only says so.

ghost use Rattle.std.specs.Prelude.{map};
ghost use Rattle.std.specs.List.{AllByRecursion};
ghost use Rattle.mad_md.specs.Flagged.{run_of};
ghost use Rattle.mad_md.specs.Lines.{content_of, contents, styled_runs};
ghost use Rattle.mad_md.specs.TypedLines.{IsTypedLine, IsTypedRun, IsTypedStyle, IsTypedText};

use crate::composite::{Composite, CompositeStyle};
use crate::compound::Compound;
use crate::line::Line;
use crate::text::Text;

/// The lines of a text, read or made. Their text is UTF-8, and the number of an item is below 2^32.
pub fn typed_text(text: &Text<'_>)
    ensures { AllByRecursion IsTypedLine (contents text.now) }
{
    typed_lines(&text.lines);
}

fn typed_lines(lines: &[Line<'_>])
    ensures { AllByRecursion IsTypedLine (map content_of lines.now) }
{
    let mut rest = lines;
    while let [line, next @ ..] = rest {
        typed_line(line);
        rest = next;
    }
}

fn typed_line(line: &Line<'_>)
    ensures { IsTypedLine (content_of line.now) }
{
    match line {
        Line::Normal(composite) => typed_composite(composite),
        Line::TableRow(row) => typed_composites(&row.cells),
        Line::TableRule(_) | Line::HorizontalRule => {}
    }
}

fn typed_composites(composites: &[Composite<'_>])
    ensures { AllByRecursion IsTypedText (map styled_runs composites.now) }
{
    let mut rest = composites;
    while let [composite, next @ ..] = rest {
        typed_composite(composite);
        rest = next;
    }
}

/// A composite, read or made. Its text is UTF-8, and its number, if it is an item with one, is below 2^32.
pub fn typed_composite(composite: &Composite<'_>)
    ensures { IsTypedText (styled_runs composite.now) }
{
    typed_style(composite.style);
    typed_compounds(&composite.compounds);
}

fn typed_style(style: CompositeStyle)
    ensures { IsTypedStyle style }
{}

fn typed_compounds(compounds: &[Compound<'_>])
    ensures { AllByRecursion IsTypedRun (map run_of compounds.now) }
{
    let mut rest = compounds;
    while let [compound, next @ ..] = rest {
        typed_compound(compound);
        rest = next;
    }
}

fn typed_compound(compound: &Compound<'_>)
    ensures { IsTypedRun (run_of compound.now) }
{
    let _text = compound.src;
}

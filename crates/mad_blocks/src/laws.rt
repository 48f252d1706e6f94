//! Laws, each the contract of a small function: what the layout of given tables is, what is no layout, and that a layout part by part is
//! what three passes make.

ghost use Rattle.mad_format.specs.CompositeWraps.{IsCompositeWrap};
ghost use Rattle.mad_blocks.specs.FittingLayouts.{IsFittingWrap};
ghost use Rattle.mad_blocks.specs.LayoutExamples.{LastLinesWidthIsRefused, LongLineLeftIsRefused, MarginsTestedAgainAreRefused};
ghost use Rattle.mad_blocks.specs.LayoutLaws.{PassesAreParts, PartsArePasses};
ghost use Rattle.mad_blocks.specs.TableLaws.{AreWorkedTables, AreNoTables, AreNoRules};

/// A layout part by part is what three passes over all lines make one after the other: tables, then blocks of code, then wrapping.
pub fn passes_are_parts()
    // What the passes make is a layout, where each wrap has the fewest lines.
    ensures passes { PassesAreParts IsCompositeWrap }

    // Each such layout is one that they make.
    ensures parts { PartsArePasses IsCompositeWrap }

    // So it is where wraps only have to fit.
    ensures fitting_passes { PassesAreParts IsFittingWrap }
    ensures fitting_parts { PartsArePasses IsFittingWrap }
{}

/// None of these lines is a layout: a definition that got weaker would let one through.
pub fn wrong_layouts()
    ensures margins_tested_again { MarginsTestedAgainAreRefused }
    ensures long_line_left { LongLineLeftIsRefused }
    ensures last_lines_width { LastLinesWidthIsRefused }
{}

/// The definition of a table's layout gives worked tables their widths.
#[tactic(auto, using(crate::proofs::WorkedTables::worked_tables))]
pub fn worked_tables()
    ensures { AreWorkedTables }
{}

/// Widths are not a table's where their sum is one too few, or where a column is dropped that has room. Rows are not a row's where a line
/// is in another column, cells are missing or too many, or a cell has another place.
#[tactic(auto, using(crate::proofs::WorkedTables::no_tables))]
pub fn other_tables_are_refused()
    ensures { AreNoTables }
{}

/// A first rule of a table that isn't on top, a last one that isn't at the bottom, and one between others that is on top or at the
/// bottom, are no layout of it.
pub fn rules_elsewhere_are_refused()
    ensures least { AreNoRules IsCompositeWrap }
    ensures fitting { AreNoRules IsFittingWrap }
{}

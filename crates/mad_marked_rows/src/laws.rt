//! What callers rely on: laws, each a function that does nothing and states it.

ghost use Rattle.mad_marked_rows.specs.LinkLaws.{LinesAreTheSame, LinkedCellsAreTold, LinksAreInTheirCells, LinksAreOnMarks, NoAddressNoByte};
ghost use Rattle.mad_marked_rows.specs.RowLaws.{MarksChangeNothingTold, MarksFillAsNone, NoRunsNoChange};
ghost use Rattle.mad_marked_rows.specs.SeenLaws.{SeenAreShown};
ghost use Rattle.mad_marked_rows.specs.ToneLaws.{TonesChangeForegroundsAlone};

/// What a plain terminal shows of a line with marks is what it shows of the line without, but for what they make of styles.
#[tactic(auto, using(crate::proofs::LawLemmas::line_told))]
pub fn marks_change_nothing_told()
    ensures { MarksChangeNothingTold }
{}

/// Where a line fills a row, it does so with marks.
#[tactic(auto, using(crate::proofs::LawLemmas::line_fills))]
pub fn marks_fill_as_none()
    ensures { MarksFillAsNone }
{}

/// Without runs a line is as it is without marks.
#[tactic(auto, using(crate::proofs::UnmarkedLemmas::line_unmarked))]
pub fn no_runs_no_change()
    ensures { NoRunsNoChange }
{}

/// Without its links a line is what it is with its tones alone.
#[tactic(auto, using(crate::proofs::LinkLawLemmas::line_without))]
pub fn links_are_on_marks()
    ensures { LinksAreOnMarks }
{}

/// Without an address the bytes are those of the tones alone.
#[tactic(auto, using(crate::proofs::LinkLawLemmas::line_unaddressed))]
pub fn no_address_no_byte()
    ensures { NoAddressNoByte }
{}

/// A terminal that passes over links ends as the plain one does that reads the line with its tones alone.
#[tactic(auto, using(crate::proofs::LinkLawLemmas::line_same))]
pub fn lines_are_the_same()
    ensures { LinesAreTheSame }
{}

/// A line writes its cells, each with the link of its part, and leaves none open.
#[tactic(auto, using(crate::proofs::LinkLawLemmas::line_leads))]
pub fn links_are_in_their_cells()
    ensures { LinksAreInTheirCells }
{}

/// These cells are those of the line without marks, but for what marks make of styles.
#[tactic(auto, using(crate::proofs::LinkLawLemmas::linked_told))]
pub fn linked_cells_are_told()
    ensures { LinkedCellsAreTold }
{}

/// Where tones set a foreground alone, the cells of a line with tones are, but for their foregrounds, those of the line without.
pub fn tones_change_foregrounds_alone()
    ensures { TonesChangeForegroundsAlone }
{}

/// The characters of a composite, each in its style, are those that its row shows with its marks.
#[tactic(auto, using(crate::proofs::ShownLemmas::seen_shown))]
pub fn seen_are_shown()
    ensures { SeenAreShown }
{}

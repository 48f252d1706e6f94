//! Laws, each the contract of a small function: what is shown of a text in pieces is what is shown of the whole.

ghost use Rattle.markdown_stream.specs.Laws.{PartsComeInTurn, SectionsComeInTurn, CutsDontMatter, KnownIsWhole, AlikeIsWhole, KnownHasLinks, UndefinedIsWhole, DefinedInFrontIsWhole, WithoutWordsIsSame, RowsAreThoseOfTheWhole, NothingIsHeld, LinesComeInTurn, LeavesEndEarly, CutsDontMatterToLinks, KnownIsWrittenWhole, OpenIsStreamed};

/// Whatever comes after some lines, the parts that they complete are the first ones of the text.
#[tactic(auto, using(crate::proofs::ReadingLemmas::parts_come_in_turn))]
pub fn parts_come_in_turn()
    ensures { PartsComeInTurn }
{}

/// Parts that were shown change nothing of what is shown after them but by what goes on.
#[tactic(auto, using(crate::proofs::MappingLemmas::sections_come_in_turn))]
pub fn sections_come_in_turn()
    ensures { SectionsComeInTurn }
{}

/// Wherever lines are parted into groups, the sections that are shown of the groups are those of the text.
#[tactic(auto, using(crate::proofs::StreamingLemmas::cuts_dont_matter))]
pub fn cuts_dont_matter()
    ensures { CutsDontMatter }
{}

/// Where each part says the same by the definitions that came up to it, and by those that its words name, as by all, a text in pieces is shown as the whole.
#[tactic(auto, using(crate::proofs::KnownLemmas::known_is_whole))]
pub fn known_is_whole()
    ensures { KnownIsWhole }
{}

/// It is enough that each part shows the same, but for where its links lead.
#[tactic(auto, using(crate::proofs::KnownLemmas::alike_is_whole))]
pub fn alike_is_whole()
    ensures { AlikeIsWhole }
{}

/// Where each part says the same, the links of a text in pieces are those of the whole, too.
#[tactic(auto, using(crate::proofs::KnownLemmas::known_has_links))]
pub fn known_has_links()
    ensures { KnownHasLinks }
{}

/// A part without words says the same by any definitions.
#[tactic(auto, using(crate::proofs::KnownLemmas::without_words))]
pub fn without_words_is_same()
    ensures { WithoutWordsIsSame }
{}

/// A text without definitions is shown as the whole, where its words name none by their shape.
#[tactic(auto, using(crate::proofs::KnownLemmas::undefined_is_whole))]
pub fn undefined_is_whole()
    ensures { UndefinedIsWhole }
{}

/// So is one whose definitions stand in front of all words, where these name no others.
#[tactic(auto, using(crate::proofs::KnownLemmas::in_front_is_whole))]
pub fn defined_in_front_is_whole()
    ensures { DefinedInFrontIsWhole }
{}

/// Wherever lines are parted into groups, the rows of the groups, one below the other, are those of the whole text, where each part shows
/// the same by the definitions that came up to it, and by those that its words name, as by all.
#[tactic(auto, using(crate::proofs::RowLemmas::rows_are_those_of_the_whole))]
pub fn rows_are_those_of_the_whole()
    ensures { RowsAreThoseOfTheWhole }
{}

/// After a line that leaves no leaf open all that came is shown.
#[tactic(auto, using(crate::proofs::HeldLemmas::nothing_is_held))]
pub fn nothing_is_held()
    ensures { NothingIsHeld }
{}

/// Before an event with which the open leaf ends it may be told already.
#[tactic(auto, using(crate::proofs::EarlyLemmas::leaves_end_early))]
pub fn leaves_end_early()
    ensures { LeavesEndEarly }
{}

/// What follows a newline begins with a line.
#[tactic(auto, using(crate::proofs::HeldLemmas::lines_come_in_turn))]
pub fn lines_come_in_turn()
    ensures { LinesComeInTurn }
{}

/// Wherever lines are parted into groups, the links are those of the text.
#[tactic(auto, using(crate::proofs::StreamingLemmas::cuts_dont_matter_to_links))]
pub fn cuts_dont_matter_to_links()
    ensures { CutsDontMatterToLinks }
{}

/// Where each part shows the same by the definitions that came up to it, and by those that its words name, as by all, what goes out of pieces is what
/// goes out of the whole text.
pub fn known_is_written_whole()
    ensures { KnownIsWrittenWhole }
{}

/// What the complete leaves show, and then what is open shows, is what the text shows that ends there, where nothing that is open defines a link.
#[tactic(auto, using(crate::proofs::OpenLemmas::open_is_streamed))]
pub fn open_is_streamed()
    ensures { OpenIsStreamed }
{}

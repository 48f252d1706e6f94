//! Laws, each the contract of a small function: what is said of the sections of all texts.

ghost use Rattle.markdown_reader.specs.Faces.{FacesOnce};
ghost use Rattle.markdown_reader.specs.LeafLinks.{CellsHaveTheirLinks, HtmlHasItsLinks, RunsHaveTheirLinks};
ghost use Rattle.markdown_reader.specs.LinkLaws.{LinksHaveMarks};
ghost use Rattle.markdown_reader.specs.ListedSections.{SectionsMayBeListed};
ghost use Rattle.markdown_reader.specs.Marked.{SectionsAreMarked};
ghost use Rattle.markdown_reader.specs.Nested.{SectionsNest};
ghost use Rattle.markdown_reader.specs.PlainLines.{SectionsArePlain};

/// A section is behind exactly the gutters of the containers that are open where it is told, and each of these begins with the first section in
/// it. Code is in a box behind them, and a table tells them with a bullet for the items of a list. A blank row before it is behind those that
/// both neighbours are in, up to the last bar.
#[tactic(auto, using(crate::proofs::NestedLemmas::sections_nest))]
pub fn sections_nest()
    ensures { SectionsNest }
{}

/// As many bullets, numbers and boxes of items are in front of rows as items began, but for items that are open and of which nothing is shown. Which ones,
/// `sections_nest` says.
#[tactic(auto, using(crate::proofs::FaceLemmas::faces_once))]
pub fn faces_are_shown_once()
    ensures { FacesOnce }
{}

/// The items of a table that may be shown as a list are behind the gutters of the table, and a bullet.
#[tactic(auto, using(crate::proofs::NestedLemmas::may_be_listed))]
pub fn tables_may_be_lists()
    ensures { SectionsMayBeListed }
{}

/// No line of a text has a sign of its own: each is a paragraph, a heading, code, a rule, or of a table whose cells are paragraphs.
#[tactic(auto, using(crate::proofs::PlainLemmas::sections_are_plain))]
pub fn lines_are_plain()
    ensures { SectionsArePlain }
{}

/// A section has no marks but those of the code in a fence that it shows, by the language that the fence names. The marks of all sections, one after the
/// other, are those of all fences.
#[tactic(auto, using(crate::proofs::MarkedLemmas::sections_are_marked))]
pub fn fences_have_their_marks()
    ensures { SectionsAreMarked }
{}

/// A section has marks for its links: each of its characters that belongs to a link and is no whitespace has one, in the order in which they are shown,
/// and each mark is that of one of the section's links.
#[tactic(auto, using(crate::proofs::LinkLawLemmas::links_have_marks))]
pub fn links_have_marks()
    ensures { LinksHaveMarks }
{}

/// The runs of a leaf, of a table's cell, or of a leaf of html, that belong to links have the bytes of the characters that do. They come in the same
/// order, and each in the link of its character, apart from spaces.
#[tactic(auto, using(crate::proofs::LeafLinkLemmas::runs_have_their_links, crate::proofs::LeafLinkLemmas::cells_have_their_links, crate::proofs::LeafLinkLemmas::html_has_its_links))]
pub fn runs_have_their_links()
    ensures leaves { RunsHaveTheirLinks }
    ensures cells { CellsHaveTheirLinks }
    ensures html { HtmlHasItsLinks }
{}

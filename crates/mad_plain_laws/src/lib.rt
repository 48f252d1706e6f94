//! The page of a text that isn't Markdown, in which is sought, is the rows that are drawn of it.
#![tactic(auto)]

ghost use Rattle.mad_plain_laws.specs.Laws.{PagesAreTheRows};

/// At three columns or more, and where code has no margins, the page has a line for each row that is drawn of the text, which says the row's characters. So
/// what is sought in its lines is sought in what is drawn. Its sections begin where the text's lines do.
pub fn pages_are_the_rows()
    ensures { PagesAreTheRows }
{}

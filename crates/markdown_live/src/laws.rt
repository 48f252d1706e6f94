//! What one may rely on of live Markdown: laws, each a function that does nothing and states its law.

ghost use Rattle.markdown_live.specs.Laws.{ShownIsAFront, CompleteStays, GrowingIsStreamed, RowsGoOn};

/// What is shown of a line that has begun is a front of it.
pub fn shown_is_a_front()
    ensures { ShownIsAFront }
{}

/// Whatever comes, the sections that are complete are the first ones of the text as it is streamed. So rows that are done don't change.
pub fn complete_stays()
    ensures { CompleteStays }
{}

/// What is complete and what is growing are the page of the text that ends with what is shown of its last line, where nothing that is open defines a
/// link.
pub fn growing_is_streamed()
    ensures { GrowingIsStreamed }
{}

/// At the same width, rows that were done and those that are shown below, once a text goes on there, are rows of one page.
pub fn rows_go_on()
    ensures { RowsGoOn }
{}

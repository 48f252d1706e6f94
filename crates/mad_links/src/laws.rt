//! The laws of links, each a function that does nothing and states its law.

ghost use Rattle.mad_links.specs.AreaLaws.{AreasAreTheSame, AreasShowTheSame, CompositesSayTheSame, CompositesShowTheSame, CutsShowTheSame, LinksInAreas, NoLinkNoByte};
ghost use Rattle.mad_links.specs.LinkLaws.{AddressesAreWritten, CommandsAreSafe, DrawingsAreWoven, DrawsLinkedRows, DrawsLinks, ErasesLinks, LinksAreBeside, LinksAreInTheirCells, NumbersAreLinks, RowsAreWoven, RowsInSteps, ShowsTheSame, TextsAreWoven, WritesLinks, WritesNothing};
ghost use Rattle.mad_links.specs.LinkPapers.{PapersAreTheSame};

/// A terminal that passes over links ends as the plain one does without them.
pub fn the_same_is_shown()
    ensures { ShowsTheSame }
{}

/// A row's pieces with links are those without, with commands between them.
pub fn rows_are_woven()
    ensures { RowsAreWoven }
{}

/// So are drawings of rows in an area.
pub fn drawings_are_woven()
    ensures { DrawingsAreWoven }
{}

/// So are texts of rows, each with a newline.
pub fn texts_are_woven()
    ensures { TextsAreWoven }
{}

/// A row can be written in steps.
pub fn rows_are_written_in_steps()
    ensures { RowsInSteps }
{}

/// Where no piece has a link that is written, nothing is written of links.
pub fn nothing_is_written()
    ensures { WritesNothing }
{}

/// A terminal with links shows what one does that passes over them.
pub fn links_are_beside()
    ensures { LinksAreBeside }
{}

/// A row writes its cells, each with the link of its piece, and leaves none open.
pub fn links_are_in_their_cells()
    ensures { LinksAreInTheirCells }
{}

/// Rows of bytes that paint rows of cells with links show these in an area, and change no cell outside it.
pub fn linked_rows_are_drawn()
    ensures { DrawsLinkedRows }
{}

/// Rows of pieces have each link exactly in the cells of its characters, and leave none open.
pub fn links_are_drawn()
    ensures { DrawsLinks }
{}

/// Cells of links of two numbers are of one link exactly where the numbers are the same.
pub fn numbers_are_links()
    ensures { NumbersAreLinks }
{}

/// An erasure takes the links off the cells that the plain terminal erases.
pub fn erasures_take_links_off()
    ensures { ErasesLinks }
{}

/// A character gives its link to the cells that it takes.
pub fn characters_take_links()
    ensures { WritesLinks }
{}

/// An address that isn't refused can be written, and one that can be written is written as it is.
pub fn addresses_are_written()
    ensures { AddressesAreWritten }
{}

/// No byte of a command's text is a control byte or can end it.
pub fn commands_are_safe()
    ensures { CommandsAreSafe }
{}

/// An area's rows lead where their links do, and no row ends with one open.
pub fn links_are_in_areas()
    ensures { LinksInAreas }
{}

/// A terminal that passes over links ends as the plain one does that reads the rows without links.
pub fn areas_are_the_same()
    ensures { AreasAreTheSame }
{}

/// Pieces that are in no link have the bytes that they had.
pub fn no_link_no_byte()
    ensures { NoLinkNoByte }
{}

/// A piece that is cut shows the same characters, each with the same pen.
pub fn cuts_show_the_same()
    ensures { CutsShowTheSame }
{}

/// A composite with links says what it says without.
pub fn composites_say_the_same()
    ensures { CompositesSayTheSame }
{}

/// It shows the characters and pens that it shows without, however its compounds are cut.
pub fn composites_show_the_same()
    ensures { CompositesShowTheSame }
{}

/// An area of rows with links shows what it shows of the rows of which these are cut.
pub fn areas_show_the_same()
    ensures { AreasShowTheSame }
{}

/// A terminal that scrolls and passes over links ends as the one does that reads the text without links.
pub fn papers_are_the_same()
    ensures { PapersAreTheSame }
{}

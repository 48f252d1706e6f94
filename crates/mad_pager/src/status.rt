//! The last row of the screen: where the page is, if that is to be told, how much of the text was shown, its name, what is sought, and whether it wasn't
//! found, or why it is no regular expression; or a colon or a number that was typed.

ghost use Rattle.std.specs.Prelude.{◌≡◌, ◌++◌, ◌∷◌, [], IfOk, OnOk, None, codes, decimal, string_bytes};
ghost use Rattle.mad_term.specs.Draws.{Draws};
ghost use Rattle.mad_term.specs.Trace.{TookWith};
ghost use Rattle.mad_measure.specs.Areas.{IsWithinLimits};
ghost use Rattle.mad_layout.specs.RowSkins.{row_skin};
ghost use Rattle.mad_layout.specs.Shown.{area_bytes};
ghost use Rattle.mad_pager.specs.Sessions.{state_of};
ghost use Rattle.mad_page.specs.Pages.{percent};
ghost use Rattle.mad_pager.specs.Screens.{missing_words, place_words, reason, sought_sign, sought_words, status_skin, status_words, IsLineIn, IsStatus, IsStatusLine, WritesStatus};

use crate::places::last_row;
use crate::session::Session;
use mad_format::{Fitter, FmtComposite, FmtLine};
use mad_layout::{FmtText, MadSkin, draw_text};
use mad_md::{Alignment, Compound};
use mad_measure::{Area, Spacing};
use mad_patterns::Fault;
use mad_style::CompoundStyle;
use mad_term::{Error, Out};
use std::alloc::{AllocError, Global};

impl Session<'_> {
    /// Draws the status in the screen's last row, in the skin's style of it. Nothing is flushed.
    ///
    /// # Errors
    ///
    /// A fault of the device, or out of memory. What went out by then is a beginning of the whole.
    pub fn draw_status<O: Out>(&self, alloc: Global, out: &mut O) -> Result<(), Error>
        ensures writes { WritesStatus self.now.skin.now self.now.name.now (state_of self.now) (O.seen out.old) result (O.seen out.new) }
        ensures shown { OnOk result (TookWith (O.seen out.old) (O.seen out.new) (IsStatus self.now.skin.now self.now.name.now (state_of self.now))) }
    {
        let words = self.status_words(alloc)?;
        let skin = status_skin(self.skin.status);
        let line = status_line(alloc, words.as_str(), self.page.columns, &skin)?;
        let area = last_row(self.page.columns, self.page.rows);
        draw_line(alloc, out, line, &skin, &area)
    }

    // What the status says.
    fn status_words(&self, alloc: Global) -> Result<String, AllocError>
        ensures { IfOk result (λ words. string_bytes words ≡ status_words self.now.name.now (state_of self.now)) }
    {
        if self.page.has_colon {
            let words = format!(in alloc; ":")?;
            return Ok(words);
        }
        if self.page.count > 0 {
            let count = self.page.count;
            let words = format!(in alloc; "{count}")?;
            return Ok(words);
        }
        let mut words = self.place_words(alloc)?;
        words.push_str(self.name)?;
        self.push_sought(&mut words)?;
        Ok(words)
    }

    // Where the page is, if that is to be told, and how much of the text was shown.
    fn place_words(&self, alloc: Global) -> Result<String, AllocError>
        ensures { IfOk result (λ words. string_bytes words ≡ place_words self.now.page ++ decimal (percent self.now.page) ++ codes "%  ") }
    {
        let percent = self.page.percent();
        if self.page.tells {
            let (row, rows) = (self.page.row_number(), self.page.height);
            let words = format!(in alloc; "row {row} of {rows}  {percent}%  ")?;
            return Ok(words);
        }
        let words = format!(in alloc; "{percent}%  ")?;
        Ok(words)
    }

    // Puts what is sought after a text, if anything is, and that the last search didn't find it, or why.
    fn push_sought(&self, words: &mut String) -> Result<(), AllocError>
        ensures { OnOk result (string_bytes words.new ≡ string_bytes words.old ++ sought_words self.now.is_backward self.now.is_missing (state_of self.now).reading.fault (string_bytes self.now.sought)) }
    {
        let sought = self.sought.as_str();
        if sought.is_empty() {
            return Ok(());
        }
        words.push_str(sign_of(self.is_backward))?;
        words.push_str(sought)?;
        if self.is_missing {
            self.push_missing(words)?;
            return Ok(());
        }
        Ok(())
    }

    // Puts after a text that a search found no row, or why, where what is sought is no regular expression.
    fn push_missing(&self, words: &mut String) -> Result<(), AllocError>
        ensures { OnOk result (string_bytes words.new ≡ string_bytes words.old ++ missing_words (state_of self.now).reading.fault) }
    {
        words.push_str("  ")?;
        words.push_str(reason(self.reading.fault()))?;
        Ok(())
    }
}

// Why a search found no row: none has a hit, or what is sought is no regular expression.
fn reason(fault: Option<Fault>) -> &'static str
    ensures { result.now ≡ reason fault }
{
    match fault {
        Some(fault) => fault.words(),
        None => "not found",
    }
}

// What stands before what is sought, backwards or not.
fn sign_of(backward: bool) -> &'static str
    ensures { result.now ≡ sought_sign backward }
{
    if backward { "  ?" } else { "  /" }
}

// Draws a line in a skin, in an area of one row.
fn draw_line<O: Out>(
    alloc: Global,
    out: &mut O,
    line: FmtLine,
    skin: &MadSkin,
    area: &Area,
) -> Result<(), Error>
    requires within { IsWithinLimits area.now }
    requires one { area.now.height ≡ 1 }
    ensures writes { Draws (O.seen out.old) (area_bytes (row_skin skin.now) None (line.entry ∷ []) area.now 0) result (O.seen out.new) }
    ensures shown { OnOk result (TookWith (O.seen out.old) (O.seen out.new) (IsLineIn (row_skin skin.now) line.entry area.now)) }
{
    let mut lines = Vec::new(alloc);
    lines.push(line)?;
    let text = FmtText {
        skin,
        lines,
        width: None,
    };
    draw_text(alloc, out, &text, area, 0, false)
}

// A text as a line of so many columns: what doesn't fit goes at its end, and blanks fill the rest.
fn status_line<'w>(
    alloc: Global,
    words: &'w str,
    columns: u16,
    skin: &MadSkin,
) -> Result<FmtLine<'w>, AllocError>
    ensures { IfOk result (IsStatusLine skin.now words.now columns) }
{
    let width = usize::from(columns);
    let mut line = FmtComposite::from_compound(alloc, Compound::raw_str(words))?;
    Fitter::for_align(Alignment::Left).fit(&mut line, width, skin)?;
    line.margins = Some((0, 0));
    let place = Spacing {
        width,
        align: Alignment::Left,
    };
    Ok(FmtLine::Normal(line.in_place(place)))
}

// The skin of the status: no style but this one.
fn status_skin(style: CompoundStyle) -> MadSkin
    ensures { result ≡ status_skin style }
{
    let mut skin = MadSkin::no_style();
    skin.paragraph.compound_style = style;
    skin
}

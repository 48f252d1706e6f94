//! What the parts of a text are shown as.

ghost use Rattle.std.specs.Prelude.{◌≡◌, ◌==◌, ◌||◌, true, false, Some, [], ◌∷◌, ◌++◌, IfOk, OnOk, map, drop, string_bytes, if◌then◌else◌};
ghost use Rattle.markdown_marks.specs.Remaining.{remaining};
ghost use Rattle.markdown_leaves.specs.Defining.{joined};
ghost use Rattle.std.specs.List.{flat_map};
ghost use Rattle.markdown_leaves.specs.Parts.{block, block_of, part_of};
ghost use Rattle.mad_md.specs.Lines.{horizontal_rule};
ghost use Rattle.markdown_lines.specs.Code.{code_lines};
ghost use Rattle.markdown_lines.specs.LinkNumbers.{html_numbers};
ghost use Rattle.markdown_lines.specs.LinksOf.{defined_of};
ghost use Rattle.markdown_lines.specs.Restyled.{restyled};
ghost use Rattle.markdown_lines.specs.Shown.{shown};
ghost use Rattle.markdown_lines.specs.TableNumbers.{table_numbers};
ghost use Rattle.markdown_lines.specs.Tables.{table_lines};
ghost use Rattle.markdown_gutters.specs.Signs.{alert_of, box_of};
ghost use Rattle.markdown_reader.specs.Mapping.{nothing_shown, with_list, new_gutter, with_last, with_section, blank_row, is_spaced, spaced, linked, added, put, passed, list_ended, quote_begun, numbered, begun, item_ended, ended_by, closed, ended, text_of, words_shown, task_by, alert_line, alert_by, paragraph_by, heading_style, heading_shown, html_text, html_by, html_shown, leaves_in, code_shown, table_addresses, leaf_shown, shown_part, shown_parts};
ghost use Rattle.markdown_reader.specs.MappingOf.{mapping_of};
ghost use Rattle.markdown_reader.specs.NumbersIn.{numbers_in, section_numbers};
ghost use Rattle.markdown_reader.specs.SectionNumbers.{added_numbers, alert_words, kind_numbers, paragraph_words, part_numbers, parts_numbers, task_words, words_numbers};
ghost use Rattle.markdown_reader.specs.SectionsSaid.{lines_said, link_said, section_said};

use crate::sections::{Link, MarkdownSection, addresses_of, push_links};
use mad_mark_runs::MarkRun;
use mad_md::CompositeStyle;
use mad_sections::{Alert, Gutter};
use markdown_blocks::Container;
use markdown_gutters::forms::{Form, is_big, items_gutters, leaf_gutters};
use markdown_gutters::lists::{
    Counted, first_gutters, is_item, item_gutter, last_gutter, last_list, list_after, no_list,
    number_in, up_to_bar,
};
use markdown_gutters::signs::{after_box, after_line, alert_of, alert_word, box_of};
use markdown_html_text::leaves::html_level;
use markdown_leaves::defining::joined;
use markdown_leaves::{Block, Kind, Part};
use markdown_lines::code::push_code_lines;
use markdown_lines::leaf::{read_html, read_leaf};
use markdown_lines::lines::Lines;
use markdown_lines::links::Definitions;
use markdown_lines::places::{RunFlags, RunRange};
use markdown_lines::runs::Runs;
use markdown_lines::tables::push_table;
use markdown_marks::headings::without_end;
use markdown_marks::rest::Rest;
use markdown_tones::fence_marks;
use std::alloc::{AllocError, Global};
use std::mem::replace;

/// The sections so far, and what the next ones depend on.
#[derive(Debug, Drop)]
pub struct Mapper {
    pub(crate) sections: Vec<MarkdownSection>,
    pub(crate) links: Vec<Link>,
    // of the open containers, the outermost first
    gutters: Vec<Gutter>,
    // of how many of these, the outermost, something is shown
    seen: usize,
    // outside, and in each open container: the list whose item began last
    lists: Vec<Counted>,
    // whether blank lines are before the last item
    item_apart: bool,
    // whether blank lines came since it began
    since: bool,
    // whether blank lines came since something was shown last
    apart: bool,
    // whether anything was shown
    some: bool,
    // whether what was shown last wants blank rows beside it
    big: bool,
    // of the next section
    marks: Vec<MarkRun>,
}

fn either(first: bool, second: bool) -> bool
    ensures { result ≡ (first || second) }
{
    first || second
}

fn heading_style(level: usize) -> CompositeStyle
    ensures { result ≡ heading_style level }
{
    CompositeStyle::Header(level.min(255) as u8)
}

/// The text of a leaf.
pub(crate) fn text_of(alloc: Global, bytes: &[u8]) -> Result<String, AllocError>
    ensures { IfOk result (λ text. string_bytes text ≡ text_of bytes.now) }
{
    let text = String::from_utf8_lossy(alloc, without_end(b' ', b'\t', bytes))?;
    Ok(text)
}

/// The text of a leaf of html.
pub(crate) fn html_text(alloc: Global, bytes: &[u8]) -> Result<String, AllocError>
    ensures { IfOk result (λ text. string_bytes text ≡ html_text bytes.now) }
{
    String::from_utf8_lossy(alloc, bytes)
}

// Rows in another style.
fn restyled(alloc: Global, style: CompositeStyle, rows: &Lines) -> Result<Lines, AllocError>
    ensures { IfOk result (λ made. shown made ≡ restyled style style (shown rows.now)) }
{
    let mut made = Lines::new(alloc);
    made.push_rows(style, style, rows)?;
    Ok(made)
}

// A rule across the page.
fn rule_row(alloc: Global) -> Result<Lines, AllocError>
    ensures { IfOk result (λ made. shown made ≡ horizontal_rule ∷ []) }
{
    let mut made = Lines::new(alloc);
    made.push_horizontal_rule()?;
    Ok(made)
}

// The row of an alert.
fn alert_row(alloc: Global, alert: Alert) -> Result<Lines, AllocError>
    ensures { IfOk result (λ made. shown made ≡ alert_line alert ∷ []) }
{
    let mut word = Runs::new(alloc);
    word.push(
        RunFlags {
            bold: true,
            ..RunFlags::NONE
        },
        alert_word(alert),
    )?;
    let mut made = Lines::new(alloc);
    made.push_row(
        CompositeStyle::Paragraph,
        &word,
        RunRange { start: 0, count: 1 },
    )?;
    Ok(made)
}

// The row of an alert, and rows below it.
fn alert_rows(alloc: Global, alert: Alert, rows: &Lines) -> Result<Lines, AllocError>
    ensures { IfOk result (λ made. shown made ≡ alert_line alert ∷ restyled CompositeStyle.Paragraph CompositeStyle.Paragraph (shown rows.now)) }
{
    let mut made = alert_row(alloc, alert)?;
    made.push_rows(CompositeStyle::Paragraph, CompositeStyle::Paragraph, rows)?;
    Ok(made)
}

// Lines of code.
fn code_rows(alloc: Global, lines: &[Rest<'_>]) -> Result<Lines, AllocError>
    ensures { IfOk result (λ made. shown made ≡ code_lines 0 (map remaining lines.now)) }
{
    let mut made = Lines::new(alloc);
    push_code_lines(alloc, &mut made, 0, lines)?;
    Ok(made)
}

fn after_first<'l, 's>(lines: &'l [Rest<'s>]) -> &'l [Rest<'s>]
    ensures { map remaining result.now ≡ drop 1 (map remaining lines.now) }
{
    match lines {
        [] => lines,
        [_, rest @ ..] => rest,
    }
}

impl Mapper {
    /// Nothing is shown.
    ///
    /// # Errors
    ///
    /// Out of memory is the only error.
    pub fn new(alloc: Global) -> Result<Mapper, AllocError>
        ensures mapping { IfOk result (λ made. mapping_of made ≡ nothing_shown) }
        ensures numbers { IfOk result (λ made. numbers_in made ≡ []) }
    {
        let mut lists = Vec::new(alloc);
        lists.push(no_list())?;
        Ok(Mapper {
            sections: Vec::new(alloc),
            links: Vec::new(alloc),
            gutters: Vec::new(alloc),
            seen: 0,
            lists,
            item_apart: false,
            since: false,
            apart: false,
            some: false,
            big: false,
            marks: Vec::new(alloc),
        })
    }

    /// A mapper of its own that goes on from here. The sections and links so far stay with this one.
    ///
    /// # Errors
    ///
    /// Out of memory is the only error.
    pub fn going_on(&self, alloc: Global) -> Result<Mapper, AllocError>
        ensures { IfOk result (λ made. mapping_of made ≡ record (mapping_of self.now) { sections = []; links = [] }) }
    {
        let gutters = Vec::from_slice(alloc, &self.gutters)?;
        let lists = Vec::from_slice(alloc, &self.lists)?;
        let marks = Vec::from_slice(alloc, &self.marks)?;
        Ok(Mapper {
            sections: Vec::new(alloc),
            links: Vec::new(alloc),
            gutters,
            seen: self.seen,
            lists,
            item_apart: self.item_apart,
            since: self.since,
            apart: self.apart,
            some: self.some,
            big: self.big,
            marks,
        })
    }

    // ---- sections

    // The gutter of the innermost open container, if nothing of that is shown yet.
    fn new_gutter(&self) -> Option<Gutter>
        ensures { result ≡ new_gutter (mapping_of self.now) }
    {
        if self.seen < self.gutters.as_slice().len() {
            last_gutter(self.gutters.as_slice())
        } else {
            None
        }
    }

    // Lines behind the gutters of all open containers, with these numbers of links.
    fn add_section(
        &mut self,
        alloc: Global,
        form: Form,
        lines: Option<Lines>,
        numbers: Vec<usize>,
    ) -> Result<(), AllocError>
        ensures mapping { OnOk result (mapping_of self.new ≡ with_section form (lines_said lines) (mapping_of self.old)) }
        ensures numbers { OnOk result (numbers_in self.new ≡ numbers_in self.old ++ numbers.items ∷ []) }
    {
        let gutters = leaf_gutters(alloc, form, self.gutters.as_slice())?;
        let list = items_gutters(alloc, form, self.gutters.as_slice())?;
        let fresh = gutters.as_slice().len().saturating_sub(self.seen);
        let marks = replace(&mut self.marks, Vec::new(alloc));
        self.sections.push(MarkdownSection {
            gutters,
            fresh,
            list,
            marks,
            numbers,
            lines,
        })?;
        self.seen = self.gutters.as_slice().len();
        Ok(())
    }

    // A blank row, behind the gutters of the containers that both neighbours are in, up to the last bar.
    fn add_blank(&mut self, alloc: Global) -> Result<(), AllocError>
        ensures mapping { OnOk result (mapping_of self.new ≡ record (mapping_of self.old) { sections = (mapping_of self.old).sections ++ blank_row (mapping_of self.old) ∷ [] }) }
        ensures numbers { OnOk result (numbers_in self.new ≡ numbers_in self.old ++ [] ∷ []) }
    {
        let both = first_gutters(self.gutters.as_slice(), self.seen);
        let gutters = Vec::from_slice(alloc, up_to_bar(both))?;
        self.sections.push(MarkdownSection {
            gutters,
            fresh: 0,
            list: None,
            marks: Vec::new(alloc),
            numbers: Vec::new(alloc),
            lines: None,
        })?;
        Ok(())
    }

    // Whether a blank row comes next.
    fn is_spaced(&self, apart: bool, big: bool) -> bool
        ensures { result ≡ is_spaced apart big (mapping_of self.now) }
    {
        self.some && (apart || big || self.big)
    }

    // A blank row, where one comes next.
    fn space(&mut self, alloc: Global, apart: bool, big: bool) -> Result<(), AllocError>
        ensures mapping { OnOk result (mapping_of self.new ≡ spaced apart big (mapping_of self.old)) }
        ensures numbers { OnOk result (numbers_in self.new ≡ numbers_in self.old ++ (if is_spaced apart big (mapping_of self.old) then [] ∷ [] else [])) }
    {
        if self.is_spaced(apart, big) {
            self.add_blank(alloc)
        } else {
            Ok(())
        }
    }

    // Adds links of the next section.
    fn link(&mut self, addresses: Vec<String>) -> Result<(), AllocError>
        ensures mapping { OnOk result (mapping_of self.new ≡ linked (map string_bytes addresses.items) (mapping_of self.old)) }
        ensures kept { OnOk result (numbers_in self.new ≡ numbers_in self.old) }
    {
        let section = self.sections.as_slice().len();
        push_links(&mut self.links, section, addresses)
    }

    // Lines of a leaf, where its links lead, and which runs belong to them.
    fn add(
        &mut self,
        alloc: Global,
        form: Form,
        lines: Lines,
        addresses: Vec<String>,
        numbers: Vec<usize>,
    ) -> Result<(), AllocError>
        ensures mapping { OnOk result (mapping_of self.new ≡ added form (shown lines) (map string_bytes addresses.items) (mapping_of self.old)) }
        ensures numbers { OnOk result (numbers_in self.new ≡ numbers_in self.old ++ numbers.items ∷ []) }
    {
        self.link(addresses)?;
        self.add_section(alloc, form, Some(lines), numbers)?;
        self.apart = false;
        self.some = true;
        self.big = is_big(form);
        Ok(())
    }

    // The same after a blank row, where one comes next. A leaf without lines isn't shown.
    fn put(
        &mut self,
        alloc: Global,
        form: Form,
        lines: Lines,
        addresses: Vec<String>,
        numbers: Vec<usize>,
    ) -> Result<(), AllocError>
        ensures mapping { OnOk result (mapping_of self.new ≡ put form (shown lines) (map string_bytes addresses.items) (mapping_of self.old)) }
        ensures numbers { OnOk result (numbers_in self.new ≡ numbers_in self.old ++ added_numbers numbers.items (mapping_of self.old) (mapping_of self.new)) }
    {
        if lines.is_empty() {
            return Ok(());
        }
        self.space(alloc, self.apart, is_big(form))?;
        self.add(alloc, form, lines, addresses, numbers)
    }

    // ---- containers

    /// Blank lines came, or didn't.
    pub(crate) fn pass(&mut self, apart: bool)
        ensures mapping { mapping_of self.new ≡ passed apart (mapping_of self.old) }
        ensures kept { numbers_in self.new ≡ numbers_in self.old }
    {
        self.apart = either(self.apart, apart);
        self.since = either(self.since, apart);
    }

    // The list in the innermost open container is this one.
    fn set_list(&mut self, list: Counted) -> Result<(), AllocError>
        ensures mapping { OnOk result (mapping_of self.new ≡ record (mapping_of self.old) { lists = with_list (mapping_of self.old).lists list }) }
        ensures kept { OnOk result (numbers_in self.new ≡ numbers_in self.old) }
    {
        let count = self.lists.as_slice().len().saturating_sub(1);
        self.lists.truncate(count);
        self.lists.push(list)?;
        Ok(())
    }

    /// What isn't an item ends the list beside it.
    pub(crate) fn end_list(&mut self) -> Result<(), AllocError>
        ensures mapping { OnOk result (mapping_of self.new ≡ list_ended (mapping_of self.old)) }
        ensures kept { OnOk result (numbers_in self.new ≡ numbers_in self.old) }
    {
        self.set_list(no_list())
    }

    fn begin_quote(&mut self) -> Result<(), AllocError>
        ensures mapping { OnOk result (mapping_of self.new ≡ quote_begun (mapping_of self.old)) }
        ensures kept { OnOk result (numbers_in self.new ≡ numbers_in self.old) }
    {
        self.set_list(no_list())?;
        self.lists.push(no_list())?;
        self.gutters.push(Gutter::Bar)?;
        Ok(())
    }

    // An item with this number begins.
    fn begin_item(&mut self, sign: u8, number: u32) -> Result<(), AllocError>
        ensures mapping { OnOk result (mapping_of self.new ≡ numbered sign number (mapping_of self.old)) }
        ensures kept { OnOk result (numbers_in self.new ≡ numbers_in self.old) }
    {
        self.set_list(list_after(sign, number))?;
        self.lists.push(no_list())?;
        self.gutters.push(item_gutter(sign, number))?;
        self.item_apart = self.apart;
        self.since = false;
        Ok(())
    }

    fn begin(&mut self, container: Container) -> Result<(), AllocError>
        ensures mapping { OnOk result (mapping_of self.new ≡ begun container (mapping_of self.old)) }
        ensures kept { OnOk result (numbers_in self.new ≡ numbers_in self.old) }
    {
        match container {
            Container::Quote => self.begin_quote(),
            Container::Item { sign, number, .. } => {
                let list = last_list(self.lists.as_slice());
                self.begin_item(sign, number_in(list, sign, number))
            }
        }
    }

    // An item ends of which nothing was shown: it has a row where it began.
    fn end_item(&mut self, alloc: Global) -> Result<(), AllocError>
        ensures mapping { OnOk result (mapping_of self.new ≡ item_ended (mapping_of self.old)) }
        ensures numbers { OnOk result (numbers_in self.new ≡ numbers_in self.old ++ added_numbers [] (mapping_of self.old) (mapping_of self.new)) }
    {
        self.space(alloc, self.item_apart, false)?;
        self.add_section(alloc, Form::Words, None, Vec::new(alloc))?;
        self.apart = self.since;
        self.some = true;
        self.big = false;
        Ok(())
    }

    // A container ends of which nothing was shown, or another one.
    fn end_new(&mut self, alloc: Global, gutter: Option<Gutter>) -> Result<(), AllocError>
        ensures mapping { OnOk result (mapping_of self.new ≡ ended_by gutter (mapping_of self.old)) }
        ensures numbers { OnOk result (numbers_in self.new ≡ numbers_in self.old ++ added_numbers [] (mapping_of self.old) (mapping_of self.new)) }
    {
        match gutter {
            Some(gutter) => {
                if is_item(gutter) {
                    self.end_item(alloc)
                } else {
                    Ok(())
                }
            }
            None => Ok(()),
        }
    }

    // The innermost container is closed.
    fn close(&mut self)
        ensures mapping { mapping_of self.new ≡ closed (mapping_of self.old) }
        ensures kept { numbers_in self.new ≡ numbers_in self.old }
    {
        let depth = self.gutters.as_slice().len().saturating_sub(1);
        self.gutters.truncate(depth);
        let lists = self.lists.as_slice().len().saturating_sub(1);
        self.lists.truncate(lists);
        self.seen = self.seen.min(depth);
    }

    fn end(&mut self, alloc: Global) -> Result<(), AllocError>
        ensures mapping { OnOk result (mapping_of self.new ≡ ended (mapping_of self.old)) }
        ensures numbers { OnOk result (numbers_in self.new ≡ numbers_in self.old ++ added_numbers [] (mapping_of self.old) (mapping_of self.new)) }
    {
        let gutter = self.new_gutter();
        self.end_new(alloc, gutter)?;
        self.close();
        Ok(())
    }

    // ---- leaves

    fn show_words(
        &mut self,
        alloc: Global,
        definitions: &Definitions,
        bytes: &[u8],
    ) -> Result<(), AllocError>
        ensures mapping { OnOk result (mapping_of self.new ≡ words_shown (defined_of definitions.now) bytes.now (mapping_of self.old)) }
        ensures numbers { OnOk result (numbers_in self.new ≡ numbers_in self.old ++ added_numbers (words_numbers (defined_of definitions.now) bytes.now) (mapping_of self.old) (mapping_of self.new)) }
    {
        let text = text_of(alloc, bytes)?;
        let leaf = read_leaf(alloc, definitions, text.as_str())?;
        self.put(alloc, Form::Words, leaf.rows, leaf.addresses, leaf.numbers)
    }

    // Another gutter in the place of the last.
    fn replace_gutter(&mut self, gutter: Gutter) -> Result<(), AllocError>
        ensures mapping { OnOk result (mapping_of self.new ≡ with_last gutter (mapping_of self.old)) }
        ensures kept { OnOk result (numbers_in self.new ≡ numbers_in self.old) }
    {
        let depth = self.gutters.as_slice().len().saturating_sub(1);
        self.gutters.truncate(depth);
        self.gutters.push(gutter)?;
        Ok(())
    }

    // The first paragraph of an item with a bullet.
    fn show_task(
        &mut self,
        alloc: Global,
        definitions: &Definitions,
        bytes: &[u8],
    ) -> Result<(), AllocError>
        ensures mapping { OnOk result (mapping_of self.new ≡ task_by (box_of bytes.now) (defined_of definitions.now) bytes.now (mapping_of self.old)) }
        ensures numbers { OnOk result (numbers_in self.new ≡ numbers_in self.old ++ added_numbers (words_numbers (defined_of definitions.now) (task_words (box_of bytes.now) bytes.now)) (mapping_of self.old) (mapping_of self.new)) }
    {
        match box_of(bytes) {
            Some(done) => {
                self.replace_gutter(Gutter::Task(done))?;
                self.show_words(alloc, definitions, after_box(bytes))
            }
            None => self.show_words(alloc, definitions, bytes),
        }
    }

    // An alert, and the words below it.
    fn put_alert(
        &mut self,
        alloc: Global,
        definitions: &Definitions,
        alert: Alert,
        bytes: &[u8],
    ) -> Result<(), AllocError>
        ensures mapping { OnOk result (mapping_of self.new ≡ alert_by (Some alert) (defined_of definitions.now) bytes.now (mapping_of self.old)) }
        ensures numbers { OnOk result (numbers_in self.new ≡ numbers_in self.old ++ added_numbers (words_numbers (defined_of definitions.now) (alert_words (Some alert) bytes.now)) (mapping_of self.old) (mapping_of self.new)) }
    {
        let text = text_of(alloc, after_line(bytes))?;
        let leaf = read_leaf(alloc, definitions, text.as_str())?;
        let lines = alert_rows(alloc, alert, &leaf.rows)?;
        self.replace_gutter(Gutter::AlertBar(alert))?;
        self.put(alloc, Form::Words, lines, leaf.addresses, leaf.numbers)
    }

    // The first paragraph of a quote.
    fn show_quoted(
        &mut self,
        alloc: Global,
        definitions: &Definitions,
        bytes: &[u8],
    ) -> Result<(), AllocError>
        ensures mapping { OnOk result (mapping_of self.new ≡ alert_by (alert_of bytes.now) (defined_of definitions.now) bytes.now (mapping_of self.old)) }
        ensures numbers { OnOk result (numbers_in self.new ≡ numbers_in self.old ++ added_numbers (words_numbers (defined_of definitions.now) (alert_words (alert_of bytes.now) bytes.now)) (mapping_of self.old) (mapping_of self.new)) }
    {
        match alert_of(bytes) {
            Some(alert) => self.put_alert(alloc, definitions, alert, bytes),
            None => self.show_words(alloc, definitions, bytes),
        }
    }

    // A paragraph, by the gutter that is new in front of it.
    fn show_paragraph(
        &mut self,
        alloc: Global,
        definitions: &Definitions,
        gutter: Option<Gutter>,
        bytes: &[u8],
    ) -> Result<(), AllocError>
        ensures mapping { OnOk result (mapping_of self.new ≡ paragraph_by gutter (defined_of definitions.now) bytes.now (mapping_of self.old)) }
        ensures numbers { OnOk result (numbers_in self.new ≡ numbers_in self.old ++ added_numbers (words_numbers (defined_of definitions.now) (paragraph_words gutter bytes.now)) (mapping_of self.old) (mapping_of self.new)) }
    {
        match gutter {
            Some(Gutter::Bullet) => self.show_task(alloc, definitions, bytes),
            Some(Gutter::Bar) => self.show_quoted(alloc, definitions, bytes),
            Some(Gutter::AlertBar(_))
            | Some(Gutter::Number(_))
            | Some(Gutter::Task(_))
            | Some(Gutter::Code)
            | Some(Gutter::Signs(_))
            | Some(Gutter::Below(_))
            | None => self.show_words(alloc, definitions, bytes),
        }
    }

    fn show_heading(
        &mut self,
        alloc: Global,
        definitions: &Definitions,
        level: usize,
        bytes: &[u8],
    ) -> Result<(), AllocError>
        ensures mapping { OnOk result (mapping_of self.new ≡ heading_shown (defined_of definitions.now) level bytes.now (mapping_of self.old)) }
        ensures numbers { OnOk result (numbers_in self.new ≡ numbers_in self.old ++ added_numbers (words_numbers (defined_of definitions.now) bytes.now) (mapping_of self.old) (mapping_of self.new)) }
    {
        let text = text_of(alloc, bytes)?;
        let leaf = read_leaf(alloc, definitions, text.as_str())?;
        let lines = restyled(alloc, heading_style(level), &leaf.rows)?;
        self.put(alloc, Form::Large, lines, leaf.addresses, leaf.numbers)
    }

    fn show_code(
        &mut self,
        alloc: Global,
        marks: Vec<MarkRun>,
        lines: &[Rest<'_>],
    ) -> Result<(), AllocError>
        ensures mapping { OnOk result (mapping_of self.new ≡ code_shown marks.items (map remaining lines.now) (mapping_of self.old)) }
        ensures numbers { OnOk result (numbers_in self.new ≡ numbers_in self.old ++ added_numbers [] (mapping_of self.old) (mapping_of self.new)) }
    {
        let rows = code_rows(alloc, lines)?;
        self.marks = marks;
        self.put(alloc, Form::Boxed, rows, Vec::new(alloc), Vec::new(alloc))?;
        self.marks = Vec::new(alloc);
        Ok(())
    }

    // A leaf of html: a heading of this level, or words.
    fn show_html_at(&mut self, alloc: Global, level: usize, text: &str) -> Result<(), AllocError>
        ensures mapping { OnOk result (mapping_of self.new ≡ html_by (level == 0) level text.now (mapping_of self.old)) }
        ensures numbers { OnOk result (numbers_in self.new ≡ numbers_in self.old ++ added_numbers (html_numbers text.now) (mapping_of self.old) (mapping_of self.new)) }
    {
        let leaf = read_html(alloc, text)?;
        if level == 0 {
            return self.put(alloc, Form::Words, leaf.rows, leaf.addresses, leaf.numbers);
        }
        let rows = restyled(alloc, heading_style(level), &leaf.rows)?;
        self.put(alloc, Form::Large, rows, leaf.addresses, leaf.numbers)
    }

    /// A leaf of html: a heading, if its tag is in front, or words.
    pub(crate) fn show_html(&mut self, alloc: Global, bytes: &[u8]) -> Result<(), AllocError>
        ensures mapping { OnOk result (mapping_of self.new ≡ html_shown bytes.now (mapping_of self.old)) }
        ensures numbers { OnOk result (numbers_in self.new ≡ numbers_in self.old ++ added_numbers (html_numbers (html_text bytes.now)) (mapping_of self.old) (mapping_of self.new)) }
    {
        let text = html_text(alloc, bytes)?;
        self.show_html_at(alloc, html_level(bytes), text.as_str())
    }

    fn show_table(
        &mut self,
        alloc: Global,
        definitions: &Definitions,
        columns: usize,
        lines: &[Rest<'_>],
    ) -> Result<(), AllocError>
        ensures mapping { OnOk result (mapping_of self.new ≡ put Form.Listed (table_lines (defined_of definitions.now).labels columns (map remaining lines.now)) (table_addresses (defined_of definitions.now) columns (map remaining lines.now)) (mapping_of self.old)) }
        ensures numbers { OnOk result (numbers_in self.new ≡ numbers_in self.old ++ added_numbers (table_numbers (defined_of definitions.now) 0 columns (map remaining lines.now)) (mapping_of self.old) (mapping_of self.new)) }
    {
        let mut rows = Lines::new(alloc);
        let mut links = Vec::new(alloc);
        let mut numbers = Vec::new(alloc);
        push_table(
            alloc,
            &mut rows,
            &mut links,
            &mut numbers,
            definitions,
            columns,
            lines,
        )?;
        let addresses = addresses_of(alloc, links)?;
        self.put(alloc, Form::Listed, rows, addresses, numbers)
    }

    fn show_rule(&mut self, alloc: Global) -> Result<(), AllocError>
        ensures mapping { OnOk result (mapping_of self.new ≡ put Form.Large (horizontal_rule ∷ []) [] (mapping_of self.old)) }
        ensures numbers { OnOk result (numbers_in self.new ≡ numbers_in self.old ++ added_numbers [] (mapping_of self.old) (mapping_of self.new)) }
    {
        let row = rule_row(alloc)?;
        self.put(alloc, Form::Large, row, Vec::new(alloc), Vec::new(alloc))
    }

    fn show_leaf(
        &mut self,
        alloc: Global,
        definitions: &Definitions,
        kind: Kind,
        lines: &[Rest<'_>],
    ) -> Result<(), AllocError>
        ensures mapping { OnOk result (mapping_of self.new ≡ leaf_shown (defined_of definitions.now) kind (map remaining lines.now) (mapping_of self.old)) }
        ensures numbers { OnOk result (numbers_in self.new ≡ numbers_in self.old ++ added_numbers (kind_numbers (defined_of definitions.now) (new_gutter (mapping_of self.old)) kind (map remaining lines.now)) (mapping_of self.old) (mapping_of self.new)) }
    {
        match kind {
            Kind::Nothing | Kind::Definitions => Ok(()),
            Kind::Paragraph => {
                let bytes = joined(alloc, lines)?;
                let gutter = self.new_gutter();
                self.show_paragraph(alloc, definitions, gutter, bytes.as_slice())
            }
            Kind::Html => {
                let bytes = joined(alloc, lines)?;
                self.show_html(alloc, bytes.as_slice())
            }
            Kind::Heading(level) => {
                let bytes = joined(alloc, lines)?;
                self.show_heading(alloc, definitions, level, bytes.as_slice())
            }
            Kind::Indented => self.show_code(alloc, Vec::new(alloc), lines),
            Kind::Fenced => {
                let marks = fence_marks(alloc, lines)?;
                self.show_code(alloc, marks, after_first(lines))
            }
            Kind::Table(columns) => self.show_table(alloc, definitions, columns, lines),
            Kind::Rule => self.show_rule(alloc),
        }
    }

    /// Takes the sections so far.
    pub fn take_sections(&mut self, alloc: Global) -> Vec<MarkdownSection>
        ensures sections { map section_said result.items ≡ (mapping_of self.old).sections }
        ensures numbers { map section_numbers result.items ≡ numbers_in self.old }
        ensures none { numbers_in self.new ≡ [] }
        ensures rest { mapping_of self.new ≡ record (mapping_of self.old) { sections = [] } }
    {
        replace(&mut self.sections, Vec::new(alloc))
    }

    /// Takes the links so far.
    pub fn take_links(&mut self, alloc: Global) -> Vec<Link>
        ensures links { map link_said result.items ≡ (mapping_of self.old).links }
        ensures rest { mapping_of self.new ≡ record (mapping_of self.old) { links = [] } }
        ensures kept { numbers_in self.new ≡ numbers_in self.old }
    {
        replace(&mut self.links, Vec::new(alloc))
    }

    /// A leaf as it is.
    ///
    /// # Errors
    ///
    /// Out of memory is the only error.
    #[tactic(auto, unfolding(crate::specs::Mapping::shown_part))]
    pub(crate) fn show_block(
        &mut self,
        alloc: Global,
        definitions: &Definitions,
        leaf: &Block<'_>,
    ) -> Result<(), AllocError>
        ensures mapping { OnOk result (mapping_of self.new ≡ shown_part (defined_of definitions.now) (block (block_of leaf.now)) (mapping_of self.old)) }
        ensures numbers { OnOk result (numbers_in self.new ≡ numbers_in self.old ++ added_numbers (part_numbers (defined_of definitions.now) (mapping_of self.old) (block (block_of leaf.now))) (mapping_of self.old) (mapping_of self.new)) }
    {
        self.pass(leaf.apart);
        self.end_list()?;
        self.show_leaf(alloc, definitions, leaf.kind, &leaf.lines)
    }

    /// A part of the text. A block of html is shown leaf by leaf.
    #[tactic(auto, unfolding(crate::specs::Mapping::shown_part, crate::specs::Mapping::shown_parts, crate::specs::SectionNumbers::parts_numbers))]
    pub fn show(
        &mut self,
        alloc: Global,
        definitions: &Definitions,
        part: &Part<'_>,
    ) -> Result<(), AllocError>
        ensures mapping { OnOk result (mapping_of self.new ≡ shown_parts (defined_of definitions.now) (leaves_in (part_of part.now)) (mapping_of self.old)) }
        ensures numbers { OnOk result (numbers_in self.new ≡ numbers_in self.old ++ parts_numbers (defined_of definitions.now) (leaves_in (part_of part.now)) (mapping_of self.old)) }
    {
        match part {
            Part::Begins(container, apart) => {
                self.pass(*apart);
                self.begin(*container)
            }
            Part::Ends => self.end(alloc),
            Part::Block(block) => match block.kind {
                Kind::Html => self.show_html_block(alloc, block.apart, &block.lines),
                _ => self.show_block(alloc, definitions, block),
            },
        }
    }

    /// Parts of the text, one after the other.
    #[tactic(auto, unfolding(crate::specs::Mapping::shown_parts, crate::specs::SectionNumbers::parts_numbers))]
    pub fn show_all(
        &mut self,
        alloc: Global,
        definitions: &Definitions,
        parts: &[Part<'_>],
    ) -> Result<(), AllocError>
        ensures mapping { OnOk result (mapping_of self.new ≡ shown_parts (defined_of definitions.now) (flat_map leaves_in (map part_of parts.now)) (mapping_of self.old)) }
        ensures numbers { OnOk result (numbers_in self.new ≡ numbers_in self.old ++ parts_numbers (defined_of definitions.now) (flat_map leaves_in (map part_of parts.now)) (mapping_of self.old)) }
    {
        let mut rest = parts;
        while let [part, next @ ..] = rest {
            self.show(alloc, definitions, part)?;
            rest = next;
        }
        Ok(())
    }
}

//! Writing of no more columns than a limit.

ghost use Rattle.std.specs.Prelude.{◌≡◌, ◌≤◌, ◌<◌, ◌==◌, chars, IfOk, OnErr, IsOk, IsErrOf, MatchOption, if◌then◌else◌};
ghost use Rattle.std.specs.Cow.{cow_str_bytes, IsOwnedStr};
ghost use Rattle.mad_characters.specs.Columns.{char_columns};
ghost use Rattle.mad_term.specs.Draws.{Draws};
ghost use Rattle.mad_term.specs.declared.errors.Error.TheVariants.{Memory};
ghost use Rattle.mad_term.specs.Styles.{foreground_bytes, background_bytes, present_bytes};
ghost use Rattle.mad_style.specs.StyledChars.{styled_char};
ghost use Rattle.mad_measure.specs.RunningWidths.{IsCropped, HasTabWithin};
ghost use Rattle.mad_draw.specs.Crops.{Text, Char, Counted, Filled, Crops, default_tab, unstyled_bytes, styled_bytes, filled_bytes, left_after, unless_full};

use crate::fillings::{Filling, queue_spaces};
use mad_characters::char_columns;
use mad_measure::{DEFAULT_TAB_REPLACEMENT, StrFit, first_chars};
use mad_style::CompoundStyle;
use mad_term::{Error, Out, put_text};
use std::alloc::{AllocError, Global};
use std::borrow::CowStr;

/// Writes texts to a device until a count of columns is used up. Nothing is written once it is, and no call then fails.
///
/// Columns and characters don't always agree: some calls measure columns, and others count characters, as each says. Out of
/// memory comes before anything went out and takes no column off. After a fault of the device the columns of the whole
/// text are off.
#[derive(Drop)]
pub struct CropWriter<'w, O: Out> {
    /// The device.
    pub w: &'w mut O,
    /// The columns that may still be written.
    pub allowed: usize,
    /// What a tab is written as by [`CropWriter::queue_unstyled_char`].
    pub tab_replacement: &'static str,
}

impl<'w, O: Out> CropWriter<'w, O> {
    /// A writer of at most `limit` columns.
    pub fn new(w: &'w mut O, limit: usize) -> Self
        ensures same_device { result.w.ghost_name ≡ w.entry.ghost_name }
        ensures device { result.w.now ≡ w.old }
        ensures allowed { result.allowed ≡ limit }
        ensures tab { result.tab_replacement.now ≡ default_tab }
    {
        Self {
            w,
            allowed: limit,
            tab_replacement: DEFAULT_TAB_REPLACEMENT,
        }
    }

    /// Whether no column may be written any more.
    pub fn is_full(&self) -> bool
        ensures { result ≡ (self.now.allowed == 0) }
    {
        self.allowed == 0
    }

    /// The longest front of a text that fits the columns, each tab replaced by two spaces, and its columns.
    ///
    /// # Errors
    ///
    /// Out of memory is the only error. It can't be where no tab is in that front.
    pub fn cropped_str<'a>(
        &self,
        alloc: Global,
        s: &'a str,
    ) -> Result<(CowStr<'a, Global>, usize), AllocError>
        ensures cropped { IfOk result (λ cropped. IsCropped s.now self.now.allowed (cow_str_bytes cropped.0) cropped.1) }
        ensures borrowed { IfOk result (λ cropped. IsOwnedStr cropped.0 → HasTabWithin s.now self.now.allowed) }
        ensures err { OnErr result (HasTabWithin s.now self.now.allowed) }
    {
        StrFit::make_cow(alloc, s, self.allowed)
    }

    /// Writes of a text what fits, without style.
    ///
    /// # Errors
    ///
    /// A fault of the device, or out of memory: only where a tab is in what fits.
    pub fn queue_unstyled_str(&mut self, alloc: Global, s: &str) -> Result<(), Error>
        ensures crops { Crops unstyled_bytes (Text (chars s.now)) (O.seen self.old.w.now) self.old.allowed result (O.seen self.new.w.now) self.new.allowed }
        ensures memory { IsErrOf result Memory → HasTabWithin s.now self.old.allowed }
        ensures same_device { self.new.w.ghost_name ≡ self.old.w.ghost_name }
        ensures same_tab { self.new.tab_replacement ≡ self.old.tab_replacement }
    {
        if self.is_full() {
            return Ok(());
        }
        let (text, columns) = self.cropped_str(alloc, s)?;
        let written = put_text(self.w, &text);
        self.take_off(written, columns)
    }

    /// Writes of a text what fits, in a style.
    ///
    /// # Errors
    ///
    /// A fault of the device, or out of memory.
    pub fn queue_str(&mut self, alloc: Global, cs: &CompoundStyle, s: &str) -> Result<(), Error>
        ensures crops { Crops (styled_bytes cs.now) (Text (chars s.now)) (O.seen self.old.w.now) self.old.allowed result (O.seen self.new.w.now) self.new.allowed }
        ensures same_device { self.new.w.ghost_name ≡ self.old.w.ghost_name }
        ensures same_tab { self.new.tab_replacement ≡ self.old.tab_replacement }
    {
        if self.is_full() {
            return Ok(());
        }
        let (text, columns) = self.cropped_str(alloc, s)?;
        let written = cs.queue_str(alloc, self.w, &text);
        self.take_off(written, columns)
    }

    /// Writes a character in a style, if it takes fewer columns than may be written.
    ///
    /// # Errors
    ///
    /// A fault of the device, or out of memory.
    pub fn queue_char(&mut self, alloc: Global, cs: &CompoundStyle, c: char) -> Result<(), Error>
        ensures crops { Crops (styled_bytes cs.now) (Char c) (O.seen self.old.w.now) self.old.allowed result (O.seen self.new.w.now) self.new.allowed }
        ensures same_device { self.new.w.ghost_name ≡ self.old.w.ghost_name }
        ensures same_tab { self.new.tab_replacement ≡ self.old.tab_replacement }
    {
        let Some(columns) = self.columns_of(c) else {
            return Ok(());
        };
        let mut buffer = [0; 4];
        let written = cs.queue_str(alloc, self.w, c.encode_utf8(&mut buffer));
        self.take_off(written, columns)
    }

    /// Writes a character without style, if it takes fewer columns than may be written. Of a tab its replacement is
    /// written, as a text.
    ///
    /// # Errors
    ///
    /// A fault of the device, or out of memory: only for a tab whose replacement has one itself.
    pub fn queue_unstyled_char(&mut self, alloc: Global, c: char) -> Result<(), Error>
        ensures crops { Crops unstyled_bytes (if c == 9 then Text (chars self.old.tab_replacement.now) else Char c) (O.seen self.old.w.now) self.old.allowed result (O.seen self.new.w.now) self.new.allowed }
        ensures memory { IsErrOf result Memory → (c ≡ 9) × HasTabWithin self.old.tab_replacement.now self.old.allowed }
        ensures same_device { self.new.w.ghost_name ≡ self.old.w.ghost_name }
        ensures same_tab { self.new.tab_replacement ≡ self.old.tab_replacement }
    {
        if c == '\t' {
            return self.queue_unstyled_str(alloc, self.tab_replacement);
        }
        let Some(columns) = self.columns_of(c) else {
            return Ok(());
        };
        let mut buffer = [0; 4];
        let written = put_text(self.w, c.encode_utf8(&mut buffer));
        self.take_off(written, columns)
    }

    /// Writes the first characters of a text without style, each counted as a column.
    ///
    /// # Errors
    ///
    /// A fault of the device.
    pub fn queue_unstyled_g_string(&mut self, s: &str) -> Result<(), Error>
        ensures crops { Crops unstyled_bytes (Counted (chars s.now)) (O.seen self.old.w.now) self.old.allowed result (O.seen self.new.w.now) self.new.allowed }
        ensures without_memory { IsErrOf result Memory → ⊥ }
        ensures same_device { self.new.w.ghost_name ≡ self.old.w.ghost_name }
        ensures same_tab { self.new.tab_replacement ≡ self.old.tab_replacement }
    {
        if self.is_full() {
            return Ok(());
        }
        let (front, count) = first_chars(s, self.allowed);
        let written = put_text(self.w, front);
        self.take_off(written, count)
    }

    /// Writes the first characters of a text in a style, each counted as a column.
    ///
    /// # Errors
    ///
    /// A fault of the device, or out of memory.
    pub fn queue_g_string(
        &mut self,
        alloc: Global,
        cs: &CompoundStyle,
        s: &str,
    ) -> Result<(), Error>
        ensures crops { Crops (styled_bytes cs.now) (Counted (chars s.now)) (O.seen self.old.w.now) self.old.allowed result (O.seen self.new.w.now) self.new.allowed }
        ensures same_device { self.new.w.ghost_name ≡ self.old.w.ghost_name }
        ensures same_tab { self.new.tab_replacement ≡ self.old.tab_replacement }
    {
        if self.is_full() {
            return Ok(());
        }
        let (front, count) = first_chars(s, self.allowed);
        let written = cs.queue_str(alloc, self.w, front);
        self.take_off(written, count)
    }

    /// Writes the command of a style's foreground, if it is set and a column is left. It takes no column.
    ///
    /// # Errors
    ///
    /// A fault of the device, or out of memory.
    pub fn queue_fg(&mut self, alloc: Global, cs: &CompoundStyle) -> Result<(), Error>
        ensures writes { Draws (O.seen self.old.w.now) (unless_full self.old.allowed (present_bytes foreground_bytes cs.now.object_style.foreground_color)) result (O.seen self.new.w.now) }
        ensures early { IsErrOf result Memory → O.seen self.new.w.now ≡ O.seen self.old.w.now }
        ensures full { self.old.allowed ≡ 0 → IsOk result }
        ensures allowed { self.new.allowed ≡ self.old.allowed }
        ensures same_device { self.new.w.ghost_name ≡ self.old.w.ghost_name }
        ensures same_tab { self.new.tab_replacement ≡ self.old.tab_replacement }
    {
        if self.is_full() {
            return Ok(());
        }
        cs.queue_fg(alloc, self.w)
    }

    /// Writes the command of a style's background, if it is set and a column is left. It takes no column.
    ///
    /// # Errors
    ///
    /// A fault of the device, or out of memory.
    pub fn queue_bg(&mut self, alloc: Global, cs: &CompoundStyle) -> Result<(), Error>
        ensures writes { Draws (O.seen self.old.w.now) (unless_full self.old.allowed (present_bytes background_bytes cs.now.object_style.background_color)) result (O.seen self.new.w.now) }
        ensures early { IsErrOf result Memory → O.seen self.new.w.now ≡ O.seen self.old.w.now }
        ensures full { self.old.allowed ≡ 0 → IsOk result }
        ensures allowed { self.new.allowed ≡ self.old.allowed }
        ensures same_device { self.new.w.ghost_name ≡ self.old.w.ghost_name }
        ensures same_tab { self.new.tab_replacement ≡ self.old.tab_replacement }
    {
        if self.is_full() {
            return Ok(());
        }
        cs.queue_bg(alloc, self.w)
    }

    /// Fills the columns that are left with a character, in a style.
    ///
    /// # Errors
    ///
    /// A fault of the device, or out of memory.
    pub fn fill(
        &mut self,
        alloc: Global,
        cs: &CompoundStyle,
        filling: &Filling,
    ) -> Result<(), Error>
        ensures crops { Crops (filled_bytes (styled_char cs.now filling.now.filling_char)) (Filled filling.now.filling_char self.old.allowed) (O.seen self.old.w.now) self.old.allowed result (O.seen self.new.w.now) self.new.allowed }
        ensures same_device { self.new.w.ghost_name ≡ self.old.w.ghost_name }
        ensures same_tab { self.new.tab_replacement ≡ self.old.tab_replacement }
    {
        self.repeat(alloc, cs, filling, self.allowed)
    }

    /// Fills the columns that are left with a character, without style.
    ///
    /// # Errors
    ///
    /// A fault of the device.
    pub fn fill_unstyled(&mut self, filling: &Filling) -> Result<(), Error>
        ensures crops { Crops unstyled_bytes (Filled filling.now.filling_char self.old.allowed) (O.seen self.old.w.now) self.old.allowed result (O.seen self.new.w.now) self.new.allowed }
        ensures without_memory { IsErrOf result Memory → ⊥ }
        ensures same_device { self.new.w.ghost_name ≡ self.old.w.ghost_name }
        ensures same_tab { self.new.tab_replacement ≡ self.old.tab_replacement }
    {
        self.repeat_unstyled(filling, self.allowed)
    }

    /// Fills the columns that are left with spaces, in a style.
    ///
    /// # Errors
    ///
    /// A fault of the device, or out of memory.
    pub fn fill_with_space(&mut self, alloc: Global, cs: &CompoundStyle) -> Result<(), Error>
        ensures crops { Crops (filled_bytes (styled_char cs.now 32)) (Filled 32 self.old.allowed) (O.seen self.old.w.now) self.old.allowed result (O.seen self.new.w.now) self.new.allowed }
        ensures same_device { self.new.w.ghost_name ≡ self.old.w.ghost_name }
        ensures same_tab { self.new.tab_replacement ≡ self.old.tab_replacement }
    {
        if self.is_full() {
            return Ok(());
        }
        let count = self.allowed;
        let written = queue_spaces(alloc, self.w, cs, count);
        self.take_off(written, count)
    }

    /// Writes a character `len` times in a style, or as often as columns are left, each counted as a column.
    ///
    /// # Errors
    ///
    /// A fault of the device, or out of memory.
    pub fn repeat(
        &mut self,
        alloc: Global,
        cs: &CompoundStyle,
        filling: &Filling,
        len: usize,
    ) -> Result<(), Error>
        ensures crops { Crops (filled_bytes (styled_char cs.now filling.now.filling_char)) (Filled filling.now.filling_char len) (O.seen self.old.w.now) self.old.allowed result (O.seen self.new.w.now) self.new.allowed }
        ensures same_device { self.new.w.ghost_name ≡ self.old.w.ghost_name }
        ensures same_tab { self.new.tab_replacement ≡ self.old.tab_replacement }
    {
        let count = len.min(self.allowed);
        if count == 0 {
            return Ok(());
        }
        let written = filling.queue_styled(alloc, self.w, cs, count);
        self.take_off(written, count)
    }

    /// Writes a character `len` times without style, or as often as columns are left, each counted as a column.
    ///
    /// # Errors
    ///
    /// A fault of the device.
    #[tactic(auto, using(crate::proofs::FillingLemmas::encoded_repeat))]
    pub fn repeat_unstyled(&mut self, filling: &Filling, len: usize) -> Result<(), Error>
        ensures crops { Crops unstyled_bytes (Filled filling.now.filling_char len) (O.seen self.old.w.now) self.old.allowed result (O.seen self.new.w.now) self.new.allowed }
        ensures without_memory { IsErrOf result Memory → ⊥ }
        ensures same_device { self.new.w.ghost_name ≡ self.old.w.ghost_name }
        ensures same_tab { self.new.tab_replacement ≡ self.old.tab_replacement }
    {
        let count = len.min(self.allowed);
        if count == 0 {
            return Ok(());
        }
        let written = filling.queue_unstyled(self.w, count);
        self.take_off(written, count)
    }

    // The columns of a character, if they leave one over.
    fn columns_of(&self, c: char) -> Option<usize>
        ensures { MatchOption result (self.now.allowed ≤ char_columns c) (λ columns. (columns ≡ char_columns c) × (columns < self.now.allowed)) }
    {
        let columns = char_columns(c);
        (columns < self.allowed).then_some(columns)
    }

    // Takes columns off for what was written; out of memory nothing was.
    fn take_off(&mut self, written: Result<(), Error>, columns: usize) -> Result<(), Error>
        requires { columns ≤ self.old.allowed }
        ensures result { result ≡ written }
        ensures left { self.new.allowed ≡ left_after written self.old.allowed columns }
        ensures same_device { self.new.w.ghost_name ≡ self.old.w.ghost_name }
        ensures device { self.new.w.now ≡ self.old.w.now }
        ensures same_tab { self.new.tab_replacement ≡ self.old.tab_replacement }
    {
        match written {
            Err(Error::Memory) => Err(Error::Memory),
            written => {
                self.allowed -= columns;
                written
            }
        }
    }
}

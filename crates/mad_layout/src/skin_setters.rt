//! Changing several parts of a skin at once.

ghost use Rattle.std.specs.Prelude.{◌≡◌, nat_lt, option_map, slice_get};

use crate::skin::MadSkin;
use mad_style::{MAX_ORDERED_LIST_DEPTH, OrderedItemStyle};
use mad_term::Color;

impl MadSkin {
    ghost use Rattle.mad_layout.specs.RecoloredSkins.{headers_in, headers_on, text_in, text_on, lines_on};
    ghost use Rattle.mad_layout.specs.ItemStyles.{with_item_style};

    /// How the items of an ordered list look at a level, counted from 0; none past the last.
    pub fn ordered_item_style_mut(&mut self, level: u8) -> Option<&mut OrderedItemStyle>
        ensures { option_map (λ style. style.now) result ≡ slice_get self.old.ordered_item_styles level }
    {
        self.ordered_item_styles.get_mut(usize::from(level))
    }

    /// Sets how the items of an ordered list look at a level, counted from 0, and answers whether there is such a level. Past the last one
    /// nothing changes.
    pub fn set_ordered_item_style(&mut self, level: u8, style: OrderedItemStyle) -> bool
        ensures set { self.new ≡ with_item_style level style self.old }
        ensures answer { result ≡ nat_lt level 4 }
    {
        let level = usize::from(level);
        let is_level = level < MAX_ORDERED_LIST_DEPTH;
        if is_level {
            self.ordered_item_styles[level] = style;
        }
        is_level
    }

    /// Sets the foreground of all text: of paragraphs, headers, bold, italic and struck out text, of bullets, quote
    /// marks, rules and ellipses. That of code, of tables and of the numbers of items stays.
    pub fn set_fg(&mut self, fg: Color)
        ensures { self.new ≡ text_in fg self.old }
    {
        self.set_headers_fg(fg);
        self.paragraph.set_fg(fg);
        self.bold.set_fg(fg);
        self.italic.set_fg(fg);
        self.strikeout.set_fg(fg);
        self.bullet.set_fg(fg);
        self.quote_mark.set_fg(fg);
        self.horizontal_rule.set_fg(fg);
        self.ellipsis.set_fg(fg);
    }

    /// Sets the background of all text, of tables and of scroll bars. That of code and of the numbers of items stays.
    pub fn set_bg(&mut self, bg: Color)
        ensures { self.new ≡ text_on bg self.old }
    {
        self.set_headers_bg(bg);
        self.paragraph.set_bg(bg);
        self.bold.set_bg(bg);
        self.italic.set_bg(bg);
        self.strikeout.set_bg(bg);
        self.bullet.set_bg(bg);
        self.quote_mark.set_bg(bg);
        self.horizontal_rule.set_bg(bg);
        self.ellipsis.set_bg(bg);
        self.table.set_bg(bg);
        self.scrollbar.set_bg(bg);
    }

    /// Sets the foreground of the headers of all levels.
    pub fn set_headers_fg(&mut self, fg: Color)
        ensures { self.new ≡ headers_in fg self.old }
    {
        for header in &mut self.headers {
            header.set_fg(fg);
        }
    }

    /// Sets the background of the headers of all levels.
    pub fn set_headers_bg(&mut self, bg: Color)
        ensures { self.new ≡ headers_on bg self.old }
    {
        for header in &mut self.headers {
            header.set_bg(bg);
        }
    }

    /// Sets the background of headers, paragraphs and rules.
    pub fn set_global_bg(&mut self, bg: Color)
        ensures { self.new ≡ lines_on bg self.old }
    {
        self.set_headers_bg(bg);
        self.paragraph.set_bg(bg);
        self.horizontal_rule.set_bg(bg);
    }
}

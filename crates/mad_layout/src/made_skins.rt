//! Skins for a dark or a light background, and for ASCII terminals.

ghost use Rattle.std.specs.Prelude.{◌≡◌};

use crate::skin::MadSkin;
use mad_style::{ASCII_TABLE_BORDER_CHARS, gray};

impl MadSkin {
    ghost use Rattle.mad_layout.specs.MadeSkins.{dark_skin, light_skin, limited_to_ascii};

    /// The default skin for a dark background: lighter code, and the first three headers in light grays.
    pub fn default_dark() -> Self
        ensures { result ≡ dark_skin }
    {
        let mut skin = Self::default();
        skin.code_block.set_fgbg(gray(20), gray(5));
        skin.inline_code.set_fgbg(gray(20), gray(5));
        skin.headers[0].set_fg(gray(22));
        skin.headers[1].set_fg(gray(21));
        skin.headers[2].set_fg(gray(20));
        skin
    }

    /// The default skin for a light background: dark code on light, and the first three headers in dark grays.
    pub fn default_light() -> Self
        ensures { result ≡ light_skin }
    {
        let mut skin = Self::default();
        skin.code_block.set_fgbg(gray(3), gray(20));
        skin.inline_code.set_fgbg(gray(4), gray(20));
        skin.headers[0].set_fg(gray(0));
        skin.headers[1].set_fg(gray(2));
        skin.headers[2].set_fg(gray(4));
        skin
    }

    /// Sets `*` for bullets, `>` for quotes, `-` for rules, and the ASCII borders, whatever was there. Scroll bars and the characters after
    /// numbers stay as they are.
    pub fn limit_to_ascii(&mut self)
        ensures { self.new ≡ limited_to_ascii self.old }
    {
        self.table_border_chars = ASCII_TABLE_BORDER_CHARS;
        self.bullet.set_char('*');
        self.quote_mark.set_char('>');
        self.horizontal_rule.set_char('-');
    }
}

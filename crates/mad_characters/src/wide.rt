//! Characters that are known to be wide.

ghost use Rattle.std.specs.Prelude.{◌≡◌, false, IsTrue};
ghost use Rattle.std.specs.Char.{is_whitespace};
ghost use Rattle.mad_characters.specs.Columns.{char_columns};
ghost use Rattle.mad_characters.specs.Wide.{is_known_wide};

/// Whether it is the number of one of most ideographs, kana, Hangul syllables and wide forms. None of them is whitespace; each takes two columns.
pub fn is_known_wide(c: u32) -> bool
    ensures which { result ≡ is_known_wide c }
    ensures columns { IsTrue result → char_columns c ≡ 2 }
    ensures solid { IsTrue result → is_whitespace c ≡ false }
{
    is_in_ranges(c)
}

fn is_in_ranges(c: u32) -> bool
    ensures { result ≡ is_known_wide c }
{
    (0x4e00 <= c && c <= 0x9fff)
        || (0xac00 <= c && c <= 0xd7a3)
        || (0x3041 <= c && c <= 0x3096)
        || (0x30a0 <= c && c <= 0x30ff)
        || (0x3001 <= c && c <= 0x3029)
        || (0xff01 <= c && c <= 0xff60)
}

//! The styles of code's tones.

ghost use Rattle.std.specs.Prelude.{◌≡◌};
ghost use Rattle.mad_page_skin.specs.PageSkins.{code_tones, sets_no_tone};

use mad_rows::{ToneStyles, sets_nothing};
use mad_style::CompoundStyle;

/// How the tones of a block of code look.
#[derive(Clone, Copy, PartialEq, Debug)]
pub struct CodeStyles {
    /// Of a comment.
    pub comment: CompoundStyle,
    /// Of a string.
    pub string: CompoundStyle,
    /// Of a number.
    pub number: CompoundStyle,
    /// Of a keyword.
    pub keyword: CompoundStyle,
    /// Of a name.
    pub name: CompoundStyle,
    /// Of a key.
    pub key: CompoundStyle,
    /// Of a line that is new.
    pub inserted: CompoundStyle,
    /// Of a line that is gone.
    pub deleted: CompoundStyle,
}

impl CodeStyles {
    /// The styles of the tones, as rows have them. Where none sets anything, code has no tones.
    pub fn tones(&self) -> Option<ToneStyles>
        ensures { result ≡ code_tones self.now }
    {
        if self.sets_no_tone() {
            return None;
        }
        Some([
            self.comment,
            self.string,
            self.number,
            self.keyword,
            self.name,
            self.key,
            self.inserted,
            self.deleted,
        ])
    }

    // Whether nothing is set in any of them.
    fn sets_no_tone(&self) -> bool
        ensures { result ≡ sets_no_tone self.now }
    {
        sets_nothing(&self.comment)
            && sets_nothing(&self.string)
            && sets_nothing(&self.number)
            && sets_nothing(&self.keyword)
            && sets_nothing(&self.name)
            && sets_nothing(&self.key)
            && sets_nothing(&self.inserted)
            && sets_nothing(&self.deleted)
    }
}

impl Default for CodeStyles {
    ghost use Rattle.std.specs.Prelude.{◌≡◌};
    ghost use Rattle.mad_page_skin.specs.PageSkins.{unstyled_code};

    ghost is_default = { λ styles. styles ≡ unstyled_code };

    /// Tones in which nothing is set.
    fn default() -> Self {
        let style = CompoundStyle::default();
        Self {
            comment: style,
            string: style,
            number: style,
            keyword: style,
            name: style,
            key: style,
            inserted: style,
            deleted: style,
        }
    }
}

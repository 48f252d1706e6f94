//! The parts of a page's skin under their keys, in byte order of these, and a skin with such parts.

ghost use Rattle.std.specs.Prelude.{◌≡◌, map};
ghost use Rattle.mad_page_json.specs.Named.{named_said};
ghost use Rattle.mad_page_json.specs.Parts.{char_parts, nth_or, style_parts, with_chars, with_code, with_styles, with_titles};

use crate::named::Named;
use mad_page_skin::{CodeStyles, PageSkin, TitleStyles};
use mad_rows::PageStyles;
use mad_style::{CompoundStyle, StyledChar};

/// The parts that are styles alone.
pub fn style_parts(skin: &PageSkin) -> [Named<CompoundStyle>; 19]
    ensures { map named_said result ≡ style_parts skin.now }
{
    [
        under_key("caution", skin.titles.caution),
        under_key("code_comment", skin.code.comment),
        under_key("code_deleted", skin.code.deleted),
        under_key("code_inserted", skin.code.inserted),
        under_key("code_key", skin.code.key),
        under_key("code_keyword", skin.code.keyword),
        under_key("code_name", skin.code.name),
        under_key("code_number", skin.code.number),
        under_key("code_string", skin.code.string),
        under_key("head", skin.head),
        under_key("hit", skin.hit),
        under_key("important", skin.titles.important),
        under_key("link", skin.link),
        under_key("note", skin.titles.note),
        under_key("number", skin.number),
        under_key("picture", skin.picture),
        under_key("status", skin.status),
        under_key("tip", skin.titles.tip),
        under_key("warning", skin.titles.warning),
    ]
}

/// The parts that are a style and a character.
pub fn char_parts(skin: &PageSkin) -> [Named<StyledChar>; 10]
    ensures { map named_said result ≡ char_parts skin.now }
{
    [
        under_key("below_first", skin.page.below_first),
        under_key("below_others", skin.page.below_others),
        under_key("caution_bar", skin.page.caution),
        under_key("done", skin.page.done),
        under_key("important_bar", skin.page.important),
        under_key("note_bar", skin.page.note),
        under_key("sign", skin.sign),
        under_key("task", skin.page.task),
        under_key("tip_bar", skin.page.tip),
        under_key("warning_bar", skin.page.warning),
    ]
}

// A part and its key.
fn under_key<S>(key: &'static str, part: S) -> Named<S>
    ensures { named_said result ≡ (key.now, part) }
{
    Named { key, part }
}

/// A skin with these styles, in the order of their keys; those past the last one stay.
pub fn with_styles(skin: PageSkin, styles: &[CompoundStyle]) -> PageSkin
    ensures { result ≡ with_styles skin styles.now }
{
    PageSkin {
        titles: with_titles(skin.titles, styles),
        code: with_code(skin.code, styles),
        head: nth_or(styles, 9, skin.head),
        hit: nth_or(styles, 10, skin.hit),
        link: nth_or(styles, 12, skin.link),
        number: nth_or(styles, 14, skin.number),
        picture: nth_or(styles, 15, skin.picture),
        status: nth_or(styles, 16, skin.status),
        ..skin
    }
}

// The styles of titles among these.
fn with_titles(titles: TitleStyles, styles: &[CompoundStyle]) -> TitleStyles
    ensures { result ≡ with_titles titles styles.now }
{
    TitleStyles {
        caution: nth_or(styles, 0, titles.caution),
        important: nth_or(styles, 11, titles.important),
        note: nth_or(styles, 13, titles.note),
        tip: nth_or(styles, 17, titles.tip),
        warning: nth_or(styles, 18, titles.warning),
    }
}

// The tones of code among these.
fn with_code(code: CodeStyles, styles: &[CompoundStyle]) -> CodeStyles
    ensures { result ≡ with_code code styles.now }
{
    CodeStyles {
        comment: nth_or(styles, 1, code.comment),
        deleted: nth_or(styles, 2, code.deleted),
        inserted: nth_or(styles, 3, code.inserted),
        key: nth_or(styles, 4, code.key),
        keyword: nth_or(styles, 5, code.keyword),
        name: nth_or(styles, 6, code.name),
        number: nth_or(styles, 7, code.number),
        string: nth_or(styles, 8, code.string),
    }
}

/// A skin with these characters, in the order of their keys; those past the last one stay.
pub fn with_chars(skin: PageSkin, chars: &[StyledChar]) -> PageSkin
    ensures { result ≡ with_chars skin chars.now }
{
    let page = skin.page;
    PageSkin {
        sign: nth_or(chars, 6, skin.sign),
        page: PageStyles {
            below_first: nth_or(chars, 0, page.below_first),
            below_others: nth_or(chars, 1, page.below_others),
            caution: nth_or(chars, 2, page.caution),
            done: nth_or(chars, 3, page.done),
            important: nth_or(chars, 4, page.important),
            note: nth_or(chars, 5, page.note),
            task: nth_or(chars, 7, page.task),
            tip: nth_or(chars, 8, page.tip),
            warning: nth_or(chars, 9, page.warning),
        },
        ..skin
    }
}

// The element of this number, or else another.
fn nth_or<S: Copy>(elements: &[S], number: usize, other: S) -> S
    ensures { result ≡ nth_or elements.now number other }
{
    match elements.get(number) {
        Some(element) => *element,
        None => other,
    }
}

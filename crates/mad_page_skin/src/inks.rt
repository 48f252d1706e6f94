//! Styles by the numbers of their colors in the terminal's palette.

ghost use Rattle.std.specs.Prelude.{◌≡◌};
ghost use Rattle.mad_page_skin.specs.Inks.{attributed, colored, colored_as, drawn, drawn_bar, headers_in, item_in, on, on_as};

use mad_rows::HeaderStyles;
use mad_style::{CompoundStyle, LineStyle, OrderedItemStyle, ScrollBarStyle, StyledChar, ansi};
use mad_term::{Attribute, Attributes};

/// A style of an attribute alone.
pub(crate) fn attributed(attribute: Attribute) -> CompoundStyle
    ensures { result ≡ attributed attribute }
{
    CompoundStyle::with_attr(attribute)
}

/// A style of a color alone.
pub(crate) fn colored(color: u8) -> CompoundStyle
    ensures { result ≡ colored color }
{
    CompoundStyle::with_fg(ansi(color))
}

/// A style of a color and an attribute.
pub(crate) fn colored_as(color: u8, attribute: Attribute) -> CompoundStyle
    ensures { result ≡ colored_as color attribute }
{
    CompoundStyle::new(Some(ansi(color)), None, Attributes::from(attribute))
}

/// A style of a color on another.
pub(crate) fn on(color: u8, under: u8) -> CompoundStyle
    ensures { result ≡ on color under }
{
    CompoundStyle::with_fgbg(ansi(color), ansi(under))
}

/// A style of a color on another, and an attribute.
pub(crate) fn on_as(color: u8, under: u8, attribute: Attribute) -> CompoundStyle
    ensures { result ≡ on_as color under attribute }
{
    CompoundStyle::new(
        Some(ansi(color)),
        Some(ansi(under)),
        Attributes::from(attribute),
    )
}

/// A character in a color.
pub(crate) fn drawn(color: u8, c: char) -> StyledChar
    ensures { result ≡ drawn color c }
{
    StyledChar::from_fg_char(ansi(color), c)
}

/// A bar of half blocks, by the colors of its thumb and its track.
pub(crate) fn drawn_bar(thumb: u8, track: u8) -> ScrollBarStyle
    ensures { result ≡ drawn_bar thumb track }
{
    ScrollBarStyle {
        track: drawn(track, '▐'),
        thumb: drawn(thumb, '▐'),
    }
}

/// The number of an item and the dot after it, in one style.
pub(crate) fn item_in(style: CompoundStyle) -> OrderedItemStyle
    ensures { result ≡ item_in style }
{
    OrderedItemStyle {
        index_style: style,
        index_suffix: StyledChar::new(style, '.'),
    }
}

/// The styles of headers of the first five levels, and of all others.
pub(crate) fn headers_in(
    first: CompoundStyle,
    second: CompoundStyle,
    third: CompoundStyle,
    fourth: CompoundStyle,
    fifth: CompoundStyle,
    others: CompoundStyle,
) -> HeaderStyles
    ensures { result ≡ headers_in first second third fourth fifth others }
{
    let others = LineStyle::from(others);
    [
        LineStyle::from(first),
        LineStyle::from(second),
        LineStyle::from(third),
        LineStyle::from(fourth),
        LineStyle::from(fifth),
        others,
        others,
        others,
    ]
}

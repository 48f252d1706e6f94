//! Scroll bars as values.

ghost use Rattle.std.specs.Prelude.{◌≡◌, Ok, IfOk, IfErr, option_map};
ghost use Rattle.serde_json.specs.View.{view};
ghost use Rattle.mad_json.specs.Faults.{TellsValue};
ghost use Rattle.mad_json.specs.ScrollBars.{scrollbar_said, text_member};

use crate::errors::ValueError;
use crate::texts::FromTokens;
use mad_style::{CompoundStyle, ScrollBarStyle, StyledChar};
use mad_term::Attributes;
use serde_json::Value;
use std::alloc::Global;

/// A scroll bar as it is written: as one character, where that says all, or as its two.
#[derive(Clone, Copy, Debug)]
pub enum ScrollBarStyleDef {
    /// A character whose foreground is the thumb's color and whose background is the track's.
    Simple(StyledChar),
    /// The two characters.
    Rich {
        track: StyledChar,
        thumb: StyledChar,
    },
}

impl ScrollBarStyleDef {
    ghost use Rattle.mad_json.specs.ScrollBars.{bar_of};

    /// The bar that is described. Of one character, a color that is absent is that of the default bar, and
    /// attributes are lost.
    pub fn into_scrollbar_style(self) -> ScrollBarStyle
        ensures { result ≡ bar_of self }
    {
        match self {
            ScrollBarStyleDef::Simple(styled_char) => ScrollBarStyle::from(styled_char),
            ScrollBarStyleDef::Rich { track, thumb } => ScrollBarStyle { track, thumb },
        }
    }
}

impl From<&ScrollBarStyle> for ScrollBarStyleDef {
    ghost use Rattle.mad_json.specs.ScrollBars.{def_of};

    ghost from_gives = { λ bar def. def ≡ def_of bar.now };

    /// One character, where the two are the same character and neither has a background; their attributes are
    /// lost then.
    fn from(bar: &ScrollBarStyle) -> Self {
        let (track, thumb) = (bar.track, bar.thumb);
        if track.nude_char() == thumb.nude_char()
            && track.get_bg().is_none()
            && thumb.get_bg().is_none()
        {
            let style = CompoundStyle::new(thumb.get_fg(), track.get_fg(), Attributes::default());
            ScrollBarStyleDef::Simple(StyledChar::new(style, track.nude_char()))
        } else {
            ScrollBarStyleDef::Rich { track, thumb }
        }
    }
}

/// The scroll bar that a value says: a text as one character, an object by its `thumb` and its `track`.
pub fn scrollbar_of(alloc: Global, value: &Value) -> Result<ScrollBarStyle, ValueError>
    ensures ok { IfOk result (λ bar. scrollbar_said (view value.now) ≡ Ok bar) }
    ensures err { IfErr result (λ e. TellsValue e (scrollbar_said (view value.now))) }
{
    if let Some(text) = value.as_str() {
        let styled_char = StyledChar::parse(alloc, text)?;
        return Ok(ScrollBarStyleDef::Simple(styled_char).into_scrollbar_style());
    }
    let thumb = text_member(value, "thumb").ok_or(ValueError::WrongType)?;
    let track = text_member(value, "track").ok_or(ValueError::WrongType)?;
    let thumb = StyledChar::parse(alloc, thumb)?;
    let track = StyledChar::parse(alloc, track)?;
    Ok(ScrollBarStyle { track, thumb })
}

// The member of this key, where the value is an object and the member a text.
fn text_member<'a>(value: &'a Value, key: &str) -> Option<&'a str>
    ensures { option_map (λ text. text.now) result ≡ text_member key.now (view value.now) }
{
    value.get(key)?.as_str()
}

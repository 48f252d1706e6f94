//! The words of a row: numbers, colors and styles.

use mad_parse::parse_color;
use mad_term::{Attribute, Color, ContentStyle};

/// The number that a word is, if it is one.
pub fn number(word: Option<&str>) -> Option<usize> {
    word?.parse::<usize>().ok()
}

/// Two numbers with a blank between them.
pub fn pair(words: &str) -> (u16, u16) {
    let (one, other) = words.split_once(' ').unwrap_or((words, ""));
    (
        one.parse::<u16>().unwrap_or(0),
        other.parse::<u16>().unwrap_or(0),
    )
}

/// A color by its text, or one of the three that no text says: `Reset`, and the palette's own `Black` and `White`.
pub fn color_of(word: &str) -> Option<Color> {
    match word {
        "Reset" => Some(Color::Reset),
        "Black" => Some(Color::Black),
        "White" => Some(Color::White),
        _ => parse_color(word).ok(),
    }
}

/// A style by its words: `fg=`, `bg=` and `line=` with a color, and names of attributes.
pub fn style_of(words: &str) -> ContentStyle {
    let mut style = ContentStyle::default();
    for word in words.split_whitespace() {
        match word.split_once('=') {
            Some(("fg", color)) => style.foreground_color = color_of(color),
            Some(("bg", color)) => style.background_color = color_of(color),
            Some((_, color)) => style.underline_color = color_of(color),
            None => add_attribute(&mut style, word),
        }
    }
    style
}

fn add_attribute(style: &mut ContentStyle, name: &str) {
    for attribute in &Attribute::ALL {
        if attribute.name() == name {
            style.attributes.set(*attribute);
        }
    }
}

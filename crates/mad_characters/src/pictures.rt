//! One character, as it is or as its picture.

ghost use Rattle.std.specs.Prelude.{◌≡◌, true};
ghost use Rattle.mad_characters.specs.Pictures.{is_printable_char, picture};

/// Whether the character is printable: a newline, or no control character and none that turns the direction of writing.
///
/// Those that turn it are U+202A to U+202E and U+2066 to U+2069.
pub fn is_printable_char(c: char) -> bool
    ensures { result ≡ is_printable_char c }
{
    c == '\n' || !(c.is_control() || matches!(c, '\u{202a}'..='\u{202e}' | '\u{2066}'..='\u{2069}'))
}

/// What is shown of the character: the character itself where it is printable.
///
/// Any other control character up to U+001F becomes its picture, the character U+2400 further on, and DEL U+2421. The control characters
/// from U+0080 to U+009F become U+FFFD, and so do those that turn the direction of writing.
pub fn picture(c: char) -> char
    ensures value { result ≡ picture c }
    ensures printable { is_printable_char result ≡ true }
{
    match c {
        _ if is_printable_char(c) => c,
        '\0'..='\u{1f}' => char::from_u32(0x2400 + c as u32).unwrap(),
        '\u{7f}' => '\u{2421}',
        _ => char::REPLACEMENT_CHARACTER,
    }
}

//! Numbers as texts.

ghost use Rattle.std.specs.Prelude.{◌≡◌};
ghost use Rattle.mad_parse.specs.Numbers.{number_below};

/// The number that a text of digits alone says, if it is a byte.
pub fn parse_byte(text: &str) -> Option<u8>
    ensures { result ≡ number_below 256 text.now }
{
    if text.starts_with('+') {
        return None;
    }
    text.parse::<u8>().ok()
}

//! Attributes as texts.

ghost use Rattle.std.specs.Prelude.{◌≡◌, IsErrOf};
ghost use Rattle.std.specs.Option.{ok_or};
ghost use Rattle.mad_term.specs.Draws.{Draws};
ghost use Rattle.mad_term.specs.declared.errors.Error.TheVariants.{Memory};
ghost use Rattle.mad_parse.specs.Names.{named, attribute_names, attribute_text};
ghost use Rattle.mad_parse.specs.declared.errors.ParseAttributeError.TheVariants.{Unrecognized};

use crate::errors::ParseAttributeError;
use crate::names::named;
use mad_term::{Attribute, Error, Out, put_text};

// The attributes that have a name.
const ATTRIBUTE_NAMES: [(&str, Attribute); 20] = [
    ("bold", Attribute::Bold),
    ("dim", Attribute::Dim),
    ("italic", Attribute::Italic),
    ("reverse", Attribute::Reverse),
    ("encircled", Attribute::Encircled),
    ("crossed-out", Attribute::CrossedOut),
    ("crossed_out", Attribute::CrossedOut),
    ("crossedout", Attribute::CrossedOut),
    ("under-lined", Attribute::Underlined),
    ("under_lined", Attribute::Underlined),
    ("underlined", Attribute::Underlined),
    ("over-lined", Attribute::OverLined),
    ("over_lined", Attribute::OverLined),
    ("overlined", Attribute::OverLined),
    ("slow-blink", Attribute::SlowBlink),
    ("slow_blink", Attribute::SlowBlink),
    ("slowblink", Attribute::SlowBlink),
    ("rapid-blink", Attribute::RapidBlink),
    ("rapid_blink", Attribute::RapidBlink),
    ("rapidblink", Attribute::RapidBlink),
];

/// The attribute of this name, without regard to ASCII case. The hyphen of `crossed-out`, `under-lined`,
/// `over-lined`, `slow-blink` and `rapid-blink` may also be an underscore, or be left out.
///
/// # Errors
///
/// `Unrecognized` for any other text.
pub fn parse_attribute(text: &str) -> Result<Attribute, ParseAttributeError>
    ensures { result ≡ ok_or (named attribute_names text.now) Unrecognized }
{
    named(&ATTRIBUTE_NAMES, text).ok_or(ParseAttributeError::Unrecognized)
}

/// Writes the name of an attribute; nothing for `Reset`.
///
/// # Errors
///
/// A fault of the device.
pub fn write_attribute<O: Out>(out: &mut O, attribute: Attribute) -> Result<(), Error>
    ensures writes { Draws (O.seen out.old) (attribute_text attribute) result (O.seen out.new) }
    ensures without_memory { IsErrOf result Memory → ⊥ }
{
    put_text(out, attribute_name(attribute))
}

/// The name of an attribute; nothing for `Reset`.
pub(crate) fn attribute_name(attribute: Attribute) -> &'static str
    ensures { result.now ≡ attribute_text attribute }
{
    match attribute {
        Attribute::Reset => "",
        _ => attribute.name(),
    }
}

//! Alignments as texts.

ghost use Rattle.std.specs.Prelude.{◌≡◌, IsErrOf};
ghost use Rattle.std.specs.Option.{ok_or};
ghost use Rattle.mad_term.specs.Draws.{Draws};
ghost use Rattle.mad_term.specs.declared.errors.Error.TheVariants.{Memory};
ghost use Rattle.mad_parse.specs.Names.{named, align_names, align_text};
ghost use Rattle.mad_parse.specs.declared.errors.ParseAlignError.TheVariants.{Unrecognized};

use crate::errors::ParseAlignError;
use crate::names::named;
use mad_md::Alignment;
use mad_term::{Error, Out, put_text};

// The alignments that have a name.
const ALIGNMENTS: [(&str, Alignment); 3] = [
    ("left", Alignment::Left),
    ("center", Alignment::Center),
    ("right", Alignment::Right),
];

/// The alignment of this name, without regard to ASCII case: `left`, `center` or `right`.
///
/// # Errors
///
/// `Unrecognized` for any other text.
pub fn parse_align(text: &str) -> Result<Alignment, ParseAlignError>
    ensures { result ≡ ok_or (named align_names text.now) Unrecognized }
{
    named(&ALIGNMENTS, text).ok_or(ParseAlignError::Unrecognized)
}

/// Writes the name of an alignment; nothing where it isn't specified.
///
/// # Errors
///
/// A fault of the device.
pub fn write_align<O: Out>(out: &mut O, align: Alignment) -> Result<(), Error>
    ensures writes { Draws (O.seen out.old) (align_text align) result (O.seen out.new) }
    ensures without_memory { IsErrOf result Memory → ⊥ }
{
    put_text(out, align_name(align))
}

/// The name of an alignment; nothing where it isn't specified.
pub(crate) fn align_name(align: Alignment) -> &'static str
    ensures { result.now ≡ align_text align }
{
    match align {
        Alignment::Left => "left",
        Alignment::Center => "center",
        Alignment::Right => "right",
        Alignment::Unspecified => "",
    }
}

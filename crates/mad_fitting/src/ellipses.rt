//! The ellipsis.

ghost use Rattle.mad_fitting.specs.Ellipses.{IsEllipsis};

use mad_md::Compound;

/// What is put in place of what is left out.
pub const ELLIPSIS: &str = "…";

/// An ellipsis as a compound of its own, without flags.
pub fn ellipsis<'s>() -> Compound<'s>
    ensures { IsEllipsis result }
{
    Compound::raw_str(ELLIPSIS)
}

//! The columns of compounds, exactly.

ghost use Rattle.std.specs.Prelude.{◌≡◌, ◌≤◌, ◌<◌, ◌+◌, ◌-◌, ◌*◌, ◌^◌};
ghost use Rattle.mad_md.specs.Flagged.{flagged_text};
ghost use Rattle.mad_measure.specs.TextColumns.{width_of};

use mad_md::Compound;
use mad_measure::columns;

/// The columns of the compounds. They may pass a `usize`, since compounds may share their texts.
pub(crate) fn total_columns(compounds: &[Compound]) -> u128
    ensures value { result ≡ width_of (flagged_text compounds.now) }
    ensures bound { result ≤ 18446744073709551615 * 18446744073709551615 }
{
    let mut total = 0;
    for compound in compounds {
        total += columns(compound.src) as u128;
    }
    total
}

/// By how many columns the compounds are too wide for a width, behind an indent.
pub(crate) fn excess_columns(compounds: &[Compound], indent: usize, width: usize) -> u128
    ensures value { result ≡ indent + width_of (flagged_text compounds.now) - width }
    ensures bound { result + 1 < 2 ^ 128 }
{
    let total = indent as u128 + total_columns(compounds);
    total.saturating_sub(width as u128)
}

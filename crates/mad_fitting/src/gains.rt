//! The parts of compounds that may be cut, and what each gains.

ghost use Rattle.std.specs.Prelude.{◌≡◌, ◌++◌, IfOk, OnOk, map};
ghost use Rattle.std.specs.List.{AllByRecursion};
ghost use Rattle.std.specs.Str.{IsUtf8};
ghost use Rattle.mad_fitting.specs.Cuts.{IsPartOf};
ghost use Rattle.mad_fitting.specs.Order.{IsSmall};
ghost use Rattle.mad_fitting.specs.Parts.{ArePartsOf, AreGains, gain_of, whole_of};
ghost use Rattle.mad_fitting.specs.Sweeps.{AreInOrder};
ghost use Rattle.mad_fitting.specs.Zones.{AreZonesOf};

use crate::parts::{Run, inside_columns, whole};
use crate::zones::push_runs;
use mad_md::Compound;
use std::alloc::{AllocError, Global};

/// Which parts of compounds are cut.
#[derive(Clone, Copy)]
pub(crate) enum Parts {
    /// Runs of characters that aren't whitespace.
    Runs,
    /// Whole compounds.
    Wholes,
}

/// A part, by the columns that it is compared by and those that are gained where all of it goes but its first and last character.
#[derive(Clone, Copy)]
pub(crate) struct Gain {
    pub(crate) columns: usize,
    pub(crate) gained: usize,
}

/// The parts of a compound that may be cut, in order.
pub(crate) fn parts_of(
    alloc: Global,
    compound: Compound,
    kind: Parts,
) -> Result<Vec<Run>, AllocError>
    ensures parts { IfOk result (λ parts. ArePartsOf kind compound.entry parts.items) }
    ensures utf8 { IsUtf8 compound.entry.src.now }
{
    match kind {
        Parts::Runs => runs_of(alloc, compound),
        Parts::Wholes => wholes_of(alloc, compound),
    }
}

fn runs_of(alloc: Global, compound: Compound) -> Result<Vec<Run>, AllocError>
    ensures { IfOk result (λ parts. AreZonesOf 0 compound.entry.src.now parts.items) }
{
    let mut parts = Vec::new(alloc);
    push_runs(&mut parts, 0, compound)?;
    Ok(parts)
}

fn wholes_of(alloc: Global, compound: Compound) -> Result<Vec<Run>, AllocError>
    ensures { IfOk result (λ parts. parts.items ≡ whole_of compound.entry.src.now) }
{
    let mut parts = Vec::new(alloc);
    let Some(part) = whole(compound) else {
        return Ok(parts);
    };
    parts.push(part)?;
    Ok(parts)
}

/// What each part of the compounds gains, in order.
pub(crate) fn gains_of(
    alloc: Global,
    compounds: &[Compound],
    kind: Parts,
) -> Result<Vec<Gain>, AllocError>
    ensures gains { IfOk result (λ gains. AreGains kind compounds.now gains.items) }
    ensures small { IfOk result (λ gains. AllByRecursion IsSmall gains.items) }
{
    let mut gains = Vec::new(alloc);
    for compound in compounds {
        let parts = parts_of(alloc, *compound, kind)?;
        push_gains(&mut gains, *compound, &parts)?;
    }
    Ok(gains)
}

fn push_gains(gains: &mut Vec<Gain>, compound: Compound, parts: &[Run]) -> Result<(), AllocError>
    requires { AreInOrder compound.src.now 0 parts.now }
    ensures gains { OnOk result (gains.new.items ≡ gains.old.items ++ map (gain_of compound.entry.src.now) parts.now) }
    ensures small { OnOk result (AllByRecursion IsSmall gains.old.items → AllByRecursion IsSmall gains.new.items) }
{
    for part in parts {
        gains.push(gain_of(compound, *part))?;
    }
    Ok(())
}

fn gain_of(compound: Compound, part: Run) -> Gain
    requires { IsPartOf 0 compound part }
    ensures value { result ≡ gain_of compound.entry.src.now part }
    ensures small { IsSmall result }
{
    let text = &compound.src[part.start..part.end];
    Gain {
        columns: part.columns,
        gained: inside_columns(text).saturating_sub(1),
    }
}

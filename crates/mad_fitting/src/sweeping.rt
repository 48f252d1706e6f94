//! Cutting parts in one pass.

ghost use Rattle.std.specs.Prelude.{◌≡◌, ◌≤◌, ◌<◌, ◌-◌, ◌+◌, ◌++◌, List, drop, map, length, IfOk};
ghost use Rattle.mad_fitting.specs.Cuts.{IsPartOf};
ghost use Rattle.mad_fitting.specs.Order.{AreTurns};
ghost use Rattle.mad_fitting.specs.Parts.{AreGains, gain_of};
ghost use Rattle.mad_fitting.specs.Sweeps.{AreInOrder, FollowTurns, IsMoved, PassesOver, Sweeps, SweepsAll};
ghost use Rattle.mad_fitting.specs.declared.gains.Gain.{Gain};

use crate::centered::centered_cut;
use crate::cutting::around;
use crate::ellipses::ellipsis;
use crate::gains::{Parts, parts_of};
use crate::parts::Run;
use crate::turns::Turns;
use mad_md::Compound;
use std::alloc::{AllocError, Global};

/// Compounds that are cut as they are passed over, and how many columns are still too many.
#[derive(Drop)]
pub(crate) struct Sweep<'s> {
    pub(crate) compounds: Vec<Compound<'s>>,
    pub(crate) left: u128,
}

impl<'s> Sweep<'s> {
    // Cuts a part of what is left of a compound in its middle, if that gains columns. It answers what is left then.
    fn cut(
        &mut self,
        rest: Compound<'s>,
        part: Run,
        amount: usize,
    ) -> Result<Compound<'s>, AllocError>
        requires { IsPartOf 0 rest part }
        ensures { IfOk result (λ more. Sweeps amount rest.entry part self.old more self.new) }
    {
        if amount == 0 {
            return Ok(rest);
        }
        let text = &rest.src[part.start..part.end];
        let cut = centered_cut(text, amount);
        if cut.columns < 2 {
            return Ok(rest);
        }
        let (head, tail) = around(rest, part.start + cut.start, part.start + cut.end);
        self.compounds.push(head)?;
        self.compounds.push(ellipsis())?;
        self.left = self.left.saturating_sub((cut.columns - 1) as u128);
        Ok(tail)
    }

    // Passes over the next compound, and cuts its parts. The first of these has this number among all.
    fn pass(
        &mut self,
        compound: Compound<'s>,
        parts: &[Run],
        turns: &Turns,
        number: usize,
    ) -> Result<(), AllocError>
        requires parts { AreInOrder compound.src.now 0 parts.now }
        requires turns { AreTurns turns.now }
        requires gains { FollowTurns compound.src.now parts.now number turns.now }
        ensures { IfOk result (λ _. PassesOver compound.entry parts.now turns.now number self.old self.new) }
    {
        let mut rest = compound;
        for (index, part) in parts.iter().enumerate() {
            let from = compound.src.len() - rest.src.len();
            let turn = number + index;
            let amount = turns.amount(turn, part.columns);
            rest = self.cut(rest, moved(*part, from), amount)?;
        }
        self.compounds.push(rest)?;
        Ok(())
    }
}

// A part, as it lies behind so many bytes.
fn moved(part: Run, bytes: usize) -> Run
    requires start { bytes ≤ part.start }
    requires end { bytes ≤ part.end }
    ensures { IsMoved part bytes result }
{
    Run {
        start: part.start - bytes,
        end: part.end - bytes,
        ..part
    }
}

/// Cuts the parts of the compounds in their turns, in one pass.
pub(crate) fn cut_in_turn<'s>(
    alloc: Global,
    compounds: &[Compound<'s>],
    kind: Parts,
    turns: &Turns,
) -> Result<Sweep<'s>, AllocError>
    requires turns { AreTurns turns.now }
    requires gains { AreGains kind compounds.now turns.now.gains.items }
    ensures { IfOk result (SweepsAll kind compounds.now turns.now) }
{
    let mut sweep = Sweep {
        compounds: Vec::new(alloc),
        left: turns.excess(),
    };
    let mut number = 0;
    for compound in compounds {
        let parts = parts_of(alloc, *compound, kind)?;
        sweep.pass(*compound, &parts, turns, number)?;
        number += parts.len();
    }
    Ok(sweep)
}

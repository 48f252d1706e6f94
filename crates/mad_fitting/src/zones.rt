//! The runs of compounds that may be cut in the middle, kept from cut to cut.

ghost use Rattle.std.specs.Prelude.{◌≡◌, ◌≤◌, ◌<◌, ◌+◌, ◌^◌, List, [], ◌∷◌, ◌++◌, length, IfOk, OnOk, OnErr, if◌then◌else◌};
ghost use Rattle.std.specs.List.{AllByRecursion};
ghost use Rattle.mad_fitting.specs.declared.parts.Run.{Run};
ghost use Rattle.mad_fitting.specs.Zones.{AreZones, AreZonesOf, AreReplaced, CutsRun, before_of, behind_of, cuttable, runs_of};

use crate::centered::centered_cut;
use crate::cutting::{around, put_ellipsis};
use crate::ellipses::ellipsis;
use crate::parts::{Run, may_be_cut, next_run};
use mad_md::Compound;
use std::alloc::{AllocError, Global};

/// The runs of compounds that may be cut in the middle: those of at least three columns and five bytes, in order.
#[derive(Debug, Drop)]
pub struct Zones {
    runs: Vec<Run>,
}

impl Zones {
    /// Finds the runs. Only out of memory is an error.
    pub fn new(alloc: Global, compounds: &[Compound]) -> Result<Self, AllocError>
        ensures zones { IfOk result (λ zones. AreZones 0 compounds.now (runs_of zones)) }

        // There are no others.
        ensures only { IfOk result (λ zones. (others : List Run) → AreZones 0 compounds.now others → others ≡ runs_of zones) }
    {
        let mut runs = Vec::new(alloc);
        for (number, compound) in compounds.iter().enumerate() {
            push_runs(&mut runs, number, *compound)?;
        }
        Ok(Zones { runs })
    }

    /// The runs, each by the number of its compound, its first byte there, and the byte after it.
    pub fn runs(&self) -> &[Run]
        ensures { result.now ≡ runs_of self.now }
    {
        &self.runs
    }

    /// Cuts run `number` in its middle, where `excess` columns are too many, and answers the columns gained: those that go, less the one
    /// of the ellipsis in their place.
    ///
    /// The compounds have to be those that the runs were found in, changed by such cuts alone. The cut grows from half of the run's
    /// characters by one on the right and one on the left, in turn. It ends once it takes more than `excess` columns, or where only the
    /// first or the last character is left on the side whose turn it is. A cut without gain isn't made. The run gives way to those of its
    /// two ends that may be cut again, and the runs after it are renumbered.
    ///
    /// A cut moves the compounds after it and makes the list of runs anew, so it takes time that grows with both.
    ///
    /// # Errors
    ///
    /// Out of memory is the only error. Nothing has changed then.
    pub fn cut(
        &mut self,
        number: usize,
        compounds: &mut Vec<Compound>,
        excess: usize,
    ) -> Result<usize, AllocError>
        requires zones { AreZones 0 compounds.old.items (runs_of self.old) }
        requires number { number < length (runs_of self.old) }
        ensures cut { IfOk result (λ gain. CutsRun self.old number excess gain compounds.old.items compounds.new.items) }
        ensures zones { IfOk result (λ _. AreZones 0 compounds.new.items (runs_of self.new)) }
        ensures none { IfOk result (λ gain. gain ≡ 0 → self.new ≡ self.old) }
        ensures err { OnErr result ((compounds.new.items ≡ compounds.old.items) × (self.new ≡ self.old)) }
    {
        let run = self.runs[number];
        let compound = compounds[run.compound];
        let cut = centered_cut(&compound.src[run.start..run.end], excess);
        if cut.columns < 2 {
            return Ok(0);
        }
        let (start, end) = (run.start + cut.start, run.start + cut.end);
        let (head, tail) = around(compound, start, end);
        let runs = replaced(&self.runs, run.compound, head, tail)?;
        put_ellipsis(compounds, run.compound, start, end)?;
        self.runs = runs;
        Ok(cut.columns - 1)
    }
}

// The runs, with those of three compounds in place of those of this one: what is left of it, and an ellipsis between.
fn replaced(
    all: &Vec<Run>,
    number: usize,
    head: Compound,
    tail: Compound,
) -> Result<Vec<Run>, AllocError>
    requires numbers { AllByRecursion (λ run. run.compound + 2 < 2 ^ 64) all.now.items }
    requires number { number + 2 < 2 ^ 64 }
    ensures { IfOk result (λ runs. AreReplaced number head.entry.src.now tail.entry.src.now all.now.items runs.items) }
{
    let mut runs = Vec::new(*all.allocator());
    push_before(&mut runs, all, number)?;
    push_runs(&mut runs, number, head)?;
    push_runs(&mut runs, number + 1, ellipsis())?;
    push_runs(&mut runs, number + 2, tail)?;
    push_behind(&mut runs, all, number)?;
    Ok(runs)
}

// Adds the runs of the compounds before this one.
fn push_before(runs: &mut Vec<Run>, all: &[Run], number: usize) -> Result<(), AllocError>
    ensures { OnOk result (runs.new.items ≡ runs.old.items ++ before_of number all.now) }
{
    for run in all {
        push_if(runs, run.compound < number, *run)?;
    }
    Ok(())
}

// Adds the runs of the compounds behind this one, which is three now.
fn push_behind(runs: &mut Vec<Run>, all: &[Run], number: usize) -> Result<(), AllocError>
    requires { AllByRecursion (λ run. run.compound + 2 < 2 ^ 64) all.now }
    ensures { OnOk result (runs.new.items ≡ runs.old.items ++ behind_of number all.now) }
{
    for run in all {
        let renumbered = Run {
            compound: run.compound + 2,
            ..*run
        };
        push_if(runs, run.compound > number, renumbered)?;
    }
    Ok(())
}

fn push_if(runs: &mut Vec<Run>, wanted: bool, run: Run) -> Result<(), AllocError>
    ensures { OnOk result (runs.new.items ≡ runs.old.items ++ (if wanted then run ∷ [] else [])) }
{
    if wanted {
        runs.push(run)?;
    }
    Ok(())
}

/// Adds the runs of a compound that may be cut.
pub(crate) fn push_runs(
    runs: &mut Vec<Run>,
    number: usize,
    compound: Compound,
) -> Result<(), AllocError>
    ensures { OnOk result ((own : List Run) × AreZonesOf number compound.entry.src.now own × (runs.new.items ≡ runs.old.items ++ own)) }
{
    let mut at = 0;
    while let Some(run) = next_run(number, compound, at) {
        push_run(runs, run)?;
        at = run.end;
    }
    Ok(())
}

// Adds a run, if it may be cut.
fn push_run(runs: &mut Vec<Run>, run: Run) -> Result<(), AllocError>
    requires { run.start ≤ run.end }
    ensures { OnOk result (runs.new.items ≡ runs.old.items ++ cuttable (run ∷ [])) }
{
    if may_be_cut(run) {
        runs.push(run)?;
    }
    Ok(())
}

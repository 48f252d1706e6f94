//! An ellipsis in place of the middle of a part.

ghost use Rattle.std.specs.Prelude.{◌≡◌, OnOk, OnErr, take, drop};
ghost use Rattle.std.specs.Str.{IsUtf8, IsCharBoundary};
ghost use Rattle.mad_md.specs.Flagged.{flags_of};
ghost use Rattle.mad_fitting.specs.Cuts.{CutsOut, IsInside};

use crate::ellipses::ellipsis;
use mad_md::Compound;
use std::alloc::AllocError;

/// Puts an ellipsis in place of a part inside a compound. Out of memory nothing changes.
pub(crate) fn put_ellipsis(
    compounds: &mut Vec<Compound>,
    number: usize,
    start: usize,
    end: usize,
) -> Result<(), AllocError>
    requires { IsInside number start end compounds.old.items }
    ensures cut { OnOk result (CutsOut number start end compounds.old.items compounds.new.items) }
    ensures err { OnErr result (compounds.new.items ≡ compounds.old.items) }
{
    compounds.reserve(2)?;
    let (head, tail) = around(compounds[number], start, end);
    compounds.insert(number + 1, tail)?;
    compounds.insert(number + 1, ellipsis())?;
    compounds[number] = head;
    Ok(())
}

/// What is on both sides of a part of a compound.
pub(crate) fn around<'s>(
    compound: Compound<'s>,
    start: usize,
    end: usize,
) -> (Compound<'s>, Compound<'s>)
    requires start { IsCharBoundary compound.src.now start }
    requires end { IsCharBoundary compound.src.now end }
    ensures utf8 { IsUtf8 compound.entry.src.now }
    ensures head_text { result.0.src.now ≡ take start compound.entry.src.now }
    ensures head_flags { flags_of result.0 ≡ flags_of compound.entry }
    ensures tail_text { result.1.src.now ≡ drop end compound.entry.src.now }
    ensures tail_flags { flags_of result.1 ≡ flags_of compound.entry }
{
    (compound.sub(0, start), compound.tail(end))
}

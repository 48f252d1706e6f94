//! A worked selection and worked cuts, as functions that only state them.

ghost use Rattle.std.specs.Prelude.{◌≡◌, [], codes};
ghost use Rattle.mad_edit.specs.Editor.{selected, IsCut};
ghost use Rattle.mad_edit.specs.Examples.{three_lines, after_the_cut, middle_line_kept, two_cuts, two_cuts_turned};
ghost use Rattle.mad_edit.specs.Undo.{LeadsTo};

/// What is selected over three lines, and what a cut leaves: no middle line.
pub fn three_lines_cut()
    ensures selected { selected three_lines ≡ codes "b\ncd\ne" }
    ensures left { IsCut three_lines after_the_cut }
    ensures middle { ¬ (IsCut three_lines middle_line_kept) }
{}

/// Two cuts lead from a text to the empty one; in the other order they don't.
pub fn two_cuts_in_order()
    ensures leads { LeadsTo (codes "abcd") two_cuts [] }
    ensures turned { ¬ (LeadsTo (codes "abcd") two_cuts_turned []) }
{}

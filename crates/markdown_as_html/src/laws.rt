//! What is printed is what is read: laws, each a function that does nothing and states it.

ghost use Rattle.markdown_as_html.specs.Laws.{LabelsAreThose};
ghost use Rattle.markdown_as_html.specs.Printed.{CodeIsPrinted};

/// The labels that are defined are those that the reader has.
#[tactic(auto, using(crate::proofs::LabelLemmas::same_labels))]
pub fn labels_are_those()
    ensures { LabelsAreThose }
{}

/// Code between fences is printed as it stands, without the indent of the fence, and what comes after is printed as a text of its own.
#[tactic(auto, using(crate::proofs::CodeLemmas::printed))]
pub fn code_is_printed()
    ensures { CodeIsPrinted }
{}

//! What callers rely on.

ghost use Rattle.mad_plain.specs.Examples.{Examples};
ghost use Rattle.mad_plain.specs.Laws.{AllCommandsAreTaken, CommandsAreCommands, CutRowsFit, LinesAreLines, LinesThatFitStay, NothingIsHidden, NothingIsObeyed, PlainLinesStay, RowsAreFull, RowsAreTheLine, RowsFit, StylesAreWritten};

/// A line without tabs and control characters is shown as it is.
#[tactic(auto, using(crate::proofs::LineLemmas::plain_all))]
pub fn plain_lines_stay()
    ensures { PlainLinesStay }
{}

/// The lines of a text are what stands between newlines.
#[tactic(auto, using(crate::proofs::TextLemmas::are_lines))]
pub fn lines_are_lines()
    ensures { LinesAreLines }
{}

/// What is taken for a command is one.
#[tactic(auto, using(crate::proofs::CommandLemmas::is_command))]
pub fn commands_are_commands()
    ensures { CommandsAreCommands }
{}

/// Nothing that is shown of a line is a control character.
#[tactic(auto, using(crate::proofs::LawLemmas::nothing_obeyed))]
pub fn nothing_is_obeyed()
    ensures { NothingIsObeyed }
{}

/// Nothing of a line is hidden but commands, and what overstrikes say.
#[tactic(auto, using(crate::proofs::LawLemmas::nothing_hidden))]
pub fn nothing_is_hidden()
    ensures { NothingIsHidden }
{}

/// Wrapped rows, one after the other, are the line.
#[tactic(auto, using(crate::proofs::RowLawLemmas::rows_joined))]
pub fn rows_are_the_line()
    ensures { RowsAreTheLine }
{}

/// Each wrapped row fits the width, or is one character that doesn't, with those without columns behind it.
#[tactic(auto, using(crate::proofs::RowLawLemmas::rows_fit))]
pub fn rows_fit()
    ensures { RowsFit }
{}

/// Each cut row fits the width.
#[tactic(auto, using(crate::proofs::RowLawLemmas::cut_fits))]
pub fn cut_rows_fit()
    ensures { CutRowsFit }
{}

/// A line that fits and isn't moved is shown as it is.
#[tactic(auto, using(crate::proofs::RowLawLemmas::cut_whole))]
pub fn lines_that_fit_stay()
    ensures { LinesThatFitStay }
{}

/// A command is taken for one, whatever is behind it.
#[tactic(auto, using(crate::proofs::TakenLemmas::all_taken))]
pub fn all_commands_are_taken()
    ensures { AllCommandsAreTaken }
{}

/// Each wrapped row begins with a character that had no room in the row before.
#[tactic(auto, using(crate::proofs::RowLawLemmas::rows_full))]
pub fn rows_are_full()
    ensures { RowsAreFull }
{}

/// What some lines show: the parameters of commands one by one, commands that are whole or broken, overstrikes.
#[tactic(auto, using(crate::proofs::ExampleLemmas::examples))]
pub fn examples()
    ensures { Examples }
{}

/// A line without ESC and backspaces has no style.
#[tactic(auto, using(crate::proofs::LawLemmas::styles_written))]
pub fn styles_are_written()
    ensures { StylesAreWritten }
{}

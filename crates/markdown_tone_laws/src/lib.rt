//! The tones of code beside what is shown of it.
#![tactic(auto)]

ghost use Rattle.markdown_tone_laws.specs.Laws.{FencesAreToned, TonesAreTheCodes};

/// In runs that have the tones of a block of code, the n-th character that is shown of its lines and isn't blank has the tone of its own token.
#[tactic(auto, using(crate::proofs::ToneLemmas::code_toned))]
pub fn tones_are_the_codes()
    ensures { TonesAreTheCodes }
{}

/// Of what each text is shown as, a section has no marks, or shows the code of some fence that names a language: the n-th character that isn't blank has as its mark
/// the tone of its own token. That all fences have theirs is `fences_have_their_marks` of `markdown_reader`.
#[tactic(auto, using(crate::proofs::FenceLemmas::fences_toned))]
pub fn fences_are_toned()
    ensures { FencesAreToned }
{}

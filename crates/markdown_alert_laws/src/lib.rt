//! What the row behind the bar of an alert says.
#![tactic(auto)]

ghost use Rattle.markdown_alert_laws.specs.Alerts.{AlertsSayTheirWord};

/// Of what each text is shown as, a section with which an alert's bar begins has it as its last gutter, and the alert's word, in bold and alone, as its first line.
#[tactic(auto, using(crate::proofs::AlertLemmas::alerts_said))]
pub fn alerts_say_their_word()
    ensures { AlertsSayTheirWord }
{}

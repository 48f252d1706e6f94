//! Laws, each the contract of a small function: what is put into a page leaves its text as it is, but for marks and signs.

ghost use Rattle.mad_dressing.specs.DressLaws.{AddsMarksAlone, OthersStay, TextStays};

/// No character of the text changes, none is lost, and all are in their order. What is new between them is marks and the signs of pictures alone, or
/// nothing where no marks stand at words and there are no pictures.
#[tactic(auto, using(crate::proofs::DressLemmas::text_stays))]
pub fn text_stays()
    ensures { TextStays }
{}

/// Beside marks at words and the signs of pictures what is new is a rule below a heading, or the signs in front of one.
#[tactic(auto, using(crate::proofs::DressLemmas::adds_marks_alone))]
pub fn adds_marks_alone()
    ensures { AddsMarksAlone }
{}

/// A section of code stays as it is. Where no marks stand at words, a section without a picture that is no heading does too, and each without one
/// where headings have neither rules nor signs.
#[tactic(auto, using(crate::proofs::DressLemmas::others_stay))]
pub fn others_stay()
    ensures { OthersStay }
{}

//! What can be answered.

ghost use Rattle.std.specs.Prelude.{◌≡◌};
ghost use Rattle.mad_ask.specs.Offers.{is_key, offered_by};

/// An answer that is offered.
#[derive(Debug, Drop)]
pub struct Answer {
    /// What is typed for it.
    pub key: String,
    /// What it means, a Markdown text.
    pub md: String,
}

/// The answers that are offered, and what is answered where nothing is typed.
#[derive(Clone, Copy)]
pub struct Choices<'a> {
    /// The answers.
    pub answers: &'a [Answer],
    /// What an empty line answers, and the end of the input.
    pub default_answer: Option<&'a str>,
}

impl Choices<'_> {
    /// Whether an answer has this key.
    #[tactic(auto, using(crate::proofs::KeyLemmas::key_step, crate::proofs::KeyLemmas::key_past))]
    pub fn has_key(&self, key: &str) -> bool
        ensures { result ≡ is_key (offered_by self.now) key.now }
    {
        for answer in self.answers {
            if answer.key.as_str() == key {
                return true;
            }
        }
        false
    }
}

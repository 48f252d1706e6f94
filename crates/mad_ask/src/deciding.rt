//! What a line that was read decides.

ghost use Rattle.std.specs.Prelude.{◌≡◌, MatchOption};
ghost use Rattle.mad_ask.specs.Deciding.{Decision, text_decides};

use crate::choices::Choices;

impl<'a> Choices<'a> {
    ghost use Rattle.mad_ask.specs.Deciding.{Answered, Undecided};
    ghost use Rattle.mad_ask.specs.Offers.{offered_by};

    /// The answer that a text without whitespace at its end decides: an empty one the default, if there is one, and a key itself.
    pub(crate) fn decide(&self, text: &'a str) -> Option<&'a str>
        ensures { MatchOption result
            (text_decides (offered_by self.now) (offered_by self.now).default text.entry.now ≡ Undecided)
            (λ answer. text_decides (offered_by self.now) (offered_by self.now).default text.entry.now ≡ Answered answer.now) }
    {
        match self.default_answer {
            Some(default) if text.is_empty() => Some(default),
            _ if self.has_key(text) => Some(text),
            _ => None,
        }
    }
}

//! What is read of a text.

ghost use Rattle.std.specs.Prelude.{◌≡◌};
ghost use Rattle.markdown_lines.specs.Texts.{behind_mark};

/// A text behind the byte order mark that some editors write at its front, if it has one. With it the first line would begin with a
/// character of its own, so it would be no heading.
pub fn behind_mark(text: &str) -> &str
    ensures { result.now ≡ behind_mark text.entry.now }
{
    text.strip_prefix('\u{feff}').unwrap_or(text)
}

//! A cut in the middle of a text.

ghost use Rattle.std.specs.Prelude.{◌≡◌, ◌≤◌, ◌+◌, ◌%◌, ◌++◌, chars, length, take, IfNone, IfSome, MatchOption};
ghost use Rattle.std.specs.Char.{encode_utf8};
ghost use Rattle.std.specs.Str.{IsUtf8, IsCharBoundary};
ghost use Rattle.mad_fitting.specs.CenteredCuts.{IsCenteredCut, IsMiddle, GrowsBy};

use mad_characters::char_columns;

/// A part of a text that is cut out.
#[derive(Clone, Copy)]
pub(crate) struct Cut {
    /// Its first byte.
    pub(crate) start: usize,
    /// The byte after it.
    pub(crate) end: usize,
    /// Its columns.
    pub(crate) columns: usize,
}

/// The fewest characters in the middle that take more than `excess` columns, or all but the first and the last.
///
/// They begin at half of the characters; one more is taken on the right, then on the left, in turn.
pub(crate) fn centered_cut(text: &str, excess: usize) -> Cut
    ensures cut { IsCenteredCut excess text.now result }
    ensures most { result.columns ≤ excess + 3 }
{
    let mut middle = Middle::of(text);
    while middle.columns <= excess {
        match middle.grown() {
            Some(more) => middle = more,
            None => break,
        }
    }
    Cut {
        start: middle.before.len(),
        end: text.len() - middle.after.len(),
        columns: middle.columns,
    }
}

// Characters in the middle of a text, by what is on both sides.
#[derive(Clone, Copy)]
pub(crate) struct Middle<'a> {
    text: &'a str,
    before: &'a str,
    after: &'a str,
    count: usize,
    columns: usize,
}

impl<'a> Middle<'a> {
    // None, at half of the characters.
    fn of(text: &'a str) -> Self
        ensures middle { IsMiddle result }
        ensures text { result.text ≡ text.entry }
        ensures count { result.count ≡ 0 }
        ensures columns { result.columns ≡ 0 }
    {
        let half = text.chars().count() / 2;
        let (before, after) = text.split_at(char_start(text, half));
        Middle {
            text,
            before,
            after,
            count: 0,
            columns: 0,
        }
    }

    // One character more, on the right and on the left in turn, unless it is the first or the last of all.
    fn grown(self) -> Option<Self>
        requires { IsMiddle self }
        ensures middle { IfSome result IsMiddle }
        ensures more { IfSome result (GrowsBy self.entry) }
        ensures last { IfNone result (length (chars self.entry.text.now) ≤ self.entry.count + 2) }
    {
        if self.count % 2 == 0 {
            self.grown_right()
        } else {
            self.grown_left()
        }
    }

    fn grown_right(self) -> Option<Self>
        requires middle { IsMiddle self }
        requires turn { self.count % 2 ≡ 0 }
        ensures middle { IfSome result IsMiddle }
        ensures more { IfSome result (GrowsBy self.entry) }
        ensures last { IfNone result (length (chars self.entry.text.now) ≤ self.entry.count + 2) }
    {
        let (c, after) = first_char(self.after)?;
        if self.before.is_empty() || after.is_empty() {
            return None;
        }
        Some(Middle {
            after,
            count: self.count + 1,
            columns: self.columns + char_columns(c),
            ..self
        })
    }

    fn grown_left(self) -> Option<Self>
        requires middle { IsMiddle self }
        requires turn { self.count % 2 ≡ 1 }
        ensures middle { IfSome result IsMiddle }
        ensures more { IfSome result (GrowsBy self.entry) }
        ensures last { IfNone result (length (chars self.entry.text.now) ≤ self.entry.count + 2) }
    {
        let (before, c) = last_char(self.before)?;
        if before.is_empty() || self.after.is_empty() {
            return None;
        }
        Some(Middle {
            before,
            count: self.count + 1,
            columns: self.columns + char_columns(c),
            ..self
        })
    }
}

/// The first character of a text, and the others.
pub(crate) fn first_char(text: &str) -> Option<(char, &str)>
    ensures { MatchOption result (length text.entry.now ≡ 0) (λ parts. IsUtf8 parts.1.now × (text.entry.now ≡ encode_utf8 parts.0 ++ parts.1.now)) }
{
    let mut chars = text.chars();
    let c = chars.next()?;
    Some((c, chars.as_str()))
}

/// The characters of a text before the last one, and that.
pub(crate) fn last_char(text: &str) -> Option<(&str, char)>
    ensures { MatchOption result (length text.entry.now ≡ 0) (λ parts. IsUtf8 parts.0.now × (text.entry.now ≡ parts.0.now ++ encode_utf8 parts.1)) }
{
    let mut chars = text.chars();
    let c = chars.next_back()?;
    Some((chars.as_str(), c))
}

// The byte at which a character begins, by its number; the end of the text, where it has no more.
fn char_start(text: &str, number: usize) -> usize
    ensures border { IsCharBoundary text.now result }
    ensures before { chars (take result text.now) ≡ take number (chars text.now) }
{
    let mut left = number;
    for (index, _) in text.char_indices() {
        if left == 0 {
            return index;
        }
        left -= 1;
    }
    text.len()
}

//! How a text is cut into style tokens.

ghost use Rattle.std.specs.Prelude.{◌≡◌, ◌<◌, ◌++◌, take, length};
ghost use Rattle.std.specs.List.{prefix_len};
ghost use Rattle.std.specs.Str.{chars, IsCharBoundary};
ghost use Rattle.mad_parse.specs.Cuts.{is_in, bracket_len, token_len};

// A kind of characters.
#[derive(Clone, Copy)]
pub(crate) enum Class {
    /// What a word is of: neither whitespace nor a bracket.
    Word,
    /// What may be in the bracket after a word.
    Inside,
}

impl Class {
    fn has(self, c: char) -> bool
        ensures { result ≡ is_in self c }
    {
        match self {
            Class::Word => !(c.is_whitespace() || c == '(' || c == ')'),
            Class::Inside => {
                c.is_ascii_alphanumeric() || c == '_' || c == ',' || c.is_whitespace()
            }
        }
    }
}

/// The first token of a text that isn't empty, and the rest.
pub(crate) fn cut_token(text: &str) -> (&str, &str)
    requires { 0 < length text.now }
    ensures whole { result.0.now ++ result.1.now ≡ text.entry.now }
    ensures len { length (chars result.0.now) ≡ token_len (chars text.entry.now) }
{
    let end = leading(text, Class::Word);
    if end == 0 {
        return text.split_at(first_char_len(text));
    }
    let (_, after) = text.split_at(end);
    text.split_at(end + bracket_end(after))
}

// Where the first character ends.
fn first_char_len(text: &str) -> usize
    requires { 0 < length text.now }
    ensures border { IsCharBoundary text.now result }
    ensures len { length (chars (take result text.now)) ≡ 1 }
{
    match text.chars().next() {
        Some(c) => c.len_utf8(),
        None => 0,
    }
}

// Where the characters of a kind end that begin a text.
fn leading(text: &str, class: Class) -> usize
    ensures border { IsCharBoundary text.now result }
    ensures len { length (chars (take result text.now)) ≡ prefix_len (is_in class) (chars text.now) }
{
    let mut end = 0;
    for c in text.chars() {
        if !class.has(c) {
            return end;
        }
        end += c.len_utf8();
    }
    end
}

// Where the bracket ends that opens a text: 0 where none does.
fn bracket_end(text: &str) -> usize
    ensures border { IsCharBoundary text.now result }
    ensures len { length (chars (take result text.now)) ≡ bracket_len (chars text.now) }
{
    let Some(inside) = text.strip_prefix('(') else {
        return 0;
    };
    let end = leading(inside, Class::Inside);
    if end == 0 {
        return 0;
    }
    let (_, after) = inside.split_at(end);
    let Some(_) = after.strip_prefix(')') else {
        return 0;
    };
    end + 2
}

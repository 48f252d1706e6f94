//! What a name stands for.

ghost use Rattle.std.specs.Prelude.{◌≡◌, map};
ghost use Rattle.markdown_entities.specs.Rows.{row_of};
ghost use Rattle.markdown_entities.specs.Lookup.{first_letter, second_of, find_name, characters_named};

use crate::names::names_with;

/// What a name stands for: one character or two.
#[derive(Debug, Clone, Copy)]
pub struct Named {
    pub first: char,
    pub second: Option<char>,
}

fn first_letter(name: &[u8]) -> u8
    ensures { result ≡ first_letter name.now }
{
    match name {
        [b, ..] => *b,
        [] => 0,
    }
}

fn second_of(c: char) -> Option<char>
    ensures { result ≡ second_of c }
{
    if c == '\0' { None } else { Some(c) }
}

// What the first row of this name says.
#[tactic(auto, unfolding(crate::specs::Lookup::find_name))]
fn find_name(name: &[u8], rows: &[(&str, char, char)]) -> Option<Named>
    ensures { result ≡ find_name name.now (map row_of rows.now) }
{
    let mut rest = rows;
    while let [(n, first, second), next @ ..] = rest {
        if n.as_bytes() == name {
            return Some(Named {
                first: *first,
                second: second_of(*second),
            });
        }
        rest = next;
    }
    None
}

/// What a name stands for, if HTML has it.
pub fn characters_named(name: &[u8]) -> Option<Named>
    ensures { result ≡ characters_named name.now }
{
    find_name(name, names_with(first_letter(name)))
}

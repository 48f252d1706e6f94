//! The names of the parts of a skin.

ghost use Rattle.std.specs.Prelude.{◌≡◌, ◌<◌};
ghost use Rattle.mad_json.specs.Fields.{field_named, addition_named, char_named, line_named, form_named, field_index};

/// How many parts a skin has.
pub const FIELD_COUNT: usize = 16;

/// A part of a skin that a key names.
#[derive(Clone, Copy, Debug)]
pub enum Field {
    Bold,
    Italic,
    Strikeout,
    InlineCode,
    Ellipsis,
    Bullet,
    QuoteMark,
    HorizontalRule,
    ScrollBar,
    Paragraph,
    CodeBlock,
    Table,
    Headers,
    OrderedItems,
    TableBorders,
    IndentationMode,
}

impl Field {
    /// Its number, from 0 on.
    pub(crate) fn index(self) -> usize
        ensures value { result ≡ field_index self }
        ensures within { result < 16 }
    {
        self as usize
    }
}

/// The part that a key names.
pub fn field_of(key: &str) -> Option<Field>
    ensures { result ≡ field_named key.now }
{
    addition_field(key)
        .or(char_field(key))
        .or(line_field(key))
        .or(form_field(key))
}

// What text adds to its line.
fn addition_field(key: &str) -> Option<Field>
    ensures { result ≡ addition_named key.now }
{
    match key {
        "bold" => Some(Field::Bold),
        "italic" => Some(Field::Italic),
        "strikeout" => Some(Field::Strikeout),
        "inline_code" | "inline-code" => Some(Field::InlineCode),
        "ellipsis" => Some(Field::Ellipsis),
        _ => None,
    }
}

// Characters that are drawn.
fn char_field(key: &str) -> Option<Field>
    ensures { result ≡ char_named key.now }
{
    match key {
        "bullet" => Some(Field::Bullet),
        "quote" | "quote_mark" | "quote-mark" => Some(Field::QuoteMark),
        "horizontal_rule" | "horizontal-rule" | "rule" => Some(Field::HorizontalRule),
        "scrollbar" => Some(Field::ScrollBar),
        _ => None,
    }
}

// Lines.
fn line_field(key: &str) -> Option<Field>
    ensures { result ≡ line_named key.now }
{
    match key {
        "paragraph" => Some(Field::Paragraph),
        "code_block" | "code-block" => Some(Field::CodeBlock),
        "table" => Some(Field::Table),
        "headers" => Some(Field::Headers),
        _ => None,
    }
}

// Items of lists, and the borders of tables.
fn form_field(key: &str) -> Option<Field>
    ensures { result ≡ form_named key.now }
{
    match key {
        "ordered_items" | "ordered-items" => Some(Field::OrderedItems),
        "table_border_chars" | "table-border-chars" => Some(Field::TableBorders),
        "list_items_indentation_mode" | "list-items-indentation-mode" => {
            Some(Field::IndentationMode)
        }
        _ => None,
    }
}

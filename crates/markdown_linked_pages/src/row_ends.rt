//! Rows without the blanks at their ends.

ghost use Rattle.std.specs.Prelude.{◌≡◌, ◌==◌, ◌&&◌, ◌++◌, ◌-◌, ◌≤◌, nat_lt, drop, slice_index, string_bytes, string_len, take};
ghost use Rattle.markdown_layout.specs.RowEnds.{is_end, without_end};

/// Takes the blanks and newlines at the end of a row that begins at a place.
pub(crate) fn take_ends(rows: &mut String, start: usize)
    requires { start ≤ string_len rows.old }
    ensures { string_bytes rows.new ≡ take start (string_bytes rows.old) ++ without_end (drop start (string_bytes rows.old)) }
{
    'ends: while has_end(rows, start) {
        rows.pop();
    }
}

// Whether a row that begins at a place ends in a blank or a newline.
fn has_end(rows: &String, start: usize) -> bool
    ensures { result ≡ (nat_lt start (string_len rows.now) && is_end (slice_index (string_bytes rows.now) (string_len rows.now - 1))) }
{
    let bytes = rows.as_bytes();
    bytes.len() > start && is_end(bytes[bytes.len() - 1])
}

// Whether a byte is a blank or a newline.
fn is_end(byte: u8) -> bool
    ensures { result ≡ is_end byte }
{
    byte == b' ' || byte == b'\n'
}

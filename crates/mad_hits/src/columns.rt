//! The columns in front of a row's line.

ghost use Rattle.std.specs.Prelude.{◌≡◌};
ghost use Rattle.mad_wrap.specs.WrapLines.{capped};
ghost use Rattle.mad_page_rows.specs.FaceLaws.{front_columns, fronts};

use mad_page_rows::faces::has_boxes;
use mad_page_rows::has_ascii_boxes;
use mad_rows::RowSkin;
use mad_sections::Gutter;
use mad_sections::gutters::gutter_columns;

/// The columns that the faces of gutters take in front of a row's line.
pub fn columns_in_front(skin: &RowSkin, gutters: &[Gutter]) -> usize
    ensures { result ≡ capped (fronts skin.now gutters.now) }
{
    let mut columns: usize = 0;
    for gutter in gutters {
        columns = columns.saturating_add(front_columns(skin, *gutter));
    }
    columns
}

// Those of one gutter: of a box one, since the other is behind the row.
fn front_columns(skin: &RowSkin, gutter: Gutter) -> usize
    ensures { result ≡ front_columns skin.now gutter }
{
    match gutter {
        Gutter::Code => { if has_boxes(skin) { 1 } else { 2 } }
        gutter => gutter_columns(gutter, has_ascii_boxes(skin)),
    }
}

//! What is written of one row.

ghost use Rattle.std.specs.Prelude.{◌≡◌, ◌++◌, ◌+◌, ◌<◌, IfOk, OnOk, drop, slice_get, string_bytes};
ghost use Rattle.mad_term.specs.Styles.{IsStyle};
ghost use Rattle.mad_measure.specs.Areas.{IsWithinLimits};
ghost use Rattle.mad_list_columns.specs.Drawing.{bar_bytes, between_cells, cell_style, shown_from};
ghost use Rattle.mad_list_columns.specs.Writing.{HasCell, HasCells, HasRow};

use crate::cells::CellExtract;
use crate::columns::ListViewColumn;
use crate::spaced_texts::push_spaced;
use mad_draw::ScrollBar;
use mad_list_rows::{ListRows, RowFilter, RowOrder};
use mad_measure::Area;
use mad_style::{CompoundStyle, gray};
use mad_term::{ClearType, push_background, push_clear, push_move};
use std::alloc::{AllocError, Global};

/// Appends the first shown row from an index on, and answers from where to look for the one after it; past the last one an erasure.
pub(crate) fn push_row_from<T: Drop, E: CellExtract<T>, F: RowFilter<T>, O: RowOrder<T>>(
    alloc: Global,
    bytes: &mut String,
    columns: &[ListViewColumn<E>],
    rows: &ListRows<T, F, O>,
    from: usize,
    table: &CompoundStyle,
) -> Result<usize, AllocError>
    ensures next { IfOk result (λ next. shown_from rows.now.rows next ≡ drop 1 (shown_from rows.now.rows from)) }
    ensures writes { OnOk result (HasRow E.extracts table.now columns.now rows.now.selection (slice_get (shown_from rows.now.rows from) 0) (string_bytes bytes.old) (string_bytes bytes.new)) }
{
    let (_, past_all) = rows.row_counts();
    let Some((i, content)) = rows.shown_from(from) else {
        push_clear(bytes, ClearType::UntilNewLine)?;
        return Ok(past_all);
    };
    let selected = rows.selection() == Some(i);
    push_cells(alloc, bytes, columns, selected, content, table)?;
    Ok(i + 1)
}

// Appends a row: its cells, and a vertical line between two.
fn push_cells<T, E: CellExtract<T>>(
    alloc: Global,
    bytes: &mut String,
    columns: &[ListViewColumn<E>],
    selected: bool,
    content: &T,
    table: &CompoundStyle,
) -> Result<(), AllocError>
    ensures { OnOk result (HasCells E.extracts table.now columns.now selected content.now (string_bytes bytes.old) (string_bytes bytes.new)) }
{
    let Some((first, others)) = columns.split_first() else {
        return Ok(());
    };
    push_cell(alloc, bytes, first, selected, content)?;
    for column in others {
        push_between(bytes, selected, table)?;
        push_cell(alloc, bytes, column, selected, content)?;
    }
    Ok(())
}

// Appends what is between two cells.
fn push_between(bytes: &mut String, selected: bool, table: &CompoundStyle) -> Result<(), AllocError>
    ensures { OnOk result (string_bytes bytes.new ≡ string_bytes bytes.old ++ between_cells table.now selected) }
{
    if selected {
        push_background(bytes, gray(5))?;
    }
    let line = table.style_char('│');
    write!(bytes, "{line}")
}

// Appends a cell of a row, in its place.
fn push_cell<T, E: CellExtract<T>>(
    alloc: Global,
    bytes: &mut String,
    column: &ListViewColumn<E>,
    selected: bool,
    content: &T,
) -> Result<(), AllocError>
    ensures { OnOk result (HasCell E.extracts column.now selected content.now (string_bytes bytes.old) (string_bytes bytes.new)) }
{
    let cell = column.extract.cell(content)?;
    know_style(cell.style);
    let style = style_in_row(cell.style, selected);
    push_spaced(
        alloc,
        bytes,
        column.measure,
        &column.spacing,
        &style,
        cell.text.as_str(),
    )
}

// A cell's style: in the selected row with its background.
fn style_in_row(style: CompoundStyle, selected: bool) -> CompoundStyle
    ensures { result ≡ cell_style selected style }
{
    let mut style = style;
    if selected {
        style.set_bg(gray(5));
    }
    style
}

// The numbers of a style's colors are bytes.
fn know_style(style: CompoundStyle)
    ensures { IsStyle style.object_style }
{}

/// Appends the bar's character in the body's row of number `r`, after a move to the area's last column, where there is a bar.
pub(crate) fn push_bar(
    bytes: &mut String,
    area: &Area,
    bar: Option<ScrollBar>,
    r: u16,
) -> Result<(), AllocError>
    requires limits { IsWithinLimits area.now }
    requires within { r + 2 < area.now.height }
    ensures { OnOk result (string_bytes bytes.new ≡ string_bytes bytes.old ++ bar_bytes area.now bar r) }
{
    let Some(bar) = bar else {
        return Ok(());
    };
    push_move(bytes, area.right().saturating_sub(1), area.top + (r + 2))?;
    let c = bar.char_at(r);
    write!(bytes, "{c}")
}

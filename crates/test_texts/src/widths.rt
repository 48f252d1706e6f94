//! The widths of a table's columns.

use crate::pictures::draw_numbers;
use mad_term::Error;
use mad_widths::{TblFit, TblFitResult};
use std::alloc::AllocError;

// Each line is a column, with the widths of its cells.
fn see_cells(fit: &mut TblFit, text: &str) {
    for (column, line) in text.split('\n').enumerate() {
        for cell in line.split_whitespace() {
            fit.see_cell(column, cell.parse().unwrap_or(0));
        }
    }
}

fn draw_widths(picture: &mut String, widths: &TblFitResult) -> Result<(), AllocError> {
    picture.push_str(if widths.reduced {
        "reduced:"
    } else {
        "not reduced:"
    })?;
    draw_numbers(picture, &widths.col_widths)
}

fn draw_refusal(picture: &mut String, error: Error) -> Result<(), AllocError> {
    match error {
        Error::Memory => Err(AllocError),
        error => write!(picture, "refused: {error}"),
    }
}

/// What a table of `columns` columns is fitted to in a width.
pub(crate) fn draw_fit(
    picture: &mut String,
    numbers: &[usize],
    text: &str,
) -> Result<(), AllocError> {
    let [columns, width] = *numbers else {
        return Ok(());
    };
    let alloc = *picture.allocator();
    match TblFit::new(alloc, columns, width) {
        Ok(mut fit) => {
            see_cells(&mut fit, text);
            draw_widths(picture, &fit.fit(alloc)?)
        }
        Err(error) => draw_refusal(picture, error),
    }
}

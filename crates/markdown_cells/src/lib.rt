//! Cells of tables: the bytes of a row's cells without their bars, and the alignments that the row of delimiters says.
#![tactic(auto)]

pub mod cells;

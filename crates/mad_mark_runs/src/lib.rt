//! Marks of a text's counted characters, as runs of the same mark.
#![tactic(auto)]

mod mark_runs;

pub use mark_runs::{
    MarkRun, blank_value, count_of, end_of, next_start, push_run, runs_from, value_at,
};

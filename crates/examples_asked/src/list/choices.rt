//! The filter and the order of the list, each a closure in a box.

ghost use Rattle.std.specs.Fn.{FnReturnsAt};

use crate::list::rivers::River;
use std::cmp::Ordering;
use termimad::{RowFilter, RowOrder};

/// A closure that tests rivers.
pub type Test = Box<dyn Fn(&River) -> bool>;

/// Shows the rivers that pass a test.
#[derive(Drop)]
pub struct BoxedFilter {
    test: Test,
    // It may be called with any river.
    ghost callable: { Test.IsAlwaysCallable test },
}

impl BoxedFilter {
    /// Shows the rivers that pass this test.
    pub fn new(test: Test) -> Self
        requires { Test.IsAlwaysCallable test }
    {
        BoxedFilter { test }
    }
}

impl RowFilter<River> for BoxedFilter {
    ghost answers = { λ filter river answer. FnReturnsAt Test.Fn filter.test river answer };

    fn accepts(&self, river: &River) -> bool {
        (self.test)(river)
    }
}

/// A closure that compares rivers.
pub type Comparison = Box<dyn Fn(&River, &River) -> Ordering>;

/// Orders rivers by a comparison.
#[derive(Drop)]
pub struct BoxedOrder {
    comparison: Comparison,
    // It may be called with any two rivers.
    ghost callable: { Comparison.IsAlwaysCallable comparison },
}

impl BoxedOrder {
    /// Orders rivers by this comparison.
    pub fn new(comparison: Comparison) -> Self
        requires { Comparison.IsAlwaysCallable comparison }
    {
        BoxedOrder { comparison }
    }
}

impl RowOrder<River> for BoxedOrder {
    ghost use Rattle.std.specs.Prelude.{⊤};

    ghost compares = { λ _ _ _ _. ⊤ };

    fn compare(&self, a: &River, b: &River) -> Ordering {
        (self.comparison)(a, b)
    }
}

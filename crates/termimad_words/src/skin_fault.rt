//! What is wrong with a text that says no skin of a page.

ghost use Rattle.std.specs.Prelude.{◌≡◌, IfOk, string_bytes};
ghost use Rattle.serde_json.specs.Read.{read};
ghost use Rattle.serde_json.specs.View.{view};
ghost use Rattle.mad_json.specs.Faults.{TellsSkin};
ghost use Rattle.mad_page_json.specs.PageReading.{page_skin_read};
ghost use Rattle.termimad_words.specs.SkinFaults.{fault_said, text_fault_said};

use mad_json::SkinError;
use mad_page_json::page_skin_from_value;
use serde_json::Value;
use std::alloc::{AllocError, Global};

/// What is wrong with a text that says no skin of a page: it is no JSON, or the first fault of its value, with its key. Of one that says a skin nothing is.
///
/// # Errors
///
/// Out of memory is the only error.
pub fn page_skin_fault(alloc: Global, text: &str) -> Result<String, AllocError>
    ensures { IfOk result (λ said. string_bytes said ≡ text_fault_said (read text.now)) }
{
    match Value::from_str(alloc, text) {
        Ok(value) => value_fault(alloc, &value),
        Err(error) if error.is_memory() => Err(AllocError),
        Err(_) => String::from_str(alloc, "no JSON"),
    }
}

// The first fault of a value.
fn value_fault(alloc: Global, value: &Value) -> Result<String, AllocError>
    ensures { IfOk result (λ said. string_bytes said ≡ fault_said (page_skin_read (view value.now))) }
{
    match page_skin_from_value(alloc, value) {
        Ok(_) => Ok(String::new(alloc)),
        Err(SkinError::Memory) => Err(AllocError),
        Err(error) => error.to_string(alloc),
    }
}

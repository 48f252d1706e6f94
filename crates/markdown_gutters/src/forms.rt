//! How a leaf stands on a page.

ghost use Rattle.std.specs.Prelude.{◌≡◌, IfOk, option_map};
ghost use Rattle.markdown_gutters.specs.Forms.{is_big, leaf_gutters, items_gutters};

use mad_sections::Gutter;
use std::alloc::{AllocError, Global};

/// How a leaf stands on a page. All but words want blank rows beside them.
#[derive(Debug, Clone, Copy, PartialEq, Eq)]
pub enum Form {
    /// Lines of words.
    Words,
    /// A heading, or a rule.
    Large,
    /// A table, that may be shown as a list.
    Listed,
    /// Code, in a box.
    Boxed,
}

/// Whether it wants blank rows beside it.
pub fn is_big(form: Form) -> bool
    ensures { result ≡ is_big form }
{
    match form {
        Form::Words => false,
        Form::Large | Form::Listed | Form::Boxed => true,
    }
}

/// The gutters in front of a leaf, by those of the open containers.
///
/// # Errors
///
/// Out of memory is the only error.
pub fn leaf_gutters(
    alloc: Global,
    form: Form,
    gutters: &[Gutter],
) -> Result<Vec<Gutter>, AllocError>
    ensures { IfOk result (λ made. made.items ≡ leaf_gutters form gutters.now) }
{
    let mut made = Vec::from_slice(alloc, gutters)?;
    match form {
        Form::Boxed => made.push(Gutter::Code)?,
        Form::Words | Form::Large | Form::Listed => {}
    }
    Ok(made)
}

/// Of a table the gutters of its items, if it is shown as a list.
///
/// # Errors
///
/// Out of memory is the only error.
pub fn items_gutters(
    alloc: Global,
    form: Form,
    gutters: &[Gutter],
) -> Result<Option<Vec<Gutter>>, AllocError>
    ensures { IfOk result (λ made. option_map (λ gs. gs.items) made ≡ items_gutters form gutters.now) }
{
    match form {
        Form::Listed => {
            let mut made = Vec::from_slice(alloc, gutters)?;
            made.push(Gutter::Bullet)?;
            Ok(Some(made))
        }
        Form::Words | Form::Large | Form::Boxed => Ok(None),
    }
}

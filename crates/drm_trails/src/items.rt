//! Lists with an item added.

ghost use Rattle.std.specs.Prelude.{◌≡◌, ◌++◌, option_to_list, IfOk};

use std::alloc::AllocError;

/// Returns the list with the item appended, or unchanged if there is none (own). Allocates room for the item.
///
/// # Errors
///
/// `AllocError` if memory is refused. The list is then dropped.
pub fn with_item<T: Drop>(list: Vec<T>, item: Option<T>) -> Result<Vec<T>, AllocError>
    ensures { IfOk result (λ longer. longer.items ≡ list.items ++ option_to_list item) }
{
    let mut list = list;
    if let Some(item) = item {
        list.push(item)?;
    }
    Ok(list)
}

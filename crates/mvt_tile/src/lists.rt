//! Lists that grow.
ghost use Rattle.std.specs.Prelude.{◌≡◌, ℕ, List, ◌++◌, ◌∷◌, [], IfOk, OnOk};

use mvt_wire::NumberSource;
use std::alloc::{AllocError, Global};

/// Pushes one more item. The only error is that memory was refused, and the item is dropped then.
pub(crate) fn push_item<T: Drop>(items: &mut Vec<T>, item: T) -> Result<(), AllocError>
    ensures { OnOk result (items.new.items ≡ items.old.items ++ item ∷ []) }
{
    items.push(item)?;
    Ok(())
}

/// All numbers that are left, as a list. The only error is that memory was refused.
pub fn list_of<N: NumberSource + Drop>(
    alloc: Global,
    mut numbers: N,
) -> Result<Vec<u32>, AllocError>
    ensures { IfOk result (λ list. (given : List ℕ) → N.Leaves numbers given → list.items ≡ given) }
{
    let mut list = Vec::new(alloc);
    'numbers: while let Some(number) = numbers.next_number() {
        list.push(number)?;
    }
    Ok(list)
}

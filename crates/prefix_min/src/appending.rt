//! Pushes onto vectors in an arena.
ghost use Rattle.std.specs.Prelude.{◌≡◌, ◌++◌, ◌∷◌, [], OnOk};

use bumpalo::Bump;
use razor_limits::Memory;

/// Pushes an item. Most often there is room for it, so this is told apart first.
#[inline(always)]
pub fn append<T: Copy>(items: &mut Vec<T, &Bump>, item: T) -> Result<(), Memory>
    ensures { OnOk result (items.new.items ≡ items.old.items ++ item ∷ []) }
{
    if items.len() < items.capacity() {
        items.push_reserved(item);
        return Ok(());
    }
    items.push(item)?;
    Ok(())
}

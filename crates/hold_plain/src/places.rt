ghost use Rattle.std.specs.Prelude.{◌≡◌, ℕ, ◌<◌, ◌^◌, Some, None, IfNone, IfOk, IfSome, length, slice_get, slice_index_or};
ghost use Rattle.hold_plain.specs.inner.Keys.{HoldsPlaces};
ghost use Rattle.hold_plain.specs.Keys.{OneEach};

use hold_base::Memory;
use std::alloc::Global;

/// By key, the place at which it stands. None exactly where a key stands at two places.
pub(crate) fn places_of(
    alloc: Global,
    bound: usize,
    keys: &[Option<u32>],
) -> Result<Option<Vec<Option<u32>>>, Memory>
    requires below { (place key : ℕ) → slice_get keys.now place ≡ Some (Some key) → key < bound }
    requires count { length keys.now < 2 ^ 32 }
    ensures one { IfOk result (λ found. IfSome found (λ table. OneEach keys.now)) }
    ensures table { IfOk result (λ found. IfSome found (λ table. HoldsPlaces bound keys.now table.items)) }
    ensures none { IfOk result (λ found. IfNone found (OneEach keys.now → ⊥)) }
{
    let mut table = vec![in alloc; None; bound]?;
    for (place, key) in keys.iter().enumerate() {
        if let Some(key) = *key {
            let at = key as usize;
            if table[at].is_some() {
                return Ok(None);
            }
            table[at] = Some(place as u32);
        }
    }
    Ok(Some(table))
}

/// The place that a table has for a key, None where it has none.
pub(crate) fn place_at(table: &[Option<u32>], key: u32) -> Option<u32>
    ensures { result ≡ slice_index_or table.now key None }
{
    match table.get(key as usize) {
        Some(place) => *place,
        None => None,
    }
}

//! What is kept under indexes, which are counted from 1 and don't move.

ghost use Rattle.std.specs.Prelude.{◌≡◌, ◌+◌, ◌<◌, ◌++◌, ◌∷◌, [], ℕ, length, map, replicate, option_map, Some, None, IfOk, IfSome, IsNone, OnOk};
ghost use Rattle.mbim_fields.specs.Value.{Value};
ghost use Rattle.mbim_fields.specs.View.{value_view};
ghost use Rattle.sim_mbim.specs.Places as spec;
ghost use Rattle.sim_mbim.specs.Places.{kept, kept_at, kept_from, without};

use mbim_fields::FieldValue;
use std::alloc::{AllocError, Global};

// Stands for whatever is kept.
const ALL: u64 = 0;

// Stands for what an index names.
const ONE: u64 = 1;

/// What is kept under an index.
pub(crate) trait Kept: Drop {
    /// Its value in a list, and before it the index.
    ghost value: { ℕ × Self → Value };

    /// Its value in a list.
    fn value(&self, alloc: Global, index: u64) -> Result<FieldValue, AllocError>
        ensures { IfOk result (λ made. value_view made ≡ value (index, self.now)) };
}

/// The values of what a flag and an index ask for, if it is there.
pub(crate) fn values_asked<T: Kept>(
    alloc: Global,
    places: &[Option<T>],
    flag: u64,
    index: u64,
) -> Result<Option<Vec<FieldValue>>, AllocError>
    ensures { IfOk result (λ asked. option_map (λ values. map value_view values.items) asked ≡ spec.values_asked T.value flag index places.now) }
{
    match flag {
        ALL => Ok(Some(all_values(alloc, places)?)),
        ONE => {
            let Some((_, item)) = find(places, index) else {
                return Ok(None);
            };
            let value = item.value(alloc, index)?;
            Ok(Some(vec![in alloc; value]?))
        }
        _ => Ok(None),
    }
}

/// Forgets what a flag and an index name, if it is there.
pub(crate) fn forget<T: Drop>(places: &mut Vec<Option<T>>, flag: u64, index: u64) -> Option<()>
    ensures some { IfSome result (λ _. without flag index places.old.items ≡ Some places.new.items) }
    ensures none { IsNone result → without flag index places.old.items ≡ None }
    ensures kept { IsNone result → places.new ≡ places.old }
{
    match flag {
        ALL => {
            forget_all(places);
            Some(())
        }
        ONE => {
            let (found, _) = find(places, index)?;
            places[found] = None;
            Some(())
        }
        _ => None,
    }
}

// Forgets whatever is kept.
fn forget_all<T: Drop>(places: &mut Vec<Option<T>>)
    ensures { places.new.items ≡ replicate (length places.old.items) None }
{
    for place in 0..places.len() {
        places[place] = None;
    }
}

// What an index names, if it is there, and its place.
fn find<T>(places: &[Option<T>], index: u64) -> Option<(usize, &T)>
    ensures some { IfSome result (λ found. kept_at index places.now ≡ Some found.1.now) }
    ensures place { IfSome result (λ found. (found.0 + 1 ≡ index) × (found.0 < length places.now)) }
    ensures none { IsNone result → kept_at index places.now ≡ None }
{
    let place = usize::try_from(index.checked_sub(1)?).ok()?;
    match places.get(place) {
        Some(Some(item)) => Some((place, item)),
        _ => None,
    }
}

// The values of all that is kept.
fn all_values<T: Kept>(alloc: Global, places: &[Option<T>]) -> Result<Vec<FieldValue>, AllocError>
    ensures { IfOk result (λ values. map value_view values.items ≡ map T.value (kept places.now)) }
{
    let mut values = Vec::new(alloc);
    let mut index = 1;
    for place in places {
        add_value(alloc, &mut values, index, place)?;
        index += 1;
    }
    Ok(values)
}

// Adds the value of what is kept under an index.
fn add_value<T: Kept>(
    alloc: Global,
    values: &mut Vec<FieldValue>,
    index: u64,
    place: &Option<T>,
) -> Result<(), AllocError>
    ensures { OnOk result (map value_view values.new.items ≡ map value_view values.old.items ++ map T.value (kept_from index (place.now ∷ []))) }
{
    let Some(item) = place else {
        return Ok(());
    };
    let value = item.value(alloc, index)?;
    values.push(value)?;
    Ok(())
}

//! Maps in which the first value of a key stays.

ghost use Rattle.std.specs.Prelude.{◌+◌, ◌<◌, ◌≤◌, ◌≡◌, if◌then◌else◌, Some, None};
ghost use Rattle.std.specs.Option.{option_or};
ghost use Rattle.indexmap.specs.IndexMap.{get, spare};

use indexmap::IndexMap;
use std::hash::Hash;

/// Gives the key this value where it has none, in the room that was reserved for two. Where it has one, that is put back: most keys are new,
/// so that a look beforehand would cost more.
pub fn keep_first<K: Eq + Hash + Copy, V: Drop>(map: &mut IndexMap<K, V>, key: K, value: V)
    requires { 1 < spare map.old }
    ensures kept { (q : K) → get K.eq map.new q
        ≡ option_or (get K.eq map.old q) (if K.eq key q then Some value else None) }
    ensures room { spare map.old ≤ spare map.new + 2 }
{
    if let Ok(Some(first)) = map.insert(key, value) {
        drop(map.insert(key, first));
    }
}

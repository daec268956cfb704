ghost use Rattle.std.specs.Prelude.{◌≡◌, ℕ, ◌==◌, OnOk, Option, Some, None, nat_eq, if◌then◌else◌};
ghost use Rattle.indexmap.specs.IndexMap.{get};
ghost use Rattle.pungi_names.specs.First.{or_first};

use indexmap::IndexMap;
use pungi_base::Memory;

/// Puts a value under a word that has none yet.
pub(crate) fn keep_first<V: Drop>(
    map: &mut IndexMap<u32, V>,
    word: u32,
    value: V,
) -> Result<(), Memory>
    ensures { OnOk result ((w : ℕ) → get nat_eq map.new w
        ≡ or_first (get nat_eq map.old w) (if word == w then Some value else None)) }
{
    if !map.contains_key(&word) {
        map.insert(word, value)?;
    }
    Ok(())
}

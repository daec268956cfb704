// Functions by their names.
ghost use Rattle.std.specs.Prelude.{◌≡◌, ℕ, ◌==◌, ◌||◌, nat_eq, map, option_map, OnOk};
ghost use Rattle.indexmap.specs.IndexMap.{get};
ghost use Rattle.indexmap.specs.IndexSet.{contains};
ghost use Rattle.pungi_declared.specs.DeclaredView.{function_view, place_view};
ghost use Rattle.pungi_names.specs.CallsView.{signature_view, function_signature};
ghost use Rattle.pungi_names.specs.First.{or_first};
ghost use Rattle.pungi_tree.specs.UnitView.{unit_view};
ghost use Rattle.pungi_types.specs.Files.{definition_in, is_place_in};

use crate::first::keep_first;
use crate::kinds::Kinds;
use crate::signature::{Signature, function_signature};
use indexmap::{IndexMap, IndexSet};
use pungi_base::Memory;
use pungi_declared::Place;
use pungi_tree::FunctionDef;
use std::alloc::Global;

/// Adds what a call of each function takes and gives.
pub(crate) fn note_definitions(
    alloc: Global,
    kinds: &Kinds,
    signatures: &mut IndexMap<u32, Signature>,
    functions: &Vec<&FunctionDef>,
) -> Result<(), Memory>
    ensures { OnOk result ((w : ℕ) → option_map signature_view (get nat_eq signatures.new w)
        ≡ or_first (option_map signature_view (get nat_eq signatures.old w)) (option_map
        (function_signature (unit_view kinds.now.cores.unit.now)) (definition_in
        (map function_view functions.now.items) w))) }
{
    for function in functions {
        let signature = function_signature(alloc, kinds, function)?;
        keep_first(signatures, function.name.0, signature)?;
    }
    Ok(())
}

fn note_place(words: &mut IndexSet<u32>, place: &Place) -> Result<(), Memory>
    ensures { OnOk result ((w : ℕ) → contains nat_eq words.new w
        ≡ (contains nat_eq words.old w || place.now.name.0 == w)) }
{
    words.insert(place.name.0)?;
    Ok(())
}

/// Adds the names of prototypes.
pub(crate) fn note_places(words: &mut IndexSet<u32>, places: &Vec<Place>) -> Result<(), Memory>
    ensures { OnOk result ((w : ℕ) → contains nat_eq words.new w
        ≡ (contains nat_eq words.old w || is_place_in (map place_view places.now.items) w)) }
{
    for place in places {
        note_place(words, place)?;
    }
    Ok(())
}

//! Type words that are defined twice, or that are known before a text is read.
ghost use Rattle.std.specs.Prelude.{◌≡◌, [], OnOk, map};
ghost use Rattle.pungi_check.specs.Duplicates.{typedef_faults};
ghost use Rattle.pungi_types.specs.Findings.{least_from};
ghost use Rattle.pungi_types.specs.TypesView.{typedef_view};

use indexmap::IndexSet;
use pungi_base::Memory;
use pungi_types::{Finding, Typedef, is_kept, is_listed_type, keep, note};
use std::alloc::Global;

/// Notes the type words that are defined twice, or that are known before a text is read.
pub(crate) fn note_typedefs(
    alloc: Global,
    first: &mut Option<Finding>,
    list: &Vec<Typedef<'_>>,
) -> Result<(), Memory>
    ensures { OnOk result (first.new ≡ least_from first.old (typedef_faults [] (map typedef_view list.now.items))) }
{
    let mut seen = IndexSet::new(alloc);
    for t in list {
        let word = t.name;
        note(
            first,
            is_kept(&seen, word) || is_listed_type(word),
            t.pos,
            1,
        );
        keep(&mut seen, word)?;
    }
    Ok(())
}

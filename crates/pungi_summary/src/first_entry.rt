ghost use Rattle.std.specs.Prelude.{◌≡◌};
ghost use Rattle.pungi_summary.specs.Calls.{first_entry};
ghost use Rattle.pungi_summary.specs.Steps.{HasRangePlace};

use pungi_domain::AffineProgram;

/// The first entry, or 0 where there is none.
pub(crate) fn first_entry(program: &AffineProgram) -> u32
    ensures entry { result ≡ first_entry program.now }
    ensures place { HasRangePlace program.now result }
{
    match program.entries.as_slice().get(0) {
        Some(place) => *place,
        None => 0,
    }
}

//! The codes of a file's functions.
ghost use Rattle.std.specs.Prelude.{◌≡◌, ◌≤◌, map, IfOk};
ghost use Rattle.pungi_code.specs.WellFormed.{AreWellFormed};
ghost use Rattle.pungi_layout.specs.code.Codes.{code_for};
ghost use Rattle.pungi_lower.specs.Lowered.{AreLowered, AreOfFile, names_of};
ghost use Rattle.pungi_resolve.specs.Resolutions.{IsResolved, resolution_view};
ghost use Rattle.pungi_types.specs.Limits.{most_statics};
ghost use Rattle.pungi_types.specs.Names.{statics_in};
ghost use Rattle.pungi_types.specs.Refused.{CheckedFile};

use pungi_base::{Memory, Name, Seq};
use pungi_code::Codes;
use pungi_emit::lower_functions;
use pungi_resolved::Function;
use std::alloc::Global;

/// The codes of functions with these names, over so many static objects. They are the functions of a checked file, so
/// each that is resolved is within the limits of the emitters. There is no code of a function that isn't resolved. A
/// code runs among them as its function does among the functions of the file, from any entry and with any choices,
/// through all calls. It has at most four instructions for each node of the text, and no temporary is kept where one
/// statement ends and another begins. Each code is well-formed and names only static objects that are there, and each
/// global and each field has one kind in all codes. `Memory` where memory ran out.
pub fn lower(
    alloc: Global,
    functions: &[Option<Function>],
    names: Seq<Name>,
    statics: u32,
) -> Result<Codes, Memory>
    requires { AreOfFile (map resolution_view functions.now) }
    ensures codes { IfOk result (λ c. c.codes ≡ map code_for (map resolution_view functions.now)) }
    ensures names { IfOk result (λ c. c.names ≡ names) }
    ensures statics { IfOk result (λ c. c.statics ≡ statics) }
    ensures lowered { IfOk result (λ c. (file : CheckedFile) → IsResolved file (map resolution_view functions.now)
        → AreLowered file c.codes) }
    ensures well_formed { IfOk result (λ c. (file : CheckedFile)
        → IsResolved file (map resolution_view functions.now) → names ≡ names_of file
        → statics ≡ statics_in file.file.items → statics ≤ most_statics → AreWellFormed c) }
{
    let codes = lower_functions(alloc, functions)?;
    Ok(Codes {
        codes,
        statics,
        names,
    })
}

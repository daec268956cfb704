// What is held in the runs of well-formed codes.
ghost use Rattle.pungi_code.specs.WellFormed.{AreWellFormed};
ghost use Rattle.pungi_kinds.specs.Laws.{ValuesHold, RunsHold, TreesHold};

use pungi_code::Codes;

/// The law of kinds: from any entry that fits and with any choices, at each instruction of the run of a code, each
/// variable of it and of the codes that wait is unset or holds a value of its kind, each slot holds one of its kind,
/// and the instruction takes values of the kinds that it needs.
pub fn values_have_kinds(codes: &Codes)
    ensures { AreWellFormed codes.now → ValuesHold codes.now }
{}

/// The law of operations: each value that is computed with, converted, compared, loaded, stored, passed or returned in
/// the run of a code is of its kind, an object among those that may be there in the run.
pub fn operations_have_kinds(codes: &Codes)
    ensures { AreWellFormed codes.now → RunsHold codes.now }
{}

/// The law of functions: so it is in the run of a checked function.
pub fn trees_have_kinds(codes: &Codes)
    ensures { AreWellFormed codes.now → TreesHold codes.now }
{}

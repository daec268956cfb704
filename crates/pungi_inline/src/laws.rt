// What a code with copies of the codes that it calls is to the code itself.
ghost use Rattle.pungi_inline.specs.Laws.{IsAlikeInlined, IsFormedInlined};

use pungi_code::{Code, Codes};

/// The law of runs: what the code with copies returns, the code of the function returns, and where no calls are left
/// the other way round.
pub fn inlined_runs_alike(codes: &Codes, f: usize, code: &Code)
    ensures { IsAlikeInlined codes.now f code.now }
{}

/// The law of well-formed codes: in a file of such, a code with copies is one.
pub fn inlined_is_well_formed(codes: &Codes, f: usize, code: &Code)
    ensures { IsFormedInlined codes.now f code.now }
{}

// What the idle code is to the code itself.
ghost use Rattle.pungi_idle.specs.Laws.{IsAlikeIdle, IsFormedIdle};

use pungi_code::Code;

/// The law of runs: from entries that stand for each other the code and the idle code run alike.
pub fn idle_runs_alike(statics: u32, code: &Code)
    ensures { IsAlikeIdle statics code.now }
{}

/// The law of well-formed codes: the idle code of one is one.
pub fn idle_is_well_formed(code: &Code)
    ensures { IsFormedIdle code.now }
{}

// The limit on the traces that are explored.
ghost use Rattle.pungi_explore.specs.Explored.{ExcludeEachOther};

use pungi_code::Codes;

/// The law of the limit: no code has both at most as many traces as are explored, and more.
pub fn few_or_many(codes: &Codes, f: usize)
    ensures { ExcludeEachOther codes.now f }
{}

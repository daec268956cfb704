// All states of a function, one path at a time.
ghost use Rattle.std.specs.Prelude.{◌≡◌, map, IfOk};
ghost use Rattle.pungi_code.specs.Run.{code_at};
ghost use Rattle.pungi_symbol.specs.runs.Paths.{start_states};
ghost use Rattle.pungi_symbol.specs.Promises.{Covers, HasImmortals};
ghost use Rattle.pungi_explore.specs.Explored.{HasJudgedForm, IsExplored, FindsFault};

use crate::explored::Explored;
use crate::seen::{Seen, seen_with, shown};
use crate::visit::{put_states, visit};
use crate::visited::Visited;
use pungi_base::{Memory, Seq};
use pungi_code::Codes;
use pungi_symbol::{Sym, run_on, start};
use std::alloc::Global;

/// How many traces of a function are explored, at most.
const MOST_TRACES: usize = 16_384;

/// The state at the start of a function.
fn first(alloc: Global, codes: &Codes, f: usize) -> Result<Seq<Sym>, Memory>
    ensures first { IfOk result (λ pending. pending ≡ map (λ p. p.1) (start_states codes.now.statics f
        (code_at codes.now f))) }
    ensures covers { IfOk result (λ _. Covers codes.now f) }
{
    let mut pending = Seq::new(Vec::new(alloc));
    put_states(start(alloc, codes, f)?, &mut pending)?;
    Ok(pending)
}

/// What all states show. The states whose paths are still to be walked are pending, and the last of them is walked
/// first.
fn search(alloc: Global, codes: &Codes, f: usize) -> Result<Explored, Memory>
    requires formed { HasJudgedForm codes.now f }
    requires immortals { HasImmortals codes.now f }
    ensures { IfOk result (IsExplored codes.now f) }
{
    let mut pending = first(alloc, codes, f)?;
    let mut ended = 0;
    let mut seen = Seen {
        number: None,
        cut: None,
    };
    'states: for _ in 0..u64::MAX {
        let Some(popped) = pending.pop() else {
            return Ok(shown(seen));
        };
        let mut state = popped;
        run_on(alloc, codes, &mut state)?;
        match visit(alloc, codes, state, &mut pending)? {
            Visited::Goes => {}
            Visited::Gone => {}
            Visited::Ends => {
                if ended == MOST_TRACES {
                    return Ok(Explored::TooMany);
                }
                ended += 1;
            }
            Visited::Open(obstacle, pos) => {
                if ended == MOST_TRACES {
                    return Ok(Explored::TooMany);
                }
                ended += 1;
                seen = seen_with(seen, obstacle, pos);
            }
            Visited::Unbalanced(witness) => return Ok(Explored::Fault(witness)),
        }
    }
    Err(Memory)
}

/// What the runs of a function show whose code has the judged form: that each run that returns is balanced, or one that
/// isn't (Li and Tan, ECOOP 2014, for when a return is balanced). A path isn't followed past the second time at a
/// loop's head, or past 16,384 instructions where there is a loop; a number that is computed and is no unknown number
/// and a constant may be any number of its kind. An unbalanced run is found wherever there is one whose path is
/// followed and that computes no such number, or whose path's computations take no unknown number but 0, if the
/// function has at most 16,384 traces. `TooMany` comes only where there are more traces, `NumberSeen` only where a path
/// with such a number returns unbalanced, but by no run of the second kind, or a path takes a pointer for a number, and
/// `Cut` only where none does and a path comes to a bound of a loop, each first at that place.
///
/// `Memory` is want of memory. A walk of 2^64 - 1 states is reported as it, too, and so are a balance that leaves 64
/// bits, and a state that has ended with 2^31 tokens or more, since no entry has so many objects.
pub fn explore(alloc: Global, codes: &Codes, f: usize) -> Result<Explored, Memory>
    requires formed { HasJudgedForm codes.now f }
    requires immortals { HasImmortals codes.now f }
    ensures shown { IfOk result (IsExplored codes.now f) }
    ensures found { IfOk result (FindsFault codes.now f) }
{
    let explored = search(alloc, codes, f)?;
    Ok(explored)
}

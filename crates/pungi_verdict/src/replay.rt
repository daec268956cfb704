//! Running a witness again by the function itself.
ghost use Rattle.std.specs.Prelude.{◌≡◌, ℕ, ◌<◌, true, ◌+◌, ◌*◌, List, Option, length, map, IfOk};
ghost use Rattle.pungi_resolve.specs.Resolutions.{resolution_view};
ghost use Rattle.pungi_resolved.specs.ActionView.{function_view};
ghost use Rattle.pungi_resolved.specs.Functions.{ResolvedFunction};
ghost use Rattle.pungi_world.specs.Escapes.{IsBalanced, IsCountable, IsCounted, IsLevel};
ghost use Rattle.pungi_code.specs.WellFormed.{CallKinds, IsWellFormedAmong};
ghost use Rattle.pungi_meaning.specs.Entries.{entry_fits};
ghost use Rattle.pungi_verdict.specs.Replays.{IsUneven, ReturnsAlike};
ghost use Rattle.pungi_verdict.specs.Sound.{ReportsLowest, IsReturnOf};

use pungi_api::Terms;
use pungi_base::{Entry, Fault, Memory, Pos, Seq, Value, Witness};
use pungi_code::Code;
use pungi_meaning::{Outcome, run};
use pungi_resolved::Function;
use pungi_world::World;
use std::alloc::Global;

/// How many steps are enough for the run of a witness: an instruction takes at most 65,536, and the run has at most
/// 16,385.
const FUEL: u32 = 65_536 * 65_535;

/// The lowest object that is counted and whose change differs from its escapes.
fn uneven_object(terms: &Terms, entry: &Entry, world: &World, value: Option<Value>) -> u32
    requires countable { IsCountable world.now }
    requires off { IsBalanced terms.now entry.now world.now value → ⊥ }
    ensures there { result < length world.now.accounts }
    ensures counted { IsCounted terms.now result }
    ensures uneven { IsLevel terms.now entry.now world.now value result → ⊥ }
    ensures lowest { (k : ℕ) → IsCounted terms.now k → k < result → IsLevel terms.now entry.now world.now value k }
{
    match world.unbalanced(terms, entry, value) {
        Some(object) => object,
        None => unreachable!(),
    }
}

/// The fault of a return that isn't balanced under these terms.
fn weigh(
    terms: &Terms,
    witness: Witness,
    world: World,
    value: Option<Value>,
    pos: Pos,
    used: Vec<Pos>,
) -> Fault
    requires countable { IsCountable world }
    requires off { IsBalanced terms.now witness.input world value → ⊥ }
    ensures witness { result.witness ≡ witness }
    ensures place { result.pos ≡ pos }
    ensures places { result.used ≡ used.items }
    ensures told { ReportsLowest terms.now world value result }
{
    let object = uneven_object(terms, &witness.input, &world, value);
    let change = world.accounts.as_slice()[object as usize].change;
    let escaped = world.escaped(terms, &witness.input, object, value);
    Fault {
        pos,
        object,
        change,
        escaped,
        witness,
        used: Seq::new(used),
    }
}

/// The fault of a run of a code that isn't balanced, as its function runs, in any file in which the two return alike. Both
/// are judged under the same terms.
pub(crate) fn replay(
    alloc: Global,
    functions: &[Option<Function>],
    f: &Function,
    code: &Code,
    witness: Witness,
) -> Result<Fault, Memory>
    requires alike { (n : ℕ) × ((entry_fits (function_view f.now).params n witness.input ≡ true)
        × ReturnsAlike (map resolution_view functions.now) n (function_view f.now) code.now) }
    requires terms { code.now.terms ≡ (function_view f.now).terms }
    requires formed { (callees : ℕ → CallKinds) × IsWellFormedAmong callees code.now }
    requires uneven { IsUneven code.now witness }
    ensures witness { IfOk result (λ fault. fault.witness ≡ witness) }
    ensures returns { IfOk result (λ fault. (fs : List (Option ResolvedFunction)) (n : ℕ)
        → entry_fits (function_view f.now).params n witness.input ≡ true
        → ReturnsAlike fs n (function_view f.now) code.now → IsReturnOf fs (function_view f.now) fault) }
{
    let outcome = run(
        alloc,
        functions,
        f,
        &witness.input,
        witness.choices.as_slice(),
        FUEL,
    )?;
    match outcome {
        Outcome::Returned {
            world,
            value,
            pos,
            used,
        } => Ok(weigh(&f.terms, witness, world, value, pos, used)),
        Outcome::Stopped(_) => unreachable!(),
        Outcome::NeedsChoice => unreachable!(),
        Outcome::OutOfFuel => unreachable!(),
    }
}

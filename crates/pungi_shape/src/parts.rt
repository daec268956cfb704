ghost use Rattle.std.specs.Prelude.{◌≡◌, ◌+◌, ◌<◌, ◌^◌, ◌++◌, ◌∷◌, []};
ghost use Rattle.std.specs.Option.{option_to_list};
ghost use Rattle.pungi_shape.specs.Liveness.{is_among};
ghost use Rattle.pungi_shape.specs.Parts.{maps, reads, writes, following, all_reads, reads_later, written, vars_in};
ghost use Rattle.pungi_shape.specs.Parts.{vars_in_all, vars_in_place, var_in, kept_argument, gives_value};

use pungi_api::{Answer, CallAnswer};
use pungi_code::{Atom, Instr, Place, Var};

/// How many parts an instruction has, without the one that puts any number.
pub(crate) fn maps(instr: &Instr) -> u32
    ensures { result ≡ maps instr.now }
{
    match instr {
        Instr::Load(_, _) => 3,
        Instr::Store(_, _) => 3,
        Instr::Api(_, _, _) => 2,
        Instr::Return(_) => 2,
        Instr::Call(_, _, _) => 3,
        _ => 1,
    }
}

/// Whether an atom is this variable.
fn is_in(a: Atom, x: u32) -> bool
    ensures { result ≡ is_among (vars_in a) x }
{
    match a {
        Atom::Var(y) => y.0 == x,
        _ => false,
    }
}

/// Whether one of two is.
fn is_in_either(a: Atom, b: Atom, x: u32) -> bool
    ensures { result ≡ is_among (vars_in a ++ vars_in b) x }
{
    is_in(a, x) || is_in(b, x)
}

fn is_in_any(atoms: &[Atom], x: u32) -> bool
    ensures { result ≡ is_among (vars_in_all atoms.now) x }
{
    for a in atoms {
        if is_in(*a, x) {
            return true;
        }
    }
    false
}

fn is_in_place(place: Place, x: u32) -> bool
    ensures { result ≡ is_among (vars_in_place place) x }
{
    match place {
        Place::Global(_, _) => false,
        Place::Field(base, _, _, _) => is_in(base, x),
    }
}

fn is_in_store(place: Place, a: Atom, x: u32) -> bool
    ensures { result ≡ is_among (vars_in_place place ++ vars_in a) x }
{
    is_in_place(place, x) || is_in(a, x)
}

fn is_result(result_var: Option<Var>, x: u32) -> bool
    ensures { result ≡ is_among (var_in result_var) x }
{
    match result_var {
        None => false,
        Some(y) => y.0 == x,
    }
}

fn is_kept_argument(answer: CallAnswer, atoms: &[Atom], x: u32) -> bool
    ensures { result ≡ is_among (kept_argument answer atoms.now) x }
{
    match answer {
        CallAnswer::Of(_) => false,
        CallAnswer::Argument => match atoms.first() {
            None => false,
            Some(a) => is_in(*a, x),
        },
    }
}

fn gives_value(answer: CallAnswer) -> bool
    ensures { result ≡ gives_value answer }
{
    match answer {
        CallAnswer::Of(Answer::Void) => false,
        _ => true,
    }
}

fn is_read_at_all(instr: &Instr, x: u32) -> bool
    ensures { result ≡ is_among (all_reads instr.now) x }
{
    match instr {
        Instr::Set(_, a) => is_in(*a, x),
        Instr::Arith(_, _, _, a, b) => is_in_either(*a, *b, x),
        Instr::Fit(_, _, a) => is_in(*a, x),
        Instr::Compare(_, _, a, b) => is_in_either(*a, *b, x),
        Instr::Load(_, place) => is_in_place(*place, x),
        Instr::Store(place, a) => is_in_store(*place, *a, x),
        Instr::Api(_, _, atoms) => is_in_any(atoms.as_slice(), x),
        Instr::Call(_, _, atoms) => is_in_any(atoms.as_slice(), x),
        Instr::Branch(a, _, _) => is_in(*a, x),
        Instr::Return(Some(a)) => is_in(*a, x),
        Instr::Return(None) => false,
        Instr::Unset(_) => false,
        Instr::Jump(_) => false,
        Instr::Fall => false,
    }
}

fn is_read_later(instr: &Instr, x: u32) -> bool
    ensures { result ≡ is_among (reads_later instr.now) x }
{
    match instr {
        Instr::Load(_, place) => is_in_place(*place, x),
        Instr::Store(place, a) => is_in_store(*place, *a, x),
        Instr::Api(_, signature, atoms) => {
            is_kept_argument(signature.get().answer, atoms.as_slice(), x)
        }
        Instr::Call(_, _, atoms) => is_in_any(atoms.as_slice(), x),
        _ => false,
    }
}

/// Whether a variable is read from a part of an instruction on.
pub(crate) fn is_read(instr: &Instr, part: u32, x: u32) -> bool
    ensures { result ≡ is_among (reads instr.now part) x }
{
    if part == 0 {
        return is_read_at_all(instr, x);
    }
    if part < maps(instr) {
        is_read_later(instr, x)
    } else {
        false
    }
}

fn is_var(y: Var, x: u32) -> bool
    ensures { result ≡ is_among (y.0 ∷ []) x }
{
    y.0 == x
}

fn is_written_at_all(instr: &Instr, x: u32) -> bool
    ensures { result ≡ is_among (written instr.now) x }
{
    match instr {
        Instr::Set(y, _) => is_var(*y, x),
        Instr::Arith(y, _, _, _, _) => is_var(*y, x),
        Instr::Fit(y, _, _) => is_var(*y, x),
        Instr::Compare(y, _, _, _) => is_var(*y, x),
        Instr::Load(y, _) => is_var(*y, x),
        Instr::Api(y, signature, _) => { gives_value(signature.get().answer) && is_result(*y, x) }
        Instr::Call(y, _, _) => is_result(*y, x),
        Instr::Unset(y) => is_var(*y, x),
        _ => false,
    }
}

/// Whether a variable is written from a part of an instruction on.
pub(crate) fn is_written(instr: &Instr, part: u32, x: u32) -> bool
    ensures { result ≡ is_among (writes instr.now part) x }
{
    part < maps(instr) && is_written_at_all(instr, x)
}

/// The instructions that may come after one at this place: at most two.
pub(crate) fn following(pc: u32, instr: &Instr) -> (Option<u32>, Option<u32>)
    requires { pc + 1 < 2 ^ 32 }
    ensures { option_to_list result.0 ++ option_to_list result.1 ≡ following pc instr.now }
{
    match instr {
        Instr::Jump(to) => (Some(to.0), None),
        Instr::Branch(_, this, other) => (Some(this.0), Some(other.0)),
        Instr::Return(_) => (None, None),
        Instr::Fall => (None, None),
        _ => (Some(pc + 1), None),
    }
}

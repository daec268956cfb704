// Which variables the instructions of a code name.
ghost use Rattle.std.specs.Prelude.{◌≡◌};
ghost use Rattle.std.specs.List.{list_any};
ghost use Rattle.pungi_idle.specs.Named.{is_var, atom_names, result_names, place_names, names, is_named};

use pungi_code::{Atom, Instr, Line, Place, Var};

fn is_var(x: usize, y: Var) -> bool
    ensures { result ≡ is_var x y }
{
    y.0 as usize == x
}

fn atom_names(x: usize, a: Atom) -> bool
    ensures { result ≡ atom_names x a }
{
    match a {
        Atom::Var(y) => is_var(x, y),
        Atom::Int(_) | Atom::Null | Atom::Text | Atom::Static(_) => false,
    }
}

fn result_names(x: usize, y: Option<Var>) -> bool
    ensures { result ≡ result_names x y }
{
    match y {
        Some(y) => is_var(x, y),
        None => false,
    }
}

fn place_names(x: usize, place: Place) -> bool
    ensures { result ≡ place_names x place }
{
    match place {
        Place::Global(_, _) => false,
        Place::Field(base, _, _, _) => atom_names(x, base),
    }
}

fn do_atoms_name(x: usize, atoms: &[Atom]) -> bool
    ensures { result ≡ list_any (atom_names x) atoms.now }
{
    atoms.iter().any(|a| atom_names(x, *a))
}

/// Whether an instruction names the variable of this number.
fn names(x: usize, instr: &Instr) -> bool
    ensures { result ≡ names x instr.now }
{
    match instr {
        Instr::Set(y, a) | Instr::Fit(y, _, a) => is_var(x, *y) || atom_names(x, *a),
        Instr::Arith(y, _, _, a, b) | Instr::Compare(y, _, a, b) => {
            is_var(x, *y) || (atom_names(x, *a) || atom_names(x, *b))
        }
        Instr::Load(y, place) => is_var(x, *y) || place_names(x, *place),
        Instr::Store(place, a) => place_names(x, *place) || atom_names(x, *a),
        Instr::Api(y, _, args) | Instr::Call(y, _, args) => {
            result_names(x, *y) || do_atoms_name(x, args.as_slice())
        }
        Instr::Unset(y) => is_var(x, *y),
        Instr::Branch(a, _, _) | Instr::Return(Some(a)) => atom_names(x, *a),
        Instr::Jump(_) | Instr::Return(None) | Instr::Fall => false,
    }
}

/// Whether one of these instructions names the variable of this number.
pub fn is_named(lines: &[Line], x: usize) -> bool
    ensures { result ≡ is_named lines.now x }
{
    lines.iter().any(|line| names(x, &line.instr))
}

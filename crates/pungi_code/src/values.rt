// The values of atoms.
ghost use Rattle.std.specs.Prelude.{◌≡◌, IfOk, option_map};
ghost use Rattle.pungi_code.specs.Registers.{content_of, all_values};

use crate::Atom;
use pungi_base::{Memory, Value};
use pungi_meaning::content_at;
use pungi_world::Content;
use std::alloc::Global;

/// What an atom stands for.
pub fn content_of(atom: Atom, vars: &[Content]) -> Content
    ensures { result ≡ content_of atom vars.now }
{
    match atom {
        Atom::Var(x) => content_at(vars, x.0 as usize),
        Atom::Int(n) => Content::Holds(Value::Int(n)),
        Atom::Null => Content::Holds(Value::Null),
        Atom::Text => Content::Holds(Value::Text),
        Atom::Static(object) => Content::Holds(Value::Object(object)),
    }
}

/// The values of atoms, where none is unset.
#[tactic(auto, using(crate::proofs::ValueLemmas::values_step, crate::proofs::ValueLemmas::values_stop))]
pub fn values_of(
    alloc: Global,
    atoms: &[Atom],
    vars: &[Content],
) -> Result<Option<Vec<Value>>, Memory>
    ensures { IfOk result (λ values. option_map (λ v. v.items) values ≡ all_values atoms.now vars.now) }
{
    let mut values = Vec::new(alloc);
    for atom in atoms {
        match content_of(*atom, vars) {
            Content::Holds(value) => values.push(value)?,
            Content::Unset => return Ok(None),
        }
    }
    Ok(Some(values))
}

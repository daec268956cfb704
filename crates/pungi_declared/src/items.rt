//! Typedefs, variables, functions and prototypes.
ghost use Rattle.std.specs.Prelude.{◌≡◌, ◌∷◌, ◌++◌, [], IfOk, OnOk, map};
ghost use Rattle.pungi_declared.specs.DeclaredView.{variable_view, function_view, place_view};
ghost use Rattle.pungi_tree.specs.ExprView.{spec_view};
ghost use Rattle.pungi_tree.specs.StmtView.{var_decl_view};
ghost use Rattle.pungi_tree.specs.UnitView.{unit_view};
ghost use Rattle.pungi_types.specs.Files.{typedefs, variables_of, decl_variables, definitions, prototypes};
ghost use Rattle.pungi_types.specs.TypesView.{typedef_view};

use crate::{Place, Variable};
use pungi_base::{Memory, Name, Pos};
use pungi_tree::{FunctionDef, Item, Spec, Unit, VarDecl};
use pungi_types::Typedef;
use std::alloc::Global;

/// The typedefs of a file.
pub fn typedefs<'u>(alloc: Global, unit: &'u Unit) -> Result<Vec<Typedef<'u>>, Memory>
    ensures { IfOk result (λ ts. map typedef_view ts.items ≡ typedefs (unit_view unit.now)) }
{
    let mut out = Vec::new(alloc);
    for i in &unit.items {
        if let Item::Typedef {
            spec,
            stars,
            name,
            pos,
        } = i
        {
            out.push(Typedef {
                name: *name,
                pos: *pos,
                spec,
                stars: stars.len(),
            })?;
        }
    }
    Ok(out)
}

/// Adds the variables of one declaration to a list, at its end.
fn put_variables<'u>(
    out: &mut Vec<Variable<'u>>,
    spec: &'u Spec,
    vars: &'u Vec<VarDecl>,
) -> Result<(), Memory>
    ensures { OnOk result (map variable_view out.new.items
        ≡ map variable_view out.old.items ++ decl_variables (spec_view spec.now) (map var_decl_view vars.now.items)) }
{
    for var in vars {
        out.push(Variable {
            spec,
            declr: &var.declr,
        })?;
    }
    Ok(())
}

/// The variables and tables of a file.
pub fn variables<'u>(alloc: Global, unit: &'u Unit) -> Result<Vec<Variable<'u>>, Memory>
    ensures { IfOk result (λ vs. map variable_view vs.items ≡ variables_of (unit_view unit.now)) }
{
    let mut out = Vec::new(alloc);
    for i in &unit.items {
        if let Item::Vars(d) = i {
            put_variables(&mut out, &d.type_name, &d.vars)?;
        }
    }
    Ok(out)
}

/// The functions that a file defines.
pub fn definitions<'u>(alloc: Global, unit: &'u Unit) -> Result<Vec<&'u FunctionDef>, Memory>
    ensures { IfOk result (λ fs. map function_view fs.items ≡ definitions (unit_view unit.now)) }
{
    let mut out = Vec::new(alloc);
    for i in &unit.items {
        if let Item::Function(f) = i {
            out.push(f)?;
        }
    }
    Ok(out)
}

/// Adds a name to a list, at its end.
fn put_place(out: &mut Vec<Place>, name: Name, pos: Pos) -> Result<(), Memory>
    ensures { OnOk result (map place_view out.new.items
        ≡ map place_view out.old.items ++ record { name = name; pos = pos } ∷ []) }
{
    out.push(Place { name, pos })?;
    Ok(())
}

/// The prototypes of a file.
pub fn prototypes(alloc: Global, unit: &Unit) -> Result<Vec<Place>, Memory>
    ensures { IfOk result (λ ps. map place_view ps.items ≡ prototypes (unit_view unit.now)) }
{
    let mut out = Vec::new(alloc);
    for i in &unit.items {
        if let Item::Prototype(h) = i {
            put_place(&mut out, h.name, h.pos)?;
        }
    }
    Ok(out)
}

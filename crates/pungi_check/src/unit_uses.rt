//! The names of functions, variables and tables in text order.
ghost use Rattle.std.specs.Prelude.{◌≡◌, ◌∷◌, ◌++◌, [], IfOk, OnOk, if◌then◌else◌, map};
ghost use Rattle.pungi_check.specs.UsesView.{use_view, name_use_view};
ghost use Rattle.pungi_names.specs.NamesView.{file_of};
ghost use Rattle.pungi_tree.specs.ExprView.{spec_view, declr_view};
ghost use Rattle.pungi_tree.specs.StmtView.{var_decl_view};
ghost use Rattle.pungi_tree.specs.UnitView.{unit_view};
ghost use Rattle.pungi_check.specs.Duplicates.{as_table, as_variable, uses, vars_uses};
ghost use Rattle.pungi_types.specs.Names.{is_table};

use crate::name_use::{NameUse, Use};
use pungi_base::{Memory, Name, Pos};
use pungi_names::UnitNames;
use pungi_tree::{Declr, Item, Spec, Unit, VarDecl};
use std::alloc::Global;

/// Adds a name to a list, at its end.
fn put(out: &mut Vec<NameUse>, name: Name, pos: Pos, as_what: Use) -> Result<(), Memory>
    ensures { OnOk result (map name_use_view out.new.items
        ≡ map name_use_view out.old.items ++ record { name = name; pos = pos; as_what = use_view as_what } ∷ []) }
{
    out.push(NameUse { name, pos, as_what })?;
    Ok(())
}

fn variable_use(names: &UnitNames<'_>, spec: &Spec, declr: &Declr) -> Use
    ensures { use_view result ≡ (if is_table (file_of names.now).items (record
        { spec = spec_view spec.now; declr = declr_view declr.now }) then as_table else as_variable) }
{
    if names.is_table(spec, declr) {
        Use::Table
    } else {
        Use::Variable
    }
}

fn put_vars(
    out: &mut Vec<NameUse>,
    names: &UnitNames<'_>,
    spec: &Spec,
    vars: &Vec<VarDecl>,
) -> Result<(), Memory>
    ensures { OnOk result (map name_use_view out.new.items
        ≡ map name_use_view out.old.items ++ vars_uses (file_of names.now).items (spec_view spec.now)
        (map var_decl_view vars.now.items)) }
{
    for var in vars {
        let as_what = variable_use(names, spec, &var.declr);
        put(out, var.declr.name, var.declr.pos, as_what)?;
    }
    Ok(())
}

/// The names of functions, variables and tables in text order.
pub(crate) fn uses(
    alloc: Global,
    names: &UnitNames<'_>,
    unit: &Unit,
) -> Result<Vec<NameUse>, Memory>
    ensures { IfOk result (λ us. map name_use_view us.items ≡ uses (file_of names.now).items (unit_view unit.now)) }
{
    let mut out = Vec::new(alloc);
    for i in &unit.items {
        match i {
            Item::Prototype(h) => put(&mut out, h.name, h.pos, Use::Function)?,
            Item::Function(f) => put(&mut out, f.name, f.pos, Use::Function)?,
            Item::Vars(d) => put_vars(&mut out, names, &d.type_name, &d.vars)?,
            _ => {}
        }
    }
    Ok(out)
}

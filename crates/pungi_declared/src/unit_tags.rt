//! Structs and unions with fields.
ghost use Rattle.std.specs.Prelude.{◌≡◌, ◌++◌, IfOk, OnOk, map};
ghost use Rattle.pungi_declared.specs.DeclaredView.{tag_view};
ghost use Rattle.pungi_tree.specs.UnitView.{item_view, unit_view};
ghost use Rattle.pungi_types.specs.Tags.{item_tags, tags};

use crate::Tag;
use crate::expr_tags::{params, spec};
use crate::stmt_tags::{decl, stmt};
use pungi_base::Memory;
use pungi_tree::{Item, Unit};
use std::alloc::Global;

fn item<'u>(out: &mut Vec<Tag<'u>>, i: &'u Item) -> Result<(), Memory>
    ensures { OnOk result (map tag_view out.new.items ≡ map tag_view out.old.items ++ item_tags (item_view i.now)) }
{
    match i {
        Item::Empty(_) | Item::Doc { .. } => Ok(()),
        Item::Typedef { spec: s, .. } | Item::Tag { spec: s, .. } => spec(out, s),
        Item::Vars(d) => decl(out, d),
        Item::Prototype(h) => {
            spec(out, &h.result)?;
            params(out, &h.params.list)
        }
        Item::Function(f) => {
            spec(out, &f.result)?;
            params(out, &f.params.list)?;
            stmt(out, &f.body)
        }
    }
}

/// The structs and unions of a file that have fields, wherever they stand.
pub fn tags<'u>(alloc: Global, unit: &'u Unit) -> Result<Vec<Tag<'u>>, Memory>
    ensures { IfOk result (λ ts. map tag_view ts.items ≡ tags (unit_view unit.now)) }
{
    let mut out = Vec::new(alloc);
    for i in &unit.items {
        item(&mut out, i)?;
    }
    Ok(out)
}

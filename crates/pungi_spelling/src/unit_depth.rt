ghost use Rattle.std.specs.Prelude.{◌≡◌};
ghost use Rattle.pungi_tree.specs.ExprDepth.{capped};
ghost use Rattle.pungi_tree.specs.UnitDepth.{item_depth, items_depth};
ghost use Rattle.pungi_tree.specs.UnitView.{item_view, unit_view};

use crate::expr_depth::{params, spec};
use crate::stmt_depth::{decl, stmt};
use pungi_tree::{Item, Unit};

/// How deep a file is: the greatest number of statement and expression nodes on a path, or `u32::MAX` where it is
/// larger.
/// A parenthesis is a node; a type, a declarator and a parameter aren't nodes.
pub fn depth(unit: &Unit) -> u32
    ensures { result ≡ capped (items_depth (unit_view unit.now)) }
{
    let mut deepest = 0;
    for i in &unit.items {
        deepest = item(i).max(deepest);
    }
    deepest
}

fn item(i: &Item) -> u32
    ensures { result ≡ capped (item_depth (item_view i.now)) }
{
    match i {
        Item::Empty(_) | Item::Doc { .. } => 0,
        Item::Typedef { spec: s, .. } | Item::Tag { spec: s, .. } => spec(s),
        Item::Vars(d) => decl(d),
        Item::Prototype(h) => spec(&h.result).max(params(&h.params)),
        Item::Function(f) => spec(&f.result).max(params(&f.params).max(stmt(&f.body))),
    }
}

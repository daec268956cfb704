ghost use Rattle.std.specs.Prelude.{◌≡◌, map};
ghost use Rattle.pungi_tree.specs.ExprView.{spec_view, params_view};
ghost use Rattle.pungi_tree.specs.StmtView.{stmt_view};
ghost use Rattle.pungi_tree.specs.UnitLevels.{typedef_names, is_block, signature_ok, item_ok, is_levelled};
ghost use Rattle.pungi_tree.specs.UnitView.{item_view, unit_view};

use crate::expr_levels::{params, spec};
use crate::operators::qualifiers;
use crate::stmt_levels::{decl, stmt};
use crate::type_words::is_type;
use pungi_base::words::PY_DOC_STRVAR;
use pungi_base::{Key, Name};
use pungi_tree::{Item, Params, Spec, Stmt, StmtNode, Unit};

/// Whether a file is one that the grammar has: each operand binds tightly enough for its place, and each part, list,
/// keyword and operator is one that may stand there. A type word is no other word, the lone `void` is the empty list of
/// parameters, and each `else` belongs to the nearest `if`.
///
/// It takes no memory, so it looks through the items of the file at each word.
#[tactic(auto, using(crate::proofs::UnitScans::same_levels))]
pub fn levels_ok(unit: &Unit) -> bool
    ensures { result ≡ is_levelled (unit_view unit.now) }
{
    for i in &unit.items {
        if !item(&unit.items, i) {
            return false;
        }
    }
    true
}

fn is_block(s: &Stmt) -> bool
    ensures { result ≡ is_block (stmt_view s.now) }
{
    matches!(&s.node, StmtNode::Block(_, _))
}

fn signature(file: &[Item], quals: &Vec<Key>, s: &Spec, name: Name, list: &Params) -> bool
    ensures { result ≡ signature_ok (typedef_names (map item_view file.now)) quals.now.items (spec_view s.now) name
        (params_view list.now) }
{
    qualifiers(quals) && spec(file, s) && !is_type(file, name) && params(file, list)
}

fn item(file: &[Item], i: &Item) -> bool
    ensures { result ≡ item_ok (typedef_names (map item_view file.now)) (item_view i.now) }
{
    match i {
        Item::Empty(_) => true,
        Item::Doc { name, texts, .. } => {
            !is_type(file, Name(PY_DOC_STRVAR)) && !is_type(file, *name) && !texts.is_empty()
        }
        Item::Typedef { spec: s, .. } => spec(file, s),
        Item::Tag { quals, spec: s } => qualifiers(quals) && spec(file, s),
        Item::Vars(d) => decl(file, d),
        Item::Prototype(h) => signature(file, &h.quals, &h.result, h.name, &h.params),
        Item::Function(f) => {
            signature(file, &f.quals, &f.result, f.name, &f.params)
                && is_block(&f.body)
                && stmt(file, &f.body)
        }
    }
}

ghost use Rattle.std.specs.Prelude.{◌≡◌, ◌++◌, OnOk, IfOk};
ghost use Rattle.pungi_tree.specs.ExprView.{spec_view, params_view};
ghost use Rattle.pungi_tree.specs.UnitFlat.{item_flat, items_flat, signature_flat};
ghost use Rattle.pungi_tree.specs.UnitView.{item_view, unit_view};

use crate::expr_flat::{params, spec};
use crate::stmt_flat::{decl, stmt};
use crate::tokens::{keyword, mark, put_keys, put_stars, put_texts, word};
use pungi_base::words::PY_DOC_STRVAR;
use pungi_base::{Key, Kind, Memory, Name, Punct};
use pungi_tree::{Item, Params, Spec, Unit};
use std::alloc::Global;

/// What the tokens of a file are, from left to right.
pub fn flat(alloc: Global, unit: &Unit) -> Result<Vec<Kind>, Memory>
    ensures { IfOk result (λ v. v.items ≡ items_flat (unit_view unit.now)) }
{
    let mut out = Vec::new(alloc);
    for i in &unit.items {
        item(&mut out, i)?;
    }
    Ok(out)
}

fn item(out: &mut Vec<Kind>, i: &Item) -> Result<(), Memory>
    ensures { OnOk result (out.new.items ≡ out.old.items ++ item_flat (item_view i.now)) }
{
    match i {
        Item::Empty(_) => mark(out, Punct::Semicolon),
        Item::Doc { name, texts, .. } => {
            word(out, Name(PY_DOC_STRVAR))?;
            mark(out, Punct::LeftParen)?;
            word(out, *name)?;
            mark(out, Punct::Comma)?;
            put_texts(out, texts)?;
            mark(out, Punct::RightParen)
        }
        Item::Typedef {
            spec: s,
            stars,
            name,
            ..
        } => {
            keyword(out, Key::Typedef)?;
            spec(out, s)?;
            put_stars(out, stars)?;
            word(out, *name)?;
            mark(out, Punct::Semicolon)
        }
        Item::Tag { quals, spec: s } => {
            put_keys(out, quals)?;
            spec(out, s)?;
            mark(out, Punct::Semicolon)
        }
        Item::Vars(d) => decl(out, d),
        Item::Prototype(h) => {
            signature(out, &h.quals, &h.result, &h.stars, h.name, &h.params)?;
            mark(out, Punct::Semicolon)
        }
        Item::Function(f) => {
            signature(out, &f.quals, &f.result, &f.stars, f.name, &f.params)?;
            stmt(out, &f.body)
        }
    }
}

fn signature(
    out: &mut Vec<Kind>,
    quals: &Vec<Key>,
    result_type: &Spec,
    stars: &Vec<u32>,
    name: Name,
    list: &Params,
) -> Result<(), Memory>
    ensures { OnOk result (out.new.items ≡ out.old.items
        ++ signature_flat quals.now.items (spec_view result_type.now) stars.now.items name (params_view list.now)) }
{
    put_keys(out, quals)?;
    spec(out, result_type)?;
    put_stars(out, stars)?;
    word(out, name)?;
    mark(out, Punct::LeftParen)?;
    params(out, list)?;
    mark(out, Punct::RightParen)
}

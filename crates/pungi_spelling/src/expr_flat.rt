ghost use Rattle.std.specs.Prelude.{◌≡◌, [], ◌∷◌, ◌++◌, OnOk, map};
ghost use Rattle.pungi_tree.specs.ExprFlat.{expr_flat, args_flat, type_name_flat, spec_flat, base_flat, field_flat};
ghost use Rattle.pungi_tree.specs.ExprFlat.{fields_flat, declr_flat, declrs_flat, tail_flat, sizes_flat, params_flat};
ghost use Rattle.pungi_tree.specs.ExprFlat.{param_decl_flat, param_decls_flat, param_declr_flat};
ghost use Rattle.pungi_tree.specs.Tokens.{mark as mark_of};
ghost use Rattle.pungi_tree.specs.ExprView.{expr_view, exprs_of, type_name_view, spec_view, base_view, field_view};
ghost use Rattle.pungi_tree.specs.ExprView.{fields_of, declr_view, declrs_of, tail_view, sizes_of, optional_view};
ghost use Rattle.pungi_tree.specs.ExprView.{params_view, param_decl_view, param_decls_of, param_declr_view};

use crate::tokens::{
    keyword, mark, put, put_consts, put_keys, put_stars, put_tag, put_texts, word,
};
use pungi_base::words::{PY_OBJECT_NEW, PY_UNUSED};
use pungi_base::{Key, Kind, Memory, Name, Punct};
use pungi_tree::{
    Base, Declr, Expr, ExprNode, Field, ParamDecl, ParamDeclr, Params, Spec, Tail, TypeName,
};

#[cycle(flat)]
pub(crate) fn expr(out: &mut Vec<Kind>, e: &Expr) -> Result<(), Memory>
    ensures { OnOk result (out.new.items ≡ out.old.items ++ expr_flat (expr_view e.now)) }
{
    match &e.node {
        ExprNode::Word(name) => word(out, *name),
        ExprNode::Int {
            value,
            long,
            unsigned,
        } => int(out, *value, *long, *unsigned),
        ExprNode::Float => put(out, Kind::Float),
        ExprNode::Char(c) => put(out, Kind::Char(*c)),
        ExprNode::Text(names) => put_texts(out, names),
        ExprNode::Null => keyword(out, Key::Null),
        ExprNode::Paren(inner) => enclosed(out, Punct::LeftParen, inner, Punct::RightParen),
        ExprNode::Unary(kind, operand) => behind(out, *kind, operand),
        ExprNode::Post(op, operand) => {
            expr(out, operand)?;
            mark(out, *op)
        }
        ExprNode::Binary(op, a, b) | ExprNode::Assign(op, a, b) => {
            expr(out, a)?;
            behind(out, Kind::Punct(*op), b)
        }
        ExprNode::Cond(a, b, c) => {
            expr(out, a)?;
            enclosed(out, Punct::Question, b, Punct::Colon)?;
            expr(out, c)
        }
        ExprNode::Comma(a, b) => {
            expr(out, a)?;
            behind(out, Kind::Punct(Punct::Comma), b)
        }
        ExprNode::Cast(name, operand) => {
            enclosed_type(out, name)?;
            expr(out, operand)
        }
        ExprNode::SizeOfType(name) => {
            keyword(out, Key::Sizeof)?;
            enclosed_type(out, name)
        }
        ExprNode::Call(f, list) => {
            expr(out, f)?;
            enclosed_args(out, list)
        }
        ExprNode::New(name, value) => {
            word(out, Name(PY_OBJECT_NEW))?;
            mark(out, Punct::LeftParen)?;
            type_name(out, name)?;
            enclosed(out, Punct::Comma, value, Punct::RightParen)
        }
        ExprNode::Index(a, b) => {
            expr(out, a)?;
            enclosed(out, Punct::LeftBracket, b, Punct::RightBracket)
        }
        ExprNode::Dot(base, name) => member(out, base, Punct::Dot, *name),
        ExprNode::Arrow(base, name) => member(out, base, Punct::Arrow, *name),
    }
}

fn int(out: &mut Vec<Kind>, value: i128, long: bool, unsigned: bool) -> Result<(), Memory>
    ensures { OnOk result (out.new.items ≡ out.old.items ++ Kind.Int value long unsigned ∷ []) }
{
    put(
        out,
        Kind::Int {
            value,
            long,
            unsigned,
        },
    )
}

#[cycle(flat)]
fn enclosed(out: &mut Vec<Kind>, left: Punct, e: &Expr, right: Punct) -> Result<(), Memory>
    ensures { OnOk result (out.new.items
        ≡ out.old.items ++ (mark_of left ∷ (expr_flat (expr_view e.now) ++ mark_of right ∷ []))) }
{
    mark(out, left)?;
    expr(out, e)?;
    mark(out, right)
}

#[cycle(flat)]
fn behind(out: &mut Vec<Kind>, kind: Kind, e: &Expr) -> Result<(), Memory>
    ensures { OnOk result (out.new.items ≡ out.old.items ++ (kind ∷ expr_flat (expr_view e.now))) }
{
    put(out, kind)?;
    expr(out, e)
}

#[cycle(flat)]
fn member(out: &mut Vec<Kind>, base: &Expr, op: Punct, name: Name) -> Result<(), Memory>
    ensures { OnOk result (out.new.items ≡ out.old.items
        ++ (expr_flat (expr_view base.now) ++ (mark_of op ∷ Kind.Word name ∷ []))) }
{
    expr(out, base)?;
    mark(out, op)?;
    word(out, name)
}

#[cycle(flat)]
fn enclosed_type(out: &mut Vec<Kind>, name: &TypeName) -> Result<(), Memory>
    ensures { OnOk result (out.new.items ≡ out.old.items ++ (mark_of Punct.LeftParen
        ∷ (type_name_flat (type_name_view name.now) ++ mark_of Punct.RightParen ∷ []))) }
{
    mark(out, Punct::LeftParen)?;
    type_name(out, name)?;
    mark(out, Punct::RightParen)
}

#[cycle(flat)]
fn enclosed_args(out: &mut Vec<Kind>, list: &Vec<Expr>) -> Result<(), Memory>
    ensures { OnOk result (out.new.items ≡ out.old.items ++ (mark_of Punct.LeftParen
        ∷ (args_flat (exprs_of (map expr_view list.now.items)) ++ mark_of Punct.RightParen ∷ []))) }
{
    mark(out, Punct::LeftParen)?;
    args(out, list)?;
    mark(out, Punct::RightParen)
}

#[cycle(flat)]
fn args(out: &mut Vec<Kind>, list: &Vec<Expr>) -> Result<(), Memory>
    ensures { OnOk result (out.new.items
        ≡ out.old.items ++ args_flat (exprs_of (map expr_view list.now.items))) }
{
    if let Some((first, others)) = list.split_first() {
        expr(out, first)?;
        for e in others {
            mark(out, Punct::Comma)?;
            expr(out, e)?;
        }
    }
    Ok(())
}

#[cycle(flat)]
fn type_name(out: &mut Vec<Kind>, name: &TypeName) -> Result<(), Memory>
    ensures { OnOk result (out.new.items
        ≡ out.old.items ++ type_name_flat (type_name_view name.now)) }
{
    spec(out, &name.spec)?;
    put_stars(out, &name.stars)
}

#[cycle(flat)]
pub(crate) fn spec(out: &mut Vec<Kind>, s: &Spec) -> Result<(), Memory>
    ensures { OnOk result (out.new.items ≡ out.old.items ++ spec_flat (spec_view s.now)) }
{
    base(out, &s.base)?;
    put_consts(out, s.consts)
}

#[cycle(flat)]
fn base(out: &mut Vec<Kind>, b: &Base) -> Result<(), Memory>
    ensures { OnOk result (out.new.items ≡ out.old.items ++ base_flat (base_view b.now)) }
{
    match b {
        Base::Words(keys) => put_keys(out, keys),
        Base::Alias(name) => word(out, *name),
        Base::Tagged {
            of,
            tag,
            fields: None,
        } => {
            keyword(out, *of)?;
            put_tag(out, tag)
        }
        Base::Tagged {
            of,
            tag,
            fields: Some(list),
        } => {
            keyword(out, *of)?;
            put_tag(out, tag)?;
            mark(out, Punct::LeftBrace)?;
            fields(out, list)?;
            mark(out, Punct::RightBrace)
        }
    }
}

#[cycle(flat)]
fn fields(out: &mut Vec<Kind>, list: &Vec<Field>) -> Result<(), Memory>
    ensures { OnOk result (out.new.items
        ≡ out.old.items ++ fields_flat (fields_of (map field_view list.now.items))) }
{
    for f in list {
        field(out, f)?;
    }
    Ok(())
}

#[cycle(flat)]
fn field(out: &mut Vec<Kind>, f: &Field) -> Result<(), Memory>
    ensures { OnOk result (out.new.items ≡ out.old.items ++ field_flat (field_view f.now)) }
{
    match f {
        Field::Empty => mark(out, Punct::Semicolon),
        Field::Members {
            quals,
            spec: s,
            declrs: list,
        } => {
            put_keys(out, quals)?;
            spec(out, s)?;
            declrs(out, list)?;
            mark(out, Punct::Semicolon)
        }
    }
}

#[cycle(flat)]
fn declrs(out: &mut Vec<Kind>, list: &Vec<Declr>) -> Result<(), Memory>
    ensures { OnOk result (out.new.items
        ≡ out.old.items ++ declrs_flat (declrs_of (map declr_view list.now.items))) }
{
    if let Some((first, others)) = list.split_first() {
        declr(out, first)?;
        for d in others {
            mark(out, Punct::Comma)?;
            declr(out, d)?;
        }
    }
    Ok(())
}

#[cycle(flat)]
pub(crate) fn declr(out: &mut Vec<Kind>, d: &Declr) -> Result<(), Memory>
    ensures { OnOk result (out.new.items ≡ out.old.items ++ declr_flat (declr_view d.now)) }
{
    put_stars(out, &d.stars)?;
    tail(out, d.name, &d.tail)
}

#[cycle(flat)]
fn tail(out: &mut Vec<Kind>, name: Name, t: &Tail) -> Result<(), Memory>
    ensures { OnOk result (out.new.items ≡ out.old.items ++ tail_flat name (tail_view t.now)) }
{
    match t {
        Tail::Sizes(list) => {
            word(out, name)?;
            sizes(out, list)
        }
        Tail::Function(list) => {
            mark(out, Punct::LeftParen)?;
            mark(out, Punct::Star)?;
            word(out, name)?;
            mark(out, Punct::RightParen)?;
            mark(out, Punct::LeftParen)?;
            params(out, list)?;
            mark(out, Punct::RightParen)
        }
    }
}

#[cycle(flat)]
fn sizes(out: &mut Vec<Kind>, list: &Vec<Option<Expr>>) -> Result<(), Memory>
    ensures { OnOk result (out.new.items
        ≡ out.old.items ++ sizes_flat (sizes_of (map optional_view list.now.items))) }
{
    for size in list {
        mark(out, Punct::LeftBracket)?;
        if let Some(e) = size {
            expr(out, e)?;
        }
        mark(out, Punct::RightBracket)?;
    }
    Ok(())
}

#[cycle(flat)]
pub(crate) fn params(out: &mut Vec<Kind>, p: &Params) -> Result<(), Memory>
    ensures { OnOk result (out.new.items ≡ out.old.items ++ params_flat (params_view p.now)) }
{
    if p.void {
        keyword(out, Key::Void)?;
    }
    param_decls(out, &p.list)?;
    if p.dots.is_some() {
        mark(out, Punct::Comma)?;
        mark(out, Punct::Ellipsis)?;
    }
    Ok(())
}

#[cycle(flat)]
fn param_decls(out: &mut Vec<Kind>, list: &Vec<ParamDecl>) -> Result<(), Memory>
    ensures { OnOk result (out.new.items
        ≡ out.old.items ++ param_decls_flat (param_decls_of (map param_decl_view list.now.items))) }
{
    if let Some((first, others)) = list.split_first() {
        param_decl(out, first)?;
        for d in others {
            mark(out, Punct::Comma)?;
            param_decl(out, d)?;
        }
    }
    Ok(())
}

#[cycle(flat)]
fn param_decl(out: &mut Vec<Kind>, d: &ParamDecl) -> Result<(), Memory>
    ensures { OnOk result (out.new.items
        ≡ out.old.items ++ param_decl_flat (param_decl_view d.now)) }
{
    put_keys(out, &d.quals)?;
    spec(out, &d.spec)?;
    param_declr(out, &d.declr)
}

#[cycle(flat)]
fn param_declr(out: &mut Vec<Kind>, d: &ParamDeclr) -> Result<(), Memory>
    ensures { OnOk result (out.new.items
        ≡ out.old.items ++ param_declr_flat (param_declr_view d.now)) }
{
    match d {
        ParamDeclr::Named(inner) => declr(out, inner),
        ParamDeclr::Bare(stars) => put_stars(out, stars),
        ParamDeclr::Unused { stars, name, .. } => {
            put_stars(out, stars)?;
            word(out, Name(PY_UNUSED))?;
            mark(out, Punct::LeftParen)?;
            word(out, *name)?;
            mark(out, Punct::RightParen)
        }
    }
}

ghost use Rattle.std.specs.Prelude.{◌≡◌, map};
ghost use Rattle.pungi_tree.specs.ExprLevels.{is_just_void, is_void_base, is_void_spec, is_nothing, is_void_param};
ghost use Rattle.pungi_tree.specs.ExprLevels.{is_lone_void, void_ok, expr_at, args_ok, type_name_ok, spec_ok, base_ok};
ghost use Rattle.pungi_tree.specs.ExprLevels.{field_ok, fields_ok, declr_ok, some_declrs_ok, declrs_ok, tail_ok};
ghost use Rattle.pungi_tree.specs.ExprLevels.{sizes_ok, params_ok, param_decl_ok, param_decls_ok, param_declr_ok};
ghost use Rattle.pungi_tree.specs.ExprView.{expr_view, exprs_of, type_name_view, spec_view, base_view, field_view};
ghost use Rattle.pungi_tree.specs.ExprView.{fields_of, declr_view, declrs_of, tail_view, sizes_of, optional_view};
ghost use Rattle.pungi_tree.specs.ExprView.{params_view, param_decl_view, param_decls_of, param_declr_view};
ghost use Rattle.pungi_tree.specs.UnitLevels.{typedef_names};
ghost use Rattle.pungi_tree.specs.UnitView.{item_view};

use crate::operators::{
    base_words, binary_level, is_aggregate, is_assign, is_step, prefix_need, qualifiers,
};
use crate::type_words::is_type;
use pungi_base::words::{PY_OBJECT_NEW, PY_UNUSED};
use pungi_base::{Key, Name, Pos};
use pungi_tree::{
    Base, Declr, Expr, ExprNode, Field, Item, ParamDecl, ParamDeclr, Params, Spec, Tail, TypeName,
};

#[cycle(levels)]
pub(crate) fn expr_at(file: &[Item], least: u32, e: &Expr) -> bool
    ensures { result ≡ expr_at (typedef_names (map item_view file.now)) least (expr_view e.now) }
{
    match &e.node {
        ExprNode::Word(name) => least <= 16 && !is_type(file, *name),
        ExprNode::Int { .. } | ExprNode::Float | ExprNode::Char(_) | ExprNode::Null => least <= 16,
        ExprNode::Text(texts) => least <= 16 && !texts.is_empty(),
        ExprNode::Paren(a) => least <= 16 && expr_at(file, 0, a),
        ExprNode::Unary(kind, a) => least <= 14 && expr_at(file, prefix_need(*kind), a),
        ExprNode::Post(op, a) => least <= 15 && is_step(*op) && expr_at(file, 15, a),
        ExprNode::Binary(op, a, b) => {
            let level = binary_level(*op);
            least <= level && expr_at(file, level, a) && expr_at(file, level + 1, b)
        }
        ExprNode::Assign(op, a, b) => {
            least <= 1 && is_assign(*op) && expr_at(file, 14, a) && expr_at(file, 1, b)
        }
        ExprNode::Cond(a, b, c) => {
            least <= 2 && expr_at(file, 3, a) && expr_at(file, 0, b) && expr_at(file, 2, c)
        }
        ExprNode::Comma(a, b) => least == 0 && expr_at(file, 0, a) && expr_at(file, 1, b),
        ExprNode::Cast(name, a) => least <= 13 && type_name(file, name) && expr_at(file, 13, a),
        ExprNode::SizeOfType(name) => least <= 14 && type_name(file, name),
        ExprNode::Call(f, list) => least <= 15 && expr_at(file, 15, f) && args(file, list),
        ExprNode::New(name, a) => {
            least <= 16
                && !is_type(file, Name(PY_OBJECT_NEW))
                && type_name(file, name)
                && expr_at(file, 1, a)
        }
        ExprNode::Index(a, b) => least <= 15 && expr_at(file, 15, a) && expr_at(file, 0, b),
        ExprNode::Dot(a, name) | ExprNode::Arrow(a, name) => {
            least <= 15 && expr_at(file, 15, a) && !is_type(file, *name)
        }
    }
}

#[cycle(levels)]
fn args(file: &[Item], list: &Vec<Expr>) -> bool
    ensures { result ≡ args_ok (typedef_names (map item_view file.now)) (exprs_of (map expr_view list.now.items)) }
{
    for e in list {
        if !expr_at(file, 1, e) {
            return false;
        }
    }
    true
}

#[cycle(levels)]
fn type_name(file: &[Item], name: &TypeName) -> bool
    ensures { result ≡ type_name_ok (typedef_names (map item_view file.now)) (type_name_view name.now) }
{
    spec(file, &name.spec)
}

#[cycle(levels)]
pub(crate) fn spec(file: &[Item], s: &Spec) -> bool
    ensures { result ≡ spec_ok (typedef_names (map item_view file.now)) (spec_view s.now) }
{
    base(file, &s.base)
}

#[cycle(levels)]
fn base(file: &[Item], b: &Base) -> bool
    ensures { result ≡ base_ok (typedef_names (map item_view file.now)) (base_view b.now) }
{
    match b {
        Base::Words(keys) => !keys.is_empty() && base_words(keys),
        Base::Alias(name) => is_type(file, *name),
        Base::Tagged {
            of,
            tag,
            fields: None,
        } => is_aggregate(*of) && tag.is_some(),
        Base::Tagged {
            of,
            tag: None,
            fields: Some(list),
        } => is_aggregate(*of) && fields(file, list),
        Base::Tagged {
            of,
            tag: Some((name, _)),
            fields: Some(list),
        } => is_aggregate(*of) && !is_type(file, *name) && fields(file, list),
    }
}

#[cycle(levels)]
fn fields(file: &[Item], list: &Vec<Field>) -> bool
    ensures { result ≡ fields_ok (typedef_names (map item_view file.now)) (fields_of (map field_view list.now.items)) }
{
    for f in list {
        if !field(file, f) {
            return false;
        }
    }
    true
}

#[cycle(levels)]
fn field(file: &[Item], f: &Field) -> bool
    ensures { result ≡ field_ok (typedef_names (map item_view file.now)) (field_view f.now) }
{
    match f {
        Field::Empty => true,
        Field::Members {
            quals,
            spec: s,
            declrs: list,
        } => qualifiers(quals) && spec(file, s) && some_declrs(file, list),
    }
}

#[cycle(levels)]
fn some_declrs(file: &[Item], list: &Vec<Declr>) -> bool
    ensures { result ≡ some_declrs_ok (typedef_names (map item_view file.now))
        (declrs_of (map declr_view list.now.items)) }
{
    let Some((first, others)) = list.split_first() else {
        return false;
    };
    if !declr(file, first) {
        return false;
    }
    for d in others {
        if !declr(file, d) {
            return false;
        }
    }
    true
}

#[cycle(levels)]
pub(crate) fn declr(file: &[Item], d: &Declr) -> bool
    ensures { result ≡ declr_ok (typedef_names (map item_view file.now)) (declr_view d.now) }
{
    !is_type(file, d.name) && tail(file, &d.tail)
}

#[cycle(levels)]
fn tail(file: &[Item], t: &Tail) -> bool
    ensures { result ≡ tail_ok (typedef_names (map item_view file.now)) (tail_view t.now) }
{
    match t {
        Tail::Sizes(list) => sizes(file, list),
        Tail::Function(list) => params(file, list),
    }
}

#[cycle(levels)]
fn sizes(file: &[Item], list: &Vec<Option<Expr>>) -> bool
    ensures { result ≡ sizes_ok (typedef_names (map item_view file.now)) (sizes_of (map optional_view list.now.items)) }
{
    for size in list {
        if let Some(e) = size
            && !expr_at(file, 0, e)
        {
            return false;
        }
    }
    true
}

fn is_void_base(b: &Base) -> bool
    ensures { result ≡ is_void_base (base_view b.now) }
{
    match b {
        Base::Words(keys) => is_just_void(keys),
        _ => false,
    }
}

fn is_just_void(keys: &[Key]) -> bool
    ensures { result ≡ is_just_void keys.now }
{
    match keys.split_first() {
        Some((key, others)) => matches!(key, Key::Void) && others.is_empty(),
        None => false,
    }
}

fn is_void_spec(s: &Spec) -> bool
    ensures { result ≡ is_void_spec (spec_view s.now) }
{
    is_void_base(&s.base) && s.consts == 0
}

fn is_nothing(d: &ParamDeclr) -> bool
    ensures { result ≡ is_nothing (param_declr_view d.now) }
{
    match d {
        ParamDeclr::Bare(stars) => stars.is_empty(),
        ParamDeclr::Named(_) | ParamDeclr::Unused { .. } => false,
    }
}

fn is_void_param(d: &ParamDecl) -> bool
    ensures { result ≡ is_void_param (param_decl_view d.now) }
{
    d.quals.is_empty() && is_void_spec(&d.spec) && is_nothing(&d.declr)
}

#[tactic(auto, using(crate::proofs::ParamLemmas::has_no_params_is))]
fn is_lone_void(list: &Vec<ParamDecl>) -> bool
    ensures { result ≡ is_lone_void (param_decls_of (map param_decl_view list.now.items)) }
{
    match list.split_first() {
        Some((d, others)) => is_void_param(d) && others.is_empty(),
        None => false,
    }
}

#[tactic(auto, using(crate::proofs::ParamLemmas::has_no_params_is))]
fn void_ok(void: bool, list: &Vec<ParamDecl>, dots: &Option<Pos>) -> bool
    ensures { result ≡ void_ok void (param_decls_of (map param_decl_view list.now.items)) dots.now }
{
    if void {
        list.is_empty() && dots.is_none()
    } else if dots.is_some() {
        !list.is_empty()
    } else {
        !is_lone_void(list)
    }
}

#[cycle(levels)]
pub(crate) fn params(file: &[Item], p: &Params) -> bool
    ensures { result ≡ params_ok (typedef_names (map item_view file.now)) (params_view p.now) }
{
    void_ok(p.void, &p.list, &p.dots) && param_decls(file, &p.list)
}

#[cycle(levels)]
fn param_decls(file: &[Item], list: &Vec<ParamDecl>) -> bool
    ensures { result ≡ param_decls_ok (typedef_names (map item_view file.now))
        (param_decls_of (map param_decl_view list.now.items)) }
{
    for d in list {
        if !param_decl(file, d) {
            return false;
        }
    }
    true
}

#[cycle(levels)]
fn param_decl(file: &[Item], d: &ParamDecl) -> bool
    ensures { result ≡ param_decl_ok (typedef_names (map item_view file.now)) (param_decl_view d.now) }
{
    qualifiers(&d.quals) && spec(file, &d.spec) && param_declr(file, &d.declr)
}

#[cycle(levels)]
fn param_declr(file: &[Item], d: &ParamDeclr) -> bool
    ensures { result ≡ param_declr_ok (typedef_names (map item_view file.now)) (param_declr_view d.now) }
{
    match d {
        ParamDeclr::Named(inner) => declr(file, inner),
        ParamDeclr::Bare(_) => true,
        ParamDeclr::Unused { name, .. } => !is_type(file, Name(PY_UNUSED)) && !is_type(file, *name),
    }
}

ghost use Rattle.std.specs.Prelude.{◌≡◌, ◌+◌, map};
ghost use Rattle.pungi_tree.specs.ExprDepth.{capped, expr_depth, exprs_depth, type_name_depth, spec_depth, field_depth};
ghost use Rattle.pungi_tree.specs.ExprDepth.{fields_depth, declr_depth, declrs_depth, sizes_depth, params_depth};
ghost use Rattle.pungi_tree.specs.ExprDepth.{param_decl_depth, param_decls_depth};
ghost use Rattle.pungi_tree.specs.ExprView.{expr_view, exprs_of, type_name_view, spec_view, field_view, fields_of};
ghost use Rattle.pungi_tree.specs.ExprView.{declr_view, declrs_of, sizes_of, optional_view, params_view};
ghost use Rattle.pungi_tree.specs.ExprView.{param_decl_view, param_decls_of};

use pungi_tree::{
    Base, Declr, Expr, ExprNode, Field, ParamDecl, ParamDeclr, Params, Spec, Tail, TypeName,
};

/// One node more.
pub(crate) fn deeper(depth: u32) -> u32
    ensures { result ≡ capped (depth + 1) }
{
    if depth == u32::MAX { depth } else { depth + 1 }
}

#[cycle(depth)]
pub(crate) fn expr(e: &Expr) -> u32
    ensures { result ≡ capped (expr_depth (expr_view e.now)) }
{
    match &e.node {
        ExprNode::Word(_)
        | ExprNode::Int { .. }
        | ExprNode::Float
        | ExprNode::Char(_)
        | ExprNode::Text(_)
        | ExprNode::Null => 1,
        ExprNode::Paren(a)
        | ExprNode::Unary(_, a)
        | ExprNode::Post(_, a)
        | ExprNode::Dot(a, _)
        | ExprNode::Arrow(a, _) => deeper(expr(a)),
        ExprNode::Binary(_, a, b)
        | ExprNode::Assign(_, a, b)
        | ExprNode::Comma(a, b)
        | ExprNode::Index(a, b) => deeper(expr(a).max(expr(b))),
        ExprNode::Cond(a, b, c) => deeper(expr(a).max(expr(b).max(expr(c)))),
        ExprNode::Cast(name, a) | ExprNode::New(name, a) => deeper(type_name(name).max(expr(a))),
        ExprNode::SizeOfType(name) => deeper(type_name(name)),
        ExprNode::Call(f, args) => deeper(expr(f).max(exprs(args))),
    }
}

#[cycle(depth)]
fn exprs(list: &Vec<Expr>) -> u32
    ensures { result ≡ capped (exprs_depth (exprs_of (map expr_view list.now.items))) }
{
    let mut deepest = 0;
    for e in list {
        deepest = expr(e).max(deepest);
    }
    deepest
}

#[cycle(depth)]
fn type_name(name: &TypeName) -> u32
    ensures { result ≡ capped (type_name_depth (type_name_view name.now)) }
{
    spec(&name.spec)
}

#[cycle(depth)]
pub(crate) fn spec(s: &Spec) -> u32
    ensures { result ≡ capped (spec_depth (spec_view s.now)) }
{
    match &s.base {
        Base::Tagged {
            fields: Some(list),
            ..
        } => fields(list),
        _ => 0,
    }
}

#[cycle(depth)]
fn fields(list: &Vec<Field>) -> u32
    ensures { result ≡ capped (fields_depth (fields_of (map field_view list.now.items))) }
{
    let mut deepest = 0;
    for f in list {
        deepest = field(f).max(deepest);
    }
    deepest
}

#[cycle(depth)]
fn field(f: &Field) -> u32
    ensures { result ≡ capped (field_depth (field_view f.now)) }
{
    match f {
        Field::Empty => 0,
        Field::Members {
            spec: s,
            declrs: list,
            ..
        } => spec(s).max(declrs(list)),
    }
}

#[cycle(depth)]
fn declrs(list: &Vec<Declr>) -> u32
    ensures { result ≡ capped (declrs_depth (declrs_of (map declr_view list.now.items))) }
{
    let mut deepest = 0;
    for d in list {
        deepest = declr(d).max(deepest);
    }
    deepest
}

#[cycle(depth)]
pub(crate) fn declr(d: &Declr) -> u32
    ensures { result ≡ capped (declr_depth (declr_view d.now)) }
{
    match &d.tail {
        Tail::Sizes(list) => sizes(list),
        Tail::Function(list) => params(list),
    }
}

#[cycle(depth)]
fn sizes(list: &Vec<Option<Expr>>) -> u32
    ensures { result ≡ capped (sizes_depth (sizes_of (map optional_view list.now.items))) }
{
    let mut deepest = 0;
    for size in list {
        if let Some(e) = size {
            deepest = expr(e).max(deepest);
        }
    }
    deepest
}

#[cycle(depth)]
pub(crate) fn params(p: &Params) -> u32
    ensures { result ≡ capped (params_depth (params_view p.now)) }
{
    param_decls(&p.list)
}

#[cycle(depth)]
fn param_decls(list: &Vec<ParamDecl>) -> u32
    ensures { result ≡ capped (param_decls_depth (param_decls_of (map param_decl_view list.now.items))) }
{
    let mut deepest = 0;
    for d in list {
        deepest = param_decl(d).max(deepest);
    }
    deepest
}

#[cycle(depth)]
fn param_decl(d: &ParamDecl) -> u32
    ensures { result ≡ capped (param_decl_depth (param_decl_view d.now)) }
{
    let inner = match &d.declr {
        ParamDeclr::Named(named) => declr(named),
        _ => 0,
    };
    spec(&d.spec).max(inner)
}

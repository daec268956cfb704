//! How many expressions stand in an expression, a type or a declarator.
ghost use Rattle.std.specs.Prelude.{◌≡◌, ◌+◌, map};
ghost use Rattle.pungi_tree.specs.ExprDepth.{capped};
ghost use Rattle.pungi_tree.specs.ExprView.{expr_view, exprs_of, type_name_view, spec_view, field_view, fields_of};
ghost use Rattle.pungi_tree.specs.ExprView.{declr_view, declrs_of, sizes_of, optional_view, params_view};
ghost use Rattle.pungi_tree.specs.ExprView.{param_decl_view, param_decls_of};
ghost use Rattle.pungi_types.specs.Nodes.{expr_nodes, exprs_nodes, type_name_nodes, spec_nodes, field_nodes};
ghost use Rattle.pungi_types.specs.Nodes.{fields_nodes, declr_nodes, declrs_nodes, sizes_nodes, params_nodes};
ghost use Rattle.pungi_types.specs.Nodes.{param_decl_nodes, param_decls_nodes};

use pungi_tree::{
    Base, Declr, Expr, ExprNode, Field, ParamDecl, ParamDeclr, Params, Spec, Tail, TypeName,
};

/// A sum that stays at the end of its type.
pub(crate) fn plus(a: u32, b: u32) -> u32
    ensures { result ≡ capped (a + b) }
{
    a.saturating_add(b)
}

#[cycle(expr_nodes)]
pub(crate) fn expr(e: &Expr) -> u32
    ensures { result ≡ capped (expr_nodes (expr_view e.now)) }
{
    match &e.node {
        ExprNode::Word(_)
        | ExprNode::Int { .. }
        | ExprNode::Float
        | ExprNode::Char(_)
        | ExprNode::Text(_)
        | ExprNode::Null => 1,
        ExprNode::Paren(a)
        | ExprNode::Unary(_, a)
        | ExprNode::Post(_, a)
        | ExprNode::Dot(a, _)
        | ExprNode::Arrow(a, _) => plus(expr(a), 1),
        ExprNode::Binary(_, a, b)
        | ExprNode::Assign(_, a, b)
        | ExprNode::Comma(a, b)
        | ExprNode::Index(a, b) => plus(plus(expr(a), expr(b)), 1),
        ExprNode::Cond(a, b, c) => plus(plus(plus(expr(a), expr(b)), expr(c)), 1),
        ExprNode::Cast(name, a) | ExprNode::New(name, a) => plus(plus(type_name(name), expr(a)), 1),
        ExprNode::SizeOfType(name) => plus(type_name(name), 1),
        ExprNode::Call(f, args) => plus(plus(expr(f), exprs(args)), 1),
    }
}

#[cycle(expr_nodes)]
fn exprs(list: &Vec<Expr>) -> u32
    ensures { result ≡ capped (exprs_nodes (exprs_of (map expr_view list.now.items))) }
{
    let mut nodes = 0;
    for e in list {
        nodes = plus(nodes, expr(e));
    }
    nodes
}

#[cycle(expr_nodes)]
fn type_name(name: &TypeName) -> u32
    ensures { result ≡ capped (type_name_nodes (type_name_view name.now)) }
{
    spec(&name.spec)
}

#[cycle(expr_nodes)]
pub(crate) fn spec(s: &Spec) -> u32
    ensures { result ≡ capped (spec_nodes (spec_view s.now)) }
{
    match &s.base {
        Base::Tagged {
            fields: Some(list),
            ..
        } => fields(list),
        _ => 0,
    }
}

#[cycle(expr_nodes)]
fn fields(list: &Vec<Field>) -> u32
    ensures { result ≡ capped (fields_nodes (fields_of (map field_view list.now.items))) }
{
    let mut nodes = 0;
    for f in list {
        nodes = plus(nodes, field(f));
    }
    nodes
}

#[cycle(expr_nodes)]
fn field(f: &Field) -> u32
    ensures { result ≡ capped (field_nodes (field_view f.now)) }
{
    match f {
        Field::Empty => 0,
        Field::Members {
            spec: s,
            declrs: list,
            ..
        } => plus(spec(s), declrs(list)),
    }
}

#[cycle(expr_nodes)]
fn declrs(list: &Vec<Declr>) -> u32
    ensures { result ≡ capped (declrs_nodes (declrs_of (map declr_view list.now.items))) }
{
    let mut nodes = 0;
    for d in list {
        nodes = plus(nodes, declr(d));
    }
    nodes
}

#[cycle(expr_nodes)]
pub(crate) fn declr(d: &Declr) -> u32
    ensures { result ≡ capped (declr_nodes (declr_view d.now)) }
{
    match &d.tail {
        Tail::Sizes(list) => sizes(list),
        Tail::Function(list) => params(list),
    }
}

#[cycle(expr_nodes)]
fn sizes(list: &Vec<Option<Expr>>) -> u32
    ensures { result ≡ capped (sizes_nodes (sizes_of (map optional_view list.now.items))) }
{
    let mut nodes = 0;
    for size in list {
        if let Some(e) = size {
            nodes = plus(nodes, expr(e));
        }
    }
    nodes
}

#[cycle(expr_nodes)]
pub(crate) fn params(p: &Params) -> u32
    ensures { result ≡ capped (params_nodes (params_view p.now)) }
{
    param_decls(&p.list)
}

#[cycle(expr_nodes)]
fn param_decls(list: &Vec<ParamDecl>) -> u32
    ensures { result ≡ capped (param_decls_nodes (param_decls_of (map param_decl_view list.now.items))) }
{
    let mut nodes = 0;
    for d in list {
        nodes = plus(nodes, param_decl(d));
    }
    nodes
}

#[cycle(expr_nodes)]
fn param_decl(d: &ParamDecl) -> u32
    ensures { result ≡ capped (param_decl_nodes (param_decl_view d.now)) }
{
    let inner = match &d.declr {
        ParamDeclr::Named(named) => declr(named),
        _ => 0,
    };
    plus(spec(&d.spec), inner)
}

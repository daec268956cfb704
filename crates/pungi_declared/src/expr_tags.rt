//! Structs and unions with fields in expressions, types and declarators.
ghost use Rattle.std.specs.Prelude.{◌≡◌, ◌++◌, OnOk, map};
ghost use Rattle.pungi_declared.specs.DeclaredView.{tag_view};
ghost use Rattle.pungi_tree.specs.ExprView.{expr_view, exprs_of, spec_view, field_view, fields_of, declr_view};
ghost use Rattle.pungi_tree.specs.ExprView.{declrs_of, sizes_of, optional_view, param_decl_view, param_decls_of};
ghost use Rattle.pungi_types.specs.Tags.{expr_tags, exprs_tags, spec_tags, field_tags, fields_tags, declr_tags};
ghost use Rattle.pungi_types.specs.Tags.{declrs_tags, sizes_tags, param_decl_tags, param_decls_tags};

use crate::Tag;
use crate::tag::put;
use pungi_base::Memory;
use pungi_tree::{Base, Declr, Expr, ExprNode, Field, ParamDecl, ParamDeclr, Spec, Tail};

#[cycle(expr_tags)]
pub(crate) fn expr<'u>(out: &mut Vec<Tag<'u>>, e: &'u Expr) -> Result<(), Memory>
    ensures { OnOk result (map tag_view out.new.items ≡ map tag_view out.old.items ++ expr_tags (expr_view e.now)) }
{
    match &e.node {
        ExprNode::Word(_)
        | ExprNode::Int { .. }
        | ExprNode::Float
        | ExprNode::Char(_)
        | ExprNode::Text(_)
        | ExprNode::Null => Ok(()),
        ExprNode::Paren(a)
        | ExprNode::Unary(_, a)
        | ExprNode::Post(_, a)
        | ExprNode::Dot(a, _)
        | ExprNode::Arrow(a, _) => expr(out, a),
        ExprNode::Binary(_, a, b)
        | ExprNode::Assign(_, a, b)
        | ExprNode::Comma(a, b)
        | ExprNode::Index(a, b) => {
            expr(out, a)?;
            expr(out, b)
        }
        ExprNode::Cond(c, a, b) => {
            expr(out, c)?;
            expr(out, a)?;
            expr(out, b)
        }
        ExprNode::Cast(name, a) | ExprNode::New(name, a) => {
            spec(out, &name.spec)?;
            expr(out, a)
        }
        ExprNode::SizeOfType(name) => spec(out, &name.spec),
        ExprNode::Call(f, args) => {
            expr(out, f)?;
            exprs(out, args)
        }
    }
}

#[cycle(expr_tags)]
fn exprs<'u>(out: &mut Vec<Tag<'u>>, list: &'u Vec<Expr>) -> Result<(), Memory>
    ensures { OnOk result (map tag_view out.new.items ≡ map tag_view out.old.items
        ++ exprs_tags (exprs_of (map expr_view list.now.items))) }
{
    for e in list {
        expr(out, e)?;
    }
    Ok(())
}

#[cycle(expr_tags)]
pub(crate) fn spec<'u>(out: &mut Vec<Tag<'u>>, s: &'u Spec) -> Result<(), Memory>
    ensures { OnOk result (map tag_view out.new.items ≡ map tag_view out.old.items ++ spec_tags (spec_view s.now)) }
{
    match &s.base {
        Base::Words(_) | Base::Alias(_) => Ok(()),
        Base::Tagged { fields: None, .. } => Ok(()),
        Base::Tagged {
            of,
            tag,
            fields: Some(list),
        } => {
            put(
                out,
                Tag {
                    of: *of,
                    tag: *tag,
                    fields: list,
                },
            )?;
            fields(out, list)
        }
    }
}

#[cycle(expr_tags)]
fn fields<'u>(out: &mut Vec<Tag<'u>>, list: &'u Vec<Field>) -> Result<(), Memory>
    ensures { OnOk result (map tag_view out.new.items ≡ map tag_view out.old.items
        ++ fields_tags (fields_of (map field_view list.now.items))) }
{
    for f in list {
        field(out, f)?;
    }
    Ok(())
}

#[cycle(expr_tags)]
fn field<'u>(out: &mut Vec<Tag<'u>>, f: &'u Field) -> Result<(), Memory>
    ensures { OnOk result (map tag_view out.new.items ≡ map tag_view out.old.items ++ field_tags (field_view f.now)) }
{
    match f {
        Field::Empty => Ok(()),
        Field::Members {
            spec: s,
            declrs: list,
            ..
        } => {
            spec(out, s)?;
            declrs(out, list)
        }
    }
}

#[cycle(expr_tags)]
fn declrs<'u>(out: &mut Vec<Tag<'u>>, list: &'u Vec<Declr>) -> Result<(), Memory>
    ensures { OnOk result (map tag_view out.new.items ≡ map tag_view out.old.items
        ++ declrs_tags (declrs_of (map declr_view list.now.items))) }
{
    for d in list {
        declr(out, d)?;
    }
    Ok(())
}

#[cycle(expr_tags)]
pub(crate) fn declr<'u>(out: &mut Vec<Tag<'u>>, d: &'u Declr) -> Result<(), Memory>
    ensures { OnOk result (map tag_view out.new.items ≡ map tag_view out.old.items ++ declr_tags (declr_view d.now)) }
{
    match &d.tail {
        Tail::Sizes(list) => sizes(out, list),
        Tail::Function(list) => params(out, &list.list),
    }
}

#[cycle(expr_tags)]
fn sizes<'u>(out: &mut Vec<Tag<'u>>, list: &'u Vec<Option<Expr>>) -> Result<(), Memory>
    ensures { OnOk result (map tag_view out.new.items ≡ map tag_view out.old.items
        ++ sizes_tags (sizes_of (map optional_view list.now.items))) }
{
    for size in list {
        if let Some(e) = size {
            expr(out, e)?;
        }
    }
    Ok(())
}

#[cycle(expr_tags)]
pub(crate) fn params<'u>(out: &mut Vec<Tag<'u>>, list: &'u Vec<ParamDecl>) -> Result<(), Memory>
    ensures { OnOk result (map tag_view out.new.items ≡ map tag_view out.old.items
        ++ param_decls_tags (param_decls_of (map param_decl_view list.now.items))) }
{
    for d in list {
        param(out, d)?;
    }
    Ok(())
}

#[cycle(expr_tags)]
fn param<'u>(out: &mut Vec<Tag<'u>>, d: &'u ParamDecl) -> Result<(), Memory>
    ensures { OnOk result (map tag_view out.new.items ≡ map tag_view out.old.items
        ++ param_decl_tags (param_decl_view d.now)) }
{
    spec(out, &d.spec)?;
    match &d.declr {
        ParamDeclr::Named(named) => declr(out, named),
        ParamDeclr::Bare(_) | ParamDeclr::Unused { .. } => Ok(()),
    }
}

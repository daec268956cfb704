ghost use Rattle.std.specs.Prelude.{◌≡◌, Some, None, IfOk, false, map};
ghost use Rattle.pungi_tree.specs.ExprView.{base_view, field_view, fields_of, spec_view, type_name_view, declr_view};
ghost use Rattle.pungi_tree.specs.ExprView.{declrs_of, sizes_of, optional_view, params_view, param_declr_view};
ghost use Rattle.pungi_tree.specs.ExprView.{param_decl_view, param_decls_of};
ghost use Rattle.pungi_tree.specs.Syntax as plain;

use pungi_base::{Key, Memory, Name, Pos};
use pungi_tree::{Base, Declr, Expr, Field, ParamDecl, ParamDeclr, Params, Spec, Tail, TypeName};
use std::alloc::Global;

pub(crate) fn tagged(of: Key, name: Name, pos: Pos) -> Base
    ensures { base_view result ≡ plain.tagged of (Some (name, pos)) }
{
    Base::Tagged {
        of,
        tag: Some((name, pos)),
        fields: None,
    }
}

pub(crate) fn tagged_fields(of: Key, tag: Option<(Name, Pos)>, fields: Vec<Field>) -> Base
    ensures { base_view result ≡ plain.tagged_fields of tag (fields_of (map field_view fields.items)) }
{
    Base::Tagged {
        of,
        tag,
        fields: Some(fields),
    }
}

pub(crate) fn type_name(alloc: Global, spec: Spec, stars: Vec<u32>) -> Result<Box<TypeName>, Memory>
    ensures { IfOk result (λ t. type_name_view t.value ≡ plain.type_name (spec_view spec) stars.items) }
{
    Ok(Box::new(alloc, TypeName { spec, stars })?)
}

pub(crate) fn members(quals: Vec<Key>, spec: Spec, declrs: Vec<Declr>) -> Field
    ensures { field_view result
        ≡ plain.members quals.items (spec_view spec) (declrs_of (map declr_view declrs.items)) }
{
    Field::Members {
        quals,
        spec,
        declrs,
    }
}

pub(crate) fn array(stars: Vec<u32>, name: Name, pos: Pos, sizes: Vec<Option<Expr>>) -> Declr
    ensures { declr_view result
        ≡ plain.declr stars.items name pos (plain.sizes (sizes_of (map optional_view sizes.items))) }
{
    Declr {
        stars,
        name,
        pos,
        tail: Tail::Sizes(sizes),
    }
}

pub(crate) fn function(stars: Vec<u32>, name: Name, pos: Pos, params: Params) -> Declr
    ensures { declr_view result ≡ plain.declr stars.items name pos (plain.function (params_view params)) }
{
    Declr {
        stars,
        name,
        pos,
        tail: Tail::Function(params),
    }
}

pub(crate) fn no_params(alloc: Global, void: bool) -> Params
    ensures { params_view result ≡ plain.params plain.no_params void None }
{
    Params {
        list: Vec::new(alloc),
        void,
        dots: None,
    }
}

pub(crate) fn some_params(list: Vec<ParamDecl>, dots: Option<Pos>) -> Params
    ensures { params_view result
        ≡ plain.params (param_decls_of (map param_decl_view list.items)) false dots }
{
    Params {
        list,
        void: false,
        dots,
    }
}

pub(crate) fn param(quals: Vec<Key>, spec: Spec, declr: ParamDeclr) -> ParamDecl
    ensures { param_decl_view result
        ≡ plain.param_decl quals.items (spec_view spec) (param_declr_view declr) }
{
    ParamDecl { quals, spec, declr }
}

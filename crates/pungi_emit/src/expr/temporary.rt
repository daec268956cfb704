// Where values stand that wait.
ghost use Rattle.std.specs.Prelude.{◌≡◌, ◌+◌, ◌<◌, ◌≤◌, ◌^◌};
ghost use Rattle.pungi_resolved.specs.ValueView.{value_view, place_view};
ghost use Rattle.pungi_layout.specs.code.Temporaries.{column as column_of, temp, temp_of, fitting_column, operand};
ghost use Rattle.pungi_layout.specs.code.Temporaries.{param_column, front_column, tail};
ghost use Rattle.pungi_layout.specs.code.Sound.{place_nodes};
ghost use Rattle.pungi_layout.specs.code.ExprCode.{above, base_var, stored_var, counted_var, sign_var, var as var_atom};

use crate::expr::column::{column, value_column};
use pungi_api::Param;
use pungi_code::{Atom, Var};
use pungi_resolved::{Place, Value as Node};
use pungi_types::ValueKind;
use pungi_types::operator::is_same_kind;

/// A variable as an atom.
pub fn atom(var: u32) -> Atom
    ensures { result ≡ var_atom var }
{
    Atom::Var(Var(var))
}

/// The variable of a level and a column.
pub fn temp_in(locals: u16, depth: u16, column: u8) -> u32
    ensures { result ≡ temp locals depth column }
{
    locals as u32 + 5 * (depth as u32) + column as u32
}

/// The variable of a value of this kind that has so many values below it.
pub fn temp(locals: u16, depth: u16, kind: ValueKind) -> u32
    ensures { result ≡ temp locals depth (column_of kind) }
{
    temp_in(locals, depth, column(kind))
}

/// The variable of the value of an expression.
pub fn temp_of(locals: u16, depth: u16, node: &Node) -> u32
    ensures { result ≡ temp_of locals depth (value_view node.now) }
{
    temp_in(locals, depth, value_column(node))
}

/// The column of an operand where one of the column `want` is wanted: `NULL` is a pointer of either kind.
pub fn fitting_column(want: u8, own: u8) -> u8
    ensures { result ≡ fitting_column want own }
{
    if want == 3 { 3 } else { own }
}

/// The variable of an operand where one of the column `want` is wanted.
pub fn operand(locals: u16, depth: u16, want: u8, node: &Node) -> u32
    ensures { result ≡ operand locals depth want (value_view node.now) }
{
    temp_in(locals, depth, fitting_column(want, value_column(node)))
}

/// The column that a parameter needs.
pub fn param_column(param: Param) -> u8
    ensures { result ≡ param_column param }
{
    match param {
        Param::Text | Param::TextOrNull => 3,
        _ => 4,
    }
}

/// The column that the first of these parameters needs.
pub fn front_column(params: &[Param]) -> u8
    ensures { result ≡ front_column params.now }
{
    match params {
        [] => 4,
        [param, ..] => param_column(*param),
    }
}

/// The parameters after the first.
pub fn tail(params: &[Param]) -> &[Param]
    ensures { result.now ≡ tail params.now }
{
    match params {
        [] => params,
        [_, rest @ ..] => rest,
    }
}

/// How many values wait below one that is stored to a place.
pub fn above(place: &Place, depth: u16) -> u16
    requires { depth + place_nodes (place_view place.now) < 2 ^ 16 }
    ensures above { result ≡ above (place_view place.now) depth }
    ensures low { result ≤ depth + place_nodes (place_view place.now) }
{
    match place {
        Place::Field(_, _, _, _) => depth + 1,
        _ => depth,
    }
}

/// The variable of the base of a field.
pub fn base_var(locals: u16, place: &Place, depth: u16) -> u32
    ensures { result ≡ base_var locals (place_view place.now) depth }
{
    match place {
        Place::Field(_, base, _, _) => temp_of(locals, depth, base),
        _ => 0,
    }
}

/// The variable that a value is stored from.
pub fn stored_var(locals: u16, place: &Place, depth: u16, kind: ValueKind) -> u32
    requires { depth + place_nodes (place_view place.now) < 2 ^ 16 }
    ensures { result ≡ stored_var locals (place_view place.now) depth kind }
{
    temp(locals, above(place, depth), kind)
}

/// The variable of a value before it is converted to the kind of its place.
pub fn counted_var(
    locals: u16,
    place: &Place,
    depth: u16,
    kind: ValueKind,
    counted: ValueKind,
) -> u32
    requires { depth + place_nodes (place_view place.now) < 2 ^ 16 }
    ensures { result ≡ counted_var locals (place_view place.now) depth kind counted }
{
    if is_same_kind(Some(kind), Some(counted)) {
        stored_var(locals, place, depth, kind)
    } else {
        temp(locals, above(place, depth), counted)
    }
}

/// The variable of what a sign stands before.
pub fn sign_var(minus: bool, to: u32, value: u32) -> u32
    ensures { result ≡ sign_var minus to value }
{
    if minus { value } else { to }
}

// How many instructions an expression takes. Each function returns the place after its part, which begins at `from`.
ghost use Rattle.std.specs.Prelude.{◌≡◌, ◌+◌, ◌≤◌, map};
ghost use Rattle.pungi_resolved.specs.ValueView.{value_view, values_of, place_view, optional_view};
ghost use Rattle.pungi_code.specs.Limits.{most_instructions};
ghost use Rattle.pungi_layout.specs.code.Sizes.{fit_size, expr_size, option_size, place_size, test_size, values_size};

use crate::expr::output_size::{after_outputs, after_unless_null};
use crate::expr::parts::is_minus;
use pungi_meaning::wide;
use pungi_resolved::{Place, Value as Node, ValueNode};
use pungi_types::ValueKind;
use pungi_types::operator::is_same_kind;

/// A conversion, where the kinds differ.
fn fit_size(to: ValueKind, from: ValueKind) -> u32
    ensures size { result ≡ fit_size to from }
    ensures low { result ≤ 1 }
{
    if is_same_kind(Some(to), Some(from)) {
        0
    } else {
        1
    }
}

/// A store, which leaves the stored value.
const STORE_SIZE: u32 = 2;

/// The base of a place.
#[cycle(sizes)]
fn after_place(from: u32, place: &Place) -> u32
    requires { from + place_size (place_view place.now) ≤ most_instructions }
    ensures { result ≡ from + place_size (place_view place.now) }
{
    match place {
        Place::Field(_, base, _, _) => after_value(from, base),
        _ => from,
    }
}

/// An expression.
#[cycle(sizes)]
pub fn after_value(from: u32, node: &Node) -> u32
    requires { from + expr_size (value_view node.now) ≤ most_instructions }
    ensures { result ≡ from + expr_size (value_view node.now) }
{
    match &node.node {
        ValueNode::Constant(_)
        | ValueNode::Text(_)
        | ValueNode::Null
        | ValueNode::Static(_)
        | ValueNode::Module(_) => from + 1,
        ValueNode::Read(_, place) => after_place(from + 1, place),
        ValueNode::Inner(part) | ValueNode::Cast(part) | ValueNode::Dropped(part) => {
            after_value(from, part)
        }
        ValueNode::Signed(mark, _, part) => {
            let own = if is_minus(*mark) { 1 } else { 0 };
            after_value(from + own, part)
        }
        ValueNode::Negated(part) => after_value(from + 3, part),
        ValueNode::Stepped(behind_it, _, kind, place) => {
            let keep = if *behind_it { 2 } else { 0 };
            let fit = fit_size(*kind, wide(*kind));
            after_place(from + keep + 2 + fit + STORE_SIZE, place)
        }
        ValueNode::Emptied(_, place) => after_place(from + 4 + STORE_SIZE, place),
        ValueNode::Computed(_, _, a, b) | ValueNode::Compared(_, a, b) => {
            after_value(after_value(from + 1, a), b)
        }
        ValueNode::Joined(_, a, b) => after_value(after_value(from + 4, a), b),
        ValueNode::Stored(_, place, part) => {
            after_value(after_place(from + STORE_SIZE, place), part)
        }
        ValueNode::Updated(_, counted, kind, place, part) => {
            let fit = fit_size(*kind, *counted);
            let own = from + 2 + fit + STORE_SIZE;
            after_value(after_place(own, place), part)
        }
        ValueNode::Chosen(c, a, b) => {
            let test = after_value(from + 2, c);
            after_value(after_value(test, a), b)
        }
        ValueNode::Converted(_, part) => after_value(from + 1, part),
        ValueNode::Called(_, args) | ValueNode::CalledRow(_, _, args) => {
            after_values(from + 1, args)
        }
        ValueNode::CalledUnlessNull(_, signature, args) => {
            after_values(after_unless_null(from, signature, args), args)
        }
        ValueNode::CalledWithOutputs(_, _, args, steps) => {
            after_values(after_outputs(from + 4, steps.as_slice()), args)
        }
    }
}

/// Arguments, one after another.
#[cycle(sizes)]
fn after_values(from: u32, args: &[Node]) -> u32
    requires { from + values_size (values_of (map value_view args.now)) ≤ most_instructions }
    ensures { result ≡ from + values_size (values_of (map value_view args.now)) }
{
    let mut place = from;
    for arg in args {
        place = after_value(place, arg);
    }
    place
}

/// An expression that may be missing.
pub fn after_option(from: u32, node: &Option<Box<Node>>) -> u32
    requires { from + option_size (optional_view node.now) ≤ most_instructions }
    ensures { result ≡ from + option_size (optional_view node.now) }
{
    match node {
        Some(node) => after_value(from, node),
        None => from,
    }
}

/// A test and the branch after it.
pub fn after_test(from: u32, node: &Node) -> u32
    requires { from + expr_size (value_view node.now) + 1 ≤ most_instructions }
    ensures { result ≡ from + expr_size (value_view node.now) + 1 }
{
    after_value(from, node) + 1
}

/// The test of a loop, where there is one.
pub fn after_tested(from: u32, node: &Option<Box<Node>>) -> u32
    requires { from + test_size (optional_view node.now) ≤ most_instructions }
    ensures { result ≡ from + test_size (optional_view node.now) }
{
    match node {
        Some(node) => after_test(from, node),
        None => from,
    }
}

// Where the text of an expression begins.
ghost use Rattle.std.specs.Prelude.{◌≡◌};
ghost use Rattle.pungi_resolved.specs.ValueView.{value_view, place_view};
ghost use Rattle.pungi_layout.specs.code.FirstTokens.{first_token, place_token};

use pungi_base::Pos;
use pungi_resolved::{Place, Value as Node, ValueNode};

/// The first token of a place: with `->`, that of its base.
#[cycle(tokens)]
fn place_token(place: &Place) -> Pos
    ensures { result ≡ place_token (place_view place.now) }
{
    match place {
        Place::Local(pos, _) | Place::Global(pos, _) => *pos,
        Place::Field(_, base, _, _) => first_token(base),
    }
}

/// The first token of an expression, which stands at an operator where one is between or after its operands.
#[cycle(tokens)]
pub fn first_token(node: &Node) -> Pos
    ensures { result ≡ first_token (value_view node.now) }
{
    match &node.node {
        ValueNode::Read(_, place)
        | ValueNode::Emptied(_, place)
        | ValueNode::Stored(_, place, _)
        | ValueNode::Updated(_, _, _, place, _) => place_token(place),
        ValueNode::Stepped(behind_it, _, _, place) => {
            if *behind_it {
                place_token(place)
            } else {
                node.pos
            }
        }
        ValueNode::Computed(_, _, left, _)
        | ValueNode::Compared(_, left, _)
        | ValueNode::Joined(_, left, _)
        | ValueNode::Chosen(left, _, _) => first_token(left),
        _ => node.pos,
    }
}

// The variables after the locals.
ghost use Rattle.std.specs.Prelude.{◌≡◌, ◌<◌};
ghost use Rattle.pungi_resolved.specs.ValueView.{value_view};
ghost use Rattle.pungi_layout.specs.code.Temporaries.{column as column_of, local_column, joined_column};
ghost use Rattle.pungi_layout.specs.code.Temporaries.{answer_column, call_column, value_column};

use pungi_api::{Answer, CallAnswer};
use pungi_meaning::fits;
use pungi_resolved::{Value as Node, ValueNode};
use pungi_types::ValueKind;

/// Which of five variables a value of this kind has.
pub fn column(kind: ValueKind) -> u8
    ensures column { result ≡ column_of kind }
    ensures low { result < 5 }
{
    match kind {
        ValueKind::Int => 0,
        ValueKind::Long => 1,
        ValueKind::Size => 2,
        ValueKind::Text => 3,
        _ => 4,
    }
}

/// The column that a local of this kind needs, and a result.
pub fn local_column(kind: Option<ValueKind>) -> u8
    ensures column { result ≡ local_column kind }
    ensures low { result < 5 }
{
    match kind {
        Some(kind) => column(kind),
        None => 4,
    }
}

fn joined_column(a: u8, b: u8) -> u8
    requires left { a < 5 }
    requires right { b < 5 }
    ensures column { result ≡ joined_column a b }
    ensures low { result < 5 }
{
    if a <= 2 && b <= 2 {
        if a + b == 0 { 0 } else { 1 }
    } else if a <= b {
        a
    } else {
        b
    }
}

fn answer_column(answer: Answer) -> u8
    ensures column { result ≡ answer_column answer }
    ensures low { result < 5 }
{
    match answer {
        Answer::Status
        | Answer::Truth
        | Answer::Int
        | Answer::Found
        | Answer::Converted { .. }
        | Answer::Flag => 0,
        Answer::Long => 1,
        Answer::Size | Answer::AnySize => 2,
        Answer::Text | Answer::TextSure => 3,
        _ => 4,
    }
}

fn call_column(answer: CallAnswer) -> u8
    ensures column { result ≡ call_column answer }
    ensures low { result < 5 }
{
    match answer {
        CallAnswer::Of(answer) => answer_column(answer),
        CallAnswer::Argument => 4,
    }
}

/// Which of five variables the value of an expression has.
pub fn value_column(node: &Node) -> u8
    ensures column { result ≡ value_column (value_view node.now) }
    ensures low { result < 5 }
{
    match &node.node {
        ValueNode::Constant(n) => { if fits(ValueKind::Int, *n) { 0 } else { 1 } }
        ValueNode::Text(_) | ValueNode::Module(_) => 3,
        ValueNode::Null | ValueNode::Static(_) => 4,
        ValueNode::Read(kind, _) => column(*kind),
        ValueNode::Inner(part) => value_column(part),
        ValueNode::Signed(_, kind, _) => column(*kind),
        ValueNode::Negated(_) => 0,
        ValueNode::Stepped(_, _, kind, _) => column(*kind),
        ValueNode::Emptied(kind, _) => column(*kind),
        ValueNode::Computed(_, kind, _, _) => column(*kind),
        ValueNode::Compared(_, _, _) => 0,
        ValueNode::Joined(_, _, _) => 0,
        ValueNode::Stored(kind, _, _) => column(*kind),
        ValueNode::Updated(_, _, kind, _, _) => column(*kind),
        ValueNode::Chosen(_, a, b) => joined_column(value_column(a), value_column(b)),
        ValueNode::Converted(kind, _) => column(*kind),
        ValueNode::Cast(part) => value_column(part),
        ValueNode::Dropped(part) => value_column(part),
        ValueNode::Called(f, _) => local_column(f.result),
        ValueNode::CalledRow(_, signature, _) | ValueNode::CalledUnlessNull(_, signature, _) => {
            call_column(signature.get().answer)
        }
        ValueNode::CalledWithOutputs(_, _, _, _) => 0,
    }
}

// How many levels of temporaries a statement takes.
ghost use Rattle.std.specs.Prelude.{◌≡◌, ◌+◌, ◌≤◌, map};
ghost use Rattle.pungi_code.specs.Limits.{most_variables};
ghost use Rattle.pungi_resolved.specs.ActionView.{declared_view, action_view, actions_of};
ghost use Rattle.pungi_resolved.specs.ValueView.{value_view, values_of, place_view, optional_view};
ghost use Rattle.pungi_layout.specs.code.Levels.{expr_levels, place_levels, values_levels, option_levels};
ghost use Rattle.pungi_layout.specs.code.Levels.{declare_levels, stmt_levels, stmts_levels};
ghost use Rattle.pungi_layout.specs.code.Sizes.{keep_size};
ghost use Rattle.pungi_layout.specs.code.Sound.{expr_nodes, place_nodes, values_nodes, option_nodes, declare_nodes};
ghost use Rattle.pungi_layout.specs.code.Sound.{stmt_nodes, stmts_nodes};

use pungi_resolved::{Action, ActionNode, DeclaredLocal, Place, Value as Node, ValueNode};

fn keep_size(is_postfix: bool) -> u32
    ensures { result ≡ keep_size is_postfix }
{
    if is_postfix { 1 } else { 0 }
}

#[cycle(levels)]
fn place_levels(place: &Place, n: u32) -> u32
    requires { place_nodes (place_view place.now) + n ≤ most_variables }
    ensures levels { result ≡ place_levels (place_view place.now) n }
    ensures some { n ≤ result }
    ensures few { result + 1 ≤ place_nodes (place_view place.now) + n }
{
    match place {
        Place::Field(_, base, _, _) => expr_levels(base).max(n + 1),
        _ => n,
    }
}

#[cycle(levels)]
fn expr_levels(node: &Node) -> u32
    requires { expr_nodes (value_view node.now) ≤ most_variables }
    ensures levels { result ≡ expr_levels (value_view node.now) }
    ensures some { 1 ≤ result }
    ensures few { result ≤ expr_nodes (value_view node.now) }
{
    match &node.node {
        ValueNode::Constant(_)
        | ValueNode::Text(_)
        | ValueNode::Null
        | ValueNode::Static(_)
        | ValueNode::Module(_) => 1,
        ValueNode::Read(_, place) => place_levels(place, 1),
        ValueNode::Stepped(is_postfix, _, _, place) => {
            place_levels(place, 1) + keep_size(*is_postfix)
        }
        ValueNode::Emptied(_, place) => place_levels(place, 1) + 1,
        ValueNode::Inner(part)
        | ValueNode::Cast(part)
        | ValueNode::Dropped(part)
        | ValueNode::Signed(_, _, part)
        | ValueNode::Converted(_, part) => expr_levels(part),
        ValueNode::Negated(part) => expr_levels(part) + 1,
        ValueNode::Computed(_, _, a, b) | ValueNode::Compared(_, a, b) => {
            expr_levels(a).max(expr_levels(b) + 1)
        }
        ValueNode::Joined(_, a, b) => expr_levels(a).max(expr_levels(b)) + 1,
        ValueNode::Stored(_, place, part) => place_levels(place, expr_levels(part)),
        ValueNode::Updated(_, _, _, place, part) => place_levels(place, expr_levels(part) + 1),
        ValueNode::Chosen(c, a, b) => expr_levels(c).max(expr_levels(a).max(expr_levels(b))),
        ValueNode::Called(_, args)
        | ValueNode::CalledRow(_, _, args)
        | ValueNode::CalledUnlessNull(_, _, args) => values_levels(args).max(1),
        ValueNode::CalledWithOutputs(_, _, args, _) => values_levels(args).max(2),
    }
}

#[cycle(levels)]
fn values_levels(args: &[Node]) -> u32
    requires { values_nodes (values_of (map value_view args.now)) ≤ most_variables }
    ensures levels { result ≡ values_levels (values_of (map value_view args.now)) }
    ensures few { result ≤ values_nodes (values_of (map value_view args.now)) }
{
    let mut most = 0;
    let mut below = 0;
    for arg in args {
        most = most.max(below + expr_levels(arg));
        below += 1;
    }
    most
}

fn option_levels(node: &Option<Box<Node>>) -> u32
    requires { option_nodes (optional_view node.now) ≤ most_variables }
    ensures { result ≡ option_levels (optional_view node.now) }
{
    match node {
        Some(node) => expr_levels(node),
        None => 0,
    }
}

fn declare_levels(list: &[DeclaredLocal]) -> u32
    requires { declare_nodes (map declared_view list.now) ≤ most_variables }
    ensures { result ≡ declare_levels (map declared_view list.now) }
{
    let mut most = 0;
    for reached in list {
        most = most.max(option_levels(&reached.value));
    }
    most
}

/// How many levels of temporaries a statement takes.
#[cycle(stmt_levels)]
pub fn stmt_levels(action: &Action) -> u32
    requires { stmt_nodes (action_view action.now) ≤ most_variables }
    ensures { result ≡ stmt_levels (action_view action.now) }
{
    match &action.node {
        ActionNode::Block(list, _) => stmts_levels(list),
        ActionNode::Declare(list) => declare_levels(list),
        ActionNode::Do(node) | ActionNode::Return(_, node) => option_levels(node),
        ActionNode::If(c, a) | ActionNode::While(c, a) | ActionNode::DoWhile(a, c) => {
            expr_levels(c).max(stmt_levels(a))
        }
        ActionNode::Switch(c, a) => expr_levels(c).max(2).max(stmt_levels(a)),
        ActionNode::IfElse(c, a, b) => expr_levels(c).max(stmt_levels(a).max(stmt_levels(b))),
        ActionNode::For(list, u, c, w, a) => {
            let around = option_levels(c).max(option_levels(w).max(stmt_levels(a)));
            declare_levels(list).max(option_levels(u).max(around))
        }
        ActionNode::Case(_, a) | ActionNode::Default(a) | ActionNode::Label(_, a) => stmt_levels(a),
        ActionNode::Goto(_) | ActionNode::Break | ActionNode::Continue => 0,
    }
}

#[cycle(stmt_levels)]
fn stmts_levels(list: &[Action]) -> u32
    requires { stmts_nodes (actions_of (map action_view list.now)) ≤ most_variables }
    ensures { result ≡ stmts_levels (actions_of (map action_view list.now)) }
{
    let mut most = 0;
    for action in list {
        most = most.max(stmt_levels(action));
    }
    most
}

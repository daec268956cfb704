// What numbers begin with.
ghost use Rattle.std.specs.Prelude.{◌≡◌};
ghost use Rattle.pungi_symbol.specs.states.Terms.{is_zero_node, is_same_node, is_computed};

/// What a sum or a bound of numbers begins with.
#[derive(Clone, Copy)]
pub enum Node {
    /// The number 0.
    Zero,
    /// The number that this token stands for.
    Token(usize),
    /// The result of this computation, counted along the path.
    Computed(usize),
}

pub fn is_zero_node(node: Node) -> bool
    ensures { result ≡ is_zero_node node }
{
    match node {
        Node::Zero => true,
        Node::Token(_) => false,
        Node::Computed(_) => false,
    }
}

pub fn is_same_node(a: Node, b: Node) -> bool
    ensures { result ≡ is_same_node a b }
{
    match a {
        Node::Zero => is_zero_node(b),
        Node::Token(t) => match b {
            Node::Zero => false,
            Node::Token(u) => t == u,
            Node::Computed(_) => false,
        },
        Node::Computed(i) => match b {
            Node::Zero => false,
            Node::Token(_) => false,
            Node::Computed(j) => i == j,
        },
    }
}

/// Whether it is the result of a computation that is no sum.
pub fn is_computed(node: Node) -> bool
    ensures { result ≡ is_computed node }
{
    match node {
        Node::Zero => false,
        Node::Token(_) => false,
        Node::Computed(_) => true,
    }
}

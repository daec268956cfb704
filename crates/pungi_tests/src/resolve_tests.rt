use crate::source::function_of;
use pungi_base::Name;
use pungi_base::words::WORDS;
use pungi_resolved::{Action, ActionNode, Function};
use std::alloc::Global;
use std::test::Fail;

fn is_empty_block(action: &Action) -> bool {
    match &action.node {
        ActionNode::Block(list, _) => list.is_empty(),
        _ => false,
    }
}

/// Whether a function has the first word of its text as its name, takes and holds nothing, and does nothing.
fn is_empty(f: &Function) -> bool {
    f.name == Name(WORDS) && f.params.is_empty() && f.locals == 0 && is_empty_block(&f.body)
}

/// Whether the function of a text is resolved, to an empty one or another.
fn resolves(alloc: Global, text: &str, empty: bool) -> Result<bool, Fail> {
    let f = function_of(alloc, text)?;
    Ok(is_empty(&f) == empty)
}

/// Functions in which no rule holds, and whether they are empty. A `case` may have any constant of its kind.
const RESOLVED: &[(&str, bool)] = &[
    ("void f(void) { }", true),
    ("void f(void) { switch (0L) { case 0L: ; } }", false),
    ("void f(void) { switch (0L) { case 1L: ; } }", false),
    (
        "void f(void) { switch (0L) { case 9223372036854775807L: ; } }",
        false,
    ),
];

#[test]
fn what_is_not_refused_is_resolved(rt: HostRuntime) -> Result<(), Fail> {
    for (text, empty) in RESOLVED {
        assert!(rt; resolves(rt.alloc(), text, *empty)?, "at {text}");
    }
    Ok(())
}

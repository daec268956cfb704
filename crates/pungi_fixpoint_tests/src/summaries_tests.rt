ghost use Rattle.std.specs.Prelude.{◌<◌, ◌≡◌, length, IfOk};

use pungi_base::Memory;
use pungi_domain::{Domain, Flat};
use pungi_fixpoint::{State, Summaries};
use std::alloc::Global;

/// Summaries of one function.
fn one(alloc: Global) -> Result<Summaries<Flat>, Memory>
    ensures exits { IfOk result (λ s. length s.exits ≡ 1) }
    ensures states { IfOk result (λ s. length s.states ≡ 1) }
{
    Summaries::empty(alloc, 1)
}

#[test]
fn an_exit_is_put(rt: HostRuntime) {
    let Ok(mut summaries) = one(rt.alloc()) else {
        panic!(rt; "memory");
    };
    assert!(rt; summaries.exit(0, 0).is_none());
    let Ok(exit) = Flat::any(rt.alloc(), 2) else {
        panic!(rt; "memory");
    };
    assert!(rt; summaries.put(0, 2, exit).is_ok());
    assert!(rt; summaries.exit(0, 0).is_none());
    assert!(rt; summaries.exit(0, 2).is_some());
    assert!(rt; summaries.exit(1, 2).is_none());
}

#[test]
fn a_state_is_marked(rt: HostRuntime) {
    let Ok(mut summaries) = one(rt.alloc()) else {
        panic!(rt; "memory");
    };
    assert!(rt; matches!(summaries.state(0), State::NotSafe(0)));
    summaries.mark(0, State::Safe);
    assert!(rt; matches!(summaries.state(0), State::Safe));
}

ghost use Rattle.std.specs.Prelude.{◌≡◌, ◌<◌, length};

use pungi_links::{Chains, Pending};

fn join(rt: &impl std::process::Abort, chains: &mut Chains, a: u32, b: u32)
    requires { (a < length chains.old) × (b < length chains.old) }
    ensures { length chains.new ≡ length chains.old }
{
    assert!(rt; !chains.same(a, b));
    chains.splice(a, b);
}

#[test]
fn rings_are_spliced(rt: HostRuntime) {
    let Ok(mut chains) = Chains::alone(rt.alloc(), 5) else {
        panic!(rt; "memory");
    };
    join(&rt, &mut chains, 0, 1);
    join(&rt, &mut chains, 0, 3);
    let Ok(members) = chains.members(rt.alloc(), 0) else {
        panic!(rt; "memory");
    };
    assert!(rt; members.as_slice() == [0, 1, 3].as_slice());
    assert_eq!(rt; chains.next(3), 0);
    assert!(rt; chains.same(1, 3));
    assert!(rt; !chains.same(1, 4));
}

#[test]
fn a_member_is_taken_out(rt: HostRuntime) {
    let Ok(mut chains) = Chains::alone(rt.alloc(), 4) else {
        panic!(rt; "memory");
    };
    join(&rt, &mut chains, 0, 2);
    let Ok(copied) = chains.copy(rt.alloc(), 4) else {
        panic!(rt; "memory");
    };
    chains.take_out(0);
    for (rings, member, want) in [
        (&copied, 0, [0, 2].as_slice()),
        (&copied, 1, [1].as_slice()),
        (&chains, 2, [2].as_slice()),
        (&chains, 0, [0].as_slice()),
    ] {
        let Ok(members) = rings.members(rt.alloc(), member) else {
            panic!(rt; "memory");
        };
        assert!(rt; members.as_slice() == want, "ring of {member}");
    }
}

#[test]
fn a_number_waits_once(rt: HostRuntime) {
    let Ok(mut pending) = Pending::new(rt.alloc(), 3) else {
        panic!(rt; "memory");
    };
    assert!(rt; pending.put(1));
    assert!(rt; !pending.put(1));
    assert!(rt; pending.put(0));
    assert!(rt; pending.take() == Some(1));
    assert!(rt; pending.take() == Some(0));
    assert!(rt; pending.take() == None);
    assert!(rt; pending.put(2));
    assert!(rt; pending.take() == Some(2));
}

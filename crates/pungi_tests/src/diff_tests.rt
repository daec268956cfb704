use pungi_diff::{Bounds, Constraint};

#[test]
fn a_refusal_shows_its_cycle(rt: HostRuntime) {
    let Ok(mut bounds) = Bounds::new(rt.alloc(), 3, 4) else {
        panic!(rt; "memory");
    };
    assert!(rt; bounds.cycle().is_empty());
    let first = bounds.add(1, 0, 5);
    assert!(rt; first.is_ok());
    let second = bounds.add(0, 1, -6);
    assert!(rt; second.is_err());
    let round = [
        Constraint { x: 1, y: 0, c: 5 },
        Constraint { x: 0, y: 1, c: -6 },
    ];
    assert!(rt; bounds.cycle() == round.as_slice());

    let Ok(values) = bounds.model(rt.alloc()) else {
        panic!(rt; "memory");
    };
    assert!(rt; values.len() == 3 && values[0] == 0 && values[1] <= 5);

    let Ok(mut copied) = bounds.copy(rt.alloc(), 3, 4) else {
        panic!(rt; "memory");
    };
    assert!(rt; copied.cycle().is_empty());
    let third = copied.add(0, 1, -5);
    assert!(rt; third.is_ok());
    let Ok(values) = copied.model(rt.alloc()) else {
        panic!(rt; "memory");
    };
    assert!(rt; values.len() == 3 && values[0] == 0 && values[1] == 5);
}

#[test]
fn a_constraint_on_itself(rt: HostRuntime) {
    let Ok(mut bounds) = Bounds::new(rt.alloc(), 1, 2) else {
        panic!(rt; "memory");
    };
    let alone = bounds.add(0, 0, -1);
    assert!(rt; alone.is_err());
    let round = [Constraint { x: 0, y: 0, c: -1 }];
    assert!(rt; bounds.cycle() == round.as_slice());
    let met = bounds.add(0, 0, 0);
    assert!(rt; met.is_ok());
    assert!(rt; bounds.cycle() == round.as_slice());
}

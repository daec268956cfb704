use pungi_api::Terms;
use pungi_base::{Entry, Memory, Seq, Value};
use pungi_world::World;
use std::alloc::Global;

fn entry(alloc: Global, objects: u32) -> Entry {
    Entry {
        objects,
        args: Seq::new(Vec::new(alloc)),
    }
}

/// Returning `Py_None`, object 0, with no reference of one's own escapes a reference that no count shows.
#[test]
fn a_static_that_is_returned(rt: HostRuntime) -> Result<(), Memory> {
    let alloc = rt.alloc();
    let entry = entry(alloc, 24);
    let world = World::start(alloc, &entry)?;
    assert_eq!(rt; world.accounts.len(), 24);
    assert_eq!(rt; world.slots.len(), 0);
    let terms = Terms::manual(alloc);
    let none = Some(Value::Object(0));
    assert_eq!(rt; world.escaped(&terms, &entry, 0, none), 1);
    assert_eq!(rt; world.escaped(&terms, &entry, 1, none), 0);
    assert_eq!(rt; world.unbalanced(&terms, &entry, none), Some(0));
    assert_eq!(rt; world.unbalanced(&terms, &entry, None), None);
    assert_eq!(rt; world.unbalanced(&terms, &entry, Some(Value::Null)), None);
    Ok(())
}

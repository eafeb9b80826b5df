//! A store filled, looked up and written, against values that are written here.

use crate::{AddFault, Store};
use ot_units::Name;
use std::alloc::Global;
use std::test::Fail;

fn name(alloc: Global, text: &str) -> Result<Name, Fail> {
    Ok(Name::read(alloc, text)?.ok_or("a name")?)
}

#[test]
fn values_are_found_by_name_and_by_number(rt: HostRuntime) -> Result<(), Fail> {
    let alloc = rt.alloc();
    let mut store: Store<u32> = Store::new(alloc);
    assert_eq!(rt; store.find(&name(alloc, "a")?), None);
    assert_eq!(rt; store.add(name(alloc, "a")?, 7), Ok(0));
    assert_eq!(rt; store.add(name(alloc, "b")?, 8), Ok(1));
    assert_eq!(rt; store.add(name(alloc, "a")?, 9), Err(AddFault::Exists(0)));
    assert_eq!(rt; store.len(), 2);
    assert_eq!(rt; store.find(&name(alloc, "b")?), Some(1));
    if let Some(value) = store.get_mut(1) {
        *value = 5;
    }
    assert_eq!(rt; store.get(0), Some(&7));
    assert_eq!(rt; store.get(1), Some(&5));
    assert_eq!(rt; store.get(2), None);
    Ok(())
}

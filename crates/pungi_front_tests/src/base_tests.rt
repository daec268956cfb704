use pungi_base::words::{PY_NONE, WORDS};
use pungi_base::{Memory, Name, Names, Seq};
use std::alloc::Global;
use std::test::Fail;

/// Texts in the order in which they come, with their numbers.
const NUMBERED: &[(&str, u32)] = &[("self", 0), ("args", 1), ("self", 0), ("", 2), ("args", 1)];

fn is_numbered(alloc: Global, names: &mut Names, text: &str, number: u32) -> Result<bool, Fail> {
    if names.len() > 8 {
        return Ok(false);
    }
    Ok(names.number(alloc, text.as_bytes())? == Name(number))
}

fn are_numbered(alloc: Global, names: &mut Names) -> Result<bool, Fail> {
    for (text, number) in NUMBERED {
        if !is_numbered(alloc, names, text, *number)? {
            return Ok(false);
        }
    }
    Ok(true)
}

/// Whether the three texts are kept.
fn are_kept(names: &Names) -> bool {
    if names.len() != 3 {
        return false;
    }
    names.find(b"args") == Some(Name(1))
        && names.find(b"arg") == None
        && names.text(Name(0)) == b"self".as_slice()
}

fn keep_their_numbers(alloc: Global, names: &mut Names) -> Result<bool, Fail> {
    Ok(are_numbered(alloc, names)? && are_kept(names))
}

#[test]
fn texts_keep_their_numbers(rt: HostRuntime) -> Result<(), Fail> {
    let mut names = Names::new(rt.alloc());
    assert!(rt; keep_their_numbers(rt.alloc(), &mut names)?);
    Ok(())
}

/// The first word, the last keyword and an object.
const FOUND: &[(&str, u32)] = &[("int", 0), ("NULL", 33), ("Py_None", PY_NONE)];

fn are_found(names: &Names) -> bool {
    for (text, number) in FOUND {
        if names.find(text.as_bytes()) != Some(Name(*number)) {
            return false;
        }
    }
    names.len() == WORDS as usize
}

#[test]
fn words_are_found(rt: HostRuntime) -> Result<(), Fail> {
    let names = Names::builtin(rt.alloc())?;
    assert!(rt; are_found(&names));
    Ok(())
}

#[test]
fn lists_are_changed(rt: HostRuntime) -> Result<(), Memory> {
    let mut list = Seq::new(vec![in rt.alloc(); 1u32, 2]?);
    list.set(0, 3);
    assert_eq!(rt; list.pop(), Some(2));
    assert!(rt; list.into_items().as_slice() == [3].as_slice());
    Ok(())
}

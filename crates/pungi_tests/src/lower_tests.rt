//! Functions that are lowered.

use crate::source::{SUM, codes_of, function_of};
use pungi_base::words::WORDS;
use pungi_base::{Entry, Memory, Name, Seq, Value};
use pungi_code::{Code, Codes, code_run};
use pungi_meaning::{Outcome, run};
use pungi_resolved::Function;
use std::alloc::{AllocError, Global};
use std::test::Fail;

/// The heads of loops, the parameters and the locals of the code of a text's function.
fn sizes(alloc: Global, text: &str) -> Result<(usize, u32, u32), Fail> {
    let codes = codes_of(alloc, text)?;
    match codes.codes.as_slice() {
        [Some(code)] => Ok((code.heads.len(), code.params, code.locals)),
        _ => Err(Fail::new("there is no code, or more than one")),
    }
}

/// So many loops in one another.
fn deep(alloc: Global, loops: u32) -> Result<String, AllocError> {
    let mut text = String::from_str(alloc, "int f(int n) { int s = 0; ")?;
    for _ in 0..loops {
        text.push_str("while (n) ")?;
    }
    text.push_str("s = s + n; return s; }")?;
    Ok(text)
}

#[test]
fn loops_have_heads(rt: HostRuntime) -> Result<(), Fail> {
    assert_eq!(rt; sizes(rt.alloc(), SUM)?, (1, 1, 2));
    let deep = deep(rt.alloc(), 200)?;
    assert_eq!(rt; sizes(rt.alloc(), deep.as_str())?, (200, 1, 2));
    Ok(())
}

/// How a run ends: the number that it returns and the column of its `return`, or that it used up its steps.
#[derive(Clone, Copy, PartialEq)]
pub(crate) enum Ending {
    Returns(i64, u32),
    Spent,
    Else,
}

pub(crate) fn ending_of(outcome: &Outcome) -> Ending {
    match outcome {
        Outcome::Returned {
            value: Some(Value::Int(n)),
            pos,
            ..
        } => Ending::Returns(*n, pos.col),
        Outcome::OutOfFuel => Ending::Spent,
        _ => Ending::Else,
    }
}

pub(crate) fn entry(alloc: Global, n: i64) -> Result<Entry, AllocError> {
    Ok(Entry {
        objects: 24,
        args: Seq::new(vec![in alloc; Value::Int(n)]?),
    })
}

fn ending_of_run(alloc: Global, f: &Function, n: i64) -> Result<Ending, Memory> {
    let entry = entry(alloc, n)?;
    let outcome = run(alloc, &[], f, &entry, &[], 1000)?;
    Ok(ending_of(&outcome))
}

fn ending_of_code(alloc: Global, codes: &Codes, n: i64) -> Result<Ending, Memory> {
    let entry = entry(alloc, n)?;
    let outcome = code_run(alloc, codes, 0, &entry, &[], 1000)?;
    Ok(ending_of(&outcome))
}

/// How a run of a text's one function from a number ends.
fn ending_of_function(alloc: Global, text: &str, n: i64) -> Result<Ending, Fail> {
    let f = function_of(alloc, text)?;
    Ok(ending_of_run(alloc, &f, n)?)
}

/// How a run of its code ends.
fn ending_of_lowered(alloc: Global, text: &str, n: i64) -> Result<Ending, Fail> {
    let codes = codes_of(alloc, text)?;
    Ok(ending_of_code(alloc, &codes, n)?)
}

/// Each kind of statement.
const MIXED: &str = concat!(
    "int f(int n) { int s = 0;",
    " outer: do { s = s + n; if (n) break; else continue; } while (n);",
    " for (; n; n) { n = n - 1; if (n) { inner: s = s + n; goto outer; } continue; }",
    " switch (n) { case 1: s = s + n; case 2: break; last: default: n = n - 1; }",
    " switch (n) s = s + n;",
    " return s; }",
);

/// Texts, the number that their function is entered with, and how its run and that of its code end.
const RUNS: &[(&str, i64, Ending)] = &[
    (SUM, 3, Ending::Returns(6, 63)),
    (SUM, -1, Ending::Spent),
    (MIXED, 0, Ending::Returns(0, 268)),
    (MIXED, 1, Ending::Returns(1, 268)),
    (MIXED, 2, Ending::Returns(4, 268)),
    (MIXED, 3, Ending::Returns(9, 268)),
    (MIXED, 4, Ending::Returns(16, 268)),
];

#[test]
fn functions_and_their_codes_run_alike(rt: HostRuntime) -> Result<(), Fail> {
    for (text, n, ending) in RUNS {
        assert!(rt;
            ending_of_function(rt.alloc(), text, *n)? == *ending,
            "{text} from {n}"
        );
        assert!(rt;
            ending_of_lowered(rt.alloc(), text, *n)? == *ending,
            "{text} from {n}"
        );
    }
    Ok(())
}

/// An empty function, one in which a rule holds, and one that keeps a reference.
const FILE: &str =
    "void fa(void) { } void fb(void) { break; } void fc(PyObject *x) { Py_INCREF(x); }";

/// An empty function has one instruction, which returns.
fn is_empty_code(code: &Option<Code>) -> bool {
    match code {
        Some(code) => code.instrs.len() == 1 && code.params == 0 && code.locals == 0,
        None => false,
    }
}

/// Whether the first function has an empty code, the second none, since a rule holds in it, and the third one.
fn are_lowered(codes: &[Option<Code>]) -> bool {
    match codes {
        [empty, refused, keeping] => is_empty_code(empty) && refused.is_none() && keeping.is_some(),
        _ => false,
    }
}

/// Whether the functions have the first words of the text as their names.
fn is_file(codes: &Codes) -> bool {
    are_lowered(codes.codes.as_slice())
        && codes.statics == 24
        && codes.names.as_slice() == [Name(WORDS), Name(WORDS + 1), Name(WORDS + 2)].as_slice()
}

#[test]
fn a_file_is_lowered(rt: HostRuntime) -> Result<(), Fail> {
    let codes = codes_of(rt.alloc(), FILE)?;
    assert!(rt; is_file(&codes));
    Ok(())
}

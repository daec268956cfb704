//! What is found of small functions.
ghost use Rattle.pungi_code.specs.WellFormed.{AreWellFormed};
ghost use Rattle.pungi_symbol.specs.Promises.{HasImmortals};

use crate::source::codes_of;
use pungi_base::{Choice, Memory, Value, Witness};
use pungi_code::Codes;
use pungi_explore::{Explored, explore};
use std::alloc::Global;
use std::test::Fail;

/// What is found: nothing, a fault, one whose run has an argument of its own as its object and a call that fails, a
/// number that may be any, in this column, or a loop that is cut, in this column.
#[derive(Clone, Copy, Debug, PartialEq, Eq)]
enum Kind {
    AllBalanced,
    Leak,
    Fault,
    Number(u32),
    Cut(u32),
    TooMany,
}

/// The argument is an object of its own, and the call fails.
fn is_leak(run: &Witness) -> bool {
    run.input.objects == 26
        && run.input.args.as_slice() == [Value::Object(24)].as_slice()
        && run.choices.as_slice() == [Choice::Null].as_slice()
}

fn kind_of(explored: &Explored) -> Kind {
    match explored {
        Explored::AllBalanced => Kind::AllBalanced,
        Explored::Fault(run) => {
            if is_leak(run) {
                Kind::Leak
            } else {
                Kind::Fault
            }
        }
        Explored::NumberSeen(pos) => Kind::Number(pos.col),
        Explored::Cut(pos) => Kind::Cut(pos.col),
        Explored::TooMany => Kind::TooMany,
    }
}

fn kind_among(alloc: Global, codes: &Codes) -> Result<Kind, Memory>
    requires formed { AreWellFormed codes.now }
    requires immortals { HasImmortals codes.now 0 }
{
    let explored = explore(alloc, codes, 0)?;
    Ok(kind_of(&explored))
}

fn kind_found(alloc: Global, text: &str) -> Result<Kind, Fail> {
    let codes = codes_of(alloc, text)?;
    Ok(kind_among(alloc, &codes)?)
}

/// Functions, and what is found of them.
const FOUND: &[(&str, Kind)] = &[
    (
        "PyObject *f(PyObject *x) { PyObject *y = PyDict_New(); if (y == NULL) return NULL; return y; }",
        Kind::AllBalanced,
    ),
    (
        "PyObject *f(PyObject *x) { PyObject *y = PyDict_New(); if (y == NULL) { Py_XINCREF(x); return NULL; } return y; }",
        Kind::Leak,
    ),
    (
        "int f(PyObject *x, int n) { if (n < 0) return n * n; return n / 3; }",
        Kind::AllBalanced,
    ),
    (
        "void f(PyObject *x, int n) { if (n < 0) { n = n * n; } else { Py_XINCREF(x); } }",
        Kind::Fault,
    ),
    // No run is in the inner branch.
    (
        "void f(PyObject *x, int n) { if (n < 0) { if (n > 0) Py_XINCREF(x); } }",
        Kind::AllBalanced,
    ),
    (
        "void f(PyObject *x, int n) { int k = n * n; if (k < 0) { if (k > 0) Py_XINCREF(x); } }",
        Kind::AllBalanced,
    ),
    ("int f(int n) { return n * 2; }", Kind::AllBalanced),
    // A run is tried in which n is 0: its square isn't 7, and nothing is divided by it.
    (
        "void f(PyObject *x, int n) { if (n * n == 7) Py_INCREF(x); }",
        Kind::Number(40),
    ),
    (
        "void f(PyObject *x, int n) { int k = 7 / n; Py_INCREF(x); }",
        Kind::Number(40),
    ),
    // Here that run shows the fault.
    (
        "void f(PyObject *x, int n) { if (n * 2 == 0) Py_INCREF(x); }",
        Kind::Fault,
    ),
    (
        "void f(PyObject *x, int n, int m) { int k = n - m; Py_INCREF(x); }",
        Kind::Fault,
    ),
    // A fault in one turn of a loop, and one that takes two.
    (
        "void f(int n) { int i; PyObject *p; for (i = 0; i < n; i++) p = PyList_New(0); }",
        Kind::Fault,
    ),
    (
        "void f(int n) { int i; PyObject *p = NULL; for (i = 0; i < n; i++) p = PyList_New(0); Py_XDECREF(p); }",
        Kind::Cut(44),
    ),
    // A head is reached twice, and three times.
    (
        "void f(PyObject *x) { int i; for (i = 0; i < 1; i++) { Py_XINCREF(x); Py_XDECREF(x); } }",
        Kind::AllBalanced,
    ),
    (
        "void f(PyObject *x) { int i; for (i = 0; i < 2; i++) { Py_XINCREF(x); Py_XDECREF(x); } }",
        Kind::Cut(30),
    ),
    // The outer loop is never cut where both have the same bound.
    (
        "void f(int n) { int i; int j; for (i = 0; i < n; i++) for (j = 0; j < n; j++) ; }",
        Kind::Cut(55),
    ),
    (
        "void f(int n, int m) { int i; int j; for (i = 0; i < n; i++) for (j = 0; j < m; j++) ; }",
        Kind::Cut(38),
    ),
    ("void f(void) { for (;;) ; }", Kind::Cut(16)),
    (
        "void f(int n) { again: n = n - 1; if (n > 0) goto again; }",
        Kind::Cut(17),
    ),
    // A loop is cut before a number in the text, which matters to no balance in the first.
    (
        "int f(int n, int m) { while (n) n = n - 1; return m * m; }",
        Kind::Cut(23),
    ),
    (
        "void f(PyObject *x, int n, int m) { while (n) n = n - 1; if (m * m == 7) Py_INCREF(x); }",
        Kind::Number(68),
    ),
];

#[test]
fn what_is_found(rt: HostRuntime) -> Result<(), Fail> {
    for (text, kind) in FOUND {
        assert_eq!(rt; kind_found(rt.alloc(), text)?, *kind, "at {text}");
    }
    Ok(())
}

//! What the states of small functions show.

use crate::source::codes_of;
use pungi_base::{Memory, Witness};
use pungi_code::Codes;
use pungi_symbol::{Decision, Sym, SymEnd, end, is_balanced, solve, start, step, step_from};
use std::alloc::Global;
use std::test::Fail;

/// How many states return balanced, return unbalanced, and stop.
#[derive(Clone, Copy, Debug, PartialEq, Eq)]
struct Shown {
    even: u32,
    uneven: u32,
    stopped: u32,
}

const NOTHING: Shown = Shown {
    even: 0,
    uneven: 0,
    stopped: 0,
};

fn with_end(shown: Shown, codes: &Codes, state: &Sym) -> Shown {
    let Shown {
        even,
        uneven,
        stopped,
    } = shown;
    match end(state) {
        SymEnd::Going | SymEnd::Blocked(_, _) => shown,
        SymEnd::Stopped(_) => Shown {
            even,
            uneven,
            stopped: stopped.saturating_add(1),
        },
        SymEnd::Returned(_) => {
            if is_balanced(codes, state) {
                Shown {
                    even: even.saturating_add(1),
                    uneven,
                    stopped,
                }
            } else {
                Shown {
                    even,
                    uneven: uneven.saturating_add(1),
                    stopped,
                }
            }
        }
    }
}

/// Whether these are the same answers, of states that show the same.
fn agree(codes: &Codes, copies: &[(Decision, Sym)], moved: &[(Decision, Sym)]) -> bool {
    copies.len() == moved.len()
        && copies.iter().zip(moved.iter()).all(|(a, b)| a.0 == b.0
            && with_end(NOTHING, codes, &a.1) == with_end(NOTHING, codes, &b.1))
}

/// Adds the next states of a state, and returns whether they are the same as these.
fn add_same(
    codes: &Codes,
    copies: &[(Decision, Sym)],
    moved: Vec<(Decision, Sym)>,
    pending: &mut Vec<(Decision, Sym)>,
) -> Result<bool, Memory> {
    let same = agree(codes, copies, moved.as_slice());
    let mut moved = moved;
    pending.append(&mut moved)?;
    Ok(same)
}

/// Adds the next states of a state, and returns whether they are the same where it is used up and where not.
fn add_next(
    alloc: Global,
    codes: &Codes,
    state: Sym,
    pending: &mut Vec<(Decision, Sym)>,
) -> Result<bool, Memory> {
    let copies = step(alloc, codes, &state)?;
    let moved = step_from(alloc, codes, state)?;
    add_same(codes, copies.as_slice(), moved, pending)
}

/// What these states and all after them show, if the next states of each are the same where it is used up and where
/// not.
fn show_all(
    alloc: Global,
    codes: &Codes,
    pending: &mut Vec<(Decision, Sym)>,
) -> Result<Shown, Memory> {
    let mut shown = NOTHING;
    for _ in 0..1000 {
        let Some((_, state)) = pending.pop() else {
            return Ok(shown);
        };
        shown = with_end(shown, codes, &state);
        if !add_next(alloc, codes, state, pending)? {
            return Ok(NOTHING);
        }
    }
    Ok(NOTHING)
}

/// What all states of the one function show.
fn show(alloc: Global, codes: &Codes) -> Result<Shown, Memory> {
    let mut pending = start(alloc, codes, 0)?;
    show_all(alloc, codes, &mut pending)
}

fn text_shows(alloc: Global, text: &str) -> Result<Shown, Fail> {
    let codes = codes_of(alloc, text)?;
    Ok(show(alloc, &codes)?)
}

/// An object is put into a field, and the one that was there is given up.
const PUTS: &str =
    "typedef struct { PyObject_HEAD PyObject *first; } Box; void f(Box *self, PyObject *x) { PyObject *tmp = self->first; Py_INCREF(x); self->first = x; Py_XDECREF(tmp); }";

/// Functions, and how many of their states return balanced, return unbalanced, and stop.
const SHOWN: &[(&str, u32, u32, u32)] = &[
    // An argument leaks.
    (
        "PyObject *f(PyObject *l) { if (PyList_Append(l, PyLong_FromLong(1)) < 0) return NULL; Py_INCREF(l); return l; }",
        0,
        2,
        3,
    ),
    // An argument is taken over always, where the call succeeds, and never.
    (
        "int f(PyObject *l, PyObject *x) { Py_INCREF(x); if (PyList_SetItem(l, 0, x) < 0) { Py_DECREF(x); return -1; } return 0; }",
        1,
        1,
        2,
    ),
    (
        "int f(PyObject *l, PyObject *x) { Py_INCREF(x); if (PyList_SetItem(l, 0, x) < 0) { return -1; } return 0; }",
        2,
        0,
        2,
    ),
    (
        "int f(PyObject *m, PyObject *x) { Py_INCREF(x); if (PyModule_AddObject(m, \"x\", x) < 0) { Py_DECREF(x); return -1; } return 0; }",
        2,
        0,
        2,
    ),
    (
        "int f(PyObject *m, PyObject *x) { Py_INCREF(x); if (PyModule_AddObject(m, \"x\", x) < 0) { return -1; } return 0; }",
        1,
        1,
        2,
    ),
    (
        "int f(PyObject *l, PyObject *x) { Py_INCREF(x); if (PyList_Insert(l, 0, x) < 0) { return -1; } return 0; }",
        0,
        2,
        2,
    ),
    // A field is overwritten.
    (PUTS, 2, 0, 2),
    (
        "typedef struct { PyObject_HEAD PyObject *first; } Box; void f(Box *self, PyObject *x) { PyObject *tmp = self->first; Py_INCREF(x); self->first = x; }",
        1,
        1,
        2,
    ),
    // Objects are compared.
    (
        "void f(PyObject *x, PyObject *y) { if (x == y) { Py_INCREF(x); Py_DECREF(y); } }",
        4,
        0,
        1,
    ),
    (
        "void f(PyObject *x, PyObject *y) { if (x != y) { Py_INCREF(x); Py_DECREF(y); } }",
        2,
        1,
        2,
    ),
    ("int f(void) { return Py_None == Py_True; }", 1, 0, 0),
    // A number that is computed may be below its range, within it or above it, and less than 7, 7 or greater.
    ("int f(int n) { return n * 2; }", 1, 0, 2),
    (
        "void f(PyObject *x, int n) { if (n * n == 7) Py_INCREF(x); }",
        2,
        1,
        3,
    ),
    // A loop is left after one turn; after two turns the path isn't followed.
    (
        "void f(PyObject *x) { int i; for (i = 0; i < 1; i++) Py_INCREF(x); }",
        0,
        1,
        1,
    ),
    (
        "void f(PyObject *x) { int i; for (i = 0; i < 2; i++) Py_INCREF(x); }",
        0,
        0,
        1,
    ),
    // A field is reached through two bases.
    (
        "typedef struct { PyObject_HEAD PyObject *first; } Box; PyObject *f(Box *self, Box *other) { PyObject *y; self->first = NULL; y = other->first; Py_XINCREF(y); return y; }",
        3,
        3,
        3,
    ),
];

#[test]
fn states_of_functions(rt: HostRuntime) -> Result<(), Fail> {
    for (text, even, uneven, stopped) in SHOWN {
        let shown = text_shows(rt.alloc(), text)?;
        assert_eq!(rt; shown.even, *even, "at {text}");
        assert_eq!(rt; shown.uneven, *uneven, "at {text}");
        assert_eq!(rt; shown.stopped, *stopped, "at {text}");
    }
    Ok(())
}

/// The run of the last of the first states of a function.
fn first_run(alloc: Global, codes: &Codes) -> Result<Option<Witness>, Memory> {
    let states = start(alloc, codes, 0)?;
    match states.last() {
        Some((_, state)) => solve(alloc, codes, state),
        None => Ok(None),
    }
}

/// Whether so many objects are there where that run begins.
fn begins_with(alloc: Global, codes: &Codes, objects: u32) -> Result<bool, Memory> {
    let run = first_run(alloc, codes)?;
    match run {
        Some(witness) => Ok(witness.input.objects == objects),
        None => Ok(false),
    }
}

#[test]
fn a_state_has_a_run(rt: HostRuntime) -> Result<(), Fail> {
    let codes = codes_of(rt.alloc(), PUTS)?;
    assert!(rt; begins_with(rt.alloc(), &codes, 26)?);
    Ok(())
}

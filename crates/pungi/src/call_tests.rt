//! What is reported of functions that call others of their file. The places, changes and escapes were worked out by hand.

use crate::tests::is_told;
use std::test::Fail;

/// Files with their status and the first lines of their verdicts. The number of an object is K.
const CALLS: &[(&str, u8, &str)] = &[
    // A new reference is the caller's: it is given back, lost, or ignored.
    (
        concat!(
            "PyObject *made(void) { return PyList_New(0); }\n",
            "void f(void) { PyObject *p = made(); Py_XDECREF(p); }\n",
            "int g(void) { PyObject *p = made(); if (p == NULL) return -1; return 0; }\n",
            "void h(void) { made(); }\n",
        ),
        1,
        concat!(
            "clean made\n",
            "clean f\n",
            "faulty g 3:63 object K change 1 escaped 0\n",
            "faulty h 4:24 object K change 1 escaped 0\n",
        ),
    ),
    // A borrowed reference isn't.
    (
        concat!(
            "PyObject *item(PyObject *l) { return PyList_GetItem(l, 0); }\n",
            "void f(PyObject *l) { PyObject *p = item(l); Py_XDECREF(p); }\n",
            "PyObject *g(PyObject *l) { return Py_XNewRef(item(l)); }\n",
        ),
        1,
        concat!(
            "faulty item 1:31 object K change 0 escaped 1\n",
            "faulty f 2:61 object K change -1 escaped 0\n",
            "clean g\n",
        ),
    ),
    // An argument that is given back is taken over from the caller.
    (
        concat!(
            "void drop(PyObject *x) { Py_XDECREF(x); }\n",
            "void f(PyObject *x) { Py_XINCREF(x); drop(x); drop(PyList_New(0)); }\n",
            "void g(PyObject *x) { drop(x); }\n",
        ),
        1,
        concat!(
            "faulty drop 1:41 object K change -1 escaped 0\n",
            "clean f\n",
            "faulty g 3:32 object K change -1 escaped 0\n",
        ),
    ),
    // Where the second call fails what the first one made is lost.
    (
        concat!(
            "PyObject *made(void) { return PyList_New(0); }\n",
            "int f(void) { PyObject *a = made(); PyObject *b = made(); if (b == NULL) return -1; Py_XDECREF(a); Py_DECREF(b); return 0; }\n",
        ),
        1,
        concat!(
            "clean made\n",
            "faulty f 2:74 object K change 1 escaped 0\n",
        ),
    ),
    // In each turn `hold` takes n references and `loosen` gives n back; alone each is wrong by 1 where n is 1.
    (
        concat!(
            "void hold(PyObject *x, int n) { int i; for (i = 0; i != n; i++) Py_INCREF(x); }\n",
            "void loosen(PyObject *x, int n) { int i; for (i = 0; i != n; i++) Py_DECREF(x); }\n",
            "void f(PyObject *x, int n, int m) { int i; for (i = 0; i != m; i++) { hold(x, n); loosen(x, n); } }\n",
        ),
        1,
        concat!(
            "faulty hold 1:79 object K change 1 escaped 0\n",
            "faulty loosen 2:81 object K change -1 escaped 0\n",
            "clean f\n",
        ),
    ),
    // A negative n comes to the fault without a call; of the other runs none returns before the call that is left.
    (
        "int f(PyObject *x, int n) { if (n < 0) { Py_INCREF(x); return -1; } f(x, n); return 0; }\n",
        1,
        "faulty f 1:56 object K change 1 escaped 0\n",
    ),
    // A function that calls a refused one is refused at that call.
    (
        concat!(
            "int bits(int n) { return n & 1; }\n",
            "int f(int n) { return bits(n); }\n",
        ),
        2,
        concat!("refused bits 1:28 N2\n", "refused f 2:23 N9\n",),
    ),
    // The number of a failed call comes through; `sign` never gives 0.
    (
        concat!(
            "int put(PyObject *l) { PyObject *p = PyList_New(0); int r; if (p == NULL) return -1; r = PyList_Append(l, p); Py_DECREF(p); return r; }\n",
            "PyObject *f(PyObject *l) { PyObject *n = PyLong_FromLong(1); if (put(l) < 0) return NULL; return n; }\n",
            "int sign(int n) { return n < 0 ? -1 : 1; }\n",
            "void g(PyObject *x, int n) { if (sign(n) == 0) Py_INCREF(x); }\n",
        ),
        1,
        concat!(
            "clean put\n",
            "faulty f 2:78 object K change 1 escaped 0\n",
            "clean sign\n",
            "clean g\n",
        ),
    ),
    // `NULL` comes through.
    (
        concat!(
            "PyObject *same(PyObject *x) { if (x == NULL) return NULL; Py_INCREF(x); return x; }\n",
            "void f(PyObject *x) { if (same(NULL) != NULL) Py_INCREF(x); }\n",
        ),
        0,
        concat!("clean same\n", "clean f\n",),
    ),
    // What `put` stores is what is read, and the field keeps the reference that `put` takes for it.
    (
        concat!(
            "typedef struct { PyObject_HEAD PyObject *first; } Box;\n",
            "void put(Box *b, PyObject *x) { PyObject *old = b->first; Py_XINCREF(x); b->first = x; Py_XDECREF(old); }\n",
            "int f(Box *b) { PyObject *p = PyList_New(0); if (p == NULL) return -1; put(b, p); Py_DECREF(b->first); return 0; }\n",
            "int g(Box *b) { PyObject *p = PyList_New(0); if (p == NULL) return -1; put(b, p); Py_DECREF(b->first); Py_DECREF(p); return 0; }\n",
        ),
        1,
        concat!(
            "clean put\n",
            "clean f\n",
            "faulty g 4:118 object K change 0 escaped 1\n",
        ),
    ),
    // The end of a function that returns a value ends the run.
    (
        concat!(
            "int nothing(void) { }\n",
            "void f(PyObject *x) { nothing(); Py_INCREF(x); }\n",
        ),
        0,
        concat!("clean nothing\n", "clean f\n",),
    ),
];

#[test]
fn calls(rt: HostRuntime) -> Result<(), Fail> {
    for (text, status, lines) in CALLS {
        assert!(rt; is_told(rt.alloc(), text, *status, lines)?, "at {text}");
    }
    Ok(())
}

//! What is reported of functions that call others of their file too deep to be followed: recursion, and chains of more
//! than four functions. The places, changes and escapes were worked out by hand.

use crate::tests::is_told;
use std::test::Fail;

/// Files with their status and the first lines of their verdicts. The number of an object is K.
const FILES: &[(&str, u8, &str)] = &[
    // However deep the call goes, one reference is given back. The run that is shown is the deepest that is followed.
    (
        concat!(
            "void give(PyObject *x, int n) { if (n == 0) { Py_DECREF(x); return; } give(x, n - 1); }\n",
            "void f(PyObject *x, int n) { Py_INCREF(x); give(x, n); }\n",
            "void g(PyObject *x, int n) { give(x, n); }\n",
        ),
        1,
        concat!(
            "faulty give 1:87 object K change -1 escaped 0\n",
            "clean f\n",
            "faulty g 3:42 object K change -1 escaped 0\n",
        ),
    ),
    // A call takes n references, the other one gives n back.
    (
        concat!(
            "void put(PyObject *x, int n) { if (n == 0) return; Py_INCREF(x); put(x, n - 1); }\n",
            "void get(PyObject *x, int n) { if (n == 0) return; Py_DECREF(x); get(x, n - 1); }\n",
            "void f(PyObject *x, int n) { put(x, n); get(x, n); }\n",
        ),
        1,
        concat!(
            "faulty put 1:81 object K change 3 escaped 0\n",
            "faulty get 2:81 object K change -3 escaped 0\n",
            "clean f\n",
        ),
    ),
    // The fault is five calls deep, where no run is followed; and what the first turn shows isn't all that a call does.
    (
        "void drip(PyObject *x, int n) { if (n == 0) return; drip(x, n - 1); if (n == 4) Py_INCREF(x); }\n",
        2,
        "unknown drip call 1:53 drip\n",
    ),
    // A function that never returns does nothing wrong.
    ("void f(void) { f(); }\n", 0, "clean f\n"),
    // The relation of the references to n holds from `n == 0` on, and isn't there where any n below ends the calls.
    (
        concat!(
            "void add(PyObject *x, int n) { if (n == 0) return; Py_INCREF(x); add(x, n - 1); }\n",
            "void f(PyObject *x) { add(x, 4); Py_DECREF(x); Py_DECREF(x); Py_DECREF(x); Py_DECREF(x); }\n",
            "void most(PyObject *x, int n) { if (n <= 0) return; Py_INCREF(x); most(x, n - 1); }\n",
            "void g(PyObject *x) { most(x, 4); Py_DECREF(x); Py_DECREF(x); Py_DECREF(x); Py_DECREF(x); }\n",
        ),
        1,
        concat!(
            "faulty add 1:81 object K change 3 escaped 0\n",
            "clean f\n",
            "faulty most 3:83 object K change 3 escaped 0\n",
            "unknown g call 3:67 most\n",
        ),
    ),
    // What is returned comes up through all calls.
    (
        concat!(
            "PyObject *made(int n) { if (n == 0) return PyList_New(0); return made(n - 1); }\n",
            "PyObject *last(PyObject *x, int n) { if (n == 0) return x; return last(x, n - 1); }\n",
            "PyObject *f(PyObject *x, int n) { return Py_XNewRef(last(x, n)); }\n",
            "PyObject *nest(int n) { PyObject *in, *out; if (n == 0) return PyList_New(0); in = nest(n - 1); ",
            "if (in == NULL) return NULL; out = PyList_New(1); if (out == NULL) { Py_DECREF(in); return NULL; } ",
            "PyList_SetItem(out, 0, in); return out; }\n",
        ),
        1,
        concat!(
            "clean made\n",
            "faulty last 2:60 object K change 0 escaped 1\n",
            "clean f\n",
            "clean nest\n",
        ),
    ),
    // Two functions that call each other: an odd n leaves a reference, and `both` takes it back.
    (
        concat!(
            "void pong(PyObject *x, int n);\n",
            "void ping(PyObject *x, int n) { if (n == 0) return; Py_INCREF(x); pong(x, n - 1); }\n",
            "void pong(PyObject *x, int n) { if (n == 0) return; Py_DECREF(x); ping(x, n - 1); }\n",
            "void both(PyObject *x, int n) { ping(x, n); pong(x, n); }\n",
            "int odd(int n);\n",
            "int even(int n) { if (n == 0) return 1; return odd(n - 1); }\n",
            "int odd(int n) { if (n == 0) return 0; return even(n - 1); }\n",
        ),
        1,
        concat!(
            "faulty ping 2:83 object K change 1 escaped 0\n",
            "faulty pong 3:83 object K change -1 escaped 0\n",
            "unknown both call 2:67 pong\n",
            "clean even\n",
            "clean odd\n",
        ),
    ),
    // Each call is balanced whichever object comes first, and two calls at once are.
    (
        concat!(
            "void turn(PyObject *x, PyObject *y, int n) { if (n == 0) return; Py_XINCREF(x); turn(y, x, n - 1); ",
            "Py_XDECREF(x); }\n",
            "void tree(PyObject *x, int n) { if (n == 0) return; tree(x, n - 1); Py_XINCREF(x); tree(x, n - 1); ",
            "Py_XDECREF(x); }\n",
        ),
        0,
        concat!("clean turn\n", "clean tree\n"),
    ),
    // A field may hold another object after a call; what was read before it is held still.
    (
        concat!(
            "typedef struct { PyObject_HEAD PyObject *next; } Node;\n",
            "void drop(Node *x, int n) { PyObject *old; if (n == 0) return; old = x->next; x->next = NULL; ",
            "Py_XDECREF(old); drop(x, n - 1); }\n",
            "void hold(Node *x, int n) { PyObject *old; if (n == 0) return; old = x->next; Py_XINCREF(old); ",
            "hold(x, n - 1); Py_XDECREF(old); }\n",
            "void lose(Node *x, int n) { if (n == 0) return; Py_XINCREF(x->next); lose(x, n - 1); ",
            "Py_XDECREF(x->next); }\n",
        ),
        2,
        concat!(
            "clean drop\n",
            "clean hold\n",
            "unknown lose call 4:70 lose\n",
        ),
    ),
    // Six functions deep, clean and not.
    (
        concat!(
            "void a(PyObject *x) { Py_XINCREF(x); Py_XDECREF(x); }\n",
            "void b(PyObject *x) { a(x); }\n",
            "void c(PyObject *x) { b(x); }\n",
            "void d(PyObject *x) { c(x); }\n",
            "void e(PyObject *x) { d(x); }\n",
            "void f(PyObject *x) { e(x); }\n",
            "void aa(PyObject *x) { Py_XINCREF(x); }\n",
            "void bb(PyObject *x) { aa(x); }\n",
            "void cc(PyObject *x) { bb(x); }\n",
            "void dd(PyObject *x) { cc(x); }\n",
            "void ee(PyObject *x) { dd(x); }\n",
            "void ff(PyObject *x) { ee(x); Py_XDECREF(x); }\n",
        ),
        1,
        concat!(
            "clean a\n",
            "clean b\n",
            "clean c\n",
            "clean d\n",
            "clean e\n",
            "clean f\n",
            "faulty aa 7:39 object K change 1 escaped 0\n",
            "faulty bb 8:31 object K change 1 escaped 0\n",
            "faulty cc 9:31 object K change 1 escaped 0\n",
            "faulty dd 10:31 object K change 1 escaped 0\n",
            "unknown ee call 8:24 aa\n",
            "clean ff\n",
        ),
    ),
];

#[test]
fn recursion(rt: HostRuntime) -> Result<(), Fail> {
    for (text, status, lines) in FILES {
        assert!(rt; is_told(rt.alloc(), text, *status, lines)?, "at {text}");
    }
    Ok(())
}

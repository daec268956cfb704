//! What is reported of functions with integers: which comparisons exclude one another, where the run stops since a number
//! is out of range, and what comes of numbers that are computed. Worked out by hand from C11 6.3.1.3, 6.5 and the ranges
//! of the types (`int` of 32 bits, `long` and `Py_ssize_t` of 64).

use crate::tests::is_told;
use std::test::Fail;

/// Files with their status and the first lines of their verdicts. The number of an object is K.
const NUMBERS: &[(&str, u8, &str)] = &[
    (
        "void f(PyObject *x, int n) { if (n < 5) Py_XINCREF(x); if (n < 5) Py_XDECREF(x); }",
        0,
        "clean f\n",
    ),
    (
        "void f(PyObject *x, int n) { if (n < 5) { if (n > 7) Py_XINCREF(x); } }",
        0,
        "clean f\n",
    ),
    (
        "void f(PyObject *x, int n) { if (n < 5) Py_XINCREF(x); if (n > 7) Py_XINCREF(x); if (n < 5) Py_XDECREF(x); }",
        1,
        "faulty f 1:108 object K change 1 escaped 0\n",
    ),
    (
        "PyObject *f(PyObject *x, int n) { if (n == 7) return x; return NULL; }",
        1,
        "faulty f 1:47 object K change 0 escaped 1\n",
    ),
    (
        "PyObject *f(PyObject *x, int n) { if (n - 1 > n) return x; return NULL; }",
        0,
        "clean f\n",
    ),
    (
        "PyObject *f(PyObject *x, long a, long b, long c) { if (a < b && b < c && c <= a) return x; return NULL; }",
        0,
        "clean f\n",
    ),
    (
        "PyObject *f(PyObject *x, long a, long b, long c) { if (a < b && b < c && c <= a + 2) return x; return NULL; }",
        1,
        "faulty f 1:86 object K change 0 escaped 1\n",
    ),
    (
        "PyObject *f(PyObject *x) { Py_ssize_t n = PyObject_Size(x); if (n < -1) return x; return NULL; }",
        0,
        "clean f\n",
    ),
    (
        "PyObject *f(PyObject *x) { Py_ssize_t n = PyObject_Size(x); if (n < 0) return NULL; if (n + 1 <= 0) return x; return NULL; }",
        0,
        "clean f\n",
    ),
    (
        "PyObject *f(PyObject *x) { Py_ssize_t n = PyObject_Size(x); if (n < 0) return x; return NULL; }",
        1,
        "faulty f 1:72 object K change 0 escaped 1\n",
    ),
    (
        "int f(PyObject *x) { long n = PyLong_AsLong(x); if (n == -1) return -1; Py_INCREF(x); if (n != -1) Py_DECREF(x); return 0; }",
        0,
        "clean f\n",
    ),
    (
        "void f(PyObject *x, int n) { switch (n) { case 1: Py_XINCREF(x); break; case 2: break; default: return; } if (n == 1) Py_XDECREF(x); }",
        0,
        "clean f\n",
    ),
    (
        "void f(PyObject *x, int n) { switch (n) { case 1: Py_XINCREF(x); break; default: ; } if (n == 2) return; }",
        1,
        "faulty f 1:106 object K change 1 escaped 0\n",
    ),
    (
        "PyObject *f(PyObject *x, int n) { if (n == 2147483647) { n++; return x; } return NULL; }",
        0,
        "clean f\n",
    ),
    (
        "PyObject *f(PyObject *x, int n) { if (n == 2147483646) { n++; return x; } return NULL; }",
        1,
        "faulty f 1:63 object K change 0 escaped 1\n",
    ),
    (
        "PyObject *f(PyObject *x, long n) { int i = n; if (n > 2147483647) return x; return NULL; }",
        0,
        "clean f\n",
    ),
    (
        "PyObject *f(PyObject *x, long n) { int i = n; if (n == 2147483647) return x; return NULL; }",
        1,
        "faulty f 1:68 object K change 0 escaped 1\n",
    ),
    (
        "PyObject *f(PyObject *x, int n) { int m = n + 1; if (m == -2147483648) return x; return NULL; }",
        0,
        "clean f\n",
    ),
    (
        "typedef struct { PyObject_HEAD long hits; } Box; void f(Box *b, PyObject *x) { long old = b->hits; b->hits++; if (b->hits == old) Py_XINCREF(x); }",
        0,
        "clean f\n",
    ),
    (
        "static int total; void f(PyObject *x) { total = 3; if (total != 3) Py_XINCREF(x); }",
        0,
        "clean f\n",
    ),
    (
        "static int total; void f(PyObject *x) { if (total == 3) Py_XINCREF(x); }",
        1,
        "faulty f 1:72 object K change 1 escaped 0\n",
    ),
    (
        "typedef struct { PyObject_HEAD int a; } Box; void f(Box *b, Box *c) { b->a = 1; c->a = 2; if (b->a == 2) Py_INCREF(b); }",
        1,
        "faulty f 1:120 object K change 1 escaped 0\n",
    ),
];

/// The same of functions that compute a number which is no unknown number and a constant. It may be any number of its
/// type until a path returns unbalanced; then a run is tried in which each number that enters such an arithmetic is 0.
/// If that run doesn't return unbalanced on this path the function is unknown, at the place where the path first
/// compares such a number (the operator, or the first token of a condition that tests it), else where it first computes
/// one.
const COMPUTED: &[(&str, u8, &str)] = &[
    ("int f(int n, int m) { return n * m; }", 0, "clean f\n"),
    ("int f(int n) { return n * 2; }", 0, "clean f\n"),
    ("long f(long a, long b) { return a - b; }", 0, "clean f\n"),
    (
        "int f(PyObject *x, int n) { if (!x) return n % 7; Py_INCREF(x); Py_DECREF(x); return -n; }",
        0,
        "clean f\n",
    ),
    (
        "int f(int n) { if (n < 0) { if (n > 0) return n * n; } return 0; }",
        0,
        "clean f\n",
    ),
    ("int f(void) { int n = 3; return n * 2; }", 0, "clean f\n"),
    (
        "void f(PyObject *x, int n) { if (n != 0) n * n; else Py_XINCREF(x); }",
        1,
        "faulty f 1:69 object K change 1 escaped 0\n",
    ),
    (
        "void f(PyObject *x, int n) { if (n * n < 0) Py_XINCREF(x); }",
        2,
        "unknown f number 1:40\n",
    ),
    (
        "void f(PyObject *x, int n) { if (n * n == 7) Py_INCREF(x); }",
        2,
        "unknown f number 1:40\n",
    ),
    (
        "void f(PyObject *x, int n) { if (n * n == 0) Py_XINCREF(x); }",
        1,
        "faulty f 1:61 object K change 1 escaped 0\n",
    ),
    (
        "void f(PyObject *x, int n) { if ((n + 1) * 2 == 2) Py_XINCREF(x); }",
        1,
        "faulty f 1:67 object K change 1 escaped 0\n",
    ),
    (
        "void f(PyObject *x, int n) { int m = n * 2; m = (m + 1) * 5; if (m == 5) Py_XINCREF(x); }",
        1,
        "faulty f 1:89 object K change 1 escaped 0\n",
    ),
    (
        "void f(PyObject *x, int n) { int m = n * 2; m = m * m; if (m == 16) Py_XINCREF(x); }",
        2,
        "unknown f number 1:62\n",
    ),
    (
        "void f(PyObject *x, int n) { if (n * n == 7) Py_XINCREF(x); else if (n == 3) Py_XINCREF(x); }",
        2,
        "unknown f number 1:40\n",
    ),
    (
        "void f(PyObject *x, long a, long b) { if (a - b > 0) Py_XINCREF(x); }",
        2,
        "unknown f number 1:49\n",
    ),
    (
        "void f(PyObject *x, long a, long b) { if (a - b >= 0) Py_XINCREF(x); }",
        1,
        "faulty f 1:70 object K change 1 escaped 0\n",
    ),
    (
        "PyObject *f(PyObject *x, int a, int b) { if (a + b > 10) return NULL; return x; }",
        1,
        "faulty f 1:71 object K change 0 escaped 1\n",
    ),
    (
        "void f(PyObject *x, int n) { if (-n == n) Py_XINCREF(x); }",
        1,
        "faulty f 1:58 object K change 1 escaped 0\n",
    ),
    (
        "void f(PyObject *x, int n) { if (n > 0) { if (-n > 0) Py_XINCREF(x); } }",
        2,
        "unknown f number 1:50\n",
    ),
    (
        "void f(PyObject *x, int n) { if (n / 2 == 0) Py_XINCREF(x); }",
        1,
        "faulty f 1:61 object K change 1 escaped 0\n",
    ),
    (
        "int f(PyObject *x, int n) { int m = 10 / n; Py_XINCREF(x); return m; }",
        2,
        "unknown f number 1:40\n",
    ),
    (
        "PyObject *f(PyObject *x, int n) { if (n == 0) { n = 1 / n; return x; } return NULL; }",
        2,
        "unknown f number 1:55\n",
    ),
    (
        "PyObject *f(PyObject *x) { int n = 0; n = 1 / n; return x; }",
        0,
        "clean f\n",
    ),
    (
        "void f(PyObject *x, int n) { if (n % 2 == 1) Py_XINCREF(x); }",
        2,
        "unknown f number 1:40\n",
    ),
    (
        "void f(PyObject *x, int n) { if (n % 2) Py_XINCREF(x); }",
        2,
        "unknown f number 1:34\n",
    ),
    (
        "void f(PyObject *x, int n, int m) { if ((n * m)) Py_XINCREF(x); }",
        2,
        "unknown f number 1:41\n",
    ),
    (
        "void f(PyObject *x, int n, int m) { if (m > 0 && n % 2) Py_XINCREF(x); }",
        2,
        "unknown f number 1:50\n",
    ),
    (
        "PyObject *f(PyObject *x, int n) { return n % 2 ? x : NULL; }",
        2,
        "unknown f number 1:42\n",
    ),
    (
        "void f(PyObject *x, int n) { if (!(n % 2)) Py_XINCREF(x); }",
        1,
        "faulty f 1:59 object K change 1 escaped 0\n",
    ),
    (
        "void f(PyObject *x, int n) { switch (n * 3) { case 3: Py_XINCREF(x); } }",
        2,
        "unknown f number 1:30\n",
    ),
    (
        "void f(PyObject *x, int n) { int m = n * n; if (m == 7) Py_XINCREF(x); if (m == 7) Py_XDECREF(x); }",
        0,
        "clean f\n",
    ),
    (
        "void f(PyObject *x, int n) { if (n * n == 7) Py_XINCREF(x); if (n * n == 7) Py_XDECREF(x); }",
        2,
        "unknown f number 1:40\n",
    ),
    (
        "void f(PyObject *x, int n) { int m = n * n; if (m < 3 && m + 1 > 5) Py_XINCREF(x); }",
        0,
        "clean f\n",
    ),
    (
        "void f(PyObject *x, int a, int b) { long p = a * b; if (p > 2147483647) Py_XINCREF(x); }",
        0,
        "clean f\n",
    ),
    (
        "void f(PyObject *x, int a, int b) { if (a * 2 < b * 3) Py_XINCREF(x); }",
        2,
        "unknown f number 1:47\n",
    ),
    (
        "void f(PyObject *x, int a, int b) { if (a * 2 == b * 3) Py_XINCREF(x); }",
        1,
        "faulty f 1:72 object K change 1 escaped 0\n",
    ),
    (
        "void f(PyObject *x, long a, long b) { long p = a * 2; long q = b * 3; if (p < q && q < p) Py_XINCREF(x); }",
        0,
        "clean f\n",
    ),
    (
        "int f(PyObject *x, int n) { int m = n * 2; Py_XINCREF(x); return m; }",
        1,
        "faulty f 1:59 object K change 1 escaped 0\n",
    ),
    (
        "int f(PyObject *x, int n, int m) { if (m == 7) { Py_XINCREF(x); return n * 2; } return 0; }",
        1,
        "faulty f 1:65 object K change 1 escaped 0\n",
    ),
    (
        "int f(PyObject *x, int n) { if (n > 3) { Py_XINCREF(x); return n * 2; } return 0; }",
        2,
        "unknown f number 1:66\n",
    ),
    (
        "PyObject *f(int n) { return PyLong_FromLong(n * 2); }",
        0,
        "clean f\n",
    ),
    (
        "PyObject *f(PyObject *l, int n) { return PyList_GetItem(l, n * 2); }",
        1,
        "faulty f 1:35 object K change 0 escaped 1\n",
    ),
    (
        "typedef struct { PyObject_HEAD long hits; } Box; void f(Box *b, PyObject *x) { b->hits += b->hits; if (b->hits == 5) Py_XINCREF(x); }",
        2,
        "unknown f number 1:112\n",
    ),
    (
        "typedef struct { PyObject_HEAD long hits; } Box; void f(Box *b, PyObject *x) { b->hits += b->hits; if (b->hits) Py_XINCREF(x); }",
        2,
        "unknown f number 1:104\n",
    ),
    (
        "static int total; void f(PyObject *x, int n) { total = n * n; if (total > 3) Py_XINCREF(x); if (total > 3) Py_XDECREF(x); }",
        0,
        "clean f\n",
    ),
];

#[test]
fn numbers(rt: HostRuntime) -> Result<(), Fail> {
    for (text, status, lines) in NUMBERS {
        assert!(rt; is_told(rt.alloc(), text, *status, lines)?, "at {text}");
    }
    Ok(())
}

#[test]
fn computed_numbers(rt: HostRuntime) -> Result<(), Fail> {
    for (text, status, lines) in COMPUTED {
        assert!(rt; is_told(rt.alloc(), text, *status, lines)?, "at {text}");
    }
    Ok(())
}

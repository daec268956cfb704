//! What is reported of functions that call the API with as many arguments as they like, or clear a place. The places,
//! changes and escapes were worked out by hand.

use crate::tests::is_told;
use std::test::Fail;

/// Files with their status and the first lines of their verdicts. The number of an object is K.
const ROWS: &[(&str, u8, &str)] = &[
    // A tuple of so many objects is a new reference, and takes none over.
    (
        concat!(
            "PyObject *f(PyObject *x, PyObject *y) { return PyTuple_Pack(2, x, y); }\n",
            "PyObject *e(void) { return PyTuple_Pack(0); }\n",
            "int g(PyObject *x) { PyObject *t = PyTuple_Pack(1, x); if (t == NULL) return -1; return 0; }\n",
            "PyObject *h(void) { PyObject *n = PyLong_FromLong(1); if (n == NULL) return NULL; PyObject *t = PyTuple_Pack(2, n, n); Py_DECREF(n); return t; }\n",
            "PyObject *l(void) { PyObject *n = PyLong_FromLong(1); if (n == NULL) return NULL; return PyTuple_Pack(1, n); }\n",
        ),
        1,
        concat!(
            "clean f\n",
            "clean e\n",
            "faulty g 3:82 object K change 1 escaped 0\n",
            "clean h\n",
            "faulty l 5:83 object K change 1 escaped 0\n",
        ),
    ),
    // The number is a constant, that of the objects after it.
    (
        concat!(
            "PyObject *f(PyObject *x) { return PyTuple_Pack(2, x); }\n",
            "PyObject *g(PyObject *x) { return PyTuple_Pack(0, x); }\n",
            "PyObject *h(PyObject *x, int n) { return PyTuple_Pack(n, x); }\n",
            "PyObject *k(PyObject *x) { return PyTuple_Pack((1), x); }\n",
            "PyObject *l(void) { return PyTuple_Pack(); }\n",
            "PyObject *m(int n) { return PyTuple_Pack(1, n); }\n",
            "PyObject *o(void) { return PyTuple_Pack(-1); }\n",
        ),
        2,
        concat!(
            "refused f 1:35 N10\n",
            "refused g 2:35 N10\n",
            "refused h 3:42 N10\n",
            "refused k 4:35 N10\n",
            "refused l 5:28 N10\n",
            "refused m 6:29 N10\n",
            "refused o 7:28 N10\n",
        ),
    ),
    // Objects are passed up to the closing NULL; all but the first may be NULL themselves.
    (
        concat!(
            "PyObject *f(PyObject *g, PyObject *x) { return PyObject_CallFunctionObjArgs(g, x, x, NULL); }\n",
            "PyObject *e(PyObject *g) { return PyObject_CallFunctionObjArgs(g, NULL); }\n",
            "PyObject *h(PyObject *g) { PyObject *n = PyLong_FromLong(1); PyObject *r = PyObject_CallFunctionObjArgs(g, n, NULL); Py_XDECREF(n); return r; }\n",
            "PyObject *k(PyObject *g) { return PyObject_CallFunctionObjArgs(g, PyLong_FromLong(1), NULL); }\n",
            "int l(PyObject *g) { PyObject_CallFunctionObjArgs(g, NULL); return 0; }\n",
        ),
        1,
        concat!(
            "clean f\n",
            "clean e\n",
            "clean h\n",
            "faulty k 4:28 object K change 1 escaped 0\n",
            "faulty l 5:61 object K change 1 escaped 0\n",
        ),
    ),
    // Without the closing NULL it is refused.
    (
        concat!(
            "PyObject *f(PyObject *g, PyObject *x) { return PyObject_CallFunctionObjArgs(g, x); }\n",
            "PyObject *h(PyObject *g) { return PyObject_CallFunctionObjArgs(g); }\n",
            "PyObject *k(void) { return PyObject_CallFunctionObjArgs(); }\n",
            "PyObject *l(PyObject *g, int n) { return PyObject_CallFunctionObjArgs(g, n, NULL); }\n",
            "PyObject *m(PyObject *g) { return PyObject_CallFunctionObjArgs(g, (NULL)); }\n",
        ),
        2,
        concat!(
            "refused f 1:48 N10\n",
            "refused h 2:35 N10\n",
            "refused k 3:28 N10\n",
            "refused l 4:42 N10\n",
            "refused m 5:35 N10\n",
        ),
    ),
    // An exception with a text is set, whatever comes after it, and NULL is returned.
    (
        concat!(
            "PyObject *f(PyObject *x, int n, char *s) { return PyErr_Format(PyExc_ValueError, \"%R %d %s\", x, n, s); }\n",
            "int g(Py_ssize_t n) { PyErr_Format(PyExc_TypeError, \"%zd of %ld\", n, 2L); return -1; }\n",
            "PyObject *h(PyObject *x) { PyErr_Format(PyExc_TypeError, \"no\", NULL); return Py_XNewRef(x); }\n",
            "PyObject *k(PyObject *x) { return PyErr_Format(PyExc_ValueError, \"%R\", PyObject_Str(x)); }\n",
            "void l(PyObject *x) { if (PyErr_Format(PyExc_ValueError, \"none\") != NULL) Py_INCREF(x); }\n",
        ),
        1,
        concat!(
            "clean f\n",
            "clean g\n",
            "clean h\n",
            "faulty k 4:28 object K change 1 escaped 0\n",
            "clean l\n",
        ),
    ),
    // It takes an exception and a text at least, and values.
    (
        concat!(
            "PyObject *f(void) { return PyErr_Format(PyExc_ValueError); }\n",
            "PyObject *g(void) { return PyErr_Format(); }\n",
            "PyObject *h(PyObject *x) { return PyErr_Format(\"%R\", x); }\n",
            "PyObject *k(PyObject *x) { return PyErr_Format(PyExc_ValueError, \"%R\", Py_INCREF(x)); }\n",
        ),
        2,
        concat!(
            "refused f 1:28 N10\n",
            "refused g 2:28 N10\n",
            "refused h 3:35 N10\n",
            "refused k 4:72 N10\n",
        ),
    ),
    // What a local, a field or a global holds is released, and it is NULL.
    (
        concat!(
            "typedef struct { PyObject_HEAD PyObject *first; } Box;\n",
            "static PyObject *kept;\n",
            "void f(void) { PyObject *p = PyList_New(0); Py_CLEAR(p); Py_CLEAR(p); }\n",
            "int g(Box *b) { Py_CLEAR(b->first); return 0; }\n",
            "int h(Box *b) { Py_CLEAR(b->first); Py_XDECREF(b->first); Py_CLEAR(b->first); return 0; }\n",
            "void k(void) { Py_CLEAR(kept); }\n",
            "void l(PyObject *x) { Py_CLEAR(x); }\n",
            "int m(Box *b) { Py_XDECREF(b->first); Py_CLEAR(b->first); return 0; }\n",
            "PyObject *n(PyObject *x) { PyObject *p = Py_XNewRef(x); Py_CLEAR(p); return p; }\n",
            "PyObject *o(PyObject *x) { PyObject *p = Py_XNewRef(x); Py_CLEAR(p); return x; }\n",
            "void q(int c) { int i; for (i = 0; i < c; i++) { PyObject *p = PyList_New(0); Py_CLEAR(p); } }\n",
            "void r(void) { PyObject *p; Py_CLEAR(p); }\n",
        ),
        1,
        concat!(
            "clean f\n",
            "clean g\n",
            "clean h\n",
            "clean k\n",
            "faulty l 7:36 object K change -1 escaped 0\n",
            "faulty m 8:59 object K change -2 escaped -1\n",
            "clean n\n",
            "faulty o 10:70 object K change 0 escaped 1\n",
            "clean q\n",
            "clean r\n",
        ),
    ),
    // Nothing else than such a place can be cleared, and the call has no value.
    (
        concat!(
            "void f(PyObject *x) { Py_CLEAR(Py_XNewRef(x)); }\n",
            "void g(int i) { Py_CLEAR(i); }\n",
            "void h(char *s) { Py_CLEAR(s); }\n",
            "void k(void) { Py_CLEAR(NULL); }\n",
            "void l(PyObject *x) { Py_CLEAR((x)); }\n",
            "void m(PyObject *x, PyObject *y) { Py_CLEAR(x, y); }\n",
            "void n(void) { Py_CLEAR(Py_None); }\n",
            "int o(PyObject *x) { return Py_CLEAR(x); }\n",
        ),
        2,
        concat!(
            "refused f 1:23 N10\n",
            "refused g 2:17 N10\n",
            "refused h 3:19 N10\n",
            "refused k 4:16 N10\n",
            "refused l 5:23 N10\n",
            "refused m 6:36 N10\n",
            "refused n 7:16 N10\n",
            "refused o 8:29 N10\n",
        ),
    ),
];

#[test]
fn rows(rt: HostRuntime) -> Result<(), Fail> {
    for (text, status, lines) in ROWS {
        assert!(rt; is_told(rt.alloc(), text, *status, lines)?, "at {text}");
    }
    Ok(())
}

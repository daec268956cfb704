//! Whole reports, with the runs of their faults.

use crate::tests::is_whole;
use std::test::Fail;

/// Files with a whole report: an object struct, a static type object, a global, a prototype and three functions; tables
/// with the names of statics; and functions without a static.
const WHOLE: &[(&str, u8, &str)] = &[
    (
        concat!(
            "typedef struct box { PyObject_HEAD PyObject *held; } Box;\n",
            "static PyTypeObject BoxType = { 1 };\n",
            "static int total;\n",
            "int twice(int n);\n",
            "PyObject *one(PyObject *self, PyObject *args) { return PyLong_FromLong(1); }\n",
            "int odd(int n) { return n & 1; }\n",
            "void keep(PyObject *x) { Py_INCREF(x); }\n",
        ),
        1,
        concat!(
            "clean one\n",
            "refused odd 6:27 N2\n",
            "faulty keep 7:40 object 25 change 1 escaped 0\n",
            "  objects 26\n",
            "  argument object 25\n",
        ),
    ),
    (
        concat!(
            "static PyTypeObject Py_None = { 1 };\n",
            "static PyMethodDef Py_True[] = { { 0 } };\n",
            "PyObject *a(void) { return Py_None; }\n",
            "PyObject *b(void) { return Py_True; }\n",
            "void c(void) { Py_None(); }\n",
            "void d(void) { Py_True(); }\n",
        ),
        2,
        concat!(
            "refused a 3:28 N9\n",
            "refused b 4:28 N9\n",
            "refused c 5:16 N9\n",
            "refused d 6:16 N9\n",
        ),
    ),
    (
        "void a(void) { }\nvoid b(void) { break; }\nvoid c(PyObject *x) { Py_INCREF(x); }\n",
        1,
        concat!(
            "clean a\n",
            "refused b 2:16 N7\n",
            "faulty c 3:37 object 24 change 1 escaped 0\n",
            "  objects 25\n",
            "  argument object 24\n",
        ),
    ),
    (
        "PyObject *f(PyObject *x, int n) { if (n == 7) return x; return NULL; }\n",
        1,
        concat!(
            "faulty f 1:47 object 24 change 0 escaped 1\n",
            "  objects 26\n",
            "  argument object 24\n",
            "  argument int 7\n",
        ),
    ),
    (
        "int f(PyObject *x, int n) { int m = n * 2; Py_XINCREF(x); return m; }\n",
        1,
        concat!(
            "faulty f 1:59 object 24 change 1 escaped 0\n",
            "  objects 26\n",
            "  argument object 24\n",
            "  argument int 0\n",
        ),
    ),
    (
        "PyObject *f(PyObject *self, PyObject *args) { PyObject *a = NULL, *b = NULL; if (!PyArg_ParseTuple(args, \"OO\", &a, &b)) { Py_XDECREF(a); return NULL; } Py_RETURN_NONE; }\n",
        1,
        concat!(
            "faulty f 1:138 object 27 change -1 escaped 0\n",
            "  objects 28\n",
            "  argument object 24\n",
            "  argument object 25\n",
            "  1:83 failed 1\n",
            "  1:83 object 27\n",
        ),
    ),
    (
        "PyObject *f(PyObject *self, PyObject *args) { PyObject *l = PyList_New(0); if (!PyArg_ParseTuple(args, \"\")) return NULL; return l; }\n",
        1,
        concat!(
            "faulty f 1:109 object 26 change 1 escaped 0\n",
            "  objects 28\n",
            "  argument object 24\n",
            "  argument object 25\n",
            "  1:61 object 26\n",
            "  1:81 failed 0\n",
        ),
    ),
    (
        "PyObject *f(PyObject *self, PyObject *args) { PyObject *a; if (!PyArg_ParseTuple(args, \"O\", &a)) return NULL; return a; }\n",
        1,
        concat!(
            "faulty f 1:111 object 27 change 0 escaped 1\n",
            "  objects 28\n",
            "  argument object 24\n",
            "  argument object 25\n",
            "  1:65 given 1\n",
            "  1:65 object 27\n",
        ),
    ),
    (
        "void f(PyObject *d) { Py_ssize_t p = 0; PyObject *v; while (PyDict_Next(d, &p, NULL, &v)) Py_INCREF(v); }\n",
        1,
        concat!(
            "faulty f 1:105 object 27 change 1 escaped 0\n",
            "  objects 29\n",
            "  argument object 24\n",
            "  1:61 int 1\n",
            "  1:61 int 0\n",
            "  1:61 object 27\n",
            "  1:61 int 0\n",
        ),
    ),
];

#[test]
fn whole_reports(rt: HostRuntime) -> Result<(), Fail> {
    for (text, status, lines) in WHOLE {
        assert!(rt; is_whole(rt.alloc(), text, *status, lines)?, "at {text}");
    }
    Ok(())
}

//! What is reported of functions that take arguments apart, step through dicts and build values. The places, changes and
//! escapes were worked out by hand.

use crate::tests::is_told;
use std::test::Fail;

/// Files with their status and the first lines of their verdicts. The number of an object is K.
const ROWS: &[(&str, u8, &str)] = &[
    // An argument parser that fails has written what comes before the unit that failed.
    (
        concat!(
            "PyObject *aa(PyObject *self, PyObject *args) { PyObject *a = NULL, *b = NULL; if (!PyArg_ParseTuple(args, \"OO\", &a, &b)) { Py_XDECREF(a); return NULL; } Py_RETURN_NONE; }\n",
            "PyObject *bb(PyObject *self, PyObject *args) { PyObject *a = NULL, *b = NULL; if (!PyArg_ParseTuple(args, \"OO\", &a, &b)) { return NULL; } Py_RETURN_NONE; }\n",
            "PyObject *cc(PyObject *self, PyObject *args) { PyObject *a = NULL, *b = NULL; if (!PyArg_ParseTuple(args, \"OO\", &a, &b)) { if (a != NULL) Py_INCREF(a); return NULL; } Py_RETURN_NONE; }\n",
            "PyObject *dd(PyObject *self, PyObject *args) { PyObject *a = NULL, *b = NULL; if (!PyArg_ParseTuple(args, \"OO\", &a, &b)) { if (b != NULL) Py_INCREF(b); return NULL; } Py_RETURN_NONE; }\n",
            "PyObject *ee(PyObject *self, PyObject *args) { PyObject *a = NULL; if (!PyArg_ParseTuple(args, \"O\", &a)) { if (a != NULL) Py_INCREF(a); return NULL; } Py_RETURN_NONE; }\n",
            "PyObject *ff(PyObject *self, PyObject *args) { PyObject *l = PyList_New(0); if (!PyArg_ParseTuple(args, \"\")) return NULL; return l; }\n",
            "PyObject *gg(PyObject *self, PyObject *args) { PyObject *l; if (!PyArg_ParseTuple(args, \"\")) return NULL; l = PyList_New(0); return l; }\n",
        ),
        1,
        concat!(
            "faulty aa 1:139 object K change -1 escaped 0\n",
            "clean bb\n",
            "faulty cc 3:153 object K change 1 escaped 0\n",
            "clean dd\n",
            "clean ee\n",
            "faulty ff 6:110 object K change 1 escaped 0\n",
            "clean gg\n",
        ),
    ),
    // Its objects are borrowed.
    (
        concat!(
            "PyObject *aa(PyObject *self, PyObject *args) { PyObject *a; if (!PyArg_ParseTuple(args, \"O\", &a)) return NULL; return a; }\n",
            "PyObject *bb(PyObject *self, PyObject *args) { PyObject *a; if (!PyArg_ParseTuple(args, \"O\", &a)) return NULL; Py_INCREF(a); return a; }\n",
            "PyObject *cc(PyObject *self, PyObject *args) { PyObject *a; if (!PyArg_ParseTuple(args, \"S:name\", &a)) return NULL; Py_INCREF(a); return a; }\n",
            "PyObject *dd(PyObject *self, PyObject *args) { PyObject *a; if (!PyArg_ParseTuple(args, \"U;a message\", &a)) return NULL; Py_INCREF(a); return a; }\n",
            "PyObject *ee(PyObject *self, PyObject *args) { PyObject *a; if (!PyArg_ParseTuple(args, \"O!\", &PyList_Type, &a)) return NULL; Py_INCREF(a); return a; }\n",
            "PyObject *ff(PyObject *self, PyObject *args) { PyObject *a; if (!PyArg_ParseTuple(args, \"O!\", &PyList_Type, &a)) return NULL; return a; }\n",
            "PyObject *gg(PyObject *self, PyObject *args) { PyObject *a; if (!PyArg_ParseTuple(args, \"O\", &a)) return NULL; if (a == NULL) Py_DECREF(self); Py_RETURN_NONE; }\n",
            "PyObject *hh(PyObject *self, PyObject *args) { PyObject *a, *b; if (!PyArg_ParseTuple(args, \"OO\", &a, &b)) return NULL; if (a == b) Py_INCREF(a); Py_RETURN_NONE; }\n",
        ),
        1,
        concat!(
            "faulty aa 1:112 object K change 0 escaped 1\n",
            "clean bb\n",
            "clean cc\n",
            "clean dd\n",
            "clean ee\n",
            "faulty ff 6:127 object K change 0 escaped 1\n",
            "clean gg\n",
            "faulty hh 8:147 object K change 1 escaped 0\n",
        ),
    ),
    // Optional units may be missing, and their variables keep what they held.
    (
        concat!(
            "PyObject *aa(PyObject *self, PyObject *args) { PyObject *a, *b; if (!PyArg_ParseTuple(args, \"O|O\", &a, &b)) return NULL; Py_INCREF(b); return b; }\n",
            "PyObject *bb(PyObject *self, PyObject *args) { PyObject *a, *b = NULL; if (!PyArg_ParseTuple(args, \"O|O\", &a, &b)) return NULL; Py_XINCREF(b); return b; }\n",
            "PyObject *cc(PyObject *self, PyObject *args) { PyObject *b = NULL; if (!PyArg_ParseTuple(args, \"|O\", &b)) return NULL; if (b == NULL) return PyLong_FromLong(1); return b; }\n",
            "PyObject *dd(PyObject *self, PyObject *args) { PyObject *b = NULL; if (!PyArg_ParseTuple(args, \"|O\", &b)) return NULL; if (b == NULL) Py_DECREF(self); Py_RETURN_NONE; }\n",
            "PyObject *ee(PyObject *self, PyObject *args) { PyObject *a = NULL, *b = NULL; if (!PyArg_ParseTuple(args, \"|OO\", &a, &b)) return NULL; if (a == NULL && b != NULL) Py_DECREF(self); Py_RETURN_NONE; }\n",
            "PyObject *ff(PyObject *self, PyObject *args) { PyObject *a = NULL, *b = NULL; if (!PyArg_ParseTuple(args, \"O|O\", &a, &b)) return NULL; if (a == NULL) Py_DECREF(self); Py_RETURN_NONE; }\n",
        ),
        1,
        concat!(
            "clean aa\n",
            "clean bb\n",
            "faulty cc 3:162 object K change 0 escaped 1\n",
            "faulty dd 4:152 object K change -1 escaped 0\n",
            "clean ee\n",
            "clean ff\n",
        ),
    ),
    // Numbers and texts are written, each in its range.
    (
        concat!(
            "PyObject *aa(PyObject *self, PyObject *args) { int n; long m; Py_ssize_t s; if (!PyArg_ParseTuple(args, \"iln\", &n, &m, &s)) return NULL; if (n > 3) return PyLong_FromLong(m); return PyList_New(s); }\n",
            "PyObject *bb(PyObject *self, PyObject *args) { int p; if (!PyArg_ParseTuple(args, \"p\", &p)) return NULL; if (p == 2) Py_DECREF(self); Py_RETURN_NONE; }\n",
            "PyObject *cc(PyObject *self, PyObject *args) { int p; if (!PyArg_ParseTuple(args, \"i\", &p)) return NULL; if (p == 2) Py_DECREF(self); Py_RETURN_NONE; }\n",
            "PyObject *dd(PyObject *self, PyObject *args) { Py_ssize_t p; if (!PyArg_ParseTuple(args, \"n\", &p)) return NULL; if (p < -1) Py_DECREF(self); Py_RETURN_NONE; }\n",
            "PyObject *ee(PyObject *self, PyObject *args) { const char *s; if (!PyArg_ParseTuple(args, \"s\", &s)) return NULL; if (s == NULL) Py_DECREF(self); return PyUnicode_FromString(s); }\n",
            "PyObject *ff(PyObject *self, PyObject *args) { const char *s; if (!PyArg_ParseTuple(args, \"z\", &s)) return NULL; if (s == NULL) Py_DECREF(self); Py_RETURN_NONE; }\n",
            "PyObject *gg(PyObject *self, PyObject *args) { PyObject *a; int n; if (!PyArg_ParseTuple(args, \"O\" \"i\", &a, &n)) return NULL; return PyList_GetItem(a, n) == NULL ? NULL : PyLong_FromLong(n); }\n",
        ),
        1,
        concat!(
            "clean aa\n",
            "clean bb\n",
            "faulty cc 3:135 object K change -1 escaped 0\n",
            "faulty dd 4:142 object K change -1 escaped 0\n",
            "clean ee\n",
            "faulty ff 6:146 object K change -1 escaped 0\n",
            "clean gg\n",
        ),
    ),
    // The call returns 1 or 0.
    (
        concat!(
            "PyObject *aa(PyObject *self, PyObject *args) { PyObject *a; int r = PyArg_ParseTuple(args, \"O\", &a); if (r == 0) return NULL; Py_INCREF(a); return a; }\n",
            "PyObject *bb(PyObject *self, PyObject *args) { PyObject *a; int r = PyArg_ParseTuple(args, \"OO\", &a, &self); if (r == -1 || r == 2) Py_DECREF(args); Py_RETURN_NONE; }\n",
            "PyObject *cc(PyObject *self, PyObject *args) { PyObject *a; if (PyArg_ParseTuple(args, \"O\", &a) == 1) { Py_INCREF(a); return a; } return NULL; }\n",
            "PyObject *dd(PyObject *self, PyObject *args) { PyObject *a = NULL; PyArg_ParseTuple(args, \"O\", &a); return a; }\n",
        ),
        1,
        concat!(
            "clean aa\n",
            "clean bb\n",
            "clean cc\n",
            "faulty dd 4:101 object K change 0 escaped 1\n",
        ),
    ),
    // A format that is no string literal, has a fault, or doesn't fit the arguments is refused where it stands.
    (
        concat!(
            "PyObject *aa(PyObject *args, char *s) { PyObject *a; PyArg_ParseTuple(args, s, &a); return NULL; }\n",
            "PyObject *bb(PyObject *self, PyObject *args) { PyObject *a; PyArg_ParseTuple(args, (\"O\"), &a); return NULL; }\n",
            "PyObject *cc(PyObject *self, PyObject *args) { PyObject *a; PyArg_ParseTuple(args, \"O&\", &a); return NULL; }\n",
            "PyObject *dd(PyObject *self, PyObject *args) { PyObject *a; PyArg_ParseTuple(args, \"y*\", &a); return NULL; }\n",
            "PyObject *ee(PyObject *self, PyObject *args) { PyObject *a; PyArg_ParseTuple(args, \"O||O\", &a, &a); return NULL; }\n",
            "PyObject *ff(PyObject *self, PyObject *args) { PyObject *a; PyArg_ParseTuple(args, \"!\", &a); return NULL; }\n",
            "PyObject *gg(PyObject *self, PyObject *args) { PyObject *a; PyArg_ParseTuple(args, \"OO\", &a); return NULL; }\n",
            "PyObject *hh(PyObject *self, PyObject *args) { PyObject *a; PyArg_ParseTuple(args, \"O\", &a, &a); return NULL; }\n",
            "PyObject *ii(PyObject *self, PyObject *args) { int n; PyArg_ParseTuple(args, \"O\", &n); return NULL; }\n",
            "PyObject *jj(PyObject *self, PyObject *args) { PyObject *a; PyArg_ParseTuple(args, \"i\", &a); return NULL; }\n",
            "PyObject *kk(PyObject *self, PyObject *args) { int n; PyArg_ParseTuple(args, \"l\", &n); return NULL; }\n",
            "PyObject *ll(PyObject *self, PyObject *args) { PyObject *a; PyArg_ParseTuple(args, \"s\", &a); return NULL; }\n",
            "PyObject *mm(PyObject *self, PyObject *args) { PyObject *a; PyArg_ParseTuple(args, \"O\", a); return NULL; }\n",
            "PyObject *nn(PyObject *self, PyObject *args) { PyObject *a; PyArg_ParseTuple(args, \"O!\", 1, &a); return NULL; }\n",
        ),
        2,
        concat!(
            "refused aa 1:77 N11\n",
            "refused bb 2:84 N11\n",
            "refused cc 3:84 N11\n",
            "refused dd 4:84 N11\n",
            "refused ee 5:84 N11\n",
            "refused ff 6:84 N11\n",
            "refused gg 7:84 N11\n",
            "refused hh 8:84 N11\n",
            "refused ii 9:78 N11\n",
            "refused jj 10:84 N11\n",
            "refused kk 11:78 N11\n",
            "refused ll 12:84 N11\n",
            "refused mm 13:84 N11\n",
            "refused nn 14:84 N11\n",
        ),
    ),
    // The tuple stands before the format, and only the address of a local is written to.
    (
        concat!(
            "PyObject *aa(PyObject *self, PyObject *args) { return PyArg_ParseTuple(args) ? NULL : NULL; }\n",
            "PyObject *bb(PyObject *self, PyObject *args) { return PyArg_ParseTuple() ? NULL : NULL; }\n",
            "PyObject *cc(PyObject *self, PyObject *args) { PyObject *a; PyArg_ParseTuple(1, \"O\", &a); return NULL; }\n",
            "PyObject *dd(PyObject *self, PyObject *args) { PyObject *a; PyArg_ParseTuple(args, \"O\", &(a)); return NULL; }\n",
            "PyObject *ee(PyObject *self, PyObject *args) { PyObject *a; Py_INCREF(&a); return NULL; }\n",
        ),
        2,
        concat!(
            "refused aa 1:55 N10\n",
            "refused bb 2:55 N10\n",
            "refused cc 3:61 N10\n",
            "refused dd 4:89 N5\n",
            "refused ee 5:71 N5\n",
        ),
    ),
    // As many items are written as there are, in one tuple that is taken apart.
    (
        concat!(
            "PyObject *aa(PyObject *self, PyObject *args) { PyObject *a, *b = NULL; if (!PyArg_UnpackTuple(args, \"f\", 1, 2, &a, &b)) return NULL; Py_INCREF(a); return a; }\n",
            "PyObject *bb(PyObject *self, PyObject *args) { PyObject *a, *b = NULL; if (!PyArg_UnpackTuple(args, \"f\", 1, 2, &a, &b)) return NULL; return a; }\n",
            "PyObject *cc(PyObject *self, PyObject *args) { PyObject *a, *b = NULL; if (!PyArg_UnpackTuple(args, \"f\", 1, 2, &a, &b)) return NULL; Py_XINCREF(b); return b; }\n",
            "PyObject *dd(PyObject *self, PyObject *args) { PyObject *a, *b = NULL; if (!PyArg_UnpackTuple(args, \"f\", 2, 2, &a, &b)) return NULL; if (b == NULL) Py_DECREF(self); Py_RETURN_NONE; }\n",
            "PyObject *ee(PyObject *self, PyObject *args) { PyObject *a, *b = NULL; if (!PyArg_UnpackTuple(args, \"f\", 1, 2, &a, &b)) return NULL; if (b == NULL) Py_DECREF(self); Py_RETURN_NONE; }\n",
            "PyObject *ff(PyObject *self, PyObject *args) { PyObject *a = NULL; if (!PyArg_UnpackTuple(args, \"f\", 1, 1, &a)) { Py_XINCREF(a); return NULL; } Py_RETURN_NONE; }\n",
            "PyObject *gg(PyObject *self, PyObject *args) { if (!PyArg_UnpackTuple(args, \"f\", 0, 0)) return NULL; Py_RETURN_NONE; }\n",
        ),
        1,
        concat!(
            "clean aa\n",
            "faulty bb 2:134 object K change 0 escaped 1\n",
            "clean cc\n",
            "clean dd\n",
            "faulty ee 5:166 object K change -1 escaped 0\n",
            "clean ff\n",
            "clean gg\n",
        ),
    ),
    // The greatest number is that of the variables, and the least is no greater.
    (
        concat!(
            "PyObject *aa(PyObject *self, PyObject *args) { PyObject *a; PyArg_UnpackTuple(args, \"f\", 1, 2, &a); return NULL; }\n",
            "PyObject *bb(PyObject *self, PyObject *args) { PyObject *a; PyArg_UnpackTuple(args, \"f\", 2, 1, &a); return NULL; }\n",
            "PyObject *cc(PyObject *args, int n) { PyObject *a; PyArg_UnpackTuple(args, \"f\", n, 1, &a); return NULL; }\n",
            "PyObject *dd(PyObject *self, PyObject *args) { PyObject *a; PyArg_UnpackTuple(args, \"f\", -1, 1, &a); return NULL; }\n",
            "PyObject *ee(PyObject *self, PyObject *args) { PyObject *a; PyArg_UnpackTuple(args, \"f\", 0, 1, a); return NULL; }\n",
            "PyObject *ff(PyObject *self, PyObject *args) { int n; PyArg_UnpackTuple(args, \"f\", 0, 1, &n); return NULL; }\n",
            "PyObject *gg(PyObject *self, PyObject *args) { PyArg_UnpackTuple(args, \"f\", 0); return NULL; }\n",
        ),
        2,
        concat!(
            "refused aa 1:61 N10\n",
            "refused bb 2:61 N10\n",
            "refused cc 3:52 N10\n",
            "refused dd 4:61 N10\n",
            "refused ee 5:61 N10\n",
            "refused ff 6:55 N10\n",
            "refused gg 7:48 N10\n",
        ),
    ),
    // A step through a dict writes its position, and borrowed references to a key and a value.
    (
        concat!(
            "void aa(PyObject *d) { Py_ssize_t p = 0; PyObject *v; while (PyDict_Next(d, &p, NULL, &v)) Py_INCREF(v); }\n",
            "void bb(PyObject *d) { Py_ssize_t p; PyObject *k, *v; while (PyDict_Next(d, &p, &k, &v)) Py_INCREF(k); }\n",
            "void cc(PyObject *d) { Py_ssize_t p = 0; PyObject *k = NULL; if (!PyDict_Next(d, &p, &k, NULL)) Py_XINCREF(k); }\n",
            "void dd(PyObject *d) { Py_ssize_t p = 0; PyObject *k; if (PyDict_Next(d, &p, &k, NULL) && p < 0) Py_INCREF(k); }\n",
            "void ee(PyObject *d) { Py_ssize_t p = 0; PyObject *k, *v; while (PyDict_Next(d, &p, &k, &v)) { Py_INCREF(k); Py_DECREF(k); } }\n",
            "PyObject *ff(PyObject *d) { Py_ssize_t p = 0; PyObject *k; if (PyDict_Next(d, &p, &k, NULL)) return k; return NULL; }\n",
            "PyObject *gg(PyObject *d) { Py_ssize_t p = 0; PyObject *k; if (PyDict_Next(d, &p, &k, NULL)) return Py_NewRef(k); return NULL; }\n",
            "void hh(PyObject *d) { Py_ssize_t p = 0; if (PyDict_Next(d, &p, NULL, NULL) > 1) Py_INCREF(d); }\n",
        ),
        1,
        concat!(
            "faulty aa 1:106 object K change 1 escaped 0\n",
            "clean bb\n",
            "clean cc\n",
            "faulty dd 4:112 object K change 1 escaped 0\n",
            "clean ee\n",
            "faulty ff 6:94 object K change 0 escaped 1\n",
            "clean gg\n",
            "clean hh\n",
        ),
    ),
    // The position is a local of that kind, and key and value are locals that hold objects, or NULL.
    (
        concat!(
            "void aa(PyObject *d) { Py_ssize_t p = 0; PyObject *k; PyDict_Next(d, p, &k, NULL); }\n",
            "void bb(PyObject *d) { int p = 0; PyObject *k; PyDict_Next(d, &p, &k, NULL); }\n",
            "void cc(PyObject *d) { Py_ssize_t p = 0; PyObject *k; PyDict_Next(d, &p, &k); }\n",
            "void dd(PyObject *d) { PyObject *k; PyDict_Next(d, NULL, &k, NULL); }\n",
            "void ee(PyObject *d) { Py_ssize_t p = 0; int n; PyDict_Next(d, &p, &n, NULL); }\n",
        ),
        2,
        concat!(
            "refused aa 1:55 N10\n",
            "refused bb 2:48 N10\n",
            "refused cc 3:55 N10\n",
            "refused dd 4:37 N10\n",
            "refused ee 5:49 N10\n",
        ),
    ),
    // A value that is built is a new reference; it takes over what `N` puts into it, also where it can't be built.
    (
        concat!(
            "PyObject *aa(PyObject *x, int n) { return Py_BuildValue(\"(Oi)\", x, n); }\n",
            "PyObject *bb(PyObject *x) { return Py_BuildValue(\"N\", x); }\n",
            "PyObject *cc(void) { PyObject *y = PyLong_FromLong(1); if (!y) return NULL; return Py_BuildValue(\"O\", y); }\n",
            "PyObject *dd(void) { return Py_BuildValue(\"N\", PyLong_FromLong(1)); }\n",
            "PyObject *ee(void) { return Py_BuildValue(\"NN\", PyLong_FromLong(1), PyLong_FromLong(2)); }\n",
            "PyObject *ff(void) { return Py_BuildValue(\"NO\", PyLong_FromLong(1), PyLong_FromLong(2)); }\n",
            "PyObject *gg(PyObject *d, PyObject *k) { return Py_BuildValue(\"O\", PyDict_GetItem(d, k)); }\n",
            "PyObject *hh(const char *s, long m, Py_ssize_t z) { return Py_BuildValue(\"{s:l,z:n}\", \"a\", m, s, z); }\n",
            "PyObject *ii(long m) { return Py_BuildValue(\"[i]\", m); }\n",
            "PyObject *jj(void) { PyObject *a = PyList_New(0); if (a == NULL) return NULL; PyObject *r = Py_BuildValue(\"[OO]\", a, a); Py_DECREF(a); return r; }\n",
            "void kk(PyObject *x) { Py_BuildValue(\"O\", x); }\n",
            "PyObject *ll(void) { return Py_BuildValue(\"\"); }\n",
            "PyObject *mm(PyObject *x) { PyObject *p = NULL; Py_INCREF(x); return Py_BuildValue(\"NN\", x, p); }\n",
            "PyObject *nn(PyObject *x) { PyObject *r = Py_BuildValue(\"O\", NULL); if (r != NULL) Py_INCREF(x); return r; }\n",
            "PyObject *oo(char *s) { return Py_BuildValue(\"s\", s); }\n",
        ),
        1,
        concat!(
            "clean aa\n",
            "faulty bb 2:29 object K change 0 escaped 1\n",
            "faulty cc 3:77 object K change 1 escaped 0\n",
            "clean dd\n",
            "clean ee\n",
            "faulty ff 6:22 object K change 1 escaped 0\n",
            "clean gg\n",
            "clean hh\n",
            "clean ii\n",
            "clean jj\n",
            "faulty kk 11:47 object K change 1 escaped 0\n",
            "clean ll\n",
            "clean mm\n",
            "clean nn\n",
            "clean oo\n",
        ),
    ),
    // Its format stands first.
    (
        concat!(
            "PyObject *aa(char *s, PyObject *x) { return Py_BuildValue(s, x); }\n",
            "PyObject *bb(PyObject *x) { return Py_BuildValue(\"(O\", x); }\n",
            "PyObject *cc(PyObject *x) { return Py_BuildValue(\"O]\", x); }\n",
            "PyObject *dd(PyObject *x) { return Py_BuildValue(\"O&\", x); }\n",
            "PyObject *ee(PyObject *x) { return Py_BuildValue(\"OO\", x); }\n",
            "PyObject *ff(PyObject *x) { return Py_BuildValue(\"O\", x, x); }\n",
            "PyObject *gg(PyObject *x) { return Py_BuildValue(\"i\", x); }\n",
            "PyObject *hh(int n) { return Py_BuildValue(\"O\", n); }\n",
            "PyObject *ii(void) { return Py_BuildValue(); }\n",
        ),
        2,
        concat!(
            "refused aa 1:59 N11\n",
            "refused bb 2:50 N11\n",
            "refused cc 3:50 N11\n",
            "refused dd 4:50 N11\n",
            "refused ee 5:50 N11\n",
            "refused ff 6:50 N11\n",
            "refused gg 7:50 N11\n",
            "refused hh 8:44 N11\n",
            "refused ii 9:29 N10\n",
        ),
    ),
    // They stand where any call may stand: in conditions, a switch, a loop, and functions that are called.
    (
        concat!(
            "static int aa(PyObject *args, int wanted) { PyObject *a; if (!PyArg_ParseTuple(args, \"O\", &a)) return -1; if (wanted) Py_INCREF(a); return 0; }\n",
            "PyObject *bb(PyObject *self, PyObject *args) { if (aa(args, 0) < 0) return NULL; Py_RETURN_NONE; }\n",
            "PyObject *cc(PyObject *self, PyObject *args) { if (aa(args, 1) < 0) return NULL; Py_RETURN_NONE; }\n",
            "PyObject *dd(PyObject *args, int n) { PyObject *a; if (n > 0 && PyArg_ParseTuple(args, \"O\", &a)) { Py_INCREF(a); return a; } return NULL; }\n",
            "PyObject *ee(PyObject *args, int n) { PyObject *a; int r = n ? PyArg_ParseTuple(args, \"O\", &a) : 0; if (!r) return NULL; Py_INCREF(a); return a; }\n",
            "PyObject *ff(PyObject *self, PyObject *args) { PyObject *a; switch (PyArg_ParseTuple(args, \"O\", &a)) { case 1: Py_INCREF(a); return a; case 0: return NULL; default: Py_DECREF(self); return NULL; } }\n",
            "PyObject *gg(PyObject *self, PyObject *args) { PyObject *a = NULL; return PyArg_ParseTuple(args, \"O\", &a) ? Py_BuildValue(\"(NO)\", Py_XNewRef(a), a) : NULL; }\n",
            "PyObject *hh(PyObject *d) { Py_ssize_t p = 0; PyObject *k, *v, *l = PyList_New(0); if (l == NULL) return NULL; while (PyDict_Next(d, &p, &k, &v)) { PyObject *t = Py_BuildValue(\"(OO)\", k, v); if (t == NULL) { Py_DECREF(l); return NULL; } if (PyList_Append(l, t) < 0) { Py_DECREF(t); Py_DECREF(l); return NULL; } Py_DECREF(t); } return l; }\n",
            "PyObject *ii(PyObject *d) { Py_ssize_t p = 0; PyObject *k, *v, *l = PyList_New(0); if (l == NULL) return NULL; while (PyDict_Next(d, &p, &k, &v)) { PyObject *t = Py_BuildValue(\"(OO)\", k, v); if (t == NULL) { Py_DECREF(l); return NULL; } if (PyList_Append(l, t) < 0) { Py_DECREF(l); return NULL; } Py_DECREF(t); } return l; }\n",
        ),
        1,
        concat!(
            "faulty aa 1:133 object K change 1 escaped 0\n",
            "clean bb\n",
            "faulty cc 3:82 object K change 1 escaped 0\n",
            "clean dd\n",
            "clean ee\n",
            "clean ff\n",
            "clean gg\n",
            "clean hh\n",
            "faulty ii 9:283 object K change 1 escaped 0\n",
        ),
    ),
];

#[test]
fn formats(rt: HostRuntime) -> Result<(), Fail> {
    for (text, status, lines) in ROWS {
        assert!(rt; is_told(rt.alloc(), text, *status, lines)?, "at {text}");
    }
    Ok(())
}

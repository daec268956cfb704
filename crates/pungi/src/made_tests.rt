//! What is reported of functions that make objects (`PyObject_New`). The places, changes and escapes were worked out by
//! hand.

use crate::tests::is_told;
use std::test::Fail;

/// Files with their status and the first lines of their verdicts. The number of an object is K.
const ROWS: &[(&str, u8, &str)] = &[
    // An object that is made is a new reference, or NULL.
    (
        concat!(
            "typedef struct { PyObject_HEAD PyObject *item; PyObject *other; long hits; } Box; static PyTypeObject BoxType = { 1 };\n",
            "PyObject *aa(PyObject *self, PyObject *args) { return (PyObject *)PyObject_New(Box, &BoxType); }\n",
            "PyObject *bb(PyObject *self, PyObject *args) { Box *b = PyObject_New(Box, &BoxType); if (b == NULL) return NULL; return NULL; }\n",
            "PyObject *cc(PyObject *self, PyObject *args) { Box *b = PyObject_New(Box, &BoxType); if (b != NULL) Py_DECREF(b); return NULL; }\n",
            "PyObject *dd(PyObject *self, PyObject *args) { Box *b = PyObject_New(Box, &BoxType); if (b == NULL) return NULL; Py_DECREF(b); Py_DECREF(b); return NULL; }\n",
            "PyObject *ee(PyObject *self, PyObject *args) { Box *b = PyObject_New(Box, &BoxType); if (b == NULL) return NULL; Py_DECREF(b); return (PyObject *)b; }\n",
            "PyObject *ff(PyObject *self, PyObject *args) { PyObject_New(Box, &BoxType); return NULL; }\n",
            "PyObject *gg(PyObject *self, PyObject *args) { Py_DECREF(PyObject_New(Box, &BoxType)); return NULL; }\n",
            "PyObject *hh(PyObject *self, PyObject *args) { return (PyObject *)PyObject_New(Box, NULL); }\n",
            "PyObject *ii(PyObject *self, PyObject *args) { Box *b = PyObject_New(Box, &BoxType); Py_XDECREF(b); Py_XDECREF(self); return NULL; }\n",
        ),
        1,
        concat!(
            "clean aa\n",
            "faulty bb 3:114 object K change 1 escaped 0\n",
            "clean cc\n",
            "faulty dd 5:142 object K change -1 escaped 0\n",
            "faulty ee 6:128 object K change 0 escaped 1\n",
            "faulty ff 7:77 object K change 1 escaped 0\n",
            "clean gg\n",
            "clean hh\n",
            "faulty ii 10:119 object K change -1 escaped 0\n",
        ),
    ),
    // Its fields hold nothing before they are written.
    (
        concat!(
            "typedef struct { PyObject_HEAD PyObject *item; PyObject *other; long hits; } Box; static PyTypeObject BoxType = { 1 };\n",
            "PyObject *aa(PyObject *self, PyObject *args) { Box *b = PyObject_New(Box, &BoxType); if (b == NULL) return NULL; PyObject *x = b->item; Py_XINCREF(x); return NULL; }\n",
            "PyObject *bb(PyObject *self, PyObject *args) { Box *b = PyObject_New(Box, &BoxType); if (b == NULL) return NULL; b->item = NULL; Py_XDECREF(b->item); return (PyObject *)b; }\n",
            "PyObject *cc(PyObject *self, PyObject *args) { PyObject *l = PyList_New(0); if (l == NULL) return NULL; Box *b = PyObject_New(Box, &BoxType); if (b == NULL) { Py_DECREF(l); return NULL; } b->item = l; return (PyObject *)b; }\n",
            "PyObject *dd(PyObject *self, PyObject *args) { Box *b = PyObject_New(Box, &BoxType); if (b == NULL) return NULL; b->item = self; return (PyObject *)b; }\n",
            "PyObject *ee(PyObject *self, PyObject *args) { Box *b = PyObject_New(Box, &BoxType); if (b == NULL) return NULL; Py_INCREF(self); b->item = self; return (PyObject *)b; }\n",
            "PyObject *ff(PyObject *self, PyObject *args) { Box *b = PyObject_New(Box, &BoxType); if (b == NULL) return NULL; b->item = PyList_New(0); b->item = NULL; return (PyObject *)b; }\n",
            "PyObject *gg(PyObject *self, PyObject *args) { Box *b = PyObject_New(Box, &BoxType); if (b == NULL) return NULL; b->item = PyList_New(0); Py_CLEAR(b->item); return (PyObject *)b; }\n",
            "PyObject *hh(PyObject *self, PyObject *args) { Box *b = PyObject_New(Box, &BoxType); if (b == NULL) return NULL; Py_CLEAR(b->item); return NULL; }\n",
            "PyObject *ii(PyObject *self, PyObject *args) { Box *b = PyObject_New(Box, &BoxType); if (b == NULL) return NULL; b->item = NULL; PyObject *x = b->other; Py_XINCREF(x); return NULL; }\n",
            "PyObject *jj(PyObject *self, PyObject *args) { Box *b = PyObject_New(Box, &BoxType); if (b == NULL) return NULL; b->hits = 1; if (b->hits == 1) { return NULL; } Py_DECREF(b); return NULL; }\n",
            "PyObject *kk(PyObject *self, PyObject *args) { Box *b = PyObject_New(Box, &BoxType); if (b == NULL) return NULL; b->hits++; return NULL; }\n",
        ),
        1,
        concat!(
            "clean aa\n",
            "clean bb\n",
            "clean cc\n",
            "faulty dd 5:130 object K change 0 escaped 1\n",
            "clean ee\n",
            "faulty ff 7:155 object K change 1 escaped 0\n",
            "clean gg\n",
            "clean hh\n",
            "clean ii\n",
            "faulty jj 11:147 object K change 1 escaped 0\n",
            "clean kk\n",
        ),
    ),
    // It is another object than each that was there before, and than each that a slot held at entry.
    (
        concat!(
            "typedef struct { PyObject_HEAD PyObject *item; PyObject *other; long hits; } Box; static PyTypeObject BoxType = { 1 };\n",
            "PyObject *aa(PyObject *self, PyObject *args) { Box *b = PyObject_New(Box, &BoxType); Box *c = PyObject_New(Box, &BoxType); if (b != NULL && b == c) Py_INCREF(self); Py_XDECREF(b); Py_XDECREF(c); return NULL; }\n",
            "PyObject *bb(PyObject *self, PyObject *args) { Box *b = PyObject_New(Box, &BoxType); if (b == NULL) return NULL; if ((PyObject *)b == self) Py_INCREF(args); Py_DECREF(b); return NULL; }\n",
            "PyObject *cc(PyObject *self, PyObject *args) { Box *b = PyObject_New(Box, &BoxType); if (b == NULL) return NULL; PyObject *x = PyList_GetItem(self, 0); if (x == (PyObject *)b) Py_INCREF(args); Py_DECREF(b); return NULL; }\n",
            "PyObject *dd(PyObject *self, PyObject *args) { PyObject *x = PyList_GetItem(self, 0); Box *b = PyObject_New(Box, &BoxType); if (b == NULL) return NULL; if (x == (PyObject *)b) Py_INCREF(args); Py_DECREF(b); return NULL; }\n",
            "PyObject *ee(PyObject *self, PyObject *args) { Box *b = PyObject_New(Box, &BoxType); if (b == NULL) return NULL; PyObject *x = ((Box *)self)->item; if (x == (PyObject *)b) Py_INCREF(args); Py_DECREF(b); return NULL; }\n",
            "PyObject *ff(PyObject *self, PyObject *args) { PyObject *x = ((Box *)self)->item; Box *b = PyObject_New(Box, &BoxType); if (b == NULL) return NULL; if (x == (PyObject *)b) Py_INCREF(args); Py_DECREF(b); return NULL; }\n",
            "PyObject *gg(PyObject *self, PyObject *args) { Box *b = PyObject_New(Box, &BoxType); if (b == NULL) return NULL; if ((PyObject *)b == Py_None) Py_INCREF(args); Py_DECREF(b); return NULL; }\n",
            "PyObject *hh(PyObject *self, PyObject *args) { Box *b = PyObject_New(Box, &BoxType); if (b == NULL) return NULL; PyObject *x = PyObject_Str(self); if (x == (PyObject *)b) { Py_DECREF(x); Py_DECREF(b); return NULL; } Py_XDECREF(x); Py_DECREF(b); return NULL; }\n",
        ),
        1,
        concat!(
            "clean aa\n",
            "clean bb\n",
            "faulty cc 4:208 object K change 1 escaped 0\n",
            "clean dd\n",
            "clean ee\n",
            "clean ff\n",
            "clean gg\n",
            "clean hh\n",
        ),
    ),
    // A field of an object that a call returned may be one of an object that was made before.
    (
        concat!(
            "typedef struct { PyObject_HEAD PyObject *item; PyObject *other; long hits; } Box; static PyTypeObject BoxType = { 1 };\n",
            "PyObject *aa(PyObject *self, PyObject *args) { Box *b = PyObject_New(Box, &BoxType); if (b == NULL) return NULL; b->item = NULL; Box *c = (Box *)PyList_GetItem(self, 0); if (c == NULL) { Py_DECREF(b); return NULL; } PyObject *x = c->item; Py_XINCREF(x); Py_DECREF(b); return x; }\n",
            "PyObject *bb(PyObject *self, PyObject *args) { Box *b = PyObject_New(Box, &BoxType); if (b == NULL) return NULL; Box *c = (Box *)PyList_GetItem(self, 0); if (c == NULL) { Py_DECREF(b); return NULL; } PyObject *x = c->item; Py_XINCREF(x); Py_DECREF(b); return x; }\n",
            "PyObject *cc(PyObject *self, PyObject *args) { Box *b = PyObject_New(Box, &BoxType); if (b == NULL) return NULL; Box *c = (Box *)PyList_GetItem(self, 0); if (c == NULL) { Py_DECREF(b); return NULL; } c->item = NULL; if (b->item == NULL) { Py_DECREF(b); return NULL; } return NULL; }\n",
            "PyObject *dd(PyObject *self, PyObject *args) { Box *b = PyObject_New(Box, &BoxType); if (b == NULL) return NULL; Box *c = (Box *)PyList_GetItem(self, 0); if (c == NULL) { Py_DECREF(b); return NULL; } Py_CLEAR(c->item); Py_DECREF(b); return NULL; }\n",
            "PyObject *ee(PyObject *self, PyObject *args) { Box *b = PyObject_New(Box, &BoxType); if (b == NULL) return NULL; b->item = NULL; Box *c = (Box *)PyList_GetItem(self, 0); if (c == NULL) { Py_DECREF(b); return NULL; } c->item = PyList_New(0); if (b->item != NULL) { Py_CLEAR(b->item); Py_DECREF(b); return NULL; } Py_DECREF(b); return NULL; }\n",
        ),
        1,
        concat!(
            "clean aa\n",
            "clean bb\n",
            "clean cc\n",
            "clean dd\n",
            "faulty ee 6:327 object K change 0 escaped -1\n",
        ),
    ),
    // Objects are made in helpers and in loops.
    (
        concat!(
            "typedef struct { PyObject_HEAD PyObject *item; PyObject *other; long hits; } Box; static PyTypeObject BoxType = { 1 };\n",
            "Box *new_box(PyObject *item) { Box *b = PyObject_New(Box, &BoxType); if (b == NULL) return NULL; Py_INCREF(item); b->item = item; return b; }\n",
            "PyObject *aa(PyObject *self, PyObject *args) { Box *b = new_box(self); if (b == NULL) return NULL; b->other = NULL; return (PyObject *)b; }\n",
            "PyObject *bb(PyObject *self, PyObject *args) { Box *b = new_box(self); if (b == NULL) return NULL; PyObject *x = b->other; Py_XINCREF(x); return NULL; }\n",
            "PyObject *cc(PyObject *self, PyObject *args) { Box *b = new_box(self); if (b == NULL) return NULL; if (b->item != self) Py_INCREF(args); Py_CLEAR(b->item); Py_DECREF(b); return NULL; }\n",
            "PyObject *dd(PyObject *self, PyObject *args) { Box *b = new_box(self); if (b == NULL) return NULL; Py_DECREF(b); return NULL; }\n",
            "PyObject *ee(int n) { while (n > 0) { Box *b = PyObject_New(Box, &BoxType); if (b == NULL) break; Py_DECREF(b); n--; } return NULL; }\n",
            "PyObject *ff(int n) { while (n > 0) { Box *b = PyObject_New(Box, &BoxType); if (b == NULL) return NULL; n--; } return NULL; }\n",
            "PyObject *gg(int n) { Box *b = NULL; while (n > 0) { Py_XDECREF(b); b = PyObject_New(Box, &BoxType); if (b == NULL) return NULL; b->item = NULL; n--; } return (PyObject *)b; }\n",
        ),
        1,
        concat!(
            "clean new_box\n",
            "clean aa\n",
            "clean bb\n",
            "clean cc\n",
            "clean dd\n",
            "clean ee\n",
            "faulty ff 8:92 object K change 1 escaped 0\n",
            "clean gg\n",
        ),
    ),
    // The type is that of an object struct, and the argument an object.
    (
        concat!(
            "typedef struct { PyObject_HEAD PyObject *item; PyObject *other; long hits; } Box; static PyTypeObject BoxType = { 1 };\n",
            "PyObject *aa(PyObject *self, PyObject *args) { return PyObject_New(PyObject, &BoxType); }\n",
            "PyObject *bb(PyObject *self, PyObject *args) { PyObject_New(Box *, &BoxType); return NULL; }\n",
            "PyObject *cc(PyObject *self, PyObject *args) { PyObject_New(int, &BoxType); return NULL; }\n",
            "PyObject *dd(PyObject *self, PyObject *args) { PyObject_New(Box, 1); return NULL; }\n",
            "PyObject *ee(PyObject *self, PyObject *args) { PyObject_New(Box, \"x\"); return NULL; }\n",
            "PyObject *ff(PyObject *self, PyObject *args) { PyObject_New(struct none, &BoxType); return NULL; }\n",
            "PyObject *gg(PyObject *self, PyObject *args) { PyObject_New(Box, BoxType); return NULL; }\n",
            "PyObject *hh(PyObject *self, PyObject *args) { Box *b = PyObject_New(Box, &BoxType); if (b == NULL) return NULL; return b->missing; }\n",
            "PyObject *ii(PyObject *self, PyObject *args) { int x = PyObject_New(Box, &BoxType); return NULL; }\n",
            "PyObject *jj(PyObject *self, PyObject *args) { PyObject_New(Box, PyErr_Clear()); return NULL; }\n",
            "PyObject *kk(PyObject *self, PyObject *args) { PyObject_New(Box, &missing); return NULL; }\n",
            "PyObject *ll(PyObject *self, PyObject *args) { PyObject_New(PyTypeObject, &BoxType); return NULL; }\n",
        ),
        2,
        concat!(
            "refused aa 2:55 N10\n",
            "refused bb 3:48 N10\n",
            "refused cc 4:48 N10\n",
            "refused dd 5:48 N10\n",
            "refused ee 6:48 N10\n",
            "refused ff 7:48 N10\n",
            "refused gg 8:66 N9\n",
            "refused hh 9:122 N12\n",
            "refused ii 10:52 N10\n",
            "refused jj 11:66 N10\n",
            "refused kk 12:66 N5\n",
            "refused ll 13:48 N10\n",
        ),
    ),
];

#[test]
fn made_objects(rt: HostRuntime) -> Result<(), Fail> {
    for (text, status, lines) in ROWS {
        assert!(rt; is_told(rt.alloc(), text, *status, lines)?, "at {text}");
    }
    Ok(())
}

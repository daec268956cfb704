//! What is reported of whole functions: those of the manual's calls on their failure paths, fields, globals,
//! comparisons, loops, and what is not judged yet. The places, changes and escapes were worked out by hand.

use crate::tests::is_told;
use pungi_base::Memory;
use std::alloc::Global;
use std::fmt::Write;
use std::test::Fail;

/// Files with their status and the first lines of their verdicts. The number of an object is K.
const VERDICTS: &[(&str, u8, &str)] = &[
    (
        "PyObject *f(PyObject *self, PyObject *l) { if (PyList_Append(l, PyLong_FromLong(1)) < 0) return NULL; Py_RETURN_NONE; }",
        1,
        "faulty f 1:90 object K change 1 escaped 0\n",
    ),
    (
        "PyObject *f(PyObject *self, PyObject *l) { PyObject *n = PyLong_FromLong(1); if (n == NULL) return NULL; if (PyList_Append(l, n) < 0) { Py_DECREF(n); return NULL; } Py_DECREF(n); Py_RETURN_NONE; }",
        0,
        "clean f\n",
    ),
    (
        "PyObject *f(PyObject *self, PyObject *l) { PyObject *n = PyLong_FromLong(1); if (n == NULL) return NULL; if (PyList_Append(l, n) < 0) return NULL; Py_DECREF(n); Py_RETURN_NONE; }",
        1,
        "faulty f 1:135 object K change 1 escaped 0\n",
    ),
    (
        "int f(PyObject *l, PyObject *x) { Py_INCREF(x); if (PyList_SetItem(l, 0, x) < 0) { Py_DECREF(x); return -1; } return 0; }",
        1,
        "faulty f 1:98 object K change 0 escaped 1\n",
    ),
    (
        "int f(PyObject *l, PyObject *x) { Py_INCREF(x); if (PyList_SetItem(l, 0, x) < 0) { return -1; } return 0; }",
        0,
        "clean f\n",
    ),
    (
        "int f(PyObject *m, PyObject *x) { Py_INCREF(x); if (PyModule_AddObject(m, \"x\", x) < 0) { Py_DECREF(x); return -1; } return 0; }",
        0,
        "clean f\n",
    ),
    (
        "int f(PyObject *m, PyObject *x) { Py_INCREF(x); if (PyModule_AddObject(m, \"x\", x) < 0) { return -1; } return 0; }",
        1,
        "faulty f 1:90 object K change 1 escaped 0\n",
    ),
    (
        "typedef struct { PyObject_HEAD PyObject *first; } Box; void f(Box *self, PyObject *x) { PyObject *tmp = self->first; Py_INCREF(x); self->first = x; Py_XDECREF(tmp); }",
        0,
        "clean f\n",
    ),
    (
        "typedef struct { PyObject_HEAD PyObject *first; } Box; void f(Box *self, PyObject *x) { PyObject *tmp = self->first; Py_INCREF(x); self->first = x; }",
        1,
        "faulty f 1:149 object K change 0 escaped -1\n",
    ),
    (
        "void f(PyObject *x, PyObject *y) { if (x == y) { Py_INCREF(x); Py_DECREF(y); } }",
        0,
        "clean f\n",
    ),
    (
        "void f(PyObject *x, PyObject *y) { if (x != y) { Py_INCREF(x); Py_DECREF(y); } }",
        1,
        "faulty f 1:80 object K change 1 escaped 0\n",
    ),
    (
        "typedef struct { PyObject_HEAD PyObject *first; } Box; void f(Box *a, Box *b, PyObject *x) { PyObject *old = a->first; Py_XINCREF(x); a->first = x; Py_XDECREF(old); if (a == b) { Py_XINCREF(old); Py_XDECREF(b->first); b->first = old; } }",
        0,
        "clean f\n",
    ),
    (
        "static PyObject *cache; PyObject *f(PyObject *k) { if (cache == NULL) { cache = PyDict_New(); if (cache == NULL) return NULL; } return Py_XNewRef(PyDict_GetItem(cache, k)); }",
        0,
        "clean f\n",
    ),
    (
        "static PyObject *cache; PyObject *f(PyObject *k) { if (cache == NULL) { cache = PyDict_New(); if (cache == NULL) return NULL; } return PyDict_GetItem(cache, k); }",
        1,
        "faulty f 1:129 object K change 0 escaped 1\n",
    ),
    (
        "static PyObject *cache; void f(PyObject *v) { Py_XINCREF(v); cache = v; }",
        1,
        "faulty f 1:73 object K change 0 escaped -1\n",
    ),
    (
        "static PyObject *cache; void f(PyObject *v) { PyObject *old = cache; Py_XINCREF(v); cache = v; Py_XDECREF(old); }",
        0,
        "clean f\n",
    ),
    (
        "PyObject *f(PyObject *x) { return x ? Py_NewRef(x) : NULL; }",
        0,
        "clean f\n",
    ),
    (
        "PyObject *f(PyObject *x) { return x; }",
        1,
        "faulty f 1:28 object K change 0 escaped 1\n",
    ),
    (
        "void f(PyObject *x) { if (!x) return; Py_INCREF(x); Py_DECREF(x); }",
        0,
        "clean f\n",
    ),
    (
        "int f(PyObject *a, PyObject *b) { if (!a || !b) return -1; if (a != b && PyObject_IsTrue(a) > 0) { Py_INCREF(b); Py_DECREF(b); } return 0; }",
        0,
        "clean f\n",
    ),
    (
        "int f(PyObject *a, PyObject *b) { if (a == b || PyObject_IsTrue(a) != 0) { Py_INCREF(b); return 1; } return 0; }",
        1,
        "faulty f 1:90 object K change 1 escaped 0\n",
    ),
    (
        "int f(PyObject *a) { switch (PyObject_IsTrue(a)) { case 1: return 1; case 0: return 0; default: return -1; } }",
        0,
        "clean f\n",
    ),
    (
        "int f(PyObject *a) { switch (PyObject_IsTrue(a)) { case 1: Py_INCREF(a); case 0: Py_DECREF(a); return 0; default: return -1; } }",
        1,
        "faulty f 1:96 object K change -1 escaped 0\n",
    ),
    (
        "PyObject *f(PyObject *x) { PyObject *a = PyList_New(0); PyObject *b = NULL; if (a == NULL) goto fail; b = PyList_New(0); if (b == NULL) goto fail; if (PyList_Append(a, b) < 0) goto fail; Py_DECREF(b); return a; fail: Py_XDECREF(a); Py_XDECREF(b); return NULL; }",
        0,
        "clean f\n",
    ),
    (
        "PyObject *f(PyObject *x) { PyObject *a = PyList_New(0); PyObject *b = NULL; if (a == NULL) goto fail; b = PyList_New(0); if (b == NULL) goto fail; if (PyList_Append(a, b) < 0) goto fail; Py_DECREF(b); return a; fail: Py_XDECREF(b); return NULL; }",
        1,
        "faulty f 1:233 object K change 1 escaped 0\n",
    ),
    (
        "int f(PyObject *x) { if (x) { Py_INCREF(x); Py_DECREF(x); Py_DECREF(x); Py_INCREF(x); } }",
        0,
        "clean f\n",
    ),
    (
        "int f(PyObject *x, int n) { return n; }\nint g(PyObject *x) { int i = 0; return i; }",
        0,
        "clean f\nclean g\n",
    ),
    (
        "void f(PyObject *x) { while (x) Py_INCREF(x); }\nvoid g(PyObject *x) { again: if (x) goto again; }\nvoid h(PyObject *x) { if (x) goto end; end: ; }",
        0,
        "clean f\nclean g\nclean h\n",
    ),
    (
        "void f(PyObject *x) { }\nvoid g(PyObject *x) { f(x); }",
        0,
        "clean f\nclean g\n",
    ),
    (
        "static long hits; void f(void) { hits = 1; }\nlong g(PyObject *x) { return PyObject_Size(x); }",
        0,
        "clean f\nclean g\n",
    ),
    (
        "int f(void) { return 1 + 1; }\nint g(void) { return -1; }\nint h(PyObject *a, PyObject *b) { return a == b; }",
        0,
        "clean f\nclean g\nclean h\n",
    ),
    (
        "void f(int n) { int i; PyObject *p; for (i = 0; i < n; i++) p = PyList_New(0); }",
        1,
        "faulty f 1:80 object K change 1 escaped 0\n",
    ),
    (
        "void f(int n) { int i; PyObject *p = NULL; for (i = 0; i < n; i++) p = PyList_New(0); Py_XDECREF(p); }",
        2,
        "unknown f loop 1:44\n",
    ),
    (
        "void f(PyObject *x, int n) { int i; for (i = 0; i != n; i++) Py_INCREF(x); for (i = 0; i != n; i++) Py_DECREF(x); }",
        0,
        "clean f\n",
    ),
    (
        "void f(PyObject *x, int n) { int i; for (i = 0; i < n; i++) Py_INCREF(x); for (i = 0; i < n; i++) Py_DECREF(x); }",
        2,
        "unknown f loop 1:37\n",
    ),
    (
        "void f(PyObject *x, int n) { int i; if (n == 3) { for (i = 0; i < n; i++) Py_INCREF(x); for (i = 0; i < n; i++) Py_DECREF(x); } }",
        2,
        "unknown f loop 1:51\n",
    ),
    (
        "PyObject *f(int n) { int i; PyObject *p = NULL; for (i = 0; i < n; i++) { p = PyList_New(0); if (p == NULL) return NULL; } Py_XDECREF(p); return NULL; }",
        1,
        "faulty f 1:109 object K change 1 escaped 0\n",
    ),
    (
        "PyObject *f(PyObject *x, int n) { while (n > 0) { PyObject *p = PyList_New(0); if (p == NULL) return NULL; if (PyObject_IsTrue(x) < 0) return NULL; Py_DECREF(p); n--; } return NULL; }",
        1,
        "faulty f 1:136 object K change 1 escaped 0\n",
    ),
    (
        "PyObject *f(PyObject *x, int n) { while (n > 0) n--; return x; }",
        1,
        "faulty f 1:54 object K change 0 escaped 1\n",
    ),
    (
        "void f(PyObject *x) { int i; for (i = 0; i < 1; i++) { Py_INCREF(x); Py_DECREF(x); } }",
        0,
        "clean f\n",
    ),
    (
        "void f(PyObject *x) { int i; for (i = 0; i < 1; i++) Py_INCREF(x); }",
        1,
        "faulty f 1:68 object K change 1 escaped 0\n",
    ),
    (
        "void f(PyObject *x) { int i; for (i = 0; i < 2; i++) { Py_INCREF(x); Py_DECREF(x); } }",
        0,
        "clean f\n",
    ),
    (
        "void f(PyObject *x, int n) { if (n > 1) return; while (n > 0) { Py_INCREF(x); n--; Py_DECREF(x); } }",
        0,
        "clean f\n",
    ),
    (
        "void f(PyObject *x) { for (;;) { Py_INCREF(x); break; } Py_DECREF(x); }",
        0,
        "clean f\n",
    ),
    (
        "void f(PyObject *x) { for (;;) { if (PyObject_IsTrue(x) != 0) break; } }",
        0,
        "clean f\n",
    ),
    (
        "void f(PyObject *x) { do { Py_INCREF(x); Py_DECREF(x); } while (0); }",
        0,
        "clean f\n",
    ),
    (
        "void f(PyObject *x) { do Py_INCREF(x); while (PyObject_IsTrue(x) > 0); Py_DECREF(x); }",
        1,
        "faulty f 1:86 object K change 1 escaped 0\n",
    ),
    (
        "void f(PyObject *x) { do { Py_INCREF(x); Py_DECREF(x); } while (PyObject_IsTrue(x) > 0); }",
        0,
        "clean f\n",
    ),
    (
        "void f(PyObject *x, int n) { int i, j; for (i = 0; i < n; i++) for (j = 0; j < n; j++) { Py_INCREF(x); Py_DECREF(x); } }",
        0,
        "clean f\n",
    ),
    (
        "void f(PyObject *x, int n) { int i, j; for (i = 0; i < n; i++) for (j = 0; j < 0; j++) Py_INCREF(x); }",
        0,
        "clean f\n",
    ),
    (
        "void f(PyObject *x) { again: Py_INCREF(x); if (PyObject_IsTrue(x) > 0) goto again; Py_DECREF(x); }",
        1,
        "faulty f 1:98 object K change 1 escaped 0\n",
    ),
    (
        "int f(PyObject *x, int n, int m) { if (x) return n * m; while (m > 0) m--; return m; }",
        0,
        "clean f\n",
    ),
    (
        "int f(PyObject *x, int n, int m) { if (n * m > 7) Py_INCREF(x); while (m > 0) m--; return m; }",
        2,
        "unknown f number 1:46\n",
    ),
    (
        "void f(PyObject *x, int n) { int i; for (i = 0; i < n; i++) { Py_INCREF(x); Py_DECREF(x); } }",
        0,
        "clean f\n",
    ),
    (
        "void f(PyObject *x, PyObject *y, int n) { int i; int j = 0; for (i = 0; i != n; i++) { Py_INCREF(x); Py_INCREF(y); j = j + 1; } for (i = 0; i != j; i++) { Py_DECREF(x); Py_DECREF(y); } }",
        0,
        "clean f\n",
    ),
    (
        "void f(PyObject *x, int n, int m) { int i; for (i = n; i != m; i++) Py_INCREF(x); for (; i != n; i--) Py_DECREF(x); }",
        0,
        "clean f\n",
    ),
    (
        "void f(int n) { PyObject *p = NULL; while (n > 0) { Py_XDECREF(p); p = PyList_New(0); n--; } Py_XDECREF(p); }",
        0,
        "clean f\n",
    ),
];

#[test]
fn verdicts(rt: HostRuntime) -> Result<(), Fail> {
    for (text, status, lines) in VERDICTS {
        assert!(rt; is_told(rt.alloc(), text, *status, lines)?, "at {text}");
    }
    Ok(())
}

/// Twenty objects, each of which may fail to be made, and one way out.
fn twenty(alloc: Global) -> Result<String, Memory> {
    let mut text = String::new(alloc);
    write!(&mut text, "PyObject *f(void) {{\n")?;
    for k in 1u32..21 {
        write!(&mut text, "PyObject *p{k} = NULL;\n")?;
    }
    for k in 1u32..21 {
        write!(
            &mut text,
            "p{k} = PyList_New(0); if (p{k} == NULL) goto fail;\n"
        )?;
    }
    write!(&mut text, "fail:\n")?;
    for k in 1u32..21 {
        write!(&mut text, "Py_XDECREF(p{k});\n")?;
    }
    write!(&mut text, "return NULL;\n}}\n")?;
    Ok(text)
}

/// A function that tests of each of so many arguments whether it is `NULL`: it has 2 to the number traces.
fn asking(alloc: Global, count: u32) -> Result<String, Memory> {
    let mut text = String::from_str(alloc, "void f(PyObject *p0")?;
    for k in 1..count {
        write!(&mut text, ", PyObject *p{k}")?;
    }
    write!(&mut text, ") {{\n")?;
    for k in 0..count {
        write!(&mut text, "if (p{k}) ;\n")?;
    }
    write!(&mut text, "}}\n")?;
    Ok(text)
}

#[test]
fn many_ways_out(rt: HostRuntime) -> Result<(), Fail> {
    let text = twenty(rt.alloc())?;
    assert!(rt; is_told(rt.alloc(), text.as_str(), 0, "clean f\n")?);
    Ok(())
}

/// 16,384 traces are judged, and one function with twice as many is unknown.
#[test]
fn limit_of_traces(rt: HostRuntime) -> Result<(), Fail> {
    let most = asking(rt.alloc(), 14)?;
    assert!(rt; is_told(rt.alloc(), most.as_str(), 0, "clean f\n")?);
    let more = asking(rt.alloc(), 15)?;
    assert!(rt; is_told(rt.alloc(), more.as_str(), 2, "unknown f traces\n")?);
    Ok(())
}

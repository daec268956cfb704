//! What is reported of functions under a profile and declared conventions. The places, changes and escapes were worked out
//! by hand.

use crate::config_tests::texts;
use crate::tests::{heads, judged, words};
use pungi_base::Memory;
use pungi_in_memory::SureSink;
use std::alloc::Global;
use std::test::Fail;

/// Whether a file has this status and these first lines of verdicts under a configuration.
fn is_told(
    alloc: Global,
    config: &str,
    text: &str,
    status: u8,
    lines: &str,
) -> Result<bool, Memory> {
    let words = words(alloc, &["pungi", "--config", "c.toml", "x.c"])?;
    let out = SureSink::new(alloc, 8192)?;
    let texts = texts(alloc, config.as_bytes(), text.as_bytes())?;
    let (found, out) = judged(alloc, &words, texts, out);
    let heads = heads(alloc, out.bytes())?;
    Ok(found == status && heads.as_slice() == lines.as_bytes())
}

/// Configurations, each with a file, its status and the first lines of its verdicts. The number of an object is K.
const ROWS: &[(&str, &str, u8, &str)] = &[
    // `Py_None` is immortal in 3.12, and no reference to it is counted.
    (
        "profile = \"3.12\"\n",
        concat!(
            "PyObject *aa(PyObject *self, PyObject *args) { return Py_None; }\n",
            "PyObject *bb(PyObject *x) { if (x == Py_None) return x; return Py_XNewRef(x); }\n",
            "void cc(void) { Py_INCREF(PyExc_ValueError); }\n",
            "PyObject *dd(int n) { if (n) return Py_True; return Py_False; }\n",
            "PyObject *ee(void) { Py_DECREF(Py_None); return NULL; }\n",
            "PyObject *ff(PyObject *x) { return x; }\n",
            "void gg(PyObject *x) { if (x != Py_None) { Py_INCREF(x); } }\n",
            "void hh(PyObject *x) { if (x == Py_None) { Py_INCREF(x); } }\n",
            "void ii(PyObject *x) { if (x == Py_None || x == Py_False) Py_INCREF(x); }\n",
            "void jj(void) { Py_INCREF(&PyList_Type); }\n",
            "void kk(int n) { int i; for (i = 0; i < n; i++) Py_INCREF(Py_None); }\n",
            "void ll(PyObject *x, int n) { int i; for (i = 0; i != n; i++) { Py_INCREF(Py_True); Py_INCREF(x); } for (i = 0; i != n; i++) Py_DECREF(x); }",
        ),
        1,
        concat!(
            "clean aa\n",
            "clean bb\n",
            "faulty cc 3:46 object K change 1 escaped 0\n",
            "clean dd\n",
            "clean ee\n",
            "faulty ff 6:29 object K change 0 escaped 1\n",
            "faulty gg 7:60 object K change 1 escaped 0\n",
            "clean hh\n",
            "clean ii\n",
            "faulty jj 10:42 object K change 1 escaped 0\n",
            "clean kk\n",
            "clean ll\n",
        ),
    ),
    // In 3.11 it is counted, and so it is without the key.
    (
        "profile = \"3.11\"\n",
        concat!(
            "PyObject *aa(PyObject *self, PyObject *args) { return Py_None; }\n",
            "PyObject *bb(PyObject *x) { if (x == Py_None) return x; return Py_XNewRef(x); }\n",
            "void cc(void) { Py_INCREF(PyExc_ValueError); }\n",
            "void hh(PyObject *x) { if (x == Py_None) { Py_INCREF(x); } }",
        ),
        1,
        concat!(
            "faulty aa 1:48 object K change 0 escaped 1\n",
            "faulty bb 2:47 object K change 0 escaped 1\n",
            "faulty cc 3:46 object K change 1 escaped 0\n",
            "faulty hh 4:60 object K change 1 escaped 0\n",
        ),
    ),
    (
        "",
        "PyObject *bb(PyObject *x) { if (x == Py_None) return x; return Py_XNewRef(x); }",
        1,
        "faulty bb 1:47 object K change 0 escaped 1\n",
    ),
    // A function that lends what it returns.
    (
        concat!(
            "[convention.aa]\n",
            "returns = \"borrowed\"\n",
            "[convention.bb]\n",
            "returns = \"borrowed\"\n",
            "[convention.cc]\n",
            "returns = \"borrowed\"\n",
            "[convention.dd]\n",
            "returns = \"borrowed\"\n",
            "[convention.ee]\n",
            "returns = \"borrowed\"\n",
            "[convention.ff]\n",
            "returns = \"borrowed\"\n",
        ),
        concat!(
            "typedef struct { PyObject_HEAD PyObject *item; } Box; PyObject *aa(PyObject *x) { return x; }\n",
            "PyObject *bb(PyObject *x) { return Py_NewRef(x); }\n",
            "PyObject *cc(Box *b) { return b->item; }\n",
            "PyObject *dd(PyObject *l) { return PyList_GetItem(l, 0); }\n",
            "PyObject *ee(void) { return PyLong_FromLong(1); }\n",
            "Box *ff(Box *b, int n) { int i; for (i = 0; i < n; i++) { } return b; }\n",
            "PyObject *gg(PyObject *x) { return x; }",
        ),
        1,
        concat!(
            "clean aa\n",
            "faulty bb 2:29 object K change 1 escaped 0\n",
            "clean cc\n",
            "clean dd\n",
            "faulty ee 5:22 object K change 1 escaped 0\n",
            "clean ff\n",
            "faulty gg 7:29 object K change 0 escaped 1\n",
        ),
    ),
    // A new reference is what a function returns of which nothing is declared.
    (
        concat!("[convention.aa]\n", "returns = \"new\"\n",),
        "PyObject *aa(PyObject *x) { return x; }",
        1,
        "faulty aa 1:29 object K change 0 escaped 1\n",
    ),
    // A function that takes over the reference of a parameter, and what it has to do with it.
    (
        concat!(
            "[convention.aa]\n",
            "takes = [1]\n",
            "[convention.bb]\n",
            "takes = [1]\n",
            "[convention.cc]\n",
            "takes = [1]\n",
            "[convention.dd]\n",
            "takes = [2]\n",
            "[convention.ee]\n",
            "takes = [2]\n",
            "[convention.ff]\n",
            "takes = [1, 2]\n",
            "[convention.gg]\n",
            "takes = [1]\n",
            "[convention.hh]\n",
            "takes = [2, 1]\n",
            "[convention.ii]\n",
            "takes = [1]\n",
            "[convention.jj]\n",
            "takes = [2]\n",
            "[convention.kk]\n",
            "takes = [1, 2]\n",
            "[convention.ll]\n",
            "takes = [1]\n",
            "[convention.mm]\n",
            "takes = [1]\n",
            "[convention.nn]\n",
            "takes = [1]\n",
        ),
        concat!(
            "typedef struct { PyObject_HEAD PyObject *item; } Box; void aa(PyObject *x) { Py_XDECREF(x); }\n",
            "void bb(PyObject *x) { }\n",
            "void cc(PyObject *x) { Py_DECREF(x); }\n",
            "int dd(PyObject *l, PyObject *x) { return PyList_SetItem(l, 0, x); }\n",
            "void ee(Box *b, PyObject *x) { PyObject *old = b->item; b->item = x; Py_XDECREF(old); }\n",
            "void ff(PyObject *x, PyObject *y) { Py_XDECREF(x); Py_XDECREF(y); }\n",
            "void gg(PyObject *x, PyObject *y) { Py_XDECREF(x); Py_XDECREF(y); }\n",
            "void hh(PyObject *x, PyObject *y) { if (x == y) { Py_XDECREF(x); Py_XDECREF(x); } else { Py_XDECREF(x); Py_XDECREF(y); } }\n",
            "PyObject *ii(PyObject *x) { return x; }\n",
            "int jj(PyObject *l, PyObject *x) { if (PyList_Append(l, x) < 0) return -1; Py_DECREF(x); return 0; }\n",
            "void kk(PyObject *x, PyObject *y) { Py_XDECREF(y); }\n",
            "void ll(PyObject *x, int n) { int i; for (i = 0; i < n; i++) { } Py_XDECREF(x); }\n",
            "void mm(PyObject *x, int n) { int i; for (i = 0; i != n; i++) Py_INCREF(x); for (i = 0; i != n; i++) Py_DECREF(x); Py_XDECREF(x); }\n",
            "void nn(PyObject *x) { if (x == NULL) return; Py_DECREF(x); }",
        ),
        1,
        concat!(
            "clean aa\n",
            "faulty bb 2:24 object K change 0 escaped -1\n",
            "clean cc\n",
            "clean dd\n",
            "clean ee\n",
            "clean ff\n",
            "faulty gg 7:67 object K change -1 escaped 0\n",
            "clean hh\n",
            "clean ii\n",
            "faulty jj 10:65 object K change 0 escaped -1\n",
            "faulty kk 11:52 object K change 0 escaped -1\n",
            "clean ll\n",
            "clean mm\n",
            "clean nn\n",
        ),
    ),
    // Both at once, and the profile too.
    (
        concat!(
            "profile = \"3.12\"\n",
            "[convention.aa]\n",
            "returns = \"borrowed\"\n",
            "takes = [1]\n",
            "[convention.bb]\n",
            "returns = \"borrowed\"\n",
            "takes = [1]\n",
            "[convention.cc]\n",
            "takes = [1]\n",
            "[convention.dd]\n",
            "returns = \"borrowed\"\n",
        ),
        concat!(
            "PyObject *aa(PyObject *x) { return x; }\n",
            "PyObject *bb(PyObject *x) { Py_XDECREF(x); return x; }\n",
            "void cc(PyObject *x) { if (x != Py_None) Py_XDECREF(x); }\n",
            "PyObject *dd(PyObject *x) { if (x == Py_None) return Py_NewRef(x); return x; }",
        ),
        1,
        concat!(
            "faulty aa 1:29 object K change 0 escaped -1\n",
            "clean bb\n",
            "clean cc\n",
            "clean dd\n",
        ),
    ),
    // A convention counts where its function itself is judged; where another calls it, its body runs.
    (
        concat!(
            "[convention.drop]\n",
            "takes = [1]\n",
            "[convention.peek]\n",
            "returns = \"borrowed\"\n",
            "[convention.absent]\n",
            "takes = [7]\n",
        ),
        concat!(
            "static void drop(PyObject *x) { Py_XDECREF(x); }\n",
            "static PyObject *peek(PyObject *x) { return x; }\n",
            "void aa(PyObject *x) { Py_XINCREF(x); drop(x); }\n",
            "void bb(PyObject *x) { drop(x); }\n",
            "PyObject *cc(PyObject *x) { return Py_XNewRef(peek(x)); }\n",
            "PyObject *dd(PyObject *x) { return peek(x); }\n",
            "void absent(PyObject *x);",
        ),
        1,
        concat!(
            "clean drop\n",
            "clean peek\n",
            "clean aa\n",
            "faulty bb 4:33 object K change -1 escaped 0\n",
            "clean cc\n",
            "faulty dd 6:29 object K change 0 escaped 1\n",
        ),
    ),
    // A function that calls itself takes over the reference to its argument, at every depth.
    (
        "[convention.give]\ntakes = [1]\n",
        concat!(
            "void give(PyObject *x, int n) { if (n == 0) { Py_DECREF(x); return; } give(x, n - 1); }\n",
            "void f(PyObject *x, int n) { Py_INCREF(x); give(x, n); }\n",
        ),
        0,
        "clean give\nclean f\n",
    ),
    // A convention that doesn't fit its function.
    (
        concat!(
            "[convention.give]\n",
            "takes = [2]\n",
            "[convention.aa]\n",
            "takes = [3]\n",
            "[convention.bb]\n",
            "returns = \"borrowed\"\n",
            "[convention.cc]\n",
            "returns = \"borrowed\"\n",
            "[convention.dd]\n",
            "takes = [1]\n",
            "[convention.ee]\n",
            "takes = [1]\n",
            "[convention.ff]\n",
            "takes = [1]\n",
            "returns = \"borrowed\"\n",
            "[convention.gg]\n",
            "takes = [2]\n",
        ),
        concat!(
            "void give(PyObject *x, int n) { if (n == 0) { Py_DECREF(x); return; } give(x, n - 1); }\n",
            "void f(PyObject *x, int n) { Py_INCREF(x); give(x, n); }\n",
            "void aa(PyObject *x, PyObject *y) { Py_XDECREF(x); }\n",
            "int bb(PyObject *x) { return 1; }\n",
            "void cc(PyObject *x) { }\n",
            "void dd(const char *s) { }\n",
            "void ee(void) { }\n",
            "int ff(PyObject *x) { return ~1; }\n",
            "void gg(int n, PyTypeObject *t) { Py_XDECREF(t); }",
        ),
        2,
        concat!(
            "refused give 1:6 N17\n",
            "refused f 2:44 N9\n",
            "refused aa 3:6 N17\n",
            "refused bb 4:5 N17\n",
            "refused cc 5:6 N17\n",
            "refused dd 6:6 N17\n",
            "refused ee 7:6 N17\n",
            "refused ff 8:30 N2\n",
            "clean gg\n",
        ),
    ),
];

#[test]
fn under_terms(rt: HostRuntime) -> Result<(), Fail> {
    for (config, text, status, lines) in ROWS {
        assert!(rt;
            is_told(rt.alloc(), config, text, *status, lines)?,
            "at {config} {text}"
        );
    }
    Ok(())
}

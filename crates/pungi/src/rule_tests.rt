//! Rules of functions: where each holds, where it holds at a later place, where it nearly holds, and where it holds
//! beside another one. The expected findings are written by hand from the rules.

use crate::tests::is_told;
use pungi_base::Memory;
use std::alloc::Global;
use std::test::Fail;

/// The first line of each file.
const DECLARED: &str =
    "typedef struct { PyObject_HEAD PyObject *first; long hits; int list[3]; } Box; static PyTypeObject BoxType = { 1 }; static PyModuleDef boxes = { 1 }; static int total; int proto(int n);\n";

/// Types.
const RULE_1: &[(&str, &str)] = &[
    ("int fa(double d) { return 1; }\n", "refused fa 2:8 N1\n"),
    (
        "int fb(int n, unsigned u) { return n; }\n",
        "refused fb 3:15 N1\n",
    ),
    ("long int fc(long int n) { return n; }\n", "clean fc\n"),
    (
        "int fd(int n, ...) { return n & 1; }\n",
        "refused fd 5:15 N1\n",
    ),
    (
        "int fe(int n) { return (short)n; }\n",
        "refused fe 6:25 N1\n",
    ),
    ("float ff(int n) { return 1; }\n", "refused ff 7:1 N1\n"),
    ("void fg(int n) { int b[3]; }\n", "refused fg 8:18 N1\n"),
    (
        "int fh(int n) { static int s; return n; }\n",
        "refused fh 9:24 N1\n",
    ),
    ("void fi(void v) { }\n", "refused fi 10:9 N1\n"),
    (
        "void fj(struct Box *p) { Py_INCREF(p); }\n",
        "refused fj 11:9 N1\n",
    ),
];

/// Operators.
const RULE_2: &[(&str, &str)] = &[
    ("int fa(int n) { return n & 1; }\n", "refused fa 2:26 N2\n"),
    (
        "int fb(int n) { n = 1; return ~n; }\n",
        "refused fb 3:31 N2\n",
    ),
    ("int fc(int n) { return !n && 1; }\n", "clean fc\n"),
    (
        "int fd(int n) { n <<= 1; return m; }\n",
        "refused fd 5:19 N2\n",
    ),
    (
        "int fe(PyObject *x) { return *x; }\n",
        "refused fe 6:30 N2\n",
    ),
    ("int ff(int n) { return n, n; }\n", "refused ff 7:25 N2\n"),
    (
        "int fg(int n) { return sizeof(n); }\n",
        "refused fg 8:24 N2\n",
    ),
    (
        "int fh(PyObject *x) { return x[0]; }\n",
        "refused fh 9:31 N2\n",
    ),
    (
        "long fi(long n) { return n + 1.5; }\n",
        "refused fi 10:30 N2\n",
    ),
    (
        "long fj(Box *b) { return b.hits; }\n",
        "refused fj 11:27 N2\n",
    ),
];

/// Calls of what is no word, and functions that are not called.
const RULE_3: &[(&str, &str)] = &[
    (
        "int fa(int n) { return (fa)(n); }\n",
        "refused fa 2:24 N3\n",
    ),
    (
        "int fb(int n) { n = 1; return fb; }\n",
        "refused fb 3:31 N3\n",
    ),
    ("int fc(int n) { return fc(n); }\n", "clean fc\n"),
    (
        "int fd(int n) { n = fd + m; return n; }\n",
        "refused fd 5:21 N3\n",
    ),
    ("int fe(int n) { return proto; }\n", "refused fe 6:24 N3\n"),
];

/// Casts between integers and pointers.
const RULE_4: &[(&str, &str)] = &[
    (
        "int fa(PyObject *x) { return (int)x; }\n",
        "refused fa 2:30 N4\n",
    ),
    (
        "long fb(char *s, long n) { n = 1; return (long)s; }\n",
        "refused fb 3:42 N4\n",
    ),
    ("long fc(int n) { return (long)n; }\n", "clean fc\n"),
    (
        "char *fd(int n) { return (char *)n + m; }\n",
        "refused fd 5:26 N4\n",
    ),
    (
        "int fe(void) { return (int)NULL; }\n",
        "refused fe 6:23 N4\n",
    ),
];

/// Addresses.
const RULE_5: &[(&str, &str)] = &[
    (
        "int fa(PyObject *x) { return &x == NULL; }\n",
        "refused fa 2:30 N5\n",
    ),
    (
        "PyObject *fb(int n) { n = 1; return PyModule_Create(&n); }\n",
        "refused fb 3:53 N5\n",
    ),
    (
        "PyObject *fc(void) { return PyModule_Create(&boxes); }\n",
        "clean fc\n",
    ),
    (
        "PyObject *fd(PyObject *x) { return Py_NewRef(&x) + m; }\n",
        "refused fd 5:46 N5\n",
    ),
    (
        "int fe(void) { return (PyObject *)&BoxType == NULL; }\n",
        "clean fe\n",
    ),
    (
        "PyObject *ff(void) { return PyModule_Create(&total); }\n",
        "refused ff 7:45 N5\n",
    ),
];

/// `goto`.
const RULE_6: &[(&str, &str)] = &[
    (
        "int fa(int n) { goto out; return n; }\n",
        "refused fa 2:22 N6\n",
    ),
    (
        "int fb(int n) { goto out; out: n = 1; goto in; { in: return n; } }\n",
        "refused fb 3:44 N6\n",
    ),
    (
        "int fc(int n) { { goto out; } out: return n; }\n",
        "clean fc\n",
    ),
    (
        "int fd(int n) { goto out; return n & 1; }\n",
        "refused fd 5:22 N6\n",
    ),
];

/// Labels, jumps and cases.
const RULE_7: &[(&str, &str)] = &[
    (
        "int fa(int n) { break; return n; }\n",
        "refused fa 2:17 N7\n",
    ),
    (
        "int fb(int n) { l: n = 1; l: return n; }\n",
        "refused fb 3:27 N7\n",
    ),
    (
        "int fc(int n) { while (n) { if (n) break; continue; } return n; }\n",
        "clean fc\n",
    ),
    (
        "int fd(int n) { switch (n) { case 1: break; case 1: return n & 1; } return n; }\n",
        "refused fd 5:45 N7\n",
    ),
    (
        "int fe(int n) { switch (n) { default: break; default: break; } return n; }\n",
        "refused fe 6:46 N7\n",
    ),
    (
        "int ff(int n) { switch (n) { case n: return 1; } return n; }\n",
        "refused ff 7:30 N7\n",
    ),
    ("int fg(int n) { continue; }\n", "refused fg 8:17 N7\n"),
    (
        "int fh(int n) { switch (n) { case 1: { case 2: break; } } return n; }\n",
        "refused fh 9:40 N7\n",
    ),
    (
        "int fi(int n) { switch (n) { case 1: case -2: default: return n; } }\n",
        "clean fi\n",
    ),
    (
        "int fj(int n) { switch (n) { case 'c': case 99: return n; } }\n",
        "refused fj 11:40 N7\n",
    ),
    (
        "int fk(int n) { switch (n) { case -5: case 5: case -5: return n; } }\n",
        "refused fk 12:47 N7\n",
    ),
    (
        "int fl(int n) { switch (n) { case 5 - 1: return 1; } return n; }\n",
        "refused fl 13:30 N7\n",
    ),
];

/// Declared names.
const RULE_8: &[(&str, &str)] = &[
    (
        "int fa(int n) { int n; return n; }\n",
        "refused fa 2:21 N8\n",
    ),
    (
        "int fb(int n) { int m = 1; { int k = 1; int k; } return m; }\n",
        "refused fb 3:45 N8\n",
    ),
    ("int fc(int n) { { int n = 1; } return n; }\n", "clean fc\n"),
    (
        "int fd(int n) { int fd = n & 1; return n; }\n",
        "refused fd 5:21 N8\n",
    ),
    (
        "int fe(int n) { int Py_None; return n; }\n",
        "refused fe 6:21 N8\n",
    ),
    (
        "int ff(int n, int n) { return n; }\n",
        "refused ff 7:19 N8\n",
    ),
    (
        "int fg(int n) { int PyList_New; return n; }\n",
        "refused fg 8:21 N8\n",
    ),
    (
        "PyObject *fh(int n) { { PyObject *n = NULL; if (n == NULL) return n; } return n; }\n",
        "refused fh 9:72 N10\n",
    ),
];

/// Unknown names.
const RULE_9: &[(&str, &str)] = &[
    ("int fa(int n) { return m; }\n", "refused fa 2:24 N9\n"),
    (
        "int fb(int n) { n = 1; return gone(n); }\n",
        "refused fb 3:31 N9\n",
    ),
    ("int fc(void) { return total; }\n", "clean fc\n"),
    (
        "int fd(int n) { return m + (n & 1); }\n",
        "refused fd 5:24 N9\n",
    ),
    (
        "int fe(PyObject *x) { return Py_INCREF; }\n",
        "refused fe 6:30 N9\n",
    ),
    (
        "PyObject *ff(void) { return PyList_Type; }\n",
        "refused ff 7:29 N9\n",
    ),
    (
        "int fg(int n) { return proto(n); }\n",
        "refused fg 8:24 N9\n",
    ),
    ("int fh(int n) { return fa(n); }\n", "refused fh 9:24 N9\n"),
    ("int fi(int n) { return fc(); }\n", "clean fi\n"),
    (
        "PyObject *fj(void) { return u ? 1 : 2; }\n",
        "refused fj 11:29 N9\n",
    ),
    (
        "int fk(void) { return (void)u; }\n",
        "refused fk 12:29 N9\n",
    ),
    ("int fl(int n) { return fm(n); }\n", "refused fl 13:24 N9\n"),
    ("int fm(int n) { return fn(n); }\n", "refused fm 14:24 N9\n"),
    ("int fn(int n) { return n & 1; }\n", "refused fn 15:26 N2\n"),
    ("int fo(int n) { return fo(n); }\n", "clean fo\n"),
];

/// Kinds of operands, arguments and values.
const RULE_10: &[(&str, &str)] = &[
    (
        "int fa(PyObject *x) { return x; }\n",
        "refused fa 2:23 N10\n",
    ),
    (
        "PyObject *fb(PyObject *x) { x = NULL; return Py_NewRef(x, x); }\n",
        "refused fb 3:46 N10\n",
    ),
    ("void fc(int n) { return; }\n", "clean fc\n"),
    (
        "int fd(PyObject *x) { return x < 1 & 1; }\n",
        "refused fd 5:32 N10\n",
    ),
    (
        "int fe(PyObject *x) { return Py_INCREF(x); }\n",
        "refused fe 6:30 N10\n",
    ),
    (
        "int fk(PyObject *x) { return Py_INCREF(x) & 1; }\n",
        "refused fk 7:30 N10\n",
    ),
    (
        "int ff(int n) { (n) = 1; return n; }\n",
        "refused ff 8:21 N10\n",
    ),
    (
        "int fg(int n) { int s = \"x\"; return s; }\n",
        "refused fg 9:21 N10\n",
    ),
    (
        "int fh(int n) { return fh(n, n); }\n",
        "refused fh 10:24 N10\n",
    ),
    ("int fi(int n) { return; }\n", "refused fi 11:17 N10\n"),
    (
        "PyObject *fj(PyObject *x) { return PyList_New(x); }\n",
        "refused fj 12:36 N10\n",
    ),
    (
        "int fl(PyObject *x) { if (Py_INCREF(x)) return 1; return 0; }\n",
        "refused fl 13:27 N10\n",
    ),
    (
        "PyObject *fm(PyObject *x) { return Py_NewRef(Py_INCREF(x)); }\n",
        "refused fm 14:46 N10\n",
    ),
    (
        "int fo(PyObject *x) { return (void)x; }\n",
        "refused fo 15:23 N10\n",
    ),
    (
        "void fp(PyObject *x) { return Py_INCREF(x); }\n",
        "refused fp 16:24 N10\n",
    ),
    (
        "int fq(PyObject *x) { int n = Py_INCREF(x); return n; }\n",
        "refused fq 17:31 N10\n",
    ),
    (
        "int fr(PyObject *x) { int n; n = (Py_INCREF(x)); return n; }\n",
        "refused fr 18:35 N10\n",
    ),
    (
        "PyObject *fs(void) { return total - 1; }\n",
        "refused fs 19:22 N10\n",
    ),
    ("int ft(void) { return total - 1; }\n", "clean ft\n"),
    (
        "int fu(void) { return Py_None; }\n",
        "refused fu 21:16 N10\n",
    ),
];

/// Fields.
const RULE_12: &[(&str, &str)] = &[
    (
        "long fa(PyObject *x) { return x->hits; }\n",
        "refused fa 2:32 N12\n",
    ),
    (
        "long fb(Box *b) { b->hits = 1; return b->misses; }\n",
        "refused fb 3:40 N12\n",
    ),
    ("long fc(Box *b) { return b->hits; }\n", "clean fc\n"),
    (
        "long fd(Box *b) { return b->misses & 1; }\n",
        "refused fd 5:27 N12\n",
    ),
    (
        "int fe(int n) { return n->hits; }\n",
        "refused fe 6:25 N12\n",
    ),
    (
        "int ff(Box *b) { return b->list; }\n",
        "refused ff 7:26 N12\n",
    ),
];

/// Arithmetic on pointers.
const RULE_13: &[(&str, &str)] = &[
    (
        "PyObject *fa(PyObject *x) { return x + 1; }\n",
        "refused fa 2:38 N13\n",
    ),
    (
        "int fb(PyObject *x) { int n = 1; x++; return n; }\n",
        "refused fb 3:35 N13\n",
    ),
    ("int fc(int n) { n++; return -n % 2; }\n", "clean fc\n"),
    (
        "int fd(char *s) { return -s & 1; }\n",
        "refused fd 5:26 N13\n",
    ),
    (
        "int fe(PyObject *x) { x += 1; return 1; }\n",
        "refused fe 6:25 N13\n",
    ),
];

/// Constants.
const RULE_14: &[(&str, &str)] = &[
    ("int fa(void) { return 5u; }\n", "refused fa 2:23 N14\n"),
    (
        "long fb(long n) { n = 1; return 9223372036854775808; }\n",
        "refused fb 3:33 N14\n",
    ),
    (
        "long fc(void) { return 9223372036854775807; }\n",
        "clean fc\n",
    ),
    (
        "long fd(void) { return 0xffffffffffffffff & 1; }\n",
        "refused fd 5:24 N14\n",
    ),
    (
        "long fe(long n) { switch (n) { case 5u: return 1; } return n; }\n",
        "refused fe 6:37 N14\n",
    ),
];

/// Whether this is reported of a file of these functions.
fn are_told(alloc: Global, rows: &[(&str, &str)]) -> Result<bool, Memory> {
    let mut text = String::from_str(alloc, DECLARED)?;
    let mut lines = String::new(alloc);
    for (function, told) in rows {
        text.push_str(function)?;
        lines.push_str(told)?;
    }
    Ok(is_told(alloc, &text, 2, &lines)?)
}

#[test]
fn rules(rt: HostRuntime) -> Result<(), Fail> {
    let files = [
        (1, RULE_1),
        (2, RULE_2),
        (3, RULE_3),
        (4, RULE_4),
        (5, RULE_5),
        (6, RULE_6),
        (7, RULE_7),
        (8, RULE_8),
        (9, RULE_9),
        (10, RULE_10),
        (12, RULE_12),
        (13, RULE_13),
        (14, RULE_14),
    ];
    for (rule, rows) in files {
        assert!(rt; are_told(rt.alloc(), rows)?, "rule {rule}");
    }
    Ok(())
}

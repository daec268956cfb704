use crate::folder_shelf::FolderShelf;
use crate::out_sink::OutSink;
use crate::pungi;
use crate::test_modules::{PAIR, POOL};
use pungi_base::Memory;
use pungi_in_memory::{MemShelf, MemSink, SureShelf, SureSink};
use pungi_io::{Failed, OpenFault, Shelf, Sink};
use std::alloc::Global;
use std::fs;
use std::test::Fail;

/// A function that is clean: its one reference is returned, or it was never made.
const NUMBER: &str = "PyObject *f(PyObject *self, PyObject *args) { return PyLong_FromLong(1); }";

pub(crate) fn words(alloc: Global, list: &[&str]) -> Result<Vec<String>, Memory> {
    let mut words = Vec::new(alloc);
    for word in list {
        words.push(String::from_str(alloc, word)?)?;
    }
    Ok(words)
}

fn named(alloc: Global, text: &[u8]) -> Result<Vec<(String, Vec<u8>)>, Memory> {
    let mut texts = Vec::new(alloc);
    texts.push((
        String::from_str(alloc, "x.c")?,
        Vec::from_slice(alloc, text)?,
    ))?;
    Ok(texts)
}

/// The status and what was written, for words and texts where each read and write succeeds.
pub(crate) fn judged(
    alloc: Global,
    words: &[String],
    texts: Vec<(String, Vec<u8>)>,
    out: SureSink,
) -> (u8, SureSink) {
    let mut shelf = SureShelf::new(alloc, texts);
    let mut out = out;
    let status = pungi(alloc, words, &mut shelf, &mut out);
    (status, out)
}

/// The status and what was written of a file where each read and write succeeds.
pub(crate) fn told(alloc: Global, text: &[u8]) -> Result<(u8, SureSink), Memory> {
    let words = words(alloc, &["pungi", "x.c"])?;
    let out = SureSink::new(alloc, 4096)?;
    let texts = named(alloc, text)?;
    Ok(judged(alloc, &words, texts, out))
}

/// The status and what was written, where the shelf fails at a call, and the sink at those that it was made with.
pub(crate) fn judged_failing(
    alloc: Global,
    words: &[String],
    texts: Vec<(String, Vec<u8>)>,
    read: Vec<u64>,
    out: MemSink,
) -> (u8, MemSink) {
    let mut shelf = MemShelf::new(alloc, texts, read);
    let mut out = out;
    let status = pungi(alloc, words, &mut shelf, &mut out);
    (status, out)
}

/// The status and what was written, where the shelf fails at a call, or the sink, which takes four bytes at a time.
fn failing(alloc: Global, text: &str, read: u64, write: u64) -> Result<(u8, MemSink), Memory> {
    let words = words(alloc, &["pungi", "x.c"])?;
    let out = MemSink::new(alloc, 64, 4, vec![in alloc; write]?)?;
    let reads = vec![in alloc; read]?;
    let texts = named(alloc, text.as_bytes())?;
    Ok(judged_failing(alloc, &words, texts, reads, out))
}

/// What a report says of each function: the lines that don't begin with a blank, with K for the number of an object.
pub(crate) fn heads(alloc: Global, report: &[u8]) -> Result<Vec<u8>, Memory> {
    let mut heads = Vec::new(alloc);
    let mut word = 0u32;
    let mut first = b'\n';
    let mut before = b'\n';
    for byte in report {
        if before == b'\n' {
            word = 0;
            first = *byte;
        } else if before == b' ' {
            word = word.saturating_add(1);
            if word == 4 && first == b'f' {
                heads.push(b'K')?;
            }
        }
        before = *byte;
        if first != b' ' && (first != b'f' || word != 4 || *byte == b' ') {
            heads.push(*byte)?;
        }
    }
    Ok(heads)
}

/// Whether a file has this status and this report, whole.
pub(crate) fn is_whole(alloc: Global, text: &str, status: u8, lines: &str) -> Result<bool, Memory> {
    let (found, out) = told(alloc, text.as_bytes())?;
    Ok(found == status && out.bytes() == lines.as_bytes())
}

/// Whether a file has this status and these first lines of verdicts.
pub(crate) fn is_told(alloc: Global, text: &str, status: u8, lines: &str) -> Result<bool, Memory> {
    let (found, out) = told(alloc, text.as_bytes())?;
    let heads = heads(alloc, out.bytes())?;
    Ok(found == status && heads.as_slice() == lines.as_bytes())
}

/// Files with a line for each function. What is no function is passed over.
const REPORTS: &[(&str, u8, &str)] = &[
    ("", 0, ""),
    (NUMBER, 0, "clean f\n"),
    (
        "// a comment\nvoid f(void) { }\n/* and\none more */ void g(PyObject *x) { Py_INCREF(x); Py_DECREF(x); }",
        0,
        "clean f\nclean g\n",
    ),
    (
        "PyObject *f(PyObject *self, PyObject *args) { return Py_None; }",
        1,
        "faulty f 1:47 object K change 0 escaped 1\n",
    ),
    (
        "PyObject *keep(PyObject *self, PyObject *x) { return Py_NewRef(x); }\nPyObject *lose(PyObject *self, PyObject *x) { Py_INCREF(x); return PyLong_FromLong(1); }",
        1,
        "clean keep\nfaulty lose 2:61 object K change 1 escaped 0\n",
    ),
    (
        "int g(double d) { return 1; }\nint f(void) { return g(1); }",
        2,
        "refused g 1:7 N1\nrefused f 2:22 N9\n",
    ),
    (
        "int f(int a) { goto in; { in: return a; } }",
        2,
        "refused f 1:21 N6\n",
    ),
    ("void f(void) { g(); }", 2, "refused f 1:16 N9\n"),
    (
        "int f(int a, int b, int c) { return a - b - c; }",
        0,
        "clean f\n",
    ),
    (
        "int f(int a) { if (a) if (a) return 1; else return 2; return 3; }",
        0,
        "clean f\n",
    ),
    (
        "typedef struct { int a; } Box; static int n; int g(int a); ; void f(void) { }",
        0,
        "clean f\n",
    ),
    (
        "#define NEW Py_NewRef\nPyObject *f(PyObject *a) { return NEW(a); }\nvoid g(PyObject *a) { NEW(a); }",
        1,
        "clean f\nfaulty g 3:31 object K change 1 escaped 0\n",
    ),
    (
        PAIR,
        2,
        "clean Pair_first\nclean Pair_put\nclean Pair_twice\nrefused Pair_new 47:12 N3\nclean PyInit_pair\n",
    ),
    (
        POOL,
        1,
        "clean hold\nfaulty release 26:1 object K change -1 escaped 0\nrefused pool_size 29:30 N1\n",
    ),
];

#[test]
fn reports(rt: HostRuntime) -> Result<(), Fail> {
    for (text, status, lines) in REPORTS {
        assert!(rt; is_told(rt.alloc(), text, *status, lines)?, "at {text}");
    }
    Ok(())
}

/// Files that are refused as a whole, each at its place and for its reason.
const REFUSALS: &[(&str, &str)] = &[
    ("int a; /* cut", "file refused 1:8 open comment\n"),
    ("int f( {", "file refused 1:1 not a unit\n"),
    ("#pragma once", "file refused 1:1 directive\n"),
    (
        "void f(PyObject *x) { x = ; }",
        "file refused 1:1 not a unit\n",
    ),
    (
        "void f(void) { }\nvoid g(void) { x",
        "file refused 2:1 not a unit\n",
    ),
    ("void f(void) { } @", "file refused 1:18 byte\n"),
    ("int a = \"x", "file refused 1:9 open text\n"),
    ("int a = 08;", "file refused 1:9 number\n"),
    ("#define F(x) x", "file refused 1:9 function macro\n"),
    (
        "void f(void) { }\nvoid f(void) { }",
        "file refused 2:6 duplicate name\n",
    ),
    ("#define A 1\n#define A 2", "file refused 2:9 redefined\n"),
    (
        "((((((((((((((((((((((((((((((((((((((((((((((((((((((((((((((((((",
        "file refused 1:65 nested over 64\n",
    ),
    (
        "int f(int n) { return n; }\nvoid f(void) { }\n",
        "file refused 2:6 duplicate name\n",
    ),
    (
        "struct box { int a; };\ntypedef struct box { PyObject *held; } Box;",
        "file refused 2:16 duplicate name\n",
    ),
    (
        "typedef int Box;\ntypedef struct box { PyObject_HEAD PyObject *held; } Box;",
        "file refused 2:54 duplicate name\n",
    ),
    (
        "int total(void);\nstatic int total;",
        "file refused 2:12 duplicate name\n",
    ),
    (
        "static int twice;\nint twice(int n);",
        "file refused 2:5 duplicate name\n",
    ),
    (
        "static int odd;\nint odd(int n) { return n & 1; }",
        "file refused 2:5 duplicate name\n",
    ),
    (
        "void BoxType(void) { }\nstatic PyTypeObject BoxType;",
        "file refused 2:21 duplicate name\n",
    ),
    (
        "static int BoxType;\nstatic PyTypeObject BoxType = { 1 };",
        "file refused 2:21 duplicate name\n",
    ),
    (
        "static PyTypeObject BoxType;\nint BoxType(void) { return 1; }",
        "file refused 2:5 duplicate name\n",
    ),
    (
        "void Py_None(void) { }",
        "file refused 1:6 duplicate name\n",
    ),
];

#[test]
fn refusals(rt: HostRuntime) -> Result<(), Fail> {
    for (text, line) in REFUSALS {
        assert!(rt; is_whole(rt.alloc(), text, 6, line)?, "at {text}");
    }
    Ok(())
}

/// Whether so many blanks have this status and these lines.
fn are_told(alloc: Global, blanks: usize, status: u8, lines: &[u8]) -> Result<bool, Memory> {
    let text = vec![in alloc; b' '; blanks]?;
    let (found, out) = told(alloc, &text)?;
    Ok(found == status && out.bytes() == lines)
}

/// 1,048,576 bytes are read, and one more is refused.
#[test]
fn limit_of_the_file(rt: HostRuntime) -> Result<(), Fail> {
    assert!(rt; are_told(rt.alloc(), 1048576, 0, b"")?);
    assert!(rt; are_told(rt.alloc(), 1048577, 6, b"file refused over 1048576 bytes\n")?);
    Ok(())
}

/// Which call on the shelf and which on the sink fails, and the status and text then.
const FAILING: &[(u64, u64, u8, &[u8])] = &[
    (1, 0, 4, b"cannot read x.c\n"),
    (2, 0, 4, b"cannot read x.c\n"),
    (3, 0, 4, b"cannot read x.c\n"),
    (4, 0, 0, b"clean f\n"),
    (0, 1, 5, b""),
    (0, 2, 5, b"clea"),
    (0, 3, 0, b"clean f\n"),
];

fn is_failing(
    alloc: Global,
    (read, write): (u64, u64),
    status: u8,
    text: &[u8],
) -> Result<bool, Memory> {
    let (found, out) = failing(alloc, NUMBER, read, write)?;
    Ok(found == status && out.bytes() == text)
}

/// Each call on the shelf and on the sink fails in turn.
#[test]
fn failing_calls(rt: HostRuntime) -> Result<(), Fail> {
    for (read, write, status, text) in FAILING {
        let calls = (*read, *write);
        assert!(rt;
            is_failing(rt.alloc(), calls, *status, text)?,
            "at {read} and {write}"
        );
    }
    Ok(())
}

/// A report without a line is not written.
#[test]
fn empty_report(rt: HostRuntime) -> Result<(), Fail> {
    let (status, out) = failing(rt.alloc(), "int a;", 0, 1)?;
    assert_eq!(rt; status, 0);
    assert!(rt; out.bytes().is_empty());
    Ok(())
}

const USAGE: &[u8] = b"usage: pungi [--config FILE] FILE.c, or pungi --trial N\n";

const REFUSED_WORDS: &[&[&str]] = &[
    &[],
    &["pungi"],
    &["pungi", "a.c", "b.c"],
    &["pungi", "--help"],
    &["pungi", "--version"],
    &["pungi", "-x"],
    &["pungi", "--config", "c.toml"],
    &["pungi", "--config"],
    &["pungi", "a.c", "--config"],
    &["pungi", "--trial"],
    &["pungi", "--trial", "0"],
    &["pungi", "--trial", "05"],
    &["pungi", "--trial", "+5"],
    &["pungi", "--trial", "2001"],
    &["pungi", "--trial", "10000"],
    &["pungi", "--trial", "5", "a.c"],
    &["pungi", "--trial", "5", "--config", "c.toml"],
    &["pungi", "--trial", "5", "--trial", "5"],
];

fn are_refused(alloc: Global, list: &[&str]) -> Result<bool, Memory> {
    let words = words(alloc, list)?;
    let out = SureSink::new(alloc, 64)?;
    let (status, out) = judged(alloc, &words, Vec::new(alloc), out);
    Ok(status == 3 && out.bytes() == USAGE)
}

/// Words that ask for neither a file nor a trial give the usage line.
#[test]
fn refused_words(rt: HostRuntime) -> Result<(), Fail> {
    for list in REFUSED_WORDS {
        assert!(rt; are_refused(rt.alloc(), list)?);
    }
    Ok(())
}

/// The files of the system: one that is written here, and one that isn't there.
#[test]
fn folder_shelf(rt: HostRuntime) -> Result<(), Fail> {
    fs::write(&rt, "one.c", "void f(void) { }")?;
    let mut shelf = FolderShelf::new(&rt);
    let mut buf = [0u8; 64];
    assert_eq!(rt; shelf.read(&mut buf), Ok(0));
    assert_eq!(rt; shelf.open(rt.alloc(), "none.c"), Err(OpenFault::Failed));
    assert_eq!(rt; shelf.open(rt.alloc(), "one.c"), Ok(()));
    assert_eq!(rt; shelf.read(&mut buf), Ok(16));
    assert_eq!(rt; &buf[..16], b"void f(void) { }".as_slice());
    assert_eq!(rt; shelf.read(&mut buf), Ok(0));
    fs::remove_file(&rt, "one.c")?;
    Ok(())
}

#[test]
fn out_sink(rt: HostRuntime) {
    let mut out = OutSink::new(rt.stdout());
    assert_eq!(rt; out.write(b""), Ok(0));
    assert_eq!(rt; out.write(b"\n"), Ok(1));
}

//! Configurations: the rows that they add, and what is said of those that are refused.

use crate::tests::{judged, judged_failing, words};
use pungi_base::Memory;
use pungi_in_memory::{MemSink, SureSink};
use std::alloc::Global;
use std::test::Fail;

/// A function that calls one that the manual's table lacks.
const CALLER: &str = "PyObject *f(void) { return PyErr_NewException(\"a.b\", NULL, NULL); }";

const EXCEPTION: &str = concat!(
    "[function.PyErr_NewException]\n",
    "params = [\"text\", \"object?\", \"object?\"]\n",
    "result = \"new\"\n",
);

pub(crate) fn texts(
    alloc: Global,
    config: &[u8],
    text: &[u8],
) -> Result<Vec<(String, Vec<u8>)>, Memory> {
    let mut texts = Vec::new(alloc);
    texts.push((
        String::from_str(alloc, "c.toml")?,
        Vec::from_slice(alloc, config)?,
    ))?;
    texts.push((
        String::from_str(alloc, "x.c")?,
        Vec::from_slice(alloc, text)?,
    ))?;
    Ok(texts)
}

fn is_told(
    alloc: Global,
    config: &[u8],
    text: &str,
    status: u8,
    lines: &str,
) -> Result<bool, Memory> {
    let words = words(alloc, &["pungi", "--config", "c.toml", "x.c"])?;
    let out = SureSink::new(alloc, 4096)?;
    let texts = texts(alloc, config, text.as_bytes())?;
    let (found, out) = judged(alloc, &words, texts, out);
    Ok(found == status && out.bytes() == lines.as_bytes())
}

/// Configurations that are accepted, with a file and its report.
const ACCEPTED: &[(&str, &str, u8, &str)] = &[
    (EXCEPTION, CALLER, 0, "clean f\n"),
    ("", CALLER, 2, "refused f 1:28 N9\n"),
    ("[function]\n", CALLER, 2, "refused f 1:28 N9\n"),
    (
        "[function.keep]\nparams = [\"object\"]\nresult = \"void\"\ntakes = [1]\n",
        "void f(PyObject *x) { keep(x); }\nvoid g(PyObject *x) { Py_INCREF(x); keep(x); }",
        1,
        "faulty f 1:32 object 24 change 0 escaped 1\n  objects 25\n  argument object 24\nclean g\n",
    ),
    (
        "[function.cached]\nparams = []\nresult = \"borrowed_sure\"\n",
        "PyObject *f(void) { return Py_NewRef(cached()); }",
        0,
        "clean f\n",
    ),
    (
        "[function.size]\nparams = [\"object\"]\nresult = \"size\"\n",
        "void f(PyObject *x) { size(x); }",
        0,
        "clean f\n",
    ),
    ("profile = \"3.11\"\n", CALLER, 2, "refused f 1:28 N9\n"),
    (
        "profile = \"3.12\"\n",
        "PyObject *f(void) { return Py_None; }",
        0,
        "clean f\n",
    ),
    (
        "[convention.keep]\ntakes = [1]\n",
        "void keep(PyObject *x) { Py_DECREF(x); }\nvoid g(PyObject *x) { Py_INCREF(x); keep(x); }",
        0,
        "clean keep\nclean g\n",
    ),
    (
        "[convention.keep]\ntakes = [1]\n",
        "void keep(PyObject *x) { }",
        1,
        "faulty keep 1:26 object 24 change 0 escaped -1\n  objects 25\n  argument object 24\n",
    ),
    (
        "[convention.f]\nreturns = \"borrowed\"\n",
        "PyObject *f(PyObject *x) { return x; }",
        0,
        "clean f\n",
    ),
    (
        "[convention.f]\nreturns = \"new\"\n",
        "PyObject *f(PyObject *x) { return Py_NewRef(x); }",
        0,
        "clean f\n",
    ),
    (
        "[convention.f]\ntakes = [1]\n",
        "void f(int n) { }",
        2,
        "refused f 1:6 N17\n",
    ),
    (
        "[convention.f]\ntakes = [2]\n",
        "void f(PyObject *x) { }",
        2,
        "refused f 1:6 N17\n",
    ),
    (
        "[convention.f]\nreturns = \"borrowed\"\n",
        "void f(PyObject *x) { }",
        2,
        "refused f 1:6 N17\n",
    ),
    (
        "[convention.other]\ntakes = [1]\n",
        "PyObject *f(PyObject *x) { return Py_NewRef(x); }",
        0,
        "clean f\n",
    ),
    (
        EXCEPTION,
        "int PyErr_NewException;",
        6,
        "file refused 1:5 duplicate name\n",
    ),
];

#[test]
fn accepted(rt: HostRuntime) -> Result<(), Fail> {
    for (config, text, status, lines) in ACCEPTED {
        assert!(rt;
            is_told(rt.alloc(), config.as_bytes(), text, *status, lines)?,
            "at {config} {text}"
        );
    }
    Ok(())
}

/// Configurations that are refused, and what is said of each.
const REFUSED: &[(&[u8], &str)] = &[
    (b"a = ", "not TOML"),
    (b"a = 1\na = 2\n", "not TOML"),
    (
        b"[function.f]\nparams = []\nparams = []\nresult = \"new\"\n",
        "not TOML",
    ),
    (b"a = \"\xff\"\n", "not TOML"),
    (b"a = 1\n\0", "not TOML"),
    (b"b = 1\na = 1\n", "a"),
    (b"function = 1\n", "function"),
    (b"[[function]]\n", "function"),
    (b"[function]\nf = 1\n", "function.f"),
    (b"[function.f]\nparams = []\n", "function.f"),
    (b"[function.f]\nresult = \"new\"\n", "function.f"),
    (
        b"[function.\"a b\"]\nparams = []\nresult = \"new\"\n",
        "function.a b",
    ),
    (
        b"[function.int]\nparams = []\nresult = \"new\"\n",
        "function.int",
    ),
    (
        b"[function.PyObject]\nparams = []\nresult = \"new\"\n",
        "function.PyObject",
    ),
    (
        b"[function.Py_RETURN_NONE]\nparams = []\nresult = \"new\"\n",
        "function.Py_RETURN_NONE",
    ),
    (
        b"[function.Py_None]\nparams = []\nresult = \"new\"\n",
        "function.Py_None",
    ),
    (
        b"[function.PyList_New]\nparams = []\nresult = \"new\"\n",
        "function.PyList_New",
    ),
    (
        b"[function.Py_INCREF]\nparams = []\nresult = \"new\"\n",
        "function.Py_INCREF",
    ),
    (
        b"[function.f]\nparams = []\nresult = \"gift\"\n",
        "function.f.result",
    ),
    (
        b"[function.f]\nparams = []\nresult = 1\n",
        "function.f.result",
    ),
    (
        b"[function.f]\nparams = \"object\"\nresult = \"new\"\n",
        "function.f.params",
    ),
    (
        b"[function.f]\nparams = [\"thing\"]\nresult = \"new\"\n",
        "function.f.params",
    ),
    (
        b"[function.f]\nparams = [\"int\", \"int\", \"int\", \"int\", \"int\", \"int\", \"int\", \"int\", \"int\"]\nresult = \"new\"\n",
        "function.f.params",
    ),
    (
        b"[function.f]\nargs = []\nparams = []\nresult = \"new\"\n",
        "function.f.args",
    ),
    (
        b"[function.f]\nparams = [\"object\"]\nresult = \"new\"\ntakes = [0]\n",
        "function.f.takes",
    ),
    (
        b"[function.f]\nparams = [\"object\"]\nresult = \"new\"\ntakes = [2]\n",
        "function.f.takes",
    ),
    (
        b"[function.f]\nparams = [\"object\"]\nresult = \"new\"\ntakes = [1, 1]\n",
        "function.f.takes",
    ),
    (
        b"[function.f]\nparams = [\"object\"]\nresult = \"new\"\ntakes = [1]\ntakes_on_success = [1]\n",
        "function.f.takes_on_success",
    ),
    (
        b"[function.f]\nparams = [\"object\"]\nresult = \"void\"\ntakes_on_success = [1]\n",
        "function.f.takes_on_success",
    ),
    (
        b"[function.PyErr_NewException]\nparams = [\"text\", \"object?\", \"object?\"]\nresult = \"gift\"\n",
        "function.PyErr_NewException.result",
    ),
    (
        b"[function.PyErr_NewException]\nparams = [\"text\", \"object?\", \"object?\"]\nresult = \"new\"\ntakes = [1]\n",
        "function.PyErr_NewException.takes",
    ),
    (
        b"[function.g]\nparams = 1\nresult = \"new\"\n[function.f]\nparams = []\nresult = 1\n",
        "function.f.result",
    ),
    (b"profile = \"3.13\"\n", "profile"),
    (b"profile = 3.12\n", "profile"),
    (
        b"profile = \"3.13\"\n[convention.f]\ntakes = [0]\n",
        "profile",
    ),
    (b"convention = 1\n", "convention"),
    (b"[[convention]]\n", "convention"),
    (b"[convention]\nf = 1\n", "convention.f"),
    (b"[convention.f]\n", "convention.f"),
    (
        b"[convention.\"a b\"]\nreturns = \"new\"\n",
        "convention.a b",
    ),
    (b"[convention.int]\nreturns = \"new\"\n", "convention.int"),
    (
        b"[convention.PyObject]\nreturns = \"new\"\n",
        "convention.PyObject",
    ),
    (
        b"[convention.Py_None]\nreturns = \"new\"\n",
        "convention.Py_None",
    ),
    (
        b"[convention.PyList_New]\nreturns = \"new\"\n",
        "convention.PyList_New",
    ),
    (
        b"[convention.f]\nreturns = \"new\"\n[function.f]\nparams = []\nresult = \"new\"\n",
        "convention.f",
    ),
    (
        b"[convention.f]\ngives = [1]\nreturns = \"new\"\n",
        "convention.f.gives",
    ),
    (
        b"[convention.f]\nreturns = \"gift\"\n",
        "convention.f.returns",
    ),
    (b"[convention.f]\nreturns = true\n", "convention.f.returns"),
    (b"[convention.give]\ntakes = [0]\n", "convention.give.takes"),
    (
        b"[convention.give]\ntakes = [33]\n",
        "convention.give.takes",
    ),
    (
        b"[convention.give]\ntakes = [1, 1]\n",
        "convention.give.takes",
    ),
    (
        b"[convention.give]\ntakes = [-1]\n",
        "convention.give.takes",
    ),
    (
        b"[convention.give]\ntakes = [4294967297]\n",
        "convention.give.takes",
    ),
    (
        b"[convention.give]\ntakes = [\"1\"]\n",
        "convention.give.takes",
    ),
    (b"[convention.give]\ntakes = 1\n", "convention.give.takes"),
    (
        b"[convention.give]\ntakes = [0]\nreturns = \"gift\"\n",
        "convention.give.returns",
    ),
    (
        b"[convention.g]\ntakes = [0]\n[convention.f]\nreturns = \"gift\"\n",
        "convention.f.returns",
    ),
    (
        b"[function.a]\nparams = []\n[convention.b]\ntakes = [0]\n",
        "convention.b.takes",
    ),
    (
        b"[function.a]\nparams = []\n[convention.b]\ntakes = [32]\n",
        "function.a",
    ),
];

fn is_refused(alloc: Global, config: &[u8], reason: &str) -> Result<bool, Memory> {
    let line = format!(in alloc; "configuration refused: {reason}\n")?;
    is_told(alloc, config, CALLER, 7, line.as_str())
}

#[test]
fn refused(rt: HostRuntime) -> Result<(), Fail> {
    for (config, reason) in REFUSED {
        assert!(rt; is_refused(rt.alloc(), config, reason)?, "at {reason}");
    }
    Ok(())
}

/// 65,536 bytes of one kind, and what is said of them.
const LARGE: &[(u8, &str)] = &[
    (b' ', ""),
    (b'#', ""),
    (b'\n', ""),
    (b'[', "not TOML"),
    (b'{', "not TOML"),
    (b'"', "not TOML"),
    (b'a', "not TOML"),
    (b'1', "not TOML"),
    (b'\0', "not TOML"),
];

fn is_large(alloc: Global, byte: u8, reason: &str) -> Result<bool, Memory> {
    let mut config = vec![in alloc; byte; 65536]?;
    let most = if reason.is_empty() {
        is_told(alloc, &config, "", 0, "")?
    } else {
        is_refused(alloc, &config, reason)?
    };
    config.push(byte)?;
    Ok(most && is_refused(alloc, &config, "over 65536 bytes")?)
}

#[test]
fn limit_of_the_configuration(rt: HostRuntime) -> Result<(), Fail> {
    for (byte, reason) in LARGE {
        assert!(rt; is_large(rt.alloc(), *byte, reason)?, "at {byte}");
    }
    Ok(())
}

/// Tables that are nested deep are no text that is read.
#[test]
fn deep(rt: HostRuntime) -> Result<(), Fail> {
    let alloc = rt.alloc();
    let mut config = Vec::from_slice(alloc, b"a = ")?;
    for _i in 0..30000u32 {
        config.push(b'[')?;
    }
    for _i in 0..30000u32 {
        config.push(b']')?;
    }
    assert!(rt; is_refused(alloc, &config, "not TOML")?);
    Ok(())
}

/// The call on the shelf that fails, and the file that can't be read.
const UNREAD: &[(u64, &str)] = &[
    (1, "cannot read c.toml\n"),
    (2, "cannot read c.toml\n"),
    (3, "cannot read c.toml\n"),
    (4, "cannot read x.c\n"),
    (5, "cannot read x.c\n"),
    (6, "cannot read x.c\n"),
];

fn is_unread(alloc: Global, call: u64, line: &str) -> Result<bool, Memory> {
    let words = words(alloc, &["pungi", "--config", "c.toml", "x.c"])?;
    let out = MemSink::new(alloc, 64, 64, Vec::new(alloc))?;
    let calls = vec![in alloc; call]?;
    let texts = texts(alloc, EXCEPTION.as_bytes(), CALLER.as_bytes())?;
    let (status, out) = judged_failing(alloc, &words, texts, calls, out);
    Ok(status == 4 && out.bytes() == line.as_bytes())
}

#[test]
fn unread(rt: HostRuntime) -> Result<(), Fail> {
    for (call, line) in UNREAD {
        assert!(rt; is_unread(rt.alloc(), *call, line)?, "at {call}");
    }
    Ok(())
}

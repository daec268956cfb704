ghost use Rattle.std.specs.Prelude.{◌≡◌, ◌++◌, map, string_bytes, OnOk};
ghost use Rattle.std.specs.Fmt.{decimal};
ghost use Rattle.pungi_trial.specs.Lines.{trial_line};
ghost use Rattle.pungi_trial.specs.Pieces.{pieces_text};

use pungi_base::Memory;
use std::fmt::Write;

/// Adds pieces of text, each after a number.
fn push_pieces(text: &mut String, k: u32, pieces: &[&str]) -> Result<(), Memory>
    ensures { OnOk result (string_bytes text.new ≡ string_bytes text.old
        ++ pieces_text (decimal k) (map (λ p. p.now) pieces.now)) }
{
    for piece in pieces {
        write!(text, "{k}")?;
        text.push_str(piece)?;
    }
    Ok(())
}

/// Adds a piece of text, and others, each after a number.
fn push_text(text: &mut String, first: &str, k: u32, pieces: &[&str]) -> Result<(), Memory>
    ensures { OnOk result (string_bytes text.new ≡ string_bytes text.old
        ++ (first.now ++ pieces_text (decimal k) (map (λ p. p.now) pieces.now))) }
{
    text.push_str(first)?;
    push_pieces(text, k, pieces)
}

/// Adds the line of a number. Its function is of one of five kinds, by turns.
pub(crate) fn push_line(text: &mut String, k: u32) -> Result<(), Memory>
    ensures { OnOk result (string_bytes text.new ≡ string_bytes text.old ++ trial_line k) }
{
    match k % 5 {
        1 => push_text(
            text,
            "PyObject *f",
            k,
            &[
                "(PyObject *self, PyObject *args) { return PyLong_FromLong(",
                "); }\n",
            ],
        ),
        2 => push_text(
            text,
            "PyObject *f",
            k,
            &[
                "(PyObject *self, PyObject *x) { Py_INCREF(x); return PyLong_FromLong(",
                "); }\n",
            ],
        ),
        3 => push_text(
            text,
            "PyObject *f",
            k,
            &[
                "(PyObject *self, PyObject *args) { Py_ssize_t i; PyObject *a = PyList_New(",
                "), *b; if (!a) return NULL; for (i = 0; i < ",
                "; i++) { b = PyLong_FromLong(i); if (!b) { Py_DECREF(a); return NULL; } PyList_SET_ITEM(a, i, b); } return a; }\n",
            ],
        ),
        4 => push_text(
            text,
            "void f",
            k,
            &[
                "(PyObject *x, int n) { int i; for (i = 0; i < n; i++) Py_INCREF(x); for (i = 0; i < n; i++) Py_DECREF(x); }\n",
            ],
        ),
        _ => push_text(
            text,
            "PyObject *f",
            k,
            &["(PyTypeObject *t) { return t->tp_alloc(t, 0); }\n"],
        ),
    }
}

ghost use Rattle.pungi_meaning.specs.Outcomes.{IsCounted};

use crate::source::{SUM, function_of};
use pungi_base::words::WORDS;
use pungi_base::{Choice, Entry, Memory, Name, Pos, Seq, Value};
use pungi_meaning::Op::{Add, Div, Mul, Rem, Sub};
use pungi_meaning::{Op, Outcome, arithmetic, entry_ok, fits, run};
use pungi_resolved::Function;
use pungi_types::ValueKind;
use pungi_types::ValueKind::{Int, Long, Size};
use pungi_world::{Account, Content, Slot, World};
use std::alloc::Global;
use std::test::Fail;

/// What a run shows: the value, where it returned, and where the choices were used that it used; or why it didn't
/// return.
#[derive(Clone, Copy)]
enum Shown<'a> {
    Returns(Option<Value>, Pos, &'a [Pos]),
    Wants,
    Goes,
}

/// A run of a function: how many objects there are, the arguments, the choices, the fuel, and what it shows.
#[derive(Clone, Copy)]
struct Told<'a>(u32, &'a [Value], &'a [Choice], u32, Shown<'a>);

const NULL: Value = Value::Null;

fn entry_of(alloc: Global, told: Told) -> Result<Entry, Memory> {
    Ok(Entry {
        objects: told.0,
        args: Seq::new(Vec::from_slice(alloc, told.1)?),
    })
}

fn shows(outcome: &Outcome, shown: Shown) -> bool {
    match (outcome, shown) {
        (
            Outcome::Returned {
                value,
                pos,
                used,
                ..
            },
            Shown::Returns(wanted, place, places),
        ) => { *value == wanted && *pos == place && used.as_slice() == places }
        (Outcome::NeedsChoice, Shown::Wants) | (Outcome::OutOfFuel, Shown::Goes) => true,
        _ => false,
    }
}

fn runs(alloc: Global, f: &Function, told: Told) -> Result<bool, Memory> {
    let entry = entry_of(alloc, told)?;
    let outcome = run(alloc, &[], f, &entry, told.2, told.3)?;
    Ok(entry_ok(f, 24, &entry) && shows(&outcome, told.4))
}

fn text_runs(alloc: Global, text: &str, told: Told) -> Result<bool, Fail> {
    let f = function_of(alloc, text)?;
    Ok(runs(alloc, &f, told)?)
}

const ONE: &str = "PyObject *f(PyObject *self, PyObject *args) { return PyLong_FromLong(1); }";

const SIX: Shown = Shown::Returns(Some(Value::Int(6)), Pos { line: 1, col: 63 }, &[]);

/// A call that failed.
const FAILED: Shown = Shown::Returns(
    Some(NULL),
    Pos { line: 1, col: 47 },
    &[Pos { line: 1, col: 54 }],
);

/// Functions and their runs.
const RUNS: &[(&str, Told)] = &[
    (SUM, Told(24, &[Value::Int(3)], &[], 1000, SIX)),
    (SUM, Told(24, &[Value::Int(-1)], &[], 1000, Shown::Goes)),
    (ONE, Told(24, &[NULL, NULL], &[], 100, Shown::Wants)),
    (ONE, Told(24, &[NULL, NULL], &[Choice::Null], 100, FAILED)),
    (
        ONE,
        Told(24, &[NULL, NULL], &[Choice::Null], 0, Shown::Goes),
    ),
];

#[test]
fn runs_of_functions(rt: HostRuntime) -> Result<(), Fail> {
    for (text, told) in RUNS {
        assert!(rt; text_runs(rt.alloc(), text, *told)?, "at {text}");
    }
    Ok(())
}

/// A field of an object is replaced. The first words of the text are `box` and `first`.
const REPLACES: &str = concat!(
    "struct box { PyObject_HEAD PyObject *first; }; typedef struct box Box;\n",
    "void f(Box *self, PyObject *x) { PyObject *tmp = self->first; Py_INCREF(x); self->first = x; Py_XDECREF(tmp); }",
);

const BOX: Name = Name(WORDS);

const FIRST: Name = Name(WORDS + 1);

/// Whether one field was touched, which held `NULL` and holds an object now, whose count rose by one.
fn is_set(world: &World) -> bool {
    let raised = Account {
        change: 1,
        handed: 0,
        made: false,
    };
    let slot = Slot::Field {
        object: 24,
        tag: BOX,
        field: FIRST,
    };
    match world.slots.as_slice() {
        [state] => {
            state.slot == slot
                && state.at_entry == Content::Holds(NULL)
                && state.held == Content::Holds(Value::Object(25))
                && world.accounts.len() == 26
                && world.accounts.as_slice()[25] == raised
        }
        _ => false,
    }
}

/// Whether a run of a function from an entry returned with the field set, and no reference is lost or given away twice.
fn replaces(f: &Function, entry: &Entry, outcome: &Outcome) -> bool
    requires { IsCounted outcome.now }
{
    match outcome {
        Outcome::Returned { world, value, .. } => {
            is_set(world) && world.unbalanced(&f.terms, entry, *value).is_none()
        }
        _ => false,
    }
}

/// Where the function of `REPLACES` ends, and where its field is loaded first.
const END: Pos = Pos { line: 2, col: 111 };

const LOADED: Pos = Pos { line: 2, col: 54 };

fn runs_and_replaces(alloc: Global, f: &Function) -> Result<bool, Memory> {
    let args = [Value::Object(24), Value::Object(25)];
    let returns = Shown::Returns(None, END, &[LOADED]);
    let told = Told(26, &args, &[Choice::Null], 100, returns);
    let entry = entry_of(alloc, told)?;
    let outcome = run(alloc, &[], f, &entry, told.2, told.3)?;
    Ok(shows(&outcome, told.4) && replaces(f, &entry, &outcome))
}

#[test]
fn a_field_is_replaced(rt: HostRuntime) -> Result<(), Fail> {
    let f = function_of(rt.alloc(), REPLACES)?;
    assert!(rt; runs_and_replaces(rt.alloc(), &f)?);
    Ok(())
}

/// How many objects there are, arguments, and whether `SUM` can be entered so.
const ENTRIES: &[(u32, &[Value], bool)] = &[
    (24, &[Value::Int(2147483647)], true),
    (24, &[Value::Int(2147483648)], false),
    (23, &[Value::Int(0)], false),
    (24, &[], false),
    (24, &[NULL], false),
];

fn entries_are_told(alloc: Global, f: &Function) -> Result<bool, Memory> {
    for (objects, args, fits) in ENTRIES {
        let entry = entry_of(alloc, Told(*objects, args, &[], 0, Shown::Goes))?;
        if entry_ok(f, 24, &entry) != *fits {
            return Ok(false);
        }
    }
    Ok(true)
}

#[test]
fn entries_fit_a_function(rt: HostRuntime) -> Result<(), Fail> {
    let f = function_of(rt.alloc(), SUM)?;
    assert!(rt; entries_are_told(rt.alloc(), &f)?);
    Ok(())
}

/// Results that C11 6.5 and 6.5.5 give in 32 and 64 bits, and none past the ends or of a division by 0.
const RESULTS: &[(Op, ValueKind, i64, i64, Option<i64>)] = &[
    (Add, Int, 2147483646, 1, Some(2147483647)),
    (Add, Int, 2147483647, 1, None),
    (Add, Long, 2147483647, 1, Some(2147483648)),
    (Add, Size, i64::MAX, 1, None),
    (Sub, Int, -2147483648, 1, None),
    (Mul, Int, 65536, 32768, None),
    (Mul, Long, 65536, 32768, Some(2147483648)),
    (Div, Int, -7, 2, Some(-3)),
    (Rem, Int, -7, 2, Some(-1)),
    (Div, Int, 7, 0, None),
    (Rem, Int, 7, 0, None),
    (Div, Int, -2147483648, -1, None),
    (Div, Long, i64::MIN, -1, None),
];

#[test]
fn results_of_operators(rt: HostRuntime) {
    for (op, kind, left, right, result) in RESULTS {
        assert_eq!(rt; arithmetic(*op, *kind, *left, *right), *result);
    }
}

/// Kinds, numbers, and whether they fit.
const FITTING: &[(ValueKind, i64, bool)] = &[
    (Int, 2147483647, true),
    (Int, 2147483648, false),
    (Int, -2147483648, true),
    (Int, -2147483649, false),
    (Long, i64::MIN, true),
    (Size, i64::MAX, true),
];

#[test]
fn numbers_fit_a_kind(rt: HostRuntime) {
    for (kind, number, is_so) in FITTING {
        assert_eq!(rt; fits(*kind, *number), *is_so);
    }
}

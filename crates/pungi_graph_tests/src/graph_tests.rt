//! Functions with the lines of their programs. The lines come from a reading of the rules, and were written out before
//! any program was computed. A comment names the instruction of the places and edges below it, with `t`, `u`, `p` and
//! `s` for temporaries, and what is known at each of the places. The coordinates of a place stand in this order: 1, the
//! numbers that variables hold, the number that is returned, the numbers at entry, the balances of the objects.

use crate::constants::is_zero_at_exit;
use crate::lines::lines;
use crate::source::program_of;
use std::alloc::Global;
use std::test::Fail;

/// A function, and the lines of its program.
struct Worked {
    text: &'static str,
    lines: &'static [&'static str],
}

/// A new object that is returned. A call may return `NULL` or an object, which is owed one reference; the object that
/// is returned hands it over.
const MAKING: Worked = Worked {
    text: "PyObject *f(void) { return PyLong_FromLong(1); }",
    lines: &[
        "entries 0",
        "exits 1 2",
        // the entry
        "place 0 at 1:44 of width 1",
        // t = 1
        "place 1 at 1:44 of width 1",
        // t as a long
        "place 2 at 1:44 of width 2",
        // the call; in it, with NULL and with an object
        "place 3 at 1:28 of width 2",
        "place 4 at 1:28 of width 1",
        "place 5 at 1:28 of width 1",
        // the return, with NULL and with an object; in it, so
        "place 6 at 1:21 of width 1",
        "place 7 at 1:21 of width 2",
        "place 8 at 1:21 of width 1",
        "place 9 at 1:21 of width 2",
        // to the call
        "0 to 1: 1",
        "1 to 2: 1 1",
        "2 to 3: 1 v1",
        // the outcomes
        "3 to 4: 1",
        "3 to 5: 1",
        "4 to 6: 1",
        "5 to 7: 1 1",
        // the return
        "6 to 8: 1",
        "7 to 9: 1 v1",
        "8 to exit 0: 1",
        "9 to exit 1: 1 v1 owes -1+v1=0",
    ],
};

/// A new object that nothing holds: it is owed a reference where it is dropped, and so the equation 1 = 0 never holds.
const LEAKING: Worked = Worked {
    text: "void f(void) { PyList_New(0); }",
    lines: &[
        "entries 0",
        "exits 1",
        // the entry
        "place 0 at 1:27 of width 1",
        // t = 0; t as a Py_ssize_t
        "place 1 at 1:27 of width 1",
        "place 2 at 1:27 of width 2",
        // the call; in it, with NULL and with an object
        "place 3 at 1:16 of width 2",
        "place 4 at 1:16 of width 1",
        "place 5 at 1:16 of width 1",
        // the second part of the return; the first changes nothing, and is left out
        "place 6 at 1:31 of width 1",
        "0 to 1: 1",
        "1 to 2: 1 0",
        "2 to 3: 1 v1",
        "3 to 4: 1",
        "3 to 5: 1",
        "4 to 6: 1",
        "5 to 6: 1 owes 1=0",
        "6 to exit 0: 1",
    ],
};

/// A number of which nothing is known, and a call that stops where its argument is `NULL`.
const COUNTING: Worked = Worked {
    text: "long f(PyObject *x) { return PyLong_AsLong(x); }",
    lines: &[
        "entries 0 1",
        "exits 3",
        // the entries: x is NULL; x is an object
        "place 0 at 1:44 of width 1",
        "place 1 at 1:44 of width 1",
        // t = x, where x is NULL; an object
        "place 2 at 1:44 of width 1",
        "place 3 at 1:44 of width 2",
        // the call, with NULL; with an object
        "place 4 at 1:30 of width 1",
        "place 5 at 1:30 of width 2",
        // its answer; the number 0 is there, and any is to come
        "place 6 at 1:30 of width 2",
        "place 7 at 1:30 of width 3",
        // the return
        "place 8 at 1:23 of width 3",
        "place 9 at 1:23 of width 3",
        "0 to 2: 1",
        "1 to 3: 1 0",
        "2 to 4: 1",
        "3 to 5: 1 v1",
        "5 to 6: 1 v1",
        "6 to 7: 1 0 v1",
        "7 to 8: frees v1",
        "8 to 9: 1 v1 v2",
        "9 to exit 0: 1 v1 v2 owes v2=0",
    ],
};

/// A loop that counts an object up and down. Of `i` it is known that it is 0, that it is 1, or nothing.
const LOOPING: Worked = Worked {
    text: "void f(PyObject *x, int n) { int i; for (i = 0; i < n; i++) { Py_INCREF(x); Py_DECREF(x); } }",
    lines: &[
        "entries 0 1",
        "exits 2 3",
        // the entries: x is NULL; x is an object
        "place 0 at 1:28 of width 2",
        "place 1 at 1:28 of width 2",
        // i is unset, as the block begins and as it is declared: x is NULL; x is an object
        "place 2 at 1:28 of width 3",
        "place 3 at 1:28 of width 4",
        "place 4 at 1:34 of width 3",
        "place 5 at 1:34 of width 4",
        // t = 0
        "place 6 at 1:46 of width 3",
        "place 7 at 1:46 of width 4",
        // i = t; t = t
        "place 8 at 1:42 of width 4",
        "place 9 at 1:42 of width 5",
        "place 10 at 1:42 of width 5",
        "place 11 at 1:42 of width 6",
        // the head, t = i: x is NULL and i is 0; x is an object and i is 0, is 1, is any number
        "place 12 at 1:49 of width 4",
        "place 13 at 1:49 of width 5",
        "place 14 at 1:49 of width 5",
        "place 15 at 1:49 of width 5",
        // u = n
        "place 16 at 1:53 of width 5",
        "place 17 at 1:53 of width 6",
        "place 18 at 1:53 of width 6",
        "place 19 at 1:53 of width 6",
        // t = t < u
        "place 20 at 1:51 of width 6",
        "place 21 at 1:51 of width 7",
        "place 22 at 1:51 of width 7",
        "place 23 at 1:51 of width 7",
        // the branch on t: x is NULL and i is 0, and t is 0, is 1; x is an object, and i is 0, 0, 1, 1, any, any
        "place 24 at 1:49 of width 5",
        "place 25 at 1:49 of width 5",
        "place 26 at 1:49 of width 6",
        "place 27 at 1:49 of width 6",
        "place 28 at 1:49 of width 6",
        "place 29 at 1:49 of width 6",
        "place 30 at 1:49 of width 6",
        "place 31 at 1:49 of width 6",
        // p = x: x is NULL and i is 0; x is an object and i is 0, is 1, is any number
        "place 32 at 1:73 of width 4",
        "place 33 at 1:73 of width 5",
        "place 34 at 1:73 of width 5",
        "place 35 at 1:73 of width 5",
        // Py_INCREF(p); its answer, where x is an object and i is 0, is 1, is any number
        "place 36 at 1:63 of width 4",
        "place 37 at 1:63 of width 5",
        "place 38 at 1:63 of width 5",
        "place 39 at 1:63 of width 5",
        "place 40 at 1:63 of width 5",
        "place 41 at 1:63 of width 5",
        "place 42 at 1:63 of width 5",
        // p = x
        "place 43 at 1:87 of width 5",
        "place 44 at 1:87 of width 5",
        "place 45 at 1:87 of width 5",
        // Py_DECREF(p); its answer
        "place 46 at 1:77 of width 5",
        "place 47 at 1:77 of width 5",
        "place 48 at 1:77 of width 5",
        "place 49 at 1:77 of width 5",
        "place 50 at 1:77 of width 5",
        "place 51 at 1:77 of width 5",
        // i++: t = 0; s = i; t = s
        "place 52 at 1:57 of width 5",
        "place 53 at 1:57 of width 5",
        "place 54 at 1:57 of width 5",
        "place 55 at 1:56 of width 5",
        "place 56 at 1:56 of width 5",
        "place 57 at 1:56 of width 5",
        "place 58 at 1:57 of width 6",
        "place 59 at 1:57 of width 6",
        "place 60 at 1:57 of width 6",
        // s = s + 1
        "place 61 at 1:57 of width 6",
        "place 62 at 1:57 of width 6",
        "place 63 at 1:57 of width 6",
        // i = s: i is 0 and s is 1; i is 1; i is any number
        "place 64 at 1:56 of width 6",
        "place 65 at 1:56 of width 6",
        "place 66 at 1:56 of width 6",
        // s = s: i is 1, is any number
        "place 67 at 1:56 of width 6",
        "place 68 at 1:56 of width 6",
        // back to the head
        "place 69 at 1:37 of width 5",
        "place 70 at 1:37 of width 5",
        // the return: x is NULL and i is 0; x is an object and i is 0, is 1, is any number; its second part
        "place 71 at 1:93 of width 4",
        "place 72 at 1:93 of width 5",
        "place 73 at 1:93 of width 5",
        "place 74 at 1:93 of width 5",
        "place 75 at 1:93 of width 2",
        "place 76 at 1:93 of width 3",
        // the entries: v1 is n at entry, and then n; n at entry stands after it, and the balance of an object last
        "0 to 2: 1 v1 v1",
        "1 to 3: 1 v1 v1 0",
        // i is unset
        "2 to 4: 1 v1 v2",
        "3 to 5: 1 v1 v2 v3",
        "4 to 6: 1 v1 v2",
        "5 to 7: 1 v1 v2 v3",
        // t = 0; i = t; t = t
        "6 to 8: 1 v1 0 v2",
        "7 to 9: 1 v1 0 v2 v3",
        "8 to 10: 1 v1 v2 v2 v3",
        "9 to 11: 1 v1 v2 v2 v3 v4",
        "10 to 12: 1 v1 v2 v4",
        "11 to 13: 1 v1 v2 v4 v5",
        // t = i
        "12 to 16: 1 v1 v2 v2 v3",
        "13 to 17: 1 v1 v2 v2 v3 v4",
        "14 to 18: 1 v1 v2 v2 v3 v4",
        "15 to 19: 1 v1 v2 v2 v3 v4",
        // u = n
        "16 to 20: 1 v1 v2 v3 v1 v4",
        "17 to 21: 1 v1 v2 v3 v1 v4 v5",
        "18 to 22: 1 v1 v2 v3 v1 v4 v5",
        "19 to 23: 1 v1 v2 v3 v1 v4 v5",
        // t = t < u: it is 0 where i is greater and where it is n, and 1 where it is less
        "20 to 24: 1 v1 v2 0 v5",
        "20 to 24 where v3-v4=0: 1 v1 v2 0 v5",
        "20 to 25: 1 v1 v2 1 v5",
        "21 to 26: 1 v1 v2 0 v5 v6",
        "21 to 26 where v3-v4=0: 1 v1 v2 0 v5 v6",
        "21 to 27: 1 v1 v2 1 v5 v6",
        "22 to 28: 1 v1 v2 0 v5 v6",
        "22 to 28 where v3-v4=0: 1 v1 v2 0 v5 v6",
        "22 to 29: 1 v1 v2 1 v5 v6",
        "23 to 30: 1 v1 v2 0 v5 v6",
        "23 to 30 where v3-v4=0: 1 v1 v2 0 v5 v6",
        "23 to 31: 1 v1 v2 1 v5 v6",
        // the branch
        "24 to 71 where v3=0: 1 v1 v2 v4",
        "25 to 32: 1 v1 v2 v4",
        "26 to 72 where v3=0: 1 v1 v2 v4 v5",
        "27 to 33: 1 v1 v2 v4 v5",
        "28 to 73 where v3=0: 1 v1 v2 v4 v5",
        "29 to 34: 1 v1 v2 v4 v5",
        "30 to 74 where v3=0: 1 v1 v2 v4 v5",
        "31 to 35: 1 v1 v2 v4 v5",
        // p = x
        "32 to 36: 1 v1 v2 v3",
        "33 to 37: 1 v1 v2 v3 v4",
        "34 to 38: 1 v1 v2 v3 v4",
        "35 to 39: 1 v1 v2 v3 v4",
        // Py_INCREF(p), which stops where p is NULL
        "37 to 40: 1 v1 v2 v3 1+v4",
        "38 to 41: 1 v1 v2 v3 1+v4",
        "39 to 42: 1 v1 v2 v3 1+v4",
        "40 to 43: 1 v1 v2 v3 v4",
        "41 to 44: 1 v1 v2 v3 v4",
        "42 to 45: 1 v1 v2 v3 v4",
        // p = x
        "43 to 46: 1 v1 v2 v3 v4",
        "44 to 47: 1 v1 v2 v3 v4",
        "45 to 48: 1 v1 v2 v3 v4",
        // Py_DECREF(p)
        "46 to 49: 1 v1 v2 v3 -1+v4",
        "47 to 50: 1 v1 v2 v3 -1+v4",
        "48 to 51: 1 v1 v2 v3 -1+v4",
        "49 to 52: 1 v1 v2 v3 v4",
        "50 to 53: 1 v1 v2 v3 v4",
        "51 to 54: 1 v1 v2 v3 v4",
        // i++
        "52 to 55: 1 v1 v2 v3 v4",
        "53 to 56: 1 v1 v2 v3 v4",
        "54 to 57: 1 v1 v2 v3 v4",
        "55 to 58: 1 v1 v2 v2 v3 v4",
        "56 to 59: 1 v1 v2 v2 v3 v4",
        "57 to 60: 1 v1 v2 v2 v3 v4",
        "58 to 61: 1 v1 v2 v3 v4 v5",
        "59 to 62: 1 v1 v2 v3 v4 v5",
        "60 to 63: 1 v1 v2 v3 v4 v5",
        "61 to 64: 1 v1 v2 1+v3 v4 v5",
        "62 to 65: 1 v1 v2 1+v3 v4 v5",
        "63 to 66: 1 v1 v2 1+v3 v4 v5",
        "64 to 67: 1 v1 v3 v3 v4 v5",
        "65 to 68: 1 v1 v3 v3 v4 v5",
        "66 to 68: 1 v1 v3 v3 v4 v5",
        "67 to 69: 1 v1 v2 v4 v5",
        "68 to 70: 1 v1 v2 v4 v5",
        // back to the head
        "69 to 14: 1 v1 v2 v3 v4",
        "70 to 15: 1 v1 v2 v3 v4",
        // the return
        "71 to 75: 1 v3",
        "72 to 76: 1 v3 v4",
        "73 to 76: 1 v3 v4",
        "74 to 76: 1 v3 v4",
        "75 to exit 0: 1 v1",
        "76 to exit 1: 1 v1 v2 owes v2=0",
    ],
};

const ALL: &[Worked] = &[MAKING, LEAKING, COUNTING, LOOPING];

/// The lines of the program of a text's one function.
fn lines_of(alloc: Global, text: &str) -> Result<Vec<String>, Fail> {
    let program = program_of(alloc, text)?;
    lines(alloc, &program)
}

#[test]
fn programs_are_as_worked_out(rt: HostRuntime) -> Result<(), Fail> {
    for worked in ALL {
        let found = lines_of(rt.alloc(), worked.text)?;
        for (line, wanted) in found.iter().zip(worked.lines) {
            assert_eq!(rt; line.as_str(), *wanted, "{}", worked.text);
        }
        assert_eq!(rt; found.len(), worked.lines.len(), "{}", worked.text);
    }
    Ok(())
}

/// The loop raises and lowers the count of its object: constants alone show that nothing is owed where it returns.
#[test]
fn a_balance_is_known_to_be_zero(rt: HostRuntime) -> Result<(), Fail> {
    let [.., looping] = ALL else {
        return Err(Fail::new("no function"));
    };
    let program = program_of(rt.alloc(), looping.text)?;
    assert!(rt; is_zero_at_exit(rt.alloc(), &program, 1, 2)?);
    Ok(())
}

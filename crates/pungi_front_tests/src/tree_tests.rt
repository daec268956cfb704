use crate::kinds::{
    ADD, ARROW, ASK, BREAK, CASE, CHAR, COLON, COMMA, CONST, CONTINUE, DEFAULT, DO, DOC, DOT, DOTS,
    ELSE, FLOAT, FOR, GOTO, IF, INT, LB, LC, LESS, LETTER, LP, MINUS, NEW, NONE, NOT, NULL, OBJECT,
    ONE, RB, RC, RETURN, RP, SEMI, SET, SIZEOF, STAR, STATIC, STEP, STRUCT, SWITCH, TEXT, TWO,
    TYPEDEF, UNION, UNUSED, VOID, WA, WB, WF, WHILE, WT, ZERO,
};
use crate::parse_tests::{behind_typedef, placed};
use crate::trees::{
    A, B, T, else_to_the_outer, file_of, label, of_no_text, of_word, prefix_less, size_of_cast,
    to_the_right,
};
use pungi_base::{Kind, Memory};
use pungi_parse::parse;
use pungi_spelling::{depth, flat, levels_ok};
use pungi_tree::{Stmt, Unit};
use std::alloc::{AllocError, Global};
use std::test::Fail;

/// The depth of a tree that the grammar allows and that has these tokens.
fn depth_told(alloc: Global, unit: &Unit, kinds: &[Kind]) -> Result<Option<u32>, Memory> {
    let found = flat(alloc, unit)?;
    if found.as_slice() == kinds && levels_ok(unit) {
        Ok(Some(depth(unit)))
    } else {
        Ok(None)
    }
}

/// The same, of the tree of a file with these tokens.
fn depth_of(alloc: Global, kinds: &[Kind]) -> Result<Option<u32>, Fail> {
    let tokens = placed(alloc, kinds)?;
    let unit = parse(alloc, &tokens)?;
    Ok(depth_told(alloc, &unit, kinds)?)
}

/// `PyObject *f(PyObject *a, PyObject *b) { return Py_None; }`.
const RETURNS_NONE: &[Kind] = &[
    OBJECT, STAR, WF, LP, OBJECT, STAR, WA, COMMA, OBJECT, STAR, WB, RP, LC, RETURN, NONE, SEMI, RC,
];

/// A file with a tree of each type.
const EACH_TYPE: &[Kind] = &[
    SEMI, DOC, LP, WA, COMMA, TEXT, TEXT, RP, TYPEDEF, STRUCT, WB, LC, SEMI, CONST, INT, WA, LB,
    TWO, RB, LB, RB, COMMA, LP, STAR, WF, RP, LP, VOID, RP, SEMI, RC, CONST, STAR, CONST, WT, SEMI,
    STATIC, UNION, WA, SEMI, WT, STAR, WA, SET, LP, WT, STAR, RP, NULL, COMMA, WB, LB, RB, SET, LC,
    LP, RP, RC, SEMI, INT, WF, LP, WT, UNUSED, LP, WA, RP, COMMA, CHAR, STAR, COMMA, DOTS, RP,
    SEMI, VOID, WF, LP, VOID, RP, LC, FOR, LP, INT, WA, SET, ONE, SEMI, WA, LESS, TWO, SEMI, WA,
    STEP, RP, IF, LP, WA, DOT, WB, RP, BREAK, SEMI, ELSE, CONTINUE, SEMI, DO, SEMI, WHILE, LP,
    SIZEOF, LP, WT, RP, RP, SEMI, SWITCH, LP, WA, RP, CASE, LETTER, COLON, DEFAULT, COLON, WB,
    COLON, GOTO, WB, SEMI, WHILE, LP, NOT, WA, RP, WA, ADD, FLOAT, SEMI, RETURN, LP, WF, LP, TEXT,
    RP, ARROW, WB, LB, ZERO, RB, ASK, NEW, LP, WT, COMMA, WA, RP, COLON, TWO, COMMA, ONE, RP, SEMI,
    RC,
];

/// `typedef int T; int a = f - a - b; int b = !(T *)NULL;`.
const VALUES: &[Kind] = &[
    TYPEDEF, INT, WT, SEMI, INT, WA, SET, WF, MINUS, WA, MINUS, WB, SEMI, INT, WB, SET, NOT, LP,
    WT, STAR, RP, NULL, SEMI,
];

/// `void f(void) { if (a) if (a) ; else ; b: break; }`.
const STATEMENTS: &[Kind] = &[
    VOID, WF, LP, VOID, RP, LC, IF, LP, WA, RP, IF, LP, WA, RP, SEMI, ELSE, SEMI, WB, COLON, BREAK,
    SEMI, RC,
];

/// Files, and how deep their trees are: expressions and statements on one path.
const DEPTHS: &[(&[Kind], u32)] = &[
    // The block, `return` and the word.
    (RETURNS_NONE, 3),
    // The block, `return`, `( )`, the comma, `? :`, `[ ]`, `->`, the call and `f`.
    (EACH_TYPE, 9),
    // Two differences and the word.
    (VALUES, 3),
    // The block, two `if`s and the word.
    (STATEMENTS, 4),
];

#[test]
fn trees_of_files(rt: HostRuntime) -> Result<(), Fail> {
    for (kinds, depth) in DEPTHS {
        assert_eq!(rt; depth_of(rt.alloc(), kinds)?, Some(*depth));
    }
    Ok(())
}

/// `return` after so many `if`s, of a word after so many `!` and in so many parentheses.
fn nested(alloc: Global, ifs: u32, nots: u32, parens: u32) -> Result<Vec<Kind>, AllocError> {
    let mut kinds = Vec::new(alloc);
    for _ in 0..ifs {
        kinds.extend_from_slice(&[IF, LP, WA, RP])?;
    }
    kinds.push(RETURN)?;
    for _ in 0..nots {
        kinds.push(NOT)?;
    }
    for _ in 0..parens {
        kinds.push(LP)?;
    }
    kinds.push(WA)?;
    for _ in 0..parens {
        kinds.push(RP)?;
    }
    kinds.push(SEMI)?;
    behind_typedef(alloc, kinds.as_slice())
}

/// The block, `return` and the word are three nodes of 256.
#[test]
fn the_deepest_trees(rt: HostRuntime) -> Result<(), Fail> {
    for (ifs, nots, parens) in [(0, 253, 0), (253, 0, 0), (0, 190, 63), (100, 100, 53)] {
        let kinds = nested(rt.alloc(), ifs, nots, parens)?;
        assert_eq!(rt; depth_of(rt.alloc(), kinds.as_slice())?, Some(256));
    }
    Ok(())
}

/// Whether the grammar allows the file whose function has this statement.
fn allowed(alloc: Global, stmt: Stmt) -> Result<bool, AllocError> {
    let unit = file_of(alloc, stmt)?;
    Ok(levels_ok(&unit))
}

fn words_are_told(alloc: Global) -> Result<bool, AllocError> {
    Ok(
        allowed(alloc, of_word(A))?
            && !allowed(alloc, of_word(T))?
            && allowed(alloc, label(alloc, B)?)?
            && !allowed(alloc, label(alloc, T)?)?,
    )
}

fn levels_are_told(alloc: Global) -> Result<bool, AllocError> {
    Ok(
        !allowed(alloc, to_the_right(alloc)?)?
            && !allowed(alloc, size_of_cast(alloc)?)?
            && !allowed(alloc, prefix_less(alloc)?)?
            && !allowed(alloc, of_no_text(alloc))?
            && !allowed(alloc, else_to_the_outer(alloc)?)?,
    )
}

#[test]
fn what_the_grammar_forbids(rt: HostRuntime) -> Result<(), Fail> {
    assert!(rt; words_are_told(rt.alloc())?);
    assert!(rt; levels_are_told(rt.alloc())?);
    Ok(())
}

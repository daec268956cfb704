//! Tokens that are a file, and those that aren't: a row for each production of the grammar and each near miss.

use crate::kinds::{
    ADD, ARROW, ASK, BREAK, CASE, CHAR, COLON, COMMA, CONST, CONTINUE, DEFAULT, DO, DOC, DOT, DOTS,
    ELSE, ENUM, FOR, GOTO, IF, INT, LB, LC, LESS, LP, MINUS, NEW, NULL, OBJECT, ONE, RB, RC,
    RETURN, RP, SEMI, SET, SIZEOF, STAR, STATIC, STEP, STRUCT, SWITCH, TEXT, TWO, TYPEDEF, UNION,
    UNUSED, VOID, WA, WB, WF, WHILE, WT,
};
use pungi_base::{Kind, Pos, Token};
use pungi_parse::{ParseFault, parse};
use std::alloc::{AllocError, Global};
use std::test::Fail;

/// More than 64 brackets, reported at any column.
const DEEP: u32 = 100_000;

/// Want of memory, reported at any column.
const MEMORY: u32 = 200_000;

/// The tokens of these kinds, on one line, each a column after the one before.
pub(crate) fn placed(alloc: Global, kinds: &[Kind]) -> Result<Vec<Token>, AllocError> {
    let mut tokens = Vec::new(alloc);
    let mut col = 0u32;
    for kind in kinds {
        col = col.saturating_add(1);
        tokens.push(Token {
            kind: *kind,
            pos: Pos { line: 1, col },
            first: false,
            touching: false,
        })?;
    }
    Ok(tokens)
}

/// 0 where there is a tree, or the column of the fault.
fn fault(alloc: Global, kinds: &[Kind]) -> Result<u32, AllocError> {
    let tokens = placed(alloc, kinds)?;
    Ok(match parse(alloc, &tokens) {
        Ok(_) => 0,
        Err(ParseFault::NotAUnit(pos)) => pos.col,
        Err(ParseFault::Deep(pos)) => pos.col.saturating_add(DEEP),
        Err(ParseFault::Memory) => MEMORY,
    })
}

/// Some kinds, one of them so many times over, and others.
fn repeated(
    alloc: Global,
    front: &[Kind],
    kind: Kind,
    count: usize,
    end: &[Kind],
) -> Result<Vec<Kind>, AllocError> {
    let mut kinds = Vec::new(alloc);
    kinds.extend_from_slice(front)?;
    for _ in 0..count {
        kinds.push(kind)?;
    }
    kinds.extend_from_slice(end)?;
    Ok(kinds)
}

/// A function with this body, after the type definition of `T`.
pub(crate) fn behind_typedef(alloc: Global, body: &[Kind]) -> Result<Vec<Kind>, AllocError> {
    let mut kinds = Vec::new(alloc);
    kinds.extend_from_slice(&[TYPEDEF, INT, WT, SEMI, VOID, WF, LP, VOID, RP, LC])?;
    kinds.extend_from_slice(body)?;
    kinds.push(RC)?;
    Ok(kinds)
}

/// The fault in a function with this body, after the type definition of `T`: 0, or 5 where there is no function.
fn in_body(alloc: Global, body: &[Kind]) -> Result<u32, AllocError> {
    let kinds = behind_typedef(alloc, body)?;
    fault(alloc, &kinds)
}

/// Files and the column of their fault, or 0.
const FILES: &[(&[Kind], u32)] = &[
    (&[], 0),
    (&[INT, WF, LP, LC], 1),
    (&[SEMI, TYPEDEF, STRUCT, LC], 2),
    (&[SEMI, SEMI], 0),
    (&[SEMI, SEMI, INT], 3),
    (&[INT, WA, SEMI, RP], 4),
    (&[DOC, LP, WA, COMMA, TEXT, TEXT, RP], 0),
    (&[DOC, LP, WA, COMMA, RP], 1),
    (&[WT, WA, SEMI, TYPEDEF, INT, STAR, CONST, WT, SEMI], 0),
    (&[WT, WA, SEMI, TYPEDEF, INT, WB, SEMI], 1),
    (&[TYPEDEF, WT, WT, SEMI], 0),
    (
        &[
            STATIC, STRUCT, WA, LC, SEMI, INT, WA, COMMA, STAR, WB, LB, TWO, RB, SEMI, RC, SEMI,
        ],
        0,
    ),
    (&[UNION, LC, RC, WA, LB, RB, SEMI], 0),
    (&[ENUM, WA, SEMI], 1),
    (&[INT, SEMI], 0),
    (&[INT, WA, COMMA, SEMI], 1),
    (&[INT, LP, STAR, WF, RP, LP, VOID, RP, SET, NULL, SEMI], 0),
    (
        &[INT, WA, SET, LC, LP, RP, LC, COMMA, RC, RC, COMMA, WB, SEMI],
        0,
    ),
    (&[INT, WA, SET, LC, LP, RC, RP, RC, SEMI], 1),
    (&[INT, WA, SET, LC, LB, RP, RC, SEMI], 1),
    (&[INT, WF, LP, RP, SEMI, INT, WF, LP, VOID, RP, SEMI], 0),
    (
        &[
            INT, WF, LP, INT, COMMA, CHAR, STAR, UNUSED, LP, WA, RP, COMMA, DOTS, RP, SEMI,
        ],
        0,
    ),
    (&[INT, WF, LP, DOTS, RP, SEMI], 1),
    (&[OBJECT, STAR, WF, LP, VOID, RP, LC, RC, SEMI, RC], 10),
];

#[test]
fn files(rt: HostRuntime) -> Result<(), Fail> {
    for (kinds, want) in FILES {
        assert_eq!(rt; fault(rt.alloc(), kinds)?, *want);
    }
    Ok(())
}

/// Bodies with statements, and the column of the fault, or 0.
const STATEMENTS: &[(&[Kind], u32)] = &[
    (&[IF, LP, WA, RP, SEMI, ELSE, SEMI], 0),
    (&[IF, LP, WA, RP, SEMI, SEMI, ELSE, SEMI], 5),
    (&[ELSE, SEMI], 5),
    (&[WA, COLON, SEMI], 0),
    (&[WT, COLON, SEMI], 5),
    (&[WA, COLON], 5),
    (&[INT, SEMI], 5),
    (&[CONST, WT, WA, SET, ONE, COMMA, WB, SEMI], 0),
    (&[IF, LP, WA, RP, INT, WB, SEMI], 5),
    (&[FOR, LP, SEMI, SEMI, RP, SEMI], 0),
    (
        &[
            FOR, LP, INT, WA, SET, ONE, SEMI, WA, LESS, TWO, SEMI, WA, STEP, RP, LC, RC,
        ],
        0,
    ),
    (&[FOR, LP, WA, SEMI, WB, RP, SEMI], 5),
    (
        &[
            SWITCH, LP, WA, RP, LC, CASE, ONE, COLON, BREAK, SEMI, DEFAULT, COLON, CONTINUE, SEMI,
            RC,
        ],
        0,
    ),
    (&[CASE, ONE, COMMA, TWO, COLON, SEMI], 5),
    (&[CASE, WA, SET, TWO, COLON, SEMI], 5),
    (&[CASE, WA, ASK, ONE, COLON, TWO, COLON, SEMI], 0),
    (&[DO, SEMI, WHILE, LP, WA, RP, SEMI], 0),
    (&[DO, SEMI, WHILE, LP, WA, RP], 5),
    (&[WHILE, LP, RP, SEMI], 5),
    (&[GOTO, WA, SEMI, RETURN, SEMI, RETURN, WA, SEMI], 0),
    (&[GOTO, WT, SEMI], 5),
    (&[RETURN, SIZEOF, INT, SEMI], 5),
    (&[LC, LC, RC, SEMI, RC], 0),
    (&[LC], 5),
];

#[test]
fn statements(rt: HostRuntime) -> Result<(), Fail> {
    for (body, want) in STATEMENTS {
        assert_eq!(rt; in_body(rt.alloc(), body)?, *want);
    }
    Ok(())
}

/// Bodies with expressions, and the column of the fault, or 0.
const EXPRESSIONS: &[(&[Kind], u32)] = &[
    (&[LP, WT, RP, MINUS, WA, SEMI], 0),
    (&[LP, WA, RP, MINUS, WB, SEMI], 0),
    (&[LP, WT, RP, SEMI], 5),
    (&[LP, WT, STAR, RP, WF, LP, WA, COMMA, WB, RP, SEMI], 0),
    (&[WT, MINUS, WA, SEMI], 5),
    (&[WA, SET, WB, ADD, ONE, SEMI], 0),
    (&[LP, WA, RP, SET, WB, SEMI], 0),
    (&[WA, MINUS, WB, SET, ONE, SEMI], 5),
    (&[LP, INT, RP, WA, SET, WB, SEMI], 5),
    (&[WA, ASK, WB, COMMA, ONE, COLON, TWO, SEMI], 0),
    (&[WA, ASK, WB, COLON, SEMI], 5),
    (&[WA, LB, ONE, RB, DOT, WB, ARROW, WB, STEP, SEMI], 0),
    (&[WA, DOT, WT, SEMI], 5),
    (
        &[
            WF, LP, NEW, LP, WT, COMMA, WA, RP, COMMA, TEXT, TEXT, RP, SEMI,
        ],
        0,
    ),
    (&[NEW, LP, WT, RP, SEMI], 5),
    (&[NEW, LP, WA, RP, SEMI], 0),
    (&[SIZEOF, LP, WT, STAR, RP, SEMI], 0),
    (&[SIZEOF, LP, WA, RP, MINUS, STAR, WB, SEMI], 0),
    (&[WF, LP, WA, COMMA, RP, SEMI], 5),
    (&[CASE, WA, SEMI], 5),
];

#[test]
fn expressions(rt: HostRuntime) -> Result<(), Fail> {
    for (body, want) in EXPRESSIONS {
        assert_eq!(rt; in_body(rt.alloc(), body)?, *want);
    }
    Ok(())
}

/// The fault where `return` stands before so many `-`. The block, `return` and the word are three nodes on the path.
fn of_signs(alloc: Global, count: usize) -> Result<u32, AllocError> {
    let body = repeated(alloc, &[RETURN], MINUS, count, &[WA, SEMI])?;
    in_body(alloc, &body)
}

/// The fault of so many open parentheses.
fn of_parentheses(alloc: Global, count: usize) -> Result<u32, AllocError> {
    let kinds = repeated(alloc, &[INT], LP, count, &[])?;
    fault(alloc, &kinds)
}

/// The fault of so many blocks in one another.
fn of_blocks(alloc: Global, count: usize) -> Result<u32, AllocError> {
    let opened = repeated(alloc, &[VOID, WF, LP, RP], LC, count, &[])?;
    let kinds = repeated(alloc, &opened, RC, count, &[])?;
    fault(alloc, &kinds)
}

#[test]
fn depths(rt: HostRuntime) -> Result<(), Fail> {
    assert_eq!(rt; of_signs(rt.alloc(), 253)?, 0);
    assert_eq!(rt; of_signs(rt.alloc(), 254)?, 5);
    assert_eq!(rt; of_parentheses(rt.alloc(), 64)?, 1);
    assert_eq!(rt; of_parentheses(rt.alloc(), 65)?, 66 + DEEP);
    assert_eq!(rt; of_blocks(rt.alloc(), 64)?, 0);
    Ok(())
}

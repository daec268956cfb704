use pungi_api::{Param, Terms};
use pungi_base::{Entry, Memory, Name, Pos, Seq, Value};
use pungi_code::{Atom, Code, Codes, Head, Instr, Label, Line, Var, code_run, loop_heads};
use pungi_meaning::{Op, Outcome};
use pungi_types::ValueKind;
use std::alloc::{AllocError, Global};
use std::test::Fail;

const NUMBER: Var = Var(0);

fn at(col: u32) -> Pos {
    Pos { line: 1, col }
}

/// The instructions of `int f(int n) { while (n) n = n - 1; return n; }`.
fn lines(alloc: Global) -> Result<Vec<Line>, AllocError> {
    let n = Atom::Var(NUMBER);
    Ok(vec![in alloc;
        Line {
            pos: at(16),
            instr: Instr::Branch(n, Label(1), Label(3))
        },
        Line {
            pos: at(32),
            instr: Instr::Arith(NUMBER, ValueKind::Int, Op::Sub, n, Atom::Int(1))
        },
        Line {
            pos: at(16),
            instr: Instr::Jump(Label(0))
        },
        Line {
            pos: at(37),
            instr: Instr::Return(Some(n))
        },
    ]?)
}

fn counting(alloc: Global) -> Result<Code, AllocError> {
    let head = Head {
        label: Label(0),
        pos: at(16),
    };
    let vars = vec![in alloc; Param::Int]?;
    let heads = vec![in alloc; head]?;
    Ok(Code {
        instrs: Seq::new(lines(alloc)?),
        vars: Seq::new(vars),
        params: 1,
        locals: 1,
        result: Some(Param::Int),
        heads: Seq::new(heads),
        terms: Terms::manual(alloc),
    })
}

fn codes(alloc: Global) -> Result<Codes, AllocError> {
    let names = vec![in alloc; Name(200)]?;
    let code = counting(alloc)?;
    Ok(Codes {
        codes: Seq::new(vec![in alloc; Some(code)]?),
        statics: 24,
        names: Seq::new(names),
    })
}

fn returns(outcome: &Outcome, wanted: i64, place: Pos) -> bool {
    match outcome {
        Outcome::Returned { value, pos, .. } => *value == Some(Value::Int(wanted)) && *pos == place,
        _ => false,
    }
}

fn is_spent(outcome: &Outcome) -> bool {
    match outcome {
        Outcome::OutOfFuel => true,
        _ => false,
    }
}

/// The run of the function from 3.
fn run_from_three(alloc: Global, codes: &Codes, fuel: u32) -> Result<Outcome, Memory> {
    let entry = Entry {
        objects: 24,
        args: Seq::new(vec![in alloc; Value::Int(3)]?),
    };
    code_run(alloc, codes, 0, &entry, &[], fuel)
}

/// Whether 11 steps are enough, and 10 are not.
fn takes_eleven_steps(alloc: Global, codes: &Codes) -> Result<bool, Memory> {
    let spent = is_spent(&run_from_three(alloc, codes, 10)?);
    Ok(spent && returns(&run_from_three(alloc, codes, 11)?, 0, at(37)))
}

#[test]
fn a_code_runs_to_its_end(rt: HostRuntime) -> Result<(), Fail> {
    let codes = codes(rt.alloc())?;
    assert!(rt; takes_eleven_steps(rt.alloc(), &codes)?);
    Ok(())
}

/// Whether the first instruction alone is the head of a loop.
fn has_one_head(alloc: Global, code: &Code) -> Result<bool, Memory> {
    let labels = loop_heads(alloc, code)?;
    Ok(labels.as_slice() == [Label(0)].as_slice())
}

#[test]
fn heads_of_loops(rt: HostRuntime) -> Result<(), Fail> {
    let code = counting(rt.alloc())?;
    assert!(rt; has_one_head(rt.alloc(), &code)?);
    Ok(())
}

ghost use Rattle.std.specs.Prelude.{◌≡◌, ◌<◌, length, IfOk};
ghost use Rattle.pungi_base.specs.Words.{builtin_words};
ghost use Rattle.pungi_report.specs.Text.{IsPrintable};

use pungi_base::words::PY_LONG_FROM_LONG;
use pungi_base::{
    Choice, Entry, Fault, Memory, Name, Names, Pos, Rule, Seq, Value, Verdict, Why, Witness,
};
use pungi_report::report;
use std::alloc::Global;
use std::test::Fail;

fn at(line: u32, col: u32) -> Pos {
    Pos { line, col }
}

/// What is said of a function.
fn said(alloc: Global, verdict: Verdict) -> Result<Vec<u8>, Memory>
    requires { IsPrintable builtin_words verdict }
{
    let names = Names::builtin(alloc)?;
    let lines = [(Name(PY_LONG_FROM_LONG), verdict)];
    let text = report(alloc, &names, &lines)?;
    Ok(text)
}

fn fault(alloc: Global) -> Result<Fault, Memory>
    ensures { IfOk result (λ f. length f.used ≡ length f.witness.choices) }
{
    let args = vec![in alloc; Value::Object(25), Value::Int(-3), Value::Text]?;
    let choices = vec![in alloc; Choice::Null, Choice::Given(2)]?;
    let used = vec![in alloc; at(4, 5), at(12, 34)]?;
    let input = Entry {
        objects: 26,
        args: Seq::new(args),
    };
    Ok(Fault {
        pos: at(5, 6),
        object: 25,
        change: 1,
        escaped: -1,
        witness: Witness {
            input,
            choices: Seq::new(choices),
        },
        used: Seq::new(used),
    })
}

#[test]
fn no_function_no_line(rt: HostRuntime) -> Result<(), Memory> {
    let names = Names::builtin(rt.alloc())?;
    let text = report(rt.alloc(), &names, &[])?;
    assert_eq!(rt; text.len(), 0);
    Ok(())
}

#[test]
fn lines_of_verdicts(rt: HostRuntime) -> Result<(), Fail> {
    let alloc = rt.alloc();
    let clean = said(alloc, Verdict::Clean)?;
    assert!(rt; clean.as_slice() == b"clean PyLong_FromLong\n".as_slice());
    let refused = said(alloc, Verdict::Refused(at(3, 7), Rule(5)))?;
    assert!(rt; refused.as_slice() == b"refused PyLong_FromLong 3:7 N5\n".as_slice());
    let traces = said(alloc, Verdict::Unknown(Why::Traces))?;
    assert!(rt; traces.as_slice() == b"unknown PyLong_FromLong traces\n".as_slice());
    Ok(())
}

#[test]
fn lines_of_a_fault(rt: HostRuntime) -> Result<(), Fail> {
    let text = said(rt.alloc(), Verdict::Faulty(fault(rt.alloc())?))?;
    let wanted = concat!(
        "faulty PyLong_FromLong 5:6 object 25 change 1 escaped -1\n",
        "  objects 26\n",
        "  argument object 25\n",
        "  argument int -3\n",
        "  argument text\n",
        "  4:5 null\n",
        "  12:34 given 2\n",
    );
    assert!(rt; text.as_slice() == wanted.as_bytes());
    Ok(())
}

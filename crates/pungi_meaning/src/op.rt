ghost use Rattle.std.specs.Prelude.{◌≡◌};
ghost use Rattle.pungi_meaning.specs.Values.{op_of};

use pungi_base::Punct;

/// An arithmetic operator (C11 6.5.5, 6.5.6).
#[derive(Clone, Copy)]
pub enum Op {
    Add,
    Sub,
    Mul,
    Div,
    Rem,
}

impl Op {
    /// The operator that a punctuator stands for, alone, doubled or in front of `=`.
    pub fn of(punct: Punct) -> Op
        ensures { result ≡ op_of punct }
    {
        match punct {
            Punct::Minus | Punct::MinusMinus | Punct::MinusAssign => Op::Sub,
            Punct::Star | Punct::StarAssign => Op::Mul,
            Punct::Slash | Punct::SlashAssign => Op::Div,
            Punct::Percent | Punct::PercentAssign => Op::Rem,
            _ => Op::Add,
        }
    }
}

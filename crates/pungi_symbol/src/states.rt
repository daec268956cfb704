//! What a symbolic state is: terms, marks, slots, balances and bounds of numbers.

pub(crate) mod balances;
pub(crate) mod code_lines;
pub(crate) mod computation;
pub(crate) mod integer_range;
pub(crate) mod known;
pub(crate) mod limit;
pub(crate) mod mark;
pub(crate) mod node;
pub(crate) mod number_places;
pub(crate) mod obstacle;
pub(crate) mod spot;
pub(crate) mod state;
pub(crate) mod sum;
pub(crate) mod sym;
pub(crate) mod sym_end;
pub(crate) mod term;
pub(crate) mod turns;
pub(crate) mod vars;

use pungi_check::UnitFault;
use pungi_lex::{LexFault, MacroFault};
use pungi_parse::ParseFault;
use thiserror::Error;

/// Why the text of a file is refused, or that memory ran out in one of its parts.
#[derive(Debug, Drop, Error)]
pub enum FileFault {
    /// It has no tokens.
    #[error("{0}")]
    Lex(LexFault),
    /// Its macros can't be replaced.
    #[error("{0}")]
    Macro(MacroFault),
    /// Its tokens are no unit.
    #[error("{0}")]
    Parse(ParseFault),
    /// Its names or functions are refused.
    #[error("{0}")]
    Unit(UnitFault),
    /// Memory ran out after that.
    #[error("no memory")]
    Memory,
}

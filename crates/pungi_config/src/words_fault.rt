use pungi_base::Memory;
use std::alloc::AllocError;
use thiserror::Error;

/// Why the words of a call are refused.
#[derive(Debug, Drop, Error)]
pub enum WordsFault {
    /// They are not those of the command, or ask for neither or both of a file and a trial, for a trial with a
    /// configuration, or for a trial that there isn't. A question for help is among them.
    #[error("the words are refused")]
    Words,
    #[error("no memory")]
    Memory,
}

ghost use Rattle.std.specs.Prelude.{◌≡◌, ◌++◌, ◌∷◌, [], IfOk};
ghost use Rattle.pungi.specs.Load.{unread_text};
ghost use Rattle.pungi.specs.Status.{file_unread};

use crate::status::FILE_UNREAD;
use pungi_base::Memory;
use std::alloc::Global;

/// A status, and the text that goes with it.
#[derive(Debug, Drop)]
pub struct Answer {
    /// One of the statuses of `status`.
    pub status: u8,
    /// What is written, whole lines.
    pub text: Vec<u8>,
}

/// An answer of one line.
pub fn message(alloc: Global, status: u8, line: &str) -> Result<Answer, Memory>
    ensures { IfOk result (λ a. (a.status ≡ status) × (a.text.items ≡ line.now ++ 10 ∷ [])) }
{
    let mut text = Vec::from_slice(alloc, line.as_bytes())?;
    text.push(b'\n')?;
    Ok(Answer { status, text })
}

/// That a file can't be read.
pub fn unread_answer(alloc: Global, file: &str) -> Result<Answer, Memory>
    ensures { IfOk result (λ a. (a.status ≡ file_unread) × (a.text.items ≡ unread_text file.now)) }
{
    let mut text = Vec::from_slice(alloc, b"cannot read ")?;
    text.extend_from_slice(file.as_bytes())?;
    text.push(b'\n')?;
    Ok(Answer {
        status: FILE_UNREAD,
        text,
    })
}

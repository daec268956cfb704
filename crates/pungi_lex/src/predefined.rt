ghost use Rattle.std.specs.Prelude.{◌≡◌, IfOk};
ghost use Rattle.pungi_lex.specs.Predefined.{predefined as first_macros, first_body, returned, headed};
ghost use Rattle.pungi_lex.specs.Predefined.{number as number_kinds};

use crate::macros::Body;
use pungi_base::words::{
    OB_BASE, PY_BEGIN_ALLOW_THREADS, PY_END_ALLOW_THREADS, PY_EQ, PY_FALSE, PY_GE, PY_GT, PY_LE,
    PY_LT, PY_MODINIT_FUNC, PY_NE, PY_NEW_REF, PY_NONE, PY_OBJECT, PY_OBJECT_HEAD,
    PY_OBJECT_VAR_HEAD, PY_RETURN_FALSE, PY_RETURN_NONE, PY_RETURN_TRUE, PY_TRUE, PY_VAR_OBJECT,
};
use pungi_base::{Key, Kind, Name, Punct};
use std::alloc::{AllocError, Global};

/// `return Py_NewRef(object)`
fn returned(alloc: Global, object: u32) -> Result<Vec<Kind>, AllocError>
    ensures { IfOk result (λ kinds. kinds.items ≡ returned object) }
{
    Ok(vec![in alloc;
        Kind::Key(Key::Return),
        Kind::Word(Name(PY_NEW_REF)),
        Kind::Punct(Punct::LeftParen),
        Kind::Word(Name(object)),
        Kind::Punct(Punct::RightParen),
    ]?)
}

/// `head ob_base;`
fn headed(alloc: Global, head: u32) -> Result<Vec<Kind>, AllocError>
    ensures { IfOk result (λ kinds. kinds.items ≡ headed head) }
{
    Ok(vec![in alloc;
        Kind::Word(Name(head)),
        Kind::Word(Name(OB_BASE)),
        Kind::Punct(Punct::Semicolon),
    ]?)
}

fn number(alloc: Global, n: u8) -> Result<Vec<Kind>, AllocError>
    ensures { IfOk result (λ kinds. kinds.items ≡ number_kinds n) }
{
    Ok(vec![in alloc;
        Kind::Int {
            value: n as i128,
            long: false,
            unsigned: false
        },
    ]?)
}

/// What a name stands for before a text.
fn first_entry(alloc: Global, name: u32) -> Result<Option<Body>, AllocError>
    ensures { IfOk result (λ body. body ≡ first_body name) }
{
    let kinds = match name {
        PY_RETURN_NONE => returned(alloc, PY_NONE)?,
        PY_RETURN_TRUE => returned(alloc, PY_TRUE)?,
        PY_RETURN_FALSE => returned(alloc, PY_FALSE)?,
        PY_BEGIN_ALLOW_THREADS => vec![in alloc; Kind::Punct(Punct::LeftBrace)]?,
        PY_END_ALLOW_THREADS => vec![in alloc; Kind::Punct(Punct::RightBrace)]?,
        PY_MODINIT_FUNC => {
            vec![in alloc; Kind::Word(Name(PY_OBJECT)), Kind::Punct(Punct::Star)]?
        }
        PY_OBJECT_HEAD => headed(alloc, PY_OBJECT)?,
        PY_OBJECT_VAR_HEAD => headed(alloc, PY_VAR_OBJECT)?,
        PY_LT => number(alloc, 0)?,
        PY_LE => number(alloc, 1)?,
        PY_EQ => number(alloc, 2)?,
        PY_NE => number(alloc, 3)?,
        PY_GT => number(alloc, 4)?,
        PY_GE => number(alloc, 5)?,
        _ => return Ok(None),
    };
    Ok(Some(Body::new(kinds)))
}

/// The macros before a text, of so many names.
pub(crate) fn predefined(alloc: Global, count: u32) -> Result<Vec<Option<Body>>, AllocError>
    ensures { IfOk result (λ table. table.items ≡ first_macros count) }
{
    let mut table = Vec::with_capacity(alloc, count as usize)?;
    for name in 0..count {
        table.push(first_entry(alloc, name)?)?;
    }
    Ok(table)
}

ghost use Rattle.std.specs.Prelude.{◌≡◌, ◌++◌, IfOk, codes, string_bytes};
ghost use Rattle.pungi_config.specs.Wrong.{spelled};

use std::alloc::{AllocError, Global};

/// A wrong key, and the tables that it stands in.
#[derive(Clone, Copy, Debug)]
pub(crate) enum Wrong<'a> {
    /// A key of the whole text.
    Top(&'a str),
    /// A name in the table `function`.
    Function(&'a str),
    /// A name there, and a key of its table.
    FunctionKey(&'a str, &'a str),
    /// A name in the table `convention`.
    Convention(&'a str),
    /// A name there, and a key of its table.
    ConventionKey(&'a str, &'a str),
}

fn joined(alloc: Global, table: &str, name: &str) -> Result<String, AllocError>
    ensures { IfOk result (λ path. string_bytes path ≡ table.now ++ name.now) }
{
    let mut path = String::from_str(alloc, table)?;
    path.push_str(name)?;
    Ok(path)
}

fn key_joined(alloc: Global, table: &str, name: &str, key: &str) -> Result<String, AllocError>
    ensures { IfOk result (λ path. string_bytes path ≡ (table.now ++ name.now) ++ codes "." ++ key.now) }
{
    let mut path = joined(alloc, table, name)?;
    path.push_str(".")?;
    path.push_str(key)?;
    Ok(path)
}

/// The key as it is reported.
pub(crate) fn spelled(alloc: Global, wrong: Wrong<'_>) -> Result<String, AllocError>
    ensures { IfOk result (λ key. string_bytes key ≡ spelled wrong.entry) }
{
    match wrong {
        Wrong::Top(key) => String::from_str(alloc, key),
        Wrong::Function(name) => joined(alloc, "function.", name),
        Wrong::FunctionKey(name, key) => key_joined(alloc, "function.", name, key),
        Wrong::Convention(name) => joined(alloc, "convention.", name),
        Wrong::ConventionKey(name, key) => key_joined(alloc, "convention.", name, key),
    }
}

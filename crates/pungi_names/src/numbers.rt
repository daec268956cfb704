// The numbers of functions, in the order of their definitions.
ghost use Rattle.std.specs.Prelude.{◌≡◌, ℕ, OnOk, map, nat_eq};
ghost use Rattle.indexmap.specs.IndexMap.{get, IsEmpty};
ghost use Rattle.pungi_declared.specs.DeclaredView.{function_view};
ghost use Rattle.pungi_types.specs.Files.{number_in};

use indexmap::IndexMap;
use pungi_base::Memory;
use pungi_tree::FunctionDef;

/// Notes the number of the first function of each name.
pub(crate) fn note_numbers(
    numbers: &mut IndexMap<u32, usize>,
    functions: &Vec<&FunctionDef>,
) -> Result<(), Memory>
    requires { IsEmpty numbers.old }
    ensures { OnOk result ((w : ℕ) → get nat_eq numbers.new w ≡ number_in 0 (map function_view functions.now.items) w) }
{
    let mut i = functions.len();
    'functions: while i > 0 {
        i -= 1;
        numbers.insert(functions[i].name.0, i)?;
    }
    Ok(())
}

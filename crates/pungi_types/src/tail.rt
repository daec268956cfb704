// What stands after a declared name.
ghost use Rattle.std.specs.Prelude.{◌≡◌, map};
ghost use Rattle.pungi_tree.specs.ExprView.{declr_view, optional_view, sizes_of};
ghost use Rattle.pungi_types.specs.Files.{is_no_array, is_plain_tail, declr_tail};
ghost use Rattle.pungi_types.specs.Names.{is_no_function};

use pungi_tree::{Declr, Expr, Tail};

fn is_no_array(sizes: &Vec<Option<Expr>>) -> bool
    ensures { result ≡ is_no_array (sizes_of (map optional_view sizes.now.items)) }
{
    match sizes.as_slice() {
        [] => true,
        [None, ..] => false,
        [Some(_), ..] => false,
    }
}

/// Neither an array nor a pointer to a function.
pub fn is_plain(declr: &Declr) -> bool
    ensures { result ≡ is_plain_tail (declr_tail (declr_view declr.now)) }
{
    match &declr.tail {
        Tail::Sizes(sizes) => is_no_array(sizes),
        Tail::Function(_) => false,
    }
}

/// No pointer to a function.
pub fn is_no_function(declr: &Declr) -> bool
    ensures { result ≡ is_no_function (declr_tail (declr_view declr.now)) }
{
    match &declr.tail {
        Tail::Sizes(_) => true,
        Tail::Function(_) => false,
    }
}

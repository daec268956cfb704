// What affine programs promise.
ghost use Rattle.pungi_shape.specs.Families.{SafeRowsAreBalanced, ValuesAreBalancedAmong};
ghost use Rattle.pungi_shape.specs.Promises.{SafeIsBalanced, ValuesAreBalanced};

use pungi_domain::Domain;

/// The law of safe annotations: where the affine program of a code has one, each run of the code that returns is
/// balanced.
pub fn safe_is_balanced()
    ensures { SafeIsBalanced }
{}

/// The same law where the vectors at places and exit classes are those of values of a domain.
pub fn values_are_balanced<D: Domain>()
    ensures { ValuesAreBalanced D.member }
{}

/// The law for functions that call each other: where rows for each function that a function reaches by calls are safe,
/// each run of the function that returns is balanced, through all calls, however deep.
pub fn safe_rows_are_balanced()
    ensures { SafeRowsAreBalanced }
{}

/// The same law where the vectors at places and exit classes are those of values of a domain.
pub fn values_are_balanced_among<D: Domain>()
    ensures { ValuesAreBalancedAmong D.member }
{}

// Where a path computes and compares numbers that are no sums of a token and a constant.
ghost use Rattle.std.specs.Prelude.{◌≡◌};
ghost use Rattle.pungi_symbol.specs.states.NumberPlaces.{is_earlier, earliest, with_computed, with_compared};
ghost use Rattle.pungi_symbol.specs.states.NumberPlaces.{place_among};

use pungi_base::Pos;

/// The first places in the text at which a path compares such a number, and computes one.
#[derive(Clone, Copy)]
pub struct NumberPlaces {
    pub compared: Option<Pos>,
    pub computed: Option<Pos>,
}

fn is_earlier(p: Pos, q: Pos) -> bool
    ensures { result ≡ is_earlier p q }
{
    p.line < q.line || (p.line == q.line && p.col < q.col)
}

/// The earlier one of a place that was seen, and this one.
pub fn earliest(seen: Option<Pos>, pos: Pos) -> Pos
    ensures { result ≡ earliest seen pos }
{
    match seen {
        None => pos,
        Some(first) => { if is_earlier(pos, first) { pos } else { first } }
    }
}

/// One more place at which such a number is computed.
pub fn with_computed(places: NumberPlaces, pos: Pos) -> NumberPlaces
    ensures { result ≡ with_computed places pos }
{
    NumberPlaces {
        compared: places.compared,
        computed: Some(earliest(places.computed, pos)),
    }
}

/// One more place at which such a number is compared.
pub fn with_compared(places: NumberPlaces, pos: Pos) -> NumberPlaces
    ensures { result ≡ with_compared places pos }
{
    NumberPlaces {
        compared: Some(earliest(places.compared, pos)),
        computed: places.computed,
    }
}

/// The place by which a path with such a number is reported.
pub fn place_among(places: NumberPlaces) -> Pos
    ensures { result ≡ place_among places }
{
    match places.compared {
        Some(pos) => pos,
        None => match places.computed {
            Some(pos) => pos,
            None => Pos { line: 0, col: 0 },
        },
    }
}

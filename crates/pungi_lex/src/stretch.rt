ghost use Rattle.std.specs.Prelude.{◌≡◌, ◌≤◌, ◌<◌, ◌+◌, ◌^◌, [], length, drop};
ghost use Rattle.std.specs.List.{All};
ghost use Rattle.pungi_lex.specs.Stretch.{right_of, places_along, places_left, IsNarrow};

use pungi_base::Pos;

/// Bytes that stand side by side on a line: the place of the first, and how many they are.
#[derive(Clone, Copy)]
pub(crate) struct Stretch {
    pub at: Pos,
    pub count: u32,
}

/// How far stretches are read: the place of the next byte, how many bytes of its stretch are left, and which stretch
/// comes after it.
#[derive(Clone, Copy)]
pub(crate) struct Spot {
    pub at: Pos,
    pub left: u32,
    pub next: usize,
}

/// The place so many columns on.
pub(crate) fn right_of(at: Pos, count: u32) -> Pos
    requires { at.col + count < 2 ^ 32 }
    ensures { result ≡ right_of at count }
{
    Pos {
        line: at.line,
        col: at.col + count,
    }
}

/// The spot of the stretch of a number.
fn spot_at(stretches: &[Stretch], next: usize) -> Spot
    requires some { next < length stretches.now }
    requires narrow { All IsNarrow stretches.now }
    ensures left { places_left stretches.now result ≡ places_along (drop next stretches.now) }
    ensures narrow { result.at.col + result.left < 2 ^ 32 }
    ensures next { result.next ≡ next + 1 }
{
    let stretch = stretches[next];
    Spot {
        at: stretch.at,
        left: stretch.count,
        next: next + 1,
    }
}

/// The spot so many bytes on.
pub(crate) fn spot_behind(stretches: &[Stretch], from: Spot, count: u32) -> Spot
    requires narrow { All IsNarrow stretches.now }
    requires col { from.at.col + from.left < 2 ^ 32 }
    ensures left { places_left stretches.now result ≡ drop count (places_left stretches.now from) }
    ensures end { result.left ≡ 0 → places_left stretches.now result ≡ [] }
    ensures col { result.at.col + result.left < 2 ^ 32 }
{
    let mut spot = from;
    let mut more = count;
    'stretches: while spot.left <= more && spot.next < stretches.len() {
        more -= spot.left;
        spot = spot_at(stretches, spot.next);
    }
    if more < spot.left {
        Spot {
            at: right_of(spot.at, more),
            left: spot.left - more,
            next: spot.next,
        }
    } else {
        Spot {
            at: spot.at,
            left: 0,
            next: spot.next,
        }
    }
}

/// The spot of the first byte.
pub(crate) fn first_spot(stretches: &[Stretch]) -> Spot
    requires narrow { All IsNarrow stretches.now }
    ensures left { places_left stretches.now result ≡ places_along stretches.now }
    ensures end { result.left ≡ 0 → places_left stretches.now result ≡ [] }
    ensures col { result.at.col + result.left < 2 ^ 32 }
{
    let before = Spot {
        at: Pos { line: 0, col: 0 },
        left: 0,
        next: 0,
    };
    spot_behind(stretches, before, 0)
}

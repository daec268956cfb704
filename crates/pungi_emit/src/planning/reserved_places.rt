// Room for places that are not known yet.
ghost use Rattle.std.specs.Prelude.{◌≡◌, ◌+◌, ◌≤◌, ◌++◌, length, take, drop, replicate, IfOk, OnOk};

use pungi_base::{Memory, Seq};

/// Room for so many places that are not known yet. The answer is where it begins.
pub fn hold(places: &mut Seq<u32>, count: usize) -> Result<usize, Memory>
    ensures room { IfOk result (λ room. room ≡ length places.old) }
    ensures places { OnOk result (places.new ≡ places.old ++ replicate count 0) }
{
    let room = places.len();
    for _i in 0..count {
        places.push(0)?;
    }
    Ok(room)
}

/// Puts places where room was held for them.
pub fn fill(places: &mut Seq<u32>, room: usize, known: &[u32])
    requires { room + length known.now ≤ length places.old }
    ensures { places.new ≡ take room places.old ++ (known.now ++ drop (room + length known.now) places.old) }
{
    let _count = places.len();
    for i in 0..known.len() {
        places.set(room + i, known[i]);
    }
}

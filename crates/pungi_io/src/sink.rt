ghost use Rattle.std.specs.Prelude.{◌≡◌, ℕ, ◌≤◌, ◌<◌, List, length, OnOk, OnErr, IfOk};
ghost use Rattle.pungi_io.specs.Shelf.{Rose, Grew};

use crate::Failed;

/// Where bytes are written to.
pub trait Sink {
    /// The bytes taken so far.
    ghost bytes_written: { Self → List ℕ };

    /// How often a call failed. At most 2^64 - 1.
    ghost faults: { Self → ℕ };

    /// Takes bytes from the front of a piece, and returns how many.
    fn write(&mut self, piece: &[u8]) -> Result<usize, Failed>
        ensures within { IfOk result (λ count. count ≤ length piece.now) }
        ensures some { IfOk result (λ count. 0 < length piece.now → 0 < count) }
        ensures bytes { Grew (bytes_written self.old) (bytes_written self.new) result piece.now }
        ensures steady { OnOk result (faults self.new ≡ faults self.old) }
        ensures failed { OnErr result (Rose (faults self.old) (faults self.new)) };
}

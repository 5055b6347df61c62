ghost use Rattle.std.specs.Prelude.{◌≡◌, ◌++◌, ℕ, List, OnErr, OnOk, take};

use std::io;

/// The half of a connection that takes what a session puts out.
pub trait Outgoing {
    /// All bytes that it took so far, in order.
    ghost took: { Self → List ℕ };

    /// Writes all bytes. Where it can't, it took a prefix of them.
    fn write_piece(&mut self, bytes: &[u8]) -> io::Result<()>
        ensures all { OnOk result (took self.new ≡ took self.old ++ bytes.now) }
        ensures part { OnErr result ((n : ℕ) × (took self.new ≡ took self.old ++ take n bytes.now)) };
}

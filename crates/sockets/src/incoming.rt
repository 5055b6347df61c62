ghost use Rattle.std.specs.Prelude.{◌≡◌, ◌≤◌, ◌++◌, ℕ, List, IfOk, OnErr, length, take};

use std::io;

/// The half of a connection that a session is fed from.
pub trait Incoming {
    /// All bytes that it gave so far, in order.
    ghost gave: { Self → List ℕ };

    /// Reads what has come, at most as much as the buffer holds, into its beginning: how many bytes that is; 0 at the
    /// end of the input. It waits while nothing has come.
    fn read_piece(&mut self, buffer: &mut [u8]) -> io::Result<usize>
        ensures within { IfOk result (λ n. n ≤ length buffer.new) }
        ensures size { length buffer.new ≡ length buffer.old }
        ensures gave { IfOk result (λ n. gave self.new ≡ gave self.old ++ take n buffer.new) }
        ensures none { OnErr result (gave self.new ≡ gave self.old) };
}

//! What several benches make, measure and print.
//!
//! A value that isn't plain is dropped by `drop`, and nothing fails while it lives: each way out of a function drops what lives there, and
//! each of those drops is proved.
ghost use Rattle.std.specs.Prelude.{◌≡◌, length, IfOk};

use bytes::Bytes;
use std::alloc::{AllocError, Global};
use std::fmt::Display;
use std::io;
use std::time::{Clock, Duration};

/// A byte, so many times.
pub(crate) fn repeated(alloc: Global, byte: u8, count: usize) -> Result<Bytes, AllocError>
    ensures { IfOk result (λ bytes. length bytes ≡ count) }
{
    Ok(Bytes::from_vec(vec![in alloc; byte; count]?)?)
}

/// The time that the clock shows, counted from where it began; none, where it can't be read.
pub(crate) fn now(rt: &HostRuntime) -> Duration {
    rt.monotonic().unwrap_or(Duration::ZERO)
}

/// The time since the clock showed this.
pub(crate) fn since(rt: &HostRuntime, start: Duration) -> Duration {
    now(rt).saturating_sub(start)
}

/// Prints what was done, and how many milliseconds it took, where that was measured.
pub(crate) fn print_done<D: Display + Drop>(
    rt: &HostRuntime,
    done: D,
    took: Duration,
    timed: bool,
) -> io::Result<()> {
    if !timed {
        return rt.println(done);
    }
    let millis = took.as_millis();
    println!(rt; "{done} in {millis} ms")
}

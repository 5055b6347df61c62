//! Reading and writing of any stream. A call that a signal interrupts is made again.
ghost use Rattle.std.specs.Prelude.{◌≡◌, ◌≤◌, IfOk, OnOk, length, take};
ghost use Rattle.std.specs.Io.KnownBytes.{Appends, ReadConsumes, WriteAppends};

use std::io;
use std::io::{ErrorKind, Read, Write};

/// Reads what has come into the buffer's beginning: how many bytes that is; 0 at the end.
pub(crate) fn read_some<R: Read>(stream: &mut R, buffer: &mut [u8]) -> io::Result<usize>
    ensures within { IfOk result (λ n. n ≤ length buffer.new) }
    ensures size { length buffer.new ≡ length buffer.old }
    ensures read { ReadConsumes (R.remaining stream.old) (R.remaining stream.new) result buffer.new }
{
    for _ in 0..u64::MAX {
        match stream.read(buffer) {
            Ok(count) => return Ok(count),
            Err(reason) => {
                if reason.kind() != ErrorKind::Interrupted {
                    return Err(reason);
                }
            }
        }
    }
    Err(io::Error::from(ErrorKind::Interrupted))
}

/// Writes a prefix of the bytes: how many they are.
fn write_some<W: Write>(stream: &mut W, bytes: &[u8]) -> io::Result<usize>
    ensures within { IfOk result (λ n. n ≤ length bytes.now) }
    ensures written { WriteAppends (W.contents stream.old) (W.contents stream.new) result bytes.now }
{
    for _ in 0..u64::MAX {
        match stream.write(bytes) {
            Ok(count) => return Ok(count),
            Err(reason) => {
                if reason.kind() != ErrorKind::Interrupted {
                    return Err(reason);
                }
            }
        }
    }
    Err(io::Error::from(ErrorKind::Interrupted))
}

/// Writes all bytes, or a prefix: how many bytes the stream took, and why not all.
pub(crate) fn write_front<W: Write>(stream: &mut W, bytes: &[u8]) -> (usize, io::Result<()>)
    ensures within { result.0 ≤ length bytes.now }
    ensures all { OnOk result.1 (result.0 ≡ length bytes.now) }
    ensures written { Appends (W.contents stream.old) (W.contents stream.new) (take result.0 bytes.now) }
{
    let mut count = 0;
    while count < bytes.len() {
        match write_some(stream, &bytes[count..]) {
            Ok(0) => return (count, Err(io::Error::from(ErrorKind::WriteZero))),
            Ok(more) => count += more,
            Err(reason) => return (count, Err(reason)),
        }
    }
    (count, Ok(()))
}

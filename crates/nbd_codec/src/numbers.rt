//! Numbers at the end of what is written.

ghost use Rattle.std.specs.Prelude.{◌≡◌, ◌+◌, ◌≤◌, ◌++◌};
ghost use Rattle.byteorder.specs.Endian.{big_bytes};

use bytes::BytesMut;

/// Puts two bytes at the end, where there is room for them.
pub(crate) fn put_u16(out: &mut BytesMut, n: u16)
    requires { 2 ≤ out.old.spare }
    ensures items { out.new.items ≡ out.old.items ++ big_bytes 2 n }
    ensures room { out.new.spare + 2 ≡ out.old.spare }
{
    out.extend_reserved(&n.to_be_bytes());
}

/// Puts four bytes at the end, where there is room for them.
pub(crate) fn put_u32(out: &mut BytesMut, n: u32)
    requires { 4 ≤ out.old.spare }
    ensures items { out.new.items ≡ out.old.items ++ big_bytes 4 n }
    ensures room { out.new.spare + 4 ≡ out.old.spare }
{
    out.extend_reserved(&n.to_be_bytes());
}

/// Puts eight bytes at the end, where there is room for them.
pub(crate) fn put_u64(out: &mut BytesMut, n: u64)
    requires { 8 ≤ out.old.spare }
    ensures items { out.new.items ≡ out.old.items ++ big_bytes 8 n }
    ensures room { out.new.spare + 8 ≡ out.old.spare }
{
    out.extend_reserved(&n.to_be_bytes());
}

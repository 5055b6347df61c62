//! The requests of a client that a script speaks for.
use byteorder::{BigEndian, ByteOrder};
use std::alloc::{AllocError, Global};

/// What the client sends first: FIXED_NEWSTYLE and NO_ZEROES, and GO for the export with the empty name.
pub const NEGOTIATION: [u8; 26] = [
    0, 0, 0, 3, 0x49, 0x48, 0x41, 0x56, 0x45, 0x4f, 0x50, 0x54, 0, 0, 0, 7, 0, 0, 0, 6, 0, 0, 0, 0,
    0, 0,
];

/// The first four bytes of a request.
const REQUEST_MAGIC: u32 = 0x2560_9513;

/// The bytes of a request before a payload.
const REQUEST_HEADER: usize = 28;

/// The flag of a request whose reply waits for permanent storage.
const FUA: u16 = 1;

/// What a request asks.
#[derive(Clone, Copy)]
pub enum RequestKind {
    Read,
    Write,
    Fua,
    Flush,
    Zero,
    ForcedZero,
}

impl RequestKind {
    /// The flags and the type on the wire.
    fn numbers(self) -> (u16, u16) {
        match self {
            RequestKind::Read => (0, 0),
            RequestKind::Write => (0, 1),
            RequestKind::Fua => (FUA, 1),
            RequestKind::Flush => (0, 3),
            RequestKind::Zero => (0, 6),
            RequestKind::ForcedZero => (FUA, 6),
        }
    }
}

/// A request of a script. Offset and length are in bytes.
#[derive(Drop)]
pub struct ClientRequest {
    pub kind: RequestKind,
    pub cookie: u64,
    pub offset: u64,
    pub length: u32,
    pub payload: Vec<u8>,
}

impl ClientRequest {
    /// Its bytes.
    pub(crate) fn encoded(&self, alloc: Global) -> Result<Vec<u8>, AllocError> {
        let (flags, kind) = self.kind.numbers();
        let mut header = [0; REQUEST_HEADER];
        BigEndian::write_u32(&mut header, REQUEST_MAGIC);
        BigEndian::write_u16(&mut header[4..], flags);
        BigEndian::write_u16(&mut header[6..], kind);
        BigEndian::write_u64(&mut header[8..], self.cookie);
        BigEndian::write_u64(&mut header[16..], self.offset);
        BigEndian::write_u32(&mut header[24..], self.length);
        let mut bytes = Vec::from_slice(alloc, &header)?;
        bytes.extend_from_slice(&self.payload)?;
        Ok(bytes)
    }
}

//! What a reader finds at the front of the bytes that came.

/// What stands at the front.
#[derive(Debug, PartialEq, Eq, Drop)]
pub enum Reading<T> {
    /// A value, and how many bytes it takes.
    Value(T, usize),
    /// The bytes are a proper prefix of a value: more is needed.
    More,
    /// The bytes can't become a value: the session ends.
    Fault(Fault),
}

/// Why the session ends, without a reply.
#[derive(Clone, Copy, Debug, PartialEq, Eq)]
pub enum Fault {
    /// The client flags have a bit other than FIXED_NEWSTYLE and NO_ZEROES, or lack the first.
    ClientFlags,
    /// An option doesn't begin with its magic.
    OptionMagic,
    /// EXPORT_NAME asks for another export than the one with the empty name.
    ExportName,
    /// A request doesn't begin with its magic.
    RequestMagic,
    /// The payload of a WRITE is longer than the most that is taken.
    PayloadTooLong,
}

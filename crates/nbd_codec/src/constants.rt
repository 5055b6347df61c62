//! The numbers on the wire: doc/proto.md of the NBD project, "Values".

/// `NBDMAGIC`, the first eight bytes from the server.
pub const INIT_MAGIC: u64 = 0x4e42_444d_4147_4943;
/// `IHAVEOPT`, the next eight, and the first eight of each option.
pub const OPTION_MAGIC: u64 = 0x4948_4156_454f_5054;
/// The first eight bytes of each option reply.
pub const OPTION_REPLY_MAGIC: u64 = 0x0003_e889_0455_65a9;
/// The first four bytes of each request.
pub const REQUEST_MAGIC: u32 = 0x2560_9513;
/// The first four bytes of each simple reply.
pub const SIMPLE_REPLY_MAGIC: u32 = 0x6744_6698;

/// What the server offers in its greeting: FIXED_NEWSTYLE (bit 0) and NO_ZEROES (bit 1).
pub const HANDSHAKE_FLAGS: u16 = 0x0003;
/// Client flags: FIXED_NEWSTYLE alone.
pub const FIXED_NEWSTYLE: u32 = 0x0000_0001;
/// Client flags: FIXED_NEWSTYLE and NO_ZEROES.
pub const FIXED_NEWSTYLE_NO_ZEROES: u32 = 0x0000_0003;

/// How many bytes the greeting has.
pub const GREETING_LEN: usize = 18;
/// How many bytes client flags have.
pub const CLIENT_FLAGS_LEN: usize = 4;

/// The option EXPORT_NAME.
pub const OPTION_EXPORT_NAME: u32 = 1;
/// The option ABORT.
pub const OPTION_ABORT: u32 = 2;
/// The option LIST.
pub const OPTION_LIST: u32 = 3;
/// The option INFO.
pub const OPTION_INFO: u32 = 6;
/// The option GO.
pub const OPTION_GO: u32 = 7;
/// How many bytes an option has before its data.
pub const OPTION_HEADER: usize = 16;
/// The most bytes of data that an option may have.
pub const MAX_OPTION_DATA: u32 = 4096;

/// The option reply ACK.
pub const REPLY_ACK: u32 = 1;
/// The option reply SERVER.
pub const REPLY_SERVER: u32 = 2;
/// The option reply INFO.
pub const REPLY_INFO: u32 = 3;
/// The option reply ERR_UNSUP.
pub const REPLY_ERR_UNSUP: u32 = 0x8000_0001;
/// The option reply ERR_INVALID.
pub const REPLY_ERR_INVALID: u32 = 0x8000_0003;
/// The option reply ERR_UNKNOWN.
pub const REPLY_ERR_UNKNOWN: u32 = 0x8000_0006;
/// The option reply ERR_TOO_BIG.
pub const REPLY_ERR_TOO_BIG: u32 = 0x8000_0009;

/// The information type EXPORT.
pub const INFO_EXPORT: u16 = 0;
/// The information type BLOCK_SIZE.
pub const INFO_BLOCK_SIZE: u16 = 3;
/// The length of the data of SERVER.
pub const SERVER_LEN: u32 = 4;
/// The length of the name of the one export, which is empty.
pub const SERVER_NAME_LEN: u32 = 0;
/// The length of the data of INFO of type EXPORT.
pub const INFO_EXPORT_LEN: u32 = 12;
/// The length of the data of INFO of type BLOCK_SIZE.
pub const INFO_BLOCK_SIZE_LEN: u32 = 14;
/// The length of the data of a reply that carries none.
pub const NO_DATA_LEN: u32 = 0;
/// The least size of a request's range, in bytes.
pub const MINIMUM_BLOCK: u32 = 1;
/// The size of a request's range that serves best, in bytes.
pub const PREFERRED_BLOCK: u32 = 4096;

/// HAS_FLAGS, SEND_FLUSH, SEND_FUA, SEND_WRITE_ZEROES and CAN_MULTI_CONN: bits 0, 2, 3, 6 and 8.
pub const TRANSMISSION_FLAGS: u16 = 0x014d;
/// The zeros behind the answer to EXPORT_NAME.
pub const EXPORT_ZEROS: usize = 124;

/// The request READ.
pub const REQUEST_READ: u16 = 0;
/// The request WRITE.
pub const REQUEST_WRITE: u16 = 1;
/// The request DISC.
pub const REQUEST_DISC: u16 = 2;
/// The request FLUSH.
pub const REQUEST_FLUSH: u16 = 3;
/// The request WRITE_ZEROES.
pub const REQUEST_WRITE_ZEROES: u16 = 6;
/// The request flag FUA (bit 0).
pub const FLAG_FUA: u16 = 0x0001;
/// The request flag NO_HOLE (bit 1), of a WRITE_ZEROES alone.
pub const FLAG_NO_HOLE: u16 = 0x0002;
/// How many bytes a request has before a payload.
pub const REQUEST_HEADER: usize = 28;
/// How many bytes a simple reply has before a payload.
pub const REPLY_HEADER: usize = 16;
/// The profile's limit of requests in flight in a session.
pub const MAX_IN_FLIGHT: usize = 64;

/// What a reply carries in place of an error.
pub const NO_ERROR: u32 = 0;
/// EIO.
pub const ERROR_IO: u32 = 5;
/// ENOMEM.
pub const ERROR_NO_MEMORY: u32 = 12;
/// EINVAL.
pub const ERROR_INVALID: u32 = 22;
/// ENOSPC.
pub const ERROR_NO_SPACE: u32 = 28;

ghost use Rattle.std.specs.Prelude.{◌≡◌, ◌++◌, length, take, OnOk};
ghost use Rattle.nbd_session.specs.Answers.{answer_encoding, information};

use bytes::BytesMut;
use nbd_codec::constants::OPTION_LIST;
use nbd_codec::{
    NbdError, OptionReply, SimpleReply, write_export, write_option_reply, write_reply,
};
use std::alloc::AllocError;

/// What the session exports.
#[derive(Clone, Copy, Debug)]
pub(crate) struct Export {
    /// The bytes of the volume.
    pub size: u64,
    /// The longest payload, in bytes.
    pub max_payload: u32,
    /// The bytes of a journal area, in which each WRITE_ZEROES has to fit.
    pub area: u32,
}

/// What goes out at once for what came in.
#[derive(Clone, Copy, Debug)]
pub(crate) enum Answer {
    /// Nothing.
    Nothing,
    /// The answer to EXPORT_NAME.
    Exported { no_zeroes: bool },
    /// One reply to an option.
    Replied { option: u32, reply: OptionReply },
    /// The one export, as LIST asks for it.
    Listed,
    /// The information on the export: its size and flags, the sizes of requests if they are asked for, and ACK.
    Information { option: u32, block_size: bool },
    /// A request is done, and has no bytes.
    Done { cookie: u64 },
    /// A request isn't carried out.
    Refused { cookie: u64, error: NbdError },
}

impl Answer {
    /// Puts its bytes at the end. Where memory runs out, a part of them may be there.
    pub(crate) fn put(self, export: Export, out: &mut BytesMut) -> Result<(), AllocError>
        ensures ok { OnOk result (out.new.items ≡ out.old.items ++ answer_encoding export self) }
        ensures front { take (length out.old.items) out.new.items ≡ out.old.items }
    {
        match self {
            Answer::Nothing => Ok(()),
            Answer::Exported { no_zeroes } => write_export(out, export.size, no_zeroes),
            Answer::Replied { option, reply } => write_option_reply(out, option, reply),
            Answer::Listed => {
                write_option_reply(out, OPTION_LIST, OptionReply::Server)?;
                write_option_reply(out, OPTION_LIST, OptionReply::Ack)
            }
            Answer::Information { option, block_size } => {
                put_information(export, option, block_size, out)
            }
            Answer::Done { cookie } => {
                let outcome = Ok([].as_slice());
                write_reply(out, &SimpleReply { cookie, outcome })
            }
            Answer::Refused { cookie, error } => {
                let outcome = Err(error);
                write_reply(out, &SimpleReply { cookie, outcome })
            }
        }
    }
}

/// Puts the information on the export at the end.
fn put_information(
    export: Export,
    option: u32,
    block_size: bool,
    out: &mut BytesMut,
) -> Result<(), AllocError>
    ensures ok { OnOk result (out.new.items ≡ out.old.items ++ information export option block_size) }
    ensures front { take (length out.old.items) out.new.items ≡ out.old.items }
{
    let Export {
        size,
        max_payload,
        ..
    } = export;
    write_option_reply(out, option, OptionReply::Export { size })?;
    if block_size {
        write_option_reply(out, option, OptionReply::BlockSize { max_payload })?;
    }
    write_option_reply(out, option, OptionReply::Ack)
}

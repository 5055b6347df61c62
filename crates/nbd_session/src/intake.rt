//! What a session does with the front of its input.
ghost use Rattle.std.specs.Prelude.{◌≡◌, ◌<◌, ◌≤◌, ℕ, List, length, slice_range, IfSome, option_map};
ghost use Rattle.nbd_codec.specs.ClientOption.{option_in};
ghost use Rattle.nbd_codec.specs.Handshake.{flags_in};
ghost use Rattle.nbd_codec.specs.Request.{payload_of, request_in, request_view};
ghost use Rattle.nbd_codec.specs.Checked.{checked};
ghost use Rattle.nbd_session.specs.Answers.{answer_encoding, info_answer};
ghost use Rattle.nbd_session.specs.Intake.{IsIntake, progress_of};
ghost use Rattle.nbd_session.specs.Progress as progress;
ghost use Rattle.nbd_session.specs.Progress.{checked_progress};
ghost use Rattle.nbd_session.specs.declared.answer.Export.{Export as Exported};

use crate::answer::{Answer, Export};
use crate::phase::Phase;
use crate::wanted::Wanted;
use nbd_codec::constants::{OPTION_ABORT, OPTION_GO, OPTION_INFO, OPTION_LIST, REQUEST_HEADER};
use nbd_codec::{
    Checked, ClientOption, Information, OptionReply, Reading, Request, check, read_client_flags,
    read_option, read_request,
};

/// What a session does with the front of its input.
#[derive(Clone, Copy, Debug)]
pub(crate) struct Intake {
    /// How far it has come then.
    pub phase: Phase,
    /// How many bytes of the input it uses up.
    pub used: usize,
    /// What it puts out.
    pub answer: Answer,
    /// What it wants of the volume.
    pub wanted: Option<Wanted>,
}

/// The client flags at the front of the input, or `None` where more is needed.
pub(crate) fn flags_intake(export: Export, input: &[u8]) -> Option<Intake>
    ensures exact { option_map (progress_of export input.now) result ≡ progress.flags_progress (length input.now) (flags_in input.now) }
    ensures intake { IfSome result (IsIntake export.size input.now) }
{
    match read_client_flags(input) {
        Reading::Value(flags, used) => Some(Intake {
            phase: Phase::Negotiating {
                no_zeroes: flags.no_zeroes,
            },
            used,
            answer: Answer::Nothing,
            wanted: None,
        }),
        Reading::More => None,
        Reading::Fault(_) => Some(ended(input.len())),
    }
}

/// The option at the front of the input, or `None` where more is needed.
pub(crate) fn option_intake(export: Export, no_zeroes: bool, input: &[u8]) -> Option<Intake>
    ensures exact { option_map (progress_of export input.now) result ≡ progress.option_progress export no_zeroes (length input.now) (option_in input.now) }
    ensures intake { IfSome result (IsIntake export.size input.now) }
{
    match read_option(input) {
        Reading::Value(option, used) => Some(Intake {
            phase: phase_after(no_zeroes, option),
            used,
            answer: answer_at_once(no_zeroes, option),
            wanted: None,
        }),
        Reading::More => None,
        Reading::Fault(_) => Some(ended(input.len())),
    }
}

/// How far the session has come after an option.
fn phase_after(no_zeroes: bool, option: ClientOption) -> Phase
    ensures { result ≡ progress.phase_after_option no_zeroes option }
{
    match option {
        ClientOption::ExportName
        | ClientOption::Go(
            Information::Asked {
                has_name: false,
                ..
            },
        ) => Phase::Transmitting,
        ClientOption::Abort => Phase::Over,
        ClientOption::Oversized { number, len } => Phase::Skipping {
            no_zeroes,
            option: number,
            left: len,
        },
        ClientOption::List { .. }
        | ClientOption::Info(_)
        | ClientOption::Go(_)
        | ClientOption::Other { .. } => Phase::Negotiating { no_zeroes },
    }
}

/// The answer that goes out at once. That to an option that is too long waits for the end of its data.
fn answer_at_once(no_zeroes: bool, option: ClientOption) -> Answer
    ensures { (export : Exported) → answer_encoding export result ≡ progress.output_after_option export no_zeroes option }
{
    match option {
        ClientOption::ExportName => Answer::Exported { no_zeroes },
        ClientOption::Abort => Answer::Replied {
            option: OPTION_ABORT,
            reply: OptionReply::Ack,
        },
        ClientOption::List { has_data: false } => Answer::Listed,
        ClientOption::List { has_data: true } => Answer::Replied {
            option: OPTION_LIST,
            reply: OptionReply::ErrInvalid,
        },
        ClientOption::Info(asked) => information(OPTION_INFO, asked),
        ClientOption::Go(asked) => information(OPTION_GO, asked),
        ClientOption::Other { number } => Answer::Replied {
            option: number,
            reply: OptionReply::ErrUnsup,
        },
        ClientOption::Oversized { .. } => Answer::Nothing,
    }
}

/// The answer to INFO and to GO.
fn information(option: u32, asked: Information) -> Answer
    ensures { (export : Exported) → answer_encoding export result ≡ info_answer export option asked }
{
    match asked {
        Information::Asked {
            has_name: false,
            block_size,
        } => Answer::Information { option, block_size },
        Information::Asked { has_name: true, .. } => Answer::Replied {
            option,
            reply: OptionReply::ErrUnknown,
        },
        Information::Malformed => Answer::Replied {
            option,
            reply: OptionReply::ErrInvalid,
        },
    }
}

/// Passes over the data of an option that is too long, or `None` where there is none; behind the last of it comes
/// the answer.
pub(crate) fn skip_intake(
    export: Export,
    no_zeroes: bool,
    option: u32,
    left: u32,
    input: &[u8],
) -> Option<Intake>
    requires { 0 < left }
    ensures exact { option_map (progress_of export input.now) result ≡ progress.skip_progress no_zeroes option left (length input.now) }
    ensures intake { IfSome result (IsIntake export.size input.now) }
{
    let came = input.len();
    if came == 0 {
        return None;
    }
    let (phase, used, answer) = if came < left as usize {
        let left = left - came as u32;
        let phase = Phase::Skipping {
            no_zeroes,
            option,
            left,
        };
        (phase, came, Answer::Nothing)
    } else {
        let reply = OptionReply::ErrTooBig;
        let phase = Phase::Negotiating { no_zeroes };
        (phase, left as usize, Answer::Replied { option, reply })
    };
    Some(Intake {
        phase,
        used,
        answer,
        wanted: None,
    })
}

/// The next request of the input, or `None` where more is needed.
pub(crate) fn request_intake(export: Export, input: &[u8]) -> Option<Intake>
    ensures exact { option_map (progress_of export input.now) result ≡ progress.request_progress export (length input.now) (request_in export.max_payload input.now) }
    ensures intake { IfSome result (IsIntake export.size input.now) }
{
    match read_request(input, export.max_payload) {
        Reading::Value(request, used) => Some(checked_intake(export, &request, used)),
        Reading::More => None,
        Reading::Fault(_) => Some(ended(input.len())),
    }
}

/// What the session does with a request of so many bytes.
fn checked_intake(export: Export, request: &Request, used: usize) -> Intake
    requires { REQUEST_HEADER ≤ used }
    ensures exact { (input : List ℕ) → slice_range input REQUEST_HEADER used ≡ payload_of (request_view request.now) →
        progress_of export input result ≡ checked_progress (request_view request.now) used (checked export.size export.max_payload export.area (request_view request.now)) }
    ensures intake { (input : List ℕ) → slice_range input REQUEST_HEADER used ≡ payload_of (request_view request.now) → used ≤ length input →
        IsIntake export.size input result }
{
    let cookie = request.cookie();
    let (phase, answer, wanted) = match check(
        request,
        export.size,
        export.max_payload,
        export.area,
    ) {
        Checked::Volume(ask) => {
            let wanted = Wanted {
                cookie,
                ask,
                start: REQUEST_HEADER,
                end: used,
            };
            (Phase::Transmitting, Answer::Nothing, Some(wanted))
        }
        Checked::Done => (Phase::Transmitting, Answer::Done { cookie }, None),
        Checked::Refused(error) => (Phase::Transmitting, Answer::Refused { cookie, error }, None),
        Checked::Disconnect => (Phase::Leaving, Answer::Nothing, None),
    };
    Intake {
        phase,
        used,
        answer,
        wanted,
    }
}

/// The session ends, without a reply, whatever came.
fn ended(came: usize) -> Intake
    ensures exact { (export : Exported) (input : List ℕ) → progress_of export input result ≡ progress.ended came }
    ensures intake { (size : ℕ) (input : List ℕ) → came ≤ length input → IsIntake size input result }
{
    Intake {
        phase: Phase::Over,
        used: came,
        answer: Answer::Nothing,
        wanted: None,
    }
}

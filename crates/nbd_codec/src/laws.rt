//! Laws of the encodings, for callers that argue about whole texts. The functions do nothing.

ghost use Rattle.std.specs.Prelude.{◌≡◌, ℕ, ◌+◌, ◌<◌, ◌^◌, Bool};
ghost use Rattle.nbd_codec.specs.Handshake.{flags_encoding, AreFlags, flags_in};
ghost use Rattle.nbd_codec.specs.ClientOption.{encoding as option_encoding, IsOption, option_in};
ghost use Rattle.nbd_codec.specs.OptionReply.{export_encoding};
ghost use Rattle.nbd_codec.specs.Request.{encoding as request_encoding, IsRequest, request_in};
ghost use Rattle.nbd_codec.specs.Reply.{encoding as reply_encoding};
ghost use Rattle.nbd_codec.specs.Laws.{AreApart, IsAtLeast, IsAtMost, IsKept, IsReplyOf, IsEncoded, NeedsSome, NumberedFits, numbered_encoding};
ghost use Rattle.nbd_codec.specs.Numbers.{AreErrors, AreFlagBits, AreLengths, AreMagics, AreOptionData, AreOptionReplies, AreOptions, AreRequests};

use crate::constants::*;

/// Client flags have one encoding each, of four bytes; what is found at the front stays and is what is
/// encoded there, and nothing is found where nothing came.
pub fn client_flags_are_apart()
    ensures apart { AreApart flags_encoding AreFlags }
    ensures kept { IsKept flags_in }
    ensures empty { NeedsSome flags_in }
    ensures encoded { IsEncoded flags_encoding AreFlags flags_in }
    ensures long { IsAtLeast CLIENT_FLAGS_LEN flags_encoding AreFlags }
    ensures short { IsAtMost CLIENT_FLAGS_LEN flags_encoding AreFlags }
{}

/// No encoding of an option begins another, has fewer bytes than a header, or more than that and the
/// most data; what is found at the front stays and is what is encoded there, and nothing is found where
/// nothing came.
pub fn options_are_apart()
    ensures apart { AreApart option_encoding IsOption }
    ensures kept { IsKept option_in }
    ensures empty { NeedsSome option_in }
    ensures encoded { IsEncoded option_encoding IsOption option_in }
    ensures long { IsAtLeast OPTION_HEADER option_encoding IsOption }
    ensures short { IsAtMost (OPTION_HEADER + MAX_OPTION_DATA) option_encoding IsOption }
{}

/// No encoding of a reply to an option begins another.
pub fn option_replies_are_apart()
    ensures { AreApart numbered_encoding NumberedFits }
{}

/// No answer to EXPORT_NAME begins another, where the flags of both sides are one.
pub fn exports_are_apart()
    ensures { (no_zeroes : Bool) →
        AreApart (λ size. export_encoding size no_zeroes) (λ size. size < 2 ^ 64) }
{}

/// No encoding of a request begins another, has fewer bytes than a header, or more than that and the
/// longest payload; what is found at the front stays and is what is encoded there, and nothing is found
/// where nothing came.
pub fn requests_are_apart()
    ensures apart { (max_payload : ℕ) → max_payload < 2 ^ 32 →
        AreApart request_encoding (IsRequest max_payload) }
    ensures kept { (max_payload : ℕ) → max_payload < 2 ^ 32 → IsKept (request_in max_payload) }
    ensures empty { (max_payload : ℕ) → NeedsSome (request_in max_payload) }
    ensures encoded { (max_payload : ℕ) → max_payload < 2 ^ 32 →
        IsEncoded request_encoding (IsRequest max_payload) (request_in max_payload) }
    ensures long { (max_payload : ℕ) →
        IsAtLeast REQUEST_HEADER request_encoding (IsRequest max_payload) }
    ensures short { (max_payload : ℕ) →
        IsAtMost (REQUEST_HEADER + max_payload) request_encoding (IsRequest max_payload) }
{}

/// No encoding of a reply begins another that answers a request for as many bytes.
pub fn replies_are_apart()
    ensures { (len : ℕ) → AreApart reply_encoding (IsReplyOf len) }
{}

/// The numbers on the wire are those of the standard, and the project's own limits are these.
pub fn numbers_are_the_standards()
    ensures magics { AreMagics }
    ensures flags { AreFlagBits }
    ensures options { AreOptions }
    ensures option_replies { AreOptionReplies }
    ensures option_data { AreOptionData }
    ensures lengths { AreLengths }
    ensures requests { AreRequests }
    ensures errors { AreErrors }
{}

//! Options: doc/proto.md, "Option haggling", "Option types".

ghost use Rattle.std.specs.Prelude.{false, ◌≡◌, ◌≤◌, ◌==◌, ◌++◌, ◌↔◌, List, ℕ, length};
ghost use Rattle.std.specs.List.{list_any};
ghost use Rattle.byteorder.specs.Endian.{big_bytes};
ghost use Rattle.nbd_codec.specs.Fields.{Gives, agrees, read_as};
ghost use Rattle.nbd_codec.specs.Findings.{IfValue, IsFault, IsImpossible, IsProperPrefix, Takes, seen_by};
ghost use Rattle.nbd_codec.specs.ClientOption.{HasName, PlainOption, IsOption, encoding, told_of, information_of, numbers_in, asks_at, info_of, option_of, length_at, option_at, option_in};

use crate::constants::*;
use crate::fields::{Ending, limited_u32, magic, taken, u16_at, u32_at};
use crate::findings::{Fault, Reading};
use byteorder::{BigEndian, ByteOrder};

/// What the data of INFO and GO asks for.
#[derive(Clone, Copy, Debug, PartialEq, Eq)]
pub enum Information {
    /// Whether the export's name isn't the empty one, and whether INFO of type BLOCK_SIZE is asked for.
    Asked { has_name: bool, block_size: bool },
    /// Its lengths don't add up to its own.
    Malformed,
}

/// An option, as far as the answer to it depends on it.
#[derive(Clone, Copy, Debug, PartialEq, Eq)]
pub enum ClientOption {
    /// EXPORT_NAME: it asks for the one export, whose name is empty, so it has no data.
    ExportName,
    /// ABORT: its data is passed over.
    Abort,
    /// LIST: it should have no data.
    List { has_data: bool },
    /// INFO.
    Info(Information),
    /// GO.
    Go(Information),
    /// An option of another number, which isn't served.
    Other { number: u32 },
    /// An option with more than 4,096 bytes of data: only its header was read, and `len` bytes are to
    /// be skipped.
    Oversized { number: u32, len: u32 },
}

/// Whether the number is among those of two bytes that stand one after another.
fn has_number(bytes: &[u8], number: u16) -> bool
    ensures { result ≡ list_any (λ n. n == number) (numbers_in bytes.now) }
{
    let mut rest = bytes;
    while rest.len() >= 2 {
        if BigEndian::read_u16(rest) == number {
            return true;
        }
        rest = &rest[2..];
    }
    false
}

/// What is asked for, where the lengths add up to that of all bytes.
#[tactic(auto, unfolding(crate::specs::ClientOption::asks_at))]
fn asks_of(bytes: &[u8]) -> Result<Information, Ending>
    ensures { result ≡ read_as information_of (asks_at bytes.now) }
{
    let (name_len, rest) = u32_at(bytes)?;
    let (name, rest) = taken(rest, name_len)?;
    let (count, rest) = u16_at(rest)?;
    let (types, rest) = taken(rest, 2 * u32::from(count))?;
    if !rest.is_empty() {
        return Err(Ending::Short);
    }
    Ok(Information::Asked {
        has_name: !name.is_empty(),
        block_size: has_number(types, INFO_BLOCK_SIZE),
    })
}

/// What the data of INFO and GO asks for.
fn information_in(bytes: &[u8]) -> Information
    ensures { result ≡ information_of (info_of bytes.now) }
{
    match asks_of(bytes) {
        Ok(asked) => asked,
        Err(_) => Information::Malformed,
    }
}

/// The option of that number with that data, of which EXPORT_NAME has none.
fn known_option(number: u32, content: &[u8]) -> ClientOption
    ensures { result ≡ told_of (option_of number content.now) }
{
    match number {
        OPTION_EXPORT_NAME => ClientOption::ExportName,
        OPTION_ABORT => ClientOption::Abort,
        OPTION_LIST => ClientOption::List {
            has_data: !content.is_empty(),
        },
        OPTION_INFO => ClientOption::Info(information_in(content)),
        OPTION_GO => ClientOption::Go(information_in(content)),
        _ => ClientOption::Other { number },
    }
}

/// The length of the data of the option of that number, which is 0 for EXPORT_NAME.
#[tactic(auto, unfolding(crate::specs::ClientOption::length_at))]
fn length_of(number: u32, bytes: &[u8]) -> Result<(u32, &[u8]), Ending>
    ensures { Gives (λ x. (x.0, x.1.now)) result (length_at number bytes.now) }
{
    if number == OPTION_EXPORT_NAME {
        return limited_u32(bytes, 0, Fault::ExportName);
    }
    u32_at(bytes)
}

/// The option at the front, and how many bytes stand after it.
#[tactic(auto, unfolding(crate::specs::ClientOption::option_at))]
fn option_at_front(bytes: &[u8]) -> Result<(ClientOption, usize), Ending>
    ensures { result ≡ read_as (λ x. (told_of x.0, length x.1)) (option_at bytes.now) }
{
    let rest = magic(&OPTION_MAGIC.to_be_bytes(), Fault::OptionMagic, bytes)?;
    let (number, rest) = u32_at(rest)?;
    let (len, rest) = length_of(number, rest)?;
    if len > MAX_OPTION_DATA {
        return Ok((ClientOption::Oversized { number, len }, rest.len()));
    }
    let (content, rest) = taken(rest, len)?;
    Ok((known_option(number, content), rest.len()))
}

/// What is found at the front, without what follows from it.
fn find_option(input: &[u8]) -> Reading<ClientOption>
    ensures { result ≡ seen_by told_of (option_in input.now) }
{
    match option_at_front(input) {
        Ok((option, left)) => Reading::Value(option, input.len() - left),
        Err(Ending::Short) => Reading::More,
        Err(Ending::Fault(fault)) => Reading::Fault(fault),
    }
}

/// Reads the option at the front. One with more than 4,096 bytes of data ends with its header. The
/// one export has the empty name, so EXPORT_NAME has no data: the first byte of its length that isn't
/// 0 ends the session. The session ends at the first byte that can't be of an option that is taken.
pub fn read_option(input: &[u8]) -> Reading<ClientOption>
    // An option stands at the front, encoded so, and this is told of it.
    ensures found { IfValue result (λ told len. (option : PlainOption)
        × (told ≡ told_of option) × Takes encoding IsOption input.now option len) }
    // It has a whole header, and no more bytes than came.
    ensures within { IfValue result (λ told len.
        (OPTION_HEADER ≤ len) × (len ≤ length input.now)) }
    // An option that stands at the front is read.
    ensures only { (option : PlainOption) (rest : List ℕ) →
        IsOption option → input.now ≡ encoding option ++ rest →
        result ≡ Reading.Value (told_of option) (length (encoding option)) }
    // More is needed exactly where an option has begun and is not whole.
    ensures more { (result ≡ Reading.More) ↔ IsProperPrefix encoding IsOption input.now }
    // A fault is found exactly where no option can come, however the bytes go on.
    ensures fault { IsFault result ↔ IsImpossible encoding IsOption input.now }
    // The magic is wrong exactly where the bytes differ from it as far as they go.
    ensures magic { (result ≡ Reading.Fault Fault.OptionMagic)
        ↔ (agrees (big_bytes 8 OPTION_MAGIC) input.now ≡ false) }
    // Another export is asked for exactly where an EXPORT_NAME has begun whose length isn't 0.
    ensures other_export { (result ≡ Reading.Fault Fault.ExportName) ↔ HasName input.now }
    // All of this at once: what reading from left to right gives.
    ensures exact { result ≡ seen_by told_of (option_in input.now) }
{
    find_option(input)
}

//! The words of a line, each taken as what a form wants there.
//!
//! A word that a reason hits is answered by a stand-in, and the least reason is noted. So a form
//! takes all its words in one go, and asks at their end.
ghost use Rattle.std.specs.Prelude.{◌≡◌, ◌≢◌, ℕ, ◌≤◌, IfOk, IsTrue, MatchOption, MatchResult, length, slice_index_or, false, if◌then◌else◌};
ghost use Rattle.std.specs.Fmt.{decimal};
ghost use Rattle.fabric_script.specs.Known.{Known};
ghost use Rattle.fabric_script.specs.declared.values.Value.TheVariants.{Node as NodeValue, Counted, Bytes, InDigits};
ghost use Rattle.fabric_script.specs.Texts.{value_text};
ghost use Rattle.io_packets.specs.Forms.{is_size, is_stream_size};
ghost use Rattle.io_script.specs.IoForms.{AnEndpoint, DeviceNumber, MemorySize, ReadSize, Address};
ghost use Rattle.io_script.specs.IoTaking.{data_field, io_noted_by, io_ok_of, with_io_reason, IsFabric, TakesIo};
ghost use Rattle.io_script.specs.IoWords.{FitsIo, HitsIoWord};

use crate::reasons::IoReason;
use fabric_script::{Name, Reason, find_name, read_bytes, read_digits, read_name, read_number};
use io_packets::{Load, is_size, is_stream_size};
use std::alloc::{AllocError, Global};

/// What is kept of a fabric: the names of its nodes, whether each is a switch, and how many links
/// there are.
#[derive(Clone, Copy)]
pub(crate) struct Fabric<'a> {
    pub(crate) names: &'a [Name],
    pub(crate) switches: &'a [bool],
    pub(crate) links: u32,
}

/// Takes the name of an endpoint.
pub(crate) fn take_endpoint(fabric: Fabric<'_>, word: &[u8], hit: &mut Option<IoReason>) -> u8
    requires { length fabric.names.now ≤ 64 }
    ensures { (known : Known)
        → IsFabric known fabric.entry.names.now fabric.entry.switches.now fabric.entry.links
        → TakesIo known AnEndpoint (NodeValue result) word.now hit.old hit.new }
{
    note(hit, read_endpoint(fabric, word)).unwrap_or(0)
}

/// Takes the ID of a device.
pub(crate) fn take_device(word: &[u8], hit: &mut Option<IoReason>) -> u8
    ensures { (known : Known)
        → TakesIo known DeviceNumber (Counted result) word.now hit.old hit.new }
{
    note(hit, read_device(word)).unwrap_or(0)
}

/// Takes how many bytes a memory has.
pub(crate) fn take_memory_size(word: &[u8], hit: &mut Option<IoReason>) -> u32
    ensures { (known : Known) → TakesIo known MemorySize (Counted result) word.now hit.old hit.new }
{
    note(hit, read_memory_size(word)).unwrap_or(0)
}

/// Takes how many bytes are read.
pub(crate) fn take_read_size(word: &[u8], hit: &mut Option<IoReason>) -> u8
    ensures { (known : Known) → TakesIo known ReadSize (Counted result) word.now hit.old hit.new }
{
    note(hit, read_read_size(word)).unwrap_or(0)
}

/// Takes an address.
pub(crate) fn take_address(word: &[u8], hit: &mut Option<IoReason>) -> u32
    ensures { (known : Known) → TakesIo known Address (InDigits 8 result) word.now hit.old hit.new }
{
    note(hit, read_address(word)).unwrap_or(0)
}

/// Takes the data of a write, which may be a streaming one.
pub(crate) fn take_load(
    alloc: Global,
    word: &[u8],
    stream: bool,
    hit: &mut Option<IoReason>,
) -> Result<Load, AllocError>
    ensures { IfOk result (λ load. (known : Known)
        → TakesIo known (data_field stream) (Bytes load) word.now hit.old hit.new) }
{
    let read = read_load(alloc, word, stream)?;
    Ok(note(hit, read).unwrap_or(Load::of_bytes(&[])))
}

/// What was read, if no reason hits it; else the reason is noted if it is the least so far.
fn note<T>(hit: &mut Option<IoReason>, read: Result<T, IoReason>) -> Option<T>
    ensures noted { hit.new ≡ io_noted_by hit.old read }
    ensures value { result ≡ io_ok_of read }
{
    match read {
        Ok(value) => Some(value),
        Err(reason) => {
            *hit = Some(lesser(*hit, reason));
            None
        }
    }
}

/// The lesser of the reason so far and one more.
fn lesser(hit: Option<IoReason>, reason: IoReason) -> IoReason
    ensures { Some result ≡ with_io_reason hit reason }
{
    match hit {
        Some(before) if before.number() <= reason.number() => before,
        _ => reason,
    }
}

/// The endpoint that a word names, or the reason that hits it.
fn read_endpoint(fabric: Fabric<'_>, word: &[u8]) -> Result<u8, IoReason>
    requires { length fabric.names.now ≤ 64 }
    ensures { (known : Known)
        → IsFabric known fabric.entry.names.now fabric.entry.switches.now fabric.entry.links
        → MatchResult result
        (λ n. FitsIo known AnEndpoint (NodeValue n)
        × (word.now ≡ value_text known.names (NodeValue n)))
        (λ reason. HitsIoWord known reason AnEndpoint word.now) }
{
    if read_name(word).is_none() {
        return Err(IoReason::OfScript(Reason::BadName));
    }
    let Some(node) = find_name(fabric.names, word) else {
        return Err(IoReason::OfScript(Reason::UnknownNode));
    };
    if is_switch(fabric.switches, node) {
        return Err(IoReason::OfScript(Reason::WrongKind));
    }
    Ok(node)
}

/// Whether a node is a switch.
fn is_switch(switches: &[bool], node: u8) -> bool
    ensures { result ≡ slice_index_or switches.now node false }
{
    match switches.get(usize::from(node)) {
        Some(switch) => *switch,
        None => false,
    }
}

/// The ID of a device that a word says, or the reason that hits it.
fn read_device(word: &[u8]) -> Result<u8, IoReason>
    ensures { (known : Known) → MatchResult result
        (λ n. FitsIo known DeviceNumber (Counted n)
        × (word.now ≡ value_text known.names (Counted n)))
        (λ reason. HitsIoWord known reason DeviceNumber word.now) }
{
    match read_within(word, 0, 255) {
        Some(id) => Ok(id as u8),
        None => Err(IoReason::OfScript(Reason::BadNumber)),
    }
}

/// How many bytes a memory has, or the reason that hits the word.
fn read_memory_size(word: &[u8]) -> Result<u32, IoReason>
    ensures { (known : Known) → MatchResult result
        (λ n. FitsIo known MemorySize (Counted n) × (word.now ≡ value_text known.names (Counted n)))
        (λ reason. HitsIoWord known reason MemorySize word.now) }
{
    match read_within(word, 8, 65536) {
        Some(bytes) if bytes % 8 == 0 => Ok(bytes),
        _ => Err(IoReason::OfScript(Reason::BadNumber)),
    }
}

/// How many bytes are read, or the reason that hits the word.
fn read_read_size(word: &[u8]) -> Result<u8, IoReason>
    ensures { (known : Known) → MatchResult result
        (λ n. FitsIo known ReadSize (Counted n) × (word.now ≡ value_text known.names (Counted n)))
        (λ reason. HitsIoWord known reason ReadSize word.now) }
{
    match read_within(word, 8, 64) {
        Some(size) if is_size(size as usize) => Ok(size as u8),
        _ => Err(IoReason::OfScript(Reason::BadNumber)),
    }
}

/// The number of a range that a word says.
fn read_within(word: &[u8], least: u32, most: u32) -> Option<u32>
    ensures { MatchOption result
        ((n : ℕ) → least ≤ n → n ≤ most → word.now ≢ decimal n)
        (λ n. (least ≤ n) × (n ≤ most) × (word.now ≡ decimal n)) }
{
    match read_number(word) {
        Some(n) if least <= n && n <= most => Some(n),
        _ => None,
    }
}

/// The address that a word says, or the reason that hits it.
fn read_address(word: &[u8]) -> Result<u32, IoReason>
    ensures { (known : Known) → MatchResult result
        (λ n. FitsIo known Address (InDigits 8 n)
        × (word.now ≡ value_text known.names (InDigits 8 n)))
        (λ reason. HitsIoWord known reason Address word.now) }
{
    match read_digits(word, 8) {
        Some(addr) if addr % 8 == 0 => Ok(addr),
        Some(_) => Err(IoReason::Misaligned),
        None => Err(IoReason::OfScript(Reason::BadHex)),
    }
}

/// The data of a write, or the reason that hits the word.
fn read_load(alloc: Global, word: &[u8], stream: bool) -> Result<Result<Load, IoReason>, AllocError>
    ensures { IfOk result (λ read. (known : Known) → MatchResult read
        (λ load. FitsIo known (data_field stream) (Bytes load)
        × (word.now ≡ value_text known.names (Bytes load)))
        (λ reason. HitsIoWord known reason (data_field stream) word.now)) }
{
    let Some(bytes) = read_bytes(alloc, word)? else {
        return Ok(Err(IoReason::OfScript(Reason::BadHex)));
    };
    if fits(bytes.len(), stream) {
        Ok(Ok(Load::of_bytes(bytes.as_slice())))
    } else {
        Ok(Err(IoReason::OfScript(Reason::BadLength)))
    }
}

/// Whether a write may have so many bytes.
fn fits(count: usize, stream: bool) -> bool
    ensures size { result ≡ (if stream then is_stream_size count else is_size count) }
    ensures most { IsTrue result → count ≤ 64 }
{
    if stream {
        is_stream_size(count)
    } else {
        is_size(count)
    }
}

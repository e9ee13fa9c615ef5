//! The lines of a log. What they say is tested, and not proved.
use fabric_script::split_word;
use std::alloc::{AllocError, Global};
use std::collections::VecDeque;

/// The bytes of eight characters, each with a space: no packet is whole in so many.
const PIECE: usize = 32;

/// What a log knows of both ends.
#[derive(Drop)]
pub(crate) struct Ends {
    alloc: Global,
    /// Their names.
    device: Vec<u8>,
    port: Vec<u8>,
    /// The packets that the device has sent and not freed, the oldest first.
    lent: VecDeque<Vec<u8>>,
    /// How many characters of a packet-accepted of the port have come, from 0 to 3.
    came: u8,
    /// What the port sends, without idles.
    burst: Vec<u8>,
}

impl Ends {
    pub(crate) fn new(alloc: Global, device: &[u8], port: &[u8]) -> Result<Ends, AllocError> {
        let mut ends = Ends {
            alloc,
            device: Vec::new(alloc),
            port: Vec::new(alloc),
            lent: VecDeque::new(alloc),
            came: 0,
            burst: Vec::new(alloc),
        };
        ends.device.extend_from_slice(device)?;
        ends.port.extend_from_slice(port)?;
        Ok(ends)
    }

    /// Keeps a packet that the device has sent.
    fn lend(&mut self, packet: &[u8]) -> Result<(), AllocError> {
        let mut lent = Vec::new(self.alloc);
        lent.extend_from_slice(packet)?;
        self.lent.push_back(lent)?;
        Ok(())
    }

    /// Whether a packet-accepted of the port ends with this character, which is no idle: the type
    /// of the first part, which is 0, stands in the first bits of the second character.
    fn accepts(&mut self, c: &[u8]) -> bool {
        self.came = match (self.came, c) {
            (_, [b'k', b'1', b'c', ..]) => 1,
            (1, [b'd', b'0' | b'1', ..]) => 2,
            (2, _) => 3,
            (3, _) => {
                self.came = 0;
                return true;
            }
            _ => 0,
        };
        false
    }
}

/// Adds a word, a name, what stands behind the name, and what stands behind that.
fn push(
    text: &mut Vec<u8>,
    word: &[u8],
    name: &[u8],
    behind: &[u8],
    rest: &[u8],
) -> Result<(), AllocError> {
    text.extend_from_slice(word)?;
    text.extend_from_slice(name)?;
    text.extend_from_slice(behind)?;
    text.extend_from_slice(rest)?;
    text.extend_from_slice(b"\n")
}

/// Adds the set-up lines: both ends, their link, and the buffers of the port.
pub(crate) fn push_set_up(text: &mut Vec<u8>, ends: &Ends, buffers: u8) -> Result<(), AllocError> {
    let (device, port) = (ends.device.as_slice(), ends.port.as_slice());
    push(text, b"endpoint ", device, b" 1", b"")?;
    push(text, b"endpoint ", port, b" 2", b"")?;
    text.extend_from_slice(b"link ")?;
    text.extend_from_slice(device)?;
    push(text, b".0 ", port, b".0", b"")?;
    text.extend_from_slice(b"buffers ")?;
    text.extend_from_slice(port)?;
    text.extend_from_slice(b".0 ")?;
    if buffers >= 10 {
        text.extend_from_slice(&[b'0' + buffers / 10 % 10])?;
    }
    text.extend_from_slice(&[b'0' + buffers % 10])?;
    text.extend_from_slice(b"\n---\n")
}

/// Adds what a line and its answer say of both ends: nothing if it is refused.
pub(crate) fn push_line(
    text: &mut Vec<u8>,
    ends: &mut Ends,
    line: &[u8],
    answer: &[u8],
) -> Result<(), AllocError> {
    if answer.starts_with(b"refused") {
        return Ok(());
    }
    match split_word(line) {
        (b"got" | b"clock", Some(chars)) => {
            push_passed(text, ends.device.as_slice(), ends.port.as_slice(), chars)?;
        }
        (b"timeout", _) => push(text, b"fire ", ends.port.as_slice(), b".0", b"")?,
        _ => {}
    }
    push_answer(text, ends, answer)
}

/// Whether this is the text of an idle, maybe with a space behind it.
fn is_idle(c: &[u8]) -> bool {
    match c {
        b"kbc" | b"kbc " => true,
        _ => false,
    }
}

/// Adds that one end sent characters, and the other got them, in pieces of which none has a whole
/// packet: a packet of the device is known only once the port holds it.
fn push_passed(
    text: &mut Vec<u8>,
    sender: &[u8],
    getter: &[u8],
    chars: &[u8],
) -> Result<(), AllocError> {
    for piece in chars.chunks(PIECE) {
        let piece = without_space(piece);
        push(text, b"sent ", sender, b".0 ", piece)?;
        push(text, b"got ", getter, b".0 ", piece)?;
    }
    Ok(())
}

/// Adds that the port sent characters, without the idles between its bursts, that the device got
/// them, and that it frees its oldest packet for each packet-accepted.
fn push_sent(text: &mut Vec<u8>, ends: &mut Ends, chars: &[u8]) -> Result<(), AllocError> {
    ends.burst.clear();
    for c in chars.chunks(4) {
        if !is_idle(c) {
            ends.burst.extend_from_slice(c)?;
        }
    }
    let burst = ends.burst.as_slice();
    push_passed(text, ends.port.as_slice(), ends.device.as_slice(), burst)?;
    for c in chars.chunks(4) {
        if !is_idle(c) && ends.accepts(c) {
            push_freed(text, ends)?;
        }
    }
    Ok(())
}

/// Adds that the device frees its oldest packet.
fn push_freed(text: &mut Vec<u8>, ends: &mut Ends) -> Result<(), AllocError> {
    match ends.lent.pop_front() {
        Some(packet) => {
            push(
                text,
                b"free ",
                ends.device.as_slice(),
                b".0 ",
                packet.as_slice(),
            )
        }
        None => Ok(()),
    }
}

/// The text of characters without the space behind it.
fn without_space(piece: &[u8]) -> &[u8] {
    match piece {
        [front @ .., b' '] => front,
        _ => piece,
    }
}

/// Adds what each line of an answer says.
fn push_answer(text: &mut Vec<u8>, ends: &mut Ends, answer: &[u8]) -> Result<(), AllocError> {
    let mut begin = 0;
    for (at, byte) in answer.iter().enumerate() {
        if *byte == b'\n' {
            if let Some(line) = answer.get(begin..at) {
                push_told(text, ends, line)?;
            }
            begin = at + 1;
        }
    }
    Ok(())
}

/// Adds what a line of an answer says.
fn push_told(text: &mut Vec<u8>, ends: &mut Ends, line: &[u8]) -> Result<(), AllocError> {
    match split_word(line) {
        (b"hold", Some(packet)) => {
            push(text, b"take ", ends.device.as_slice(), b" ", packet)?;
            push(text, b"hold ", ends.port.as_slice(), b".0 ", packet)?;
            ends.lend(packet)
        }
        (b"free", Some(packet)) => {
            push(text, b"hold ", ends.device.as_slice(), b".0 ", packet)?;
            push(text, b"leave ", ends.device.as_slice(), b" ", packet)?;
            push(text, b"free ", ends.port.as_slice(), b".0 ", packet)
        }
        (b"queued", Some(packet)) => push(text, b"take ", ends.port.as_slice(), b" ", packet),
        (b"taken", Some(packet)) => push(text, b"leave ", ends.port.as_slice(), b" ", packet),
        (b"sent" | b"given", Some(chars)) => push_sent(text, ends, chars),
        (b"fire", None) => push(text, b"fire ", ends.port.as_slice(), b".0", b""),
        _ => Ok(()),
    }
}

//! What in the text of a line is to blame that is no line of a trace.

/// What of a word is to blame. Places count from 1.
#[derive(Clone, Copy, PartialEq, Eq)]
pub(crate) enum WordFault {
    /// It is the name of no node.
    NoNode,
    /// It has no point, which a port has.
    NoPoint,
    /// What stands before its point is the name of no node.
    NoPortNode,
    /// The node before its point has no such port.
    NoPort,
    /// The port has no link.
    Unlinked,
    /// It is no character.
    NoCharacter,
    /// It is no number of 32 bits.
    NoNumber,
    /// It is neither `symbol` nor `packet`.
    NoEventKind,
    /// The digit at this place is a capital one.
    Capital(usize),
    /// What stands at this place is no digit.
    NoDigit(usize),
    /// It has an odd number of digits.
    OddDigits,
    /// It has so many bytes, and no packet has.
    PacketLength(usize),
    /// It has an ackID.
    AckId,
    /// Behind so many bytes stand other bytes than the CRC of these.
    Crc {
        behind: usize,
        there: [u8; 2],
        right: [u8; 2],
    },
}

/// What of a text is to blame. Places of words count from 1.
#[derive(Clone, Copy, PartialEq, Eq)]
pub(crate) enum Misfit {
    /// Nothing that is found.
    Nothing,
    /// The line is empty.
    EmptyLine,
    /// It is a comment.
    Comment,
    /// No kind of line begins with the first word.
    Keyword,
    /// Two spaces stand together, or a space stands at the end.
    EmptyWord,
    /// The word at this place is missing.
    Missing(usize),
    /// The word at this place is one too many.
    TooMany(usize),
    /// The word at this place is not what stands there.
    Word { place: usize, fault: WordFault },
}

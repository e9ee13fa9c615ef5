//! Why a line is refused.
ghost use Rattle.std.specs.Prelude.{◌≡◌, ◌++◌, OnOk, IfOk};
ghost use Rattle.port_lines.specs.declared.faults.RequestFault.TheVariants as TheFault;
ghost use Rattle.port_lines.specs.Faults.{IsRequestWhy, request_fault_text, request_reason};

use fabric_script::{Advice, WordKind};
use refusal_words::{push_advice, push_kind, push_number, push_plain, script_reason};
use std::alloc::{AllocError, Global};

/// Why words ask for nothing.
#[derive(Clone, Copy, Debug, PartialEq, Eq)]
pub enum RequestFault {
    /// No kind of line begins with the first word.
    Keyword,
    /// The first word wants so many words behind it, and there are more or fewer.
    WordCount(u8),
    /// The word at this place, the first being 1, is not of the kind that stands there.
    Word { place: u32, kind: WordKind },
    /// A packet cannot have so many bytes.
    Length,
}

/// A line is refused.
#[derive(Debug, Drop)]
pub struct RequestRefusal {
    pub fault: RequestFault,
    /// What is said of it, in words without a line feed.
    pub why: Vec<u8>,
}

impl RequestFault {
    /// The number of the reason, which is that of a script with this fault.
    pub fn reason(self) -> u8
        ensures { result ≡ request_reason self }
    {
        match self {
            RequestFault::Keyword | RequestFault::WordCount(_) => 1,
            RequestFault::Word {
                kind: WordKind::Number { .. },
                ..
            } => 2,
            RequestFault::Word { .. } => 9,
            RequestFault::Length => 10,
        }
    }
}

/// What is said of a line that has this fault.
pub(crate) fn why_of(alloc: Global, line: &[u8], fault: RequestFault) -> Result<Vec<u8>, AllocError>
    ensures { IfOk result (λ why. IsRequestWhy line.now fault why.items) }
{
    let mut why = Vec::new(alloc);
    if push_plain(&mut why, line)? {
        return Ok(why);
    }
    push_fault(&mut why, fault)?;
    Ok(why)
}

/// Adds what is said of a fault.
fn push_fault(message: &mut Vec<u8>, fault: RequestFault) -> Result<(), AllocError>
    ensures { OnOk result
        (message.new.items ≡ message.old.items ++ request_fault_text fault) }
{
    match fault {
        RequestFault::Keyword => push_advice(message, Advice::Keyword, b""),
        RequestFault::WordCount(count) => push_advice(message, Advice::WordCount(count), b""),
        RequestFault::Word { place, kind } => push_word(message, place, kind),
        RequestFault::Length => message.extend_from_slice(script_reason(10)),
    }
}

/// Adds what the word at this place must be.
fn push_word(message: &mut Vec<u8>, place: u32, kind: WordKind) -> Result<(), AllocError>
    ensures { OnOk result (message.new.items
        ≡ message.old.items ++ request_fault_text (TheFault.Word place kind)) }
{
    message.extend_from_slice(b"word ")?;
    push_number(message, place)?;
    message.extend_from_slice(b" must be ")?;
    push_kind(message, kind)
}

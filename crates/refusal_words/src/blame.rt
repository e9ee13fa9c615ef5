//! What is to blame in a line that is no line of a script.
ghost use Rattle.std.specs.Prelude.{IfSome};
ghost use Rattle.refusal_words.specs.Advising.{IsBlameOf, IsPlain};

use fabric_script::{Advice, advise};
use std::alloc::Global;

/// What is to blame in a line.
#[derive(Clone, Copy, Debug, PartialEq, Eq)]
pub(crate) enum Blame {
    /// A byte-order mark of UTF-8 at its front.
    ByteOrderMark,
    /// A byte of 0.
    ZeroByte,
    /// A tab.
    Tab,
    /// It begins with the sign of an event in a trace.
    TraceLine,
    /// It is the line between set-up lines and a trace.
    Between,
    /// What advice says.
    Advice(Advice),
}

/// What is to blame in the text of a line that is refused for this reason.
pub(crate) fn blame_of(alloc: Global, text: &[u8], reason: u8) -> Blame
    ensures { IsBlameOf text.now result }
{
    match foreign_blame(text) {
        Some(blame) if matches!(reason, 1 | 2 | 3 | 9) => blame,
        _ => Blame::Advice(advise(alloc, text, reason)),
    }
}

/// What is to blame in the text of a line of any language, if its bytes alone show that.
pub(crate) fn plain_blame(text: &[u8]) -> Option<Blame>
    ensures { IfSome result (λ blame. IsPlain blame × IsBlameOf text.now blame) }
{
    if let Some(blame) = foreign_blame(text) {
        return Some(blame);
    }
    match text {
        [.., b'\r'] => Some(Blame::Advice(Advice::CarriageReturn)),
        [b' ', ..] => Some(Blame::Advice(Advice::Indent)),
        _ => None,
    }
}

/// What shows that a text is not of a script at all.
fn foreign_blame(text: &[u8]) -> Option<Blame>
    ensures { IfSome result (λ blame. IsPlain blame × IsBlameOf text.now blame) }
{
    match text {
        [0xef, 0xbb, 0xbf, ..] => Some(Blame::ByteOrderMark),
        [b'>', ..] => Some(Blame::TraceLine),
        b"---" => Some(Blame::Between),
        _ if text.contains(&0) => Some(Blame::ZeroByte),
        _ if text.contains(&b'\t') => Some(Blame::Tab),
        _ => None,
    }
}

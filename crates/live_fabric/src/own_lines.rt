//! Lines that are of no script, and say how the others are answered.
ghost use Rattle.std.specs.Prelude.{◌≡◌, ◌↔◌, IsTrue, MatchOption, codes};
ghost use Rattle.live_fabric.specs.OwnRegisters.{standard_text, IsNoStandardLine};
ghost use Rattle.live_fabric.specs.Sessions.{own_text, serve_text, ask_text, IsNoOwnLine, IsNoServeLine, IsNoAskLine};

/// A line of a session's own.
#[derive(Clone, Copy)]
pub(crate) enum OwnLine {
    /// The lines with characters are left out of the answers.
    Quiet,
    /// They are told again.
    Loud,
    /// Every endpoint is served, also one whose line comes later.
    ServeAll,
}

/// The line of its own that a text is, if it is one.
pub(crate) fn own_line(line: &[u8]) -> Option<OwnLine>
    ensures { MatchOption result (IsNoOwnLine line.now) (λ own. own_text own ≡ line.now) }
{
    match line {
        b"quiet" => Some(OwnLine::Quiet),
        b"loud" => Some(OwnLine::Loud),
        b"serve all" => Some(OwnLine::ServeAll),
        _ => None,
    }
}

/// The words behind the first of a line that asks for a node to be served.
pub(crate) fn serve_words(line: &[u8]) -> Option<&[u8]>
    ensures { MatchOption result (IsNoServeLine line.now)
        (λ words. line.now ≡ serve_text words.now) }
{
    line.strip_prefix(b"serve ")
}

/// The words behind the first of a line that asks for a register.
pub(crate) fn ask_words(line: &[u8]) -> Option<&[u8]>
    ensures { MatchOption result (IsNoAskLine line.now)
        (λ words. line.now ≡ ask_text words.now) }
{
    line.strip_prefix(b"ask ")
}

/// The words after the first of a line that asks that devices show what standard hosts look for.
pub(crate) fn standard_words(line: &[u8]) -> Option<&[u8]>
    ensures { MatchOption result (IsNoStandardLine line.now)
        (λ words. line.now ≡ standard_text words.now) }
{
    line.strip_prefix(b"standard ")
}

/// Whether the words of such a line name all devices.
pub(crate) fn are_all(words: &[u8]) -> bool
    ensures { IsTrue result ↔ (words.now ≡ codes "all") }
{
    matches!(words, b"all")
}

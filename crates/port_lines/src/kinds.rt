//! The kinds of lines.
ghost use Rattle.std.specs.Prelude.{◌≡◌, ◌≢◌, MatchOption};
ghost use Rattle.port_lines.specs.declared.kinds.RequestKind.{RequestKind as AKind};
ghost use Rattle.port_lines.specs.Kinds.{request_keyword};

/// A kind of line.
#[derive(Clone, Copy, Debug, PartialEq, Eq)]
pub(crate) enum RequestKind {
    /// Characters came.
    Got,
    /// Turns to send.
    Turn,
    /// The time-out comes.
    TimeOut,
    /// A packet with IDs of 8 bits is to be sent.
    Send,
    /// The same with IDs of 16 bits.
    Send16,
    /// The next held packet is taken.
    Take,
    /// The state is told.
    State,
    /// The port becomes new.
    Reset,
    /// Characters came, one a clock.
    Clock,
}

/// The kind of line that begins with this word.
pub(crate) fn kind_named(word: &[u8]) -> Option<RequestKind>
    ensures { MatchOption result
        ((kind : AKind) → request_keyword kind ≢ word.now)
        (λ kind. request_keyword kind ≡ word.now) }
{
    match word {
        b"got" => Some(RequestKind::Got),
        b"turn" => Some(RequestKind::Turn),
        b"timeout" => Some(RequestKind::TimeOut),
        b"send" => Some(RequestKind::Send),
        b"send16" => Some(RequestKind::Send16),
        b"take" => Some(RequestKind::Take),
        b"state" => Some(RequestKind::State),
        b"reset" => Some(RequestKind::Reset),
        b"clock" => Some(RequestKind::Clock),
        _ => None,
    }
}

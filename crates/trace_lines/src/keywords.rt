//! The keywords of the lines of a trace.

ghost use Rattle.std.specs.Prelude.{◌≡◌, ◌≢◌, MatchOption};
ghost use Rattle.trace_lines.specs.Keywords.{keyword_text};
ghost use Rattle.trace_lines.specs.declared.keywords.Keyword.{Keyword as AKeyword};

/// What a line of a trace is about, apart from the words behind its keyword.
#[derive(Clone, Copy)]
pub(crate) enum Keyword {
    Begun,
    Hold,
    Free,
    Take,
    Leave,
    Move,
    Drop,
    Answer,
    Sent,
    Got,
    Fire,
    Full,
    Empty,
    Short,
    Early,
    NoStep,
    End,
    Undetected,
}

/// What a line with this first word is about.
pub(crate) fn keyword_named(word: &[u8]) -> Option<Keyword>
    ensures { MatchOption result
        ((keyword : AKeyword) → keyword_text keyword ≢ word.now)
        (λ keyword. keyword_text keyword ≡ word.now) }
{
    match word {
        b">" => Some(Keyword::Begun),
        b"hold" => Some(Keyword::Hold),
        b"free" => Some(Keyword::Free),
        b"take" => Some(Keyword::Take),
        b"leave" => Some(Keyword::Leave),
        b"move" => Some(Keyword::Move),
        b"drop" => Some(Keyword::Drop),
        b"answer" => Some(Keyword::Answer),
        b"sent" => Some(Keyword::Sent),
        b"got" => Some(Keyword::Got),
        b"fire" => Some(Keyword::Fire),
        b"full" => Some(Keyword::Full),
        b"empty" => Some(Keyword::Empty),
        b"short" => Some(Keyword::Short),
        b"early" => Some(Keyword::Early),
        b"none" => Some(Keyword::NoStep),
        b"end" => Some(Keyword::End),
        b"undetected" => Some(Keyword::Undetected),
        _ => None,
    }
}

//! Which words stand behind the first of each kind of line of a trace.
ghost use Rattle.std.specs.Prelude.{◌≡◌, ◌≢◌, MatchOption};
ghost use Rattle.check_words.specs.Kinds.{line_kind_text, more_of, part_at as part_at_of, parts_of};
ghost use Rattle.check_words.specs.declared.kinds.LineKind.{LineKind as AKind};

/// A kind of line of a trace, by its first word.
#[derive(Clone, Copy)]
pub(crate) enum LineKind {
    Begun,
    Hold,
    Free,
    Take,
    Leave,
    Move,
    Drop,
    Answer,
    Sent,
    Got,
    Fire,
    Full,
    Empty,
    Short,
    Early,
    NoStep,
    End,
    Undetected,
}

/// What a word says.
#[derive(Clone, Copy)]
pub(crate) enum Part {
    /// A node.
    Node,
    /// A port.
    Port,
    /// A port with a link.
    Linked,
    /// A packet.
    Packet,
    /// A character.
    Character,
    /// A number of 32 bits.
    Number,
    /// Whether an event is a symbol or a packet.
    EventKind,
    /// Anything else.
    Other,
}

/// The kind of line that begins with this word.
pub(crate) fn kind_named(word: &[u8]) -> Option<LineKind>
    ensures { MatchOption result
        ((kind : AKind) → line_kind_text kind ≢ word.now)
        (λ kind. line_kind_text kind ≡ word.now) }
{
    match word {
        b">" => Some(LineKind::Begun),
        b"hold" => Some(LineKind::Hold),
        b"free" => Some(LineKind::Free),
        b"take" => Some(LineKind::Take),
        b"leave" => Some(LineKind::Leave),
        b"move" => Some(LineKind::Move),
        b"drop" => Some(LineKind::Drop),
        b"answer" => Some(LineKind::Answer),
        b"sent" => Some(LineKind::Sent),
        b"got" => Some(LineKind::Got),
        b"fire" => Some(LineKind::Fire),
        b"full" => Some(LineKind::Full),
        b"empty" => Some(LineKind::Empty),
        b"short" => Some(LineKind::Short),
        b"early" => Some(LineKind::Early),
        b"none" => Some(LineKind::NoStep),
        b"end" => Some(LineKind::End),
        b"undetected" => Some(LineKind::Undetected),
        _ => None,
    }
}

impl LineKind {
    /// What must stand behind the first word.
    pub(crate) fn parts(self) -> &'static [Part]
        ensures { result.now ≡ parts_of self }
    {
        match self {
            LineKind::Begun => &[Part::Other],
            LineKind::Hold | LineKind::Free => &[Part::Linked, Part::Packet],
            LineKind::Take | LineKind::Leave => &[Part::Node, Part::Packet],
            LineKind::Move => &[Part::Port, Part::Port, Part::Packet],
            LineKind::Drop => &[Part::Port, Part::Packet],
            LineKind::Answer => &[Part::Port, Part::Packet, Part::Packet],
            LineKind::Sent | LineKind::Got => &[Part::Linked, Part::Character],
            LineKind::Fire => &[Part::Linked],
            LineKind::Full | LineKind::Empty | LineKind::Short => &[],
            LineKind::Early | LineKind::NoStep | LineKind::End => &[],
            LineKind::Undetected => &[
                Part::Number,
                Part::Port,
                Part::EventKind,
                Part::Other,
                Part::Other,
            ],
        }
    }

    /// What may stand behind that, as often as one likes.
    fn more(self) -> Option<Part>
        ensures { result ≡ more_of self }
    {
        match self {
            LineKind::Sent | LineKind::Got => Some(Part::Character),
            LineKind::Begun | LineKind::Undetected => Some(Part::Other),
            _ => None,
        }
    }

    /// What stands behind so many words that are behind the first.
    pub(crate) fn part_at(self, i: usize) -> Option<Part>
        ensures { result ≡ part_at_of self i }
    {
        match self.parts().get(i) {
            Some(part) => Some(*part),
            None => self.more(),
        }
    }
}

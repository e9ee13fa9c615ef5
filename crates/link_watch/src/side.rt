//! `Side`: an end of a link.
ghost use Rattle.std.specs.Prelude.{◌≡◌};
ghost use Rattle.link_watch.specs.Sides.{other_side};

/// An end of a link, which names its port and the wire on which that port sends.
#[derive(Clone, Copy, Debug, PartialEq, Eq)]
pub enum Side {
    /// The first end.
    A,
    /// The second end.
    B,
}

impl Side {
    /// The other end.
    pub fn other(self) -> Side
        ensures { result ≡ other_side self }
    {
        match self {
            Side::A => Side::B,
            Side::B => Side::A,
        }
    }
}

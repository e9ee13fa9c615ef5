//! A source whose last line has a line feed.
ghost use Rattle.std.specs.Prelude.{◌≡◌, ◌≤◌, false, length, IfOk, OnOk, OnErr};
ghost use Rattle.std.specs.Io.KnownBytes.{ReadConsumes};
ghost use Rattle.rio_chars.specs.Faults.{Rose};
ghost use Rattle.live_lines.specs.Feeds.{left_with_feed};

use rio_chars::{Failed, Source};

/// A source that gives the bytes of another, and a line feed behind the last one if that is none.
/// So the last line is a line as the others are.
#[derive(Drop)]
pub struct FeedAtEnd<S> {
    source: S,
    /// The last byte that was given is no line feed.
    inside: bool,
}

impl<S: Source> FeedAtEnd<S> {
    /// The bytes that this source gives, from the begin of a line on.
    pub fn new(source: S) -> FeedAtEnd<S>
        ensures source { result.source ≡ source }
        ensures inside { result.inside ≡ false }
    {
        FeedAtEnd {
            source,
            inside: false,
        }
    }
}

impl<S: Source> Source for FeedAtEnd<S> {
    ghost left = { λ source. left_with_feed source.inside (S.left source.source) };

    ghost faults = { λ source. S.faults source.source };

    fn read(&mut self, piece: &mut [u8]) -> Result<usize, Failed>
        ensures count { IfOk result (λ n. n ≤ length piece.old) }
        ensures bytes { ReadConsumes (left_with_feed self.old.inside (S.left self.old.source))
            (left_with_feed self.new.inside (S.left self.new.source)) result piece.new }
        ensures cause { OnErr result (Rose (S.faults self.old.source) (S.faults self.new.source)) }
        ensures counts { OnOk result (S.faults self.new.source ≡ S.faults self.old.source) }
        ensures never_falls { S.faults self.old.source ≤ S.faults self.new.source }
    {
        let count = self.source.read(piece)?;
        if count > 0 {
            self.inside = piece[count - 1] != b'\n';
            return Ok(count);
        }
        if !self.inside || piece.is_empty() {
            return Ok(0);
        }
        self.inside = false;
        piece[0] = b'\n';
        Ok(1)
    }
}

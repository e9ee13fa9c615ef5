//! What is asked of the program, and the two ends of a lane.
ghost use Rattle.std.specs.Prelude.{◌≡◌, codes};
ghost use Rattle.rio_lane.specs.Tasks.{task_head, task_way};

use code_groups::Disparity;
use lane_bits::Aligner;
use lane_rows::{FourReceivers, FourSenders};
use lane_sync::LaneState;

/// Which lines are coded, and in which direction. All other lines are passed on.
#[derive(Clone, Copy, Debug, PartialEq, Eq)]
pub enum LaneTask {
    /// Lines of characters, as groups.
    Groups,
    /// Lines of groups, as characters.
    Chars,
    /// Lines of bits that are not parted into groups, as characters.
    Bits,
    /// Lines that begin with the word `sent`: their characters as groups.
    Sent,
    /// Lines that begin with the word `got`: their groups as characters.
    Got,
    /// Lines of characters, as rows of groups of four lanes.
    FourGroups,
    /// Lines of rows of groups of four lanes, as characters.
    FourChars,
}

/// What a line is coded as.
#[derive(Clone, Copy, Debug, PartialEq, Eq)]
pub enum LaneWay {
    /// Characters, as groups.
    Sends,
    /// Groups, as characters.
    Hears,
    /// Bits, as characters.
    Aligns,
    /// Characters, as rows of groups.
    SendsRows,
    /// Rows of groups, as characters.
    HearsRows,
}

/// The two ends of a lane: the disparity of what sends, and what hears. The same of four lanes.
#[derive(Clone, Copy, Debug, PartialEq, Eq)]
pub struct LaneEnds {
    /// The disparity of the next group that is sent.
    pub sender: Disparity,
    /// The lane that hears groups.
    pub receiver: LaneState,
    /// Where groups begin, if bits are heard.
    pub aligner: Aligner,
    /// The disparities of the next groups, if four lanes send.
    pub senders: FourSenders,
    /// Four lanes that hear groups.
    pub receivers: FourReceivers,
}

impl LaneTask {
    /// What a line that is coded begins with.
    pub(crate) fn head(self) -> &'static [u8]
        ensures { result.now ≡ task_head self }
    {
        match self {
            LaneTask::Sent => b"sent ",
            LaneTask::Got => b"got ",
            _ => b"",
        }
    }

    /// What a line that begins so is coded as.
    pub(crate) fn way(self) -> LaneWay
        ensures { result ≡ task_way self }
    {
        match self {
            LaneTask::Groups | LaneTask::Sent => LaneWay::Sends,
            LaneTask::Chars | LaneTask::Got => LaneWay::Hears,
            LaneTask::Bits => LaneWay::Aligns,
            LaneTask::FourGroups => LaneWay::SendsRows,
            LaneTask::FourChars => LaneWay::HearsRows,
        }
    }
}

//! How a port by clocks is made.
ghost use Rattle.std.specs.Prelude.{◌≡◌, ◌≢◌, ◌≤◌, ℕ, MatchOption};
ghost use Rattle.std.specs.Fmt.{decimal};
ghost use Rattle.port_lines.specs.Clocks.{plain_settings};

use fabric_script::read_number;

/// How a port by clocks is made, and what it does by itself.
#[derive(Clone, Copy, Debug, PartialEq, Eq)]
pub struct PortSettings {
    /// The number of receive buffers.
    pub buffers: u8,
    /// Whether it tells its free buffers.
    pub tells: bool,
    /// Whether a packet that a character had held is given out at once.
    pub takes_at_once: bool,
    /// How many clocks go by without an answer until the time-out fires. If it is 0, it never does.
    pub patience: u32,
}

impl PortSettings {
    /// A port of so many buffers that does not tell them, and does nothing by itself.
    pub fn plain(buffers: u8) -> PortSettings
        ensures { result ≡ plain_settings buffers }
    {
        PortSettings {
            buffers,
            tells: false,
            takes_at_once: false,
            patience: 0,
        }
    }
}

/// The number of buffers that a word spells.
pub fn number_of_buffers(word: &[u8]) -> Option<u8>
    ensures { MatchOption result
        ((buffers : ℕ) → 4 ≤ buffers → buffers ≤ 30 → word.now ≢ decimal buffers)
        (λ buffers. (4 ≤ buffers) × (buffers ≤ 30) × (word.now ≡ decimal buffers)) }
{
    match read_number(word) {
        Some(buffers) if 4 <= buffers && buffers <= 30 => Some(buffers as u8),
        _ => None,
    }
}

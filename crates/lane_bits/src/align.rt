//! Where groups begin in bits.
ghost use Rattle.std.specs.Prelude.{◌≡◌, ◌<◌, ◌+◌, IfSome, None};
ghost use Rattle.lane_bits.specs.declared.align.Aligner.TheVariants.{Seeking, Aligned};
ghost use Rattle.lane_bits.specs.Aligning.{with_bit, nine_kept, ends_comma, new_aligner, aligned_at, align_step, slip_at, aligned_reads, reads_bit};

/// How many bits of a group stand before its last one.
const BEFORE_LAST: u8 = 9;

/// Bits in which groups begin at a known place.
#[derive(Clone, Copy, Debug, PartialEq, Eq)]
pub struct AlignedBits {
    recent: u16,
    count: u8,
}

/// What is known of where groups begin. Each keeps the bits that were read last, at most nine, with
/// a one before them.
#[derive(Clone, Copy, Debug, PartialEq, Eq)]
pub enum Aligner {
    /// No comma was read.
    Seeking(u16),
    /// Groups begin as the last comma did.
    Aligned(AlignedBits),
}

/// What a bit ends.
#[derive(Clone, Copy, Debug, PartialEq, Eq)]
pub enum BitPiece {
    /// A comma that stands at another place than groups did. They begin anew with it.
    Slip,
    /// A group, its first bit the most significant.
    Group(u16),
}

/// What a bit does.
#[derive(Clone, Copy, Debug, PartialEq, Eq)]
pub struct AlignStep {
    /// What is known after it.
    pub state: Aligner,
    /// What it ends, if it ends anything.
    pub piece: Option<BitPiece>,
}

impl Aligner {
    /// Nothing is known, and no bit was read.
    pub fn new() -> Aligner
        ensures { result ≡ new_aligner }
    {
        Aligner::Seeking(1)
    }

    /// A bit, 0 or 1.
    pub fn read(self, bit: u16) -> AlignStep
        requires { bit < 2 }
        ensures { result ≡ reads_bit self bit }
    {
        match self {
            Aligner::Seeking(recent) => read_seeking(recent, bit),
            Aligner::Aligned(bits) => bits.read(bit),
        }
    }
}

impl AlignedBits {
    /// A bit, 0 or 1.
    pub fn read(self, bit: u16) -> AlignStep
        requires { bit < 2 }
        ensures { result ≡ reads_bit (Aligned self) bit }
    {
        let word = joined(self.recent, bit);
        if is_comma_end(word) {
            step(aligned(word, 7), slip_of(self.count))
        } else {
            read_on(word, self.count)
        }
    }
}

/// A bit where no comma was read.
fn read_seeking(recent: u16, bit: u16) -> AlignStep
    requires { bit < 2 }
    ensures { result ≡ reads_bit (Seeking recent) bit }
{
    let word = joined(recent, bit);
    if is_comma_end(word) {
        step(aligned(word, 7), None)
    } else {
        step(Aligner::Seeking(last_nine(word)), None)
    }
}

/// A bit that ends no comma, after so many of its group.
fn read_on(word: u16, count: u8) -> AlignStep
    ensures { result ≡ aligned_reads word count }
{
    if count >= BEFORE_LAST {
        step(aligned(word, 0), Some(BitPiece::Group(word % 1024)))
    } else {
        step(aligned(word, count + 1), None)
    }
}

/// What a comma ends after so many bits of a group.
fn slip_of(count: u8) -> Option<BitPiece>
    ensures { result ≡ slip_at count }
{
    if count == 6 {
        None
    } else {
        Some(BitPiece::Slip)
    }
}

fn step(state: Aligner, piece: Option<BitPiece>) -> AlignStep
    ensures { result ≡ align_step state piece }
{
    AlignStep { state, piece }
}

fn aligned(word: u16, count: u8) -> Aligner
    ensures { result ≡ aligned_at word count }
{
    Aligner::Aligned(AlignedBits {
        recent: last_nine(word),
        count,
    })
}

/// The last bits with one more.
fn joined(recent: u16, bit: u16) -> u16
    requires { bit < 2 }
    ensures { result ≡ with_bit recent bit }
{
    2 * (recent % 1024) + bit
}

fn last_nine(word: u16) -> u16
    ensures { result ≡ nine_kept word }
{
    if word < 1024 { word } else { 512 + word % 512 }
}

fn is_comma_end(word: u16) -> bool
    ensures { result ≡ ends_comma word }
{
    128 <= word && (word % 128 == 0b0011111 || word % 128 == 0b1100000)
}

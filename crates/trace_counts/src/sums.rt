//! What a port did, as sums.
ghost use Rattle.std.specs.Prelude.{◌≡◌, ◌+◌, ◌≤◌, ℕ, suc, IsSome, IfOk, OnOk, OnErr};
ghost use Rattle.rio_symbols.specs.Fields.{Fields};
ghost use Rattle.link_model.specs.declared.event.Event.TheVariants.{Ctl, Pkt, Bad};
ghost use Rattle.rio_framer.specs.Giving.{listed, events_by};
ghost use Rattle.trace_counts.specs.Sums.{kind_raised, noted, noted_all, packet_counted, no_sums, sent_again, left_to_send, still_held, totals_with};
ghost use Rattle.trace_counts.specs.Room.{EachHasRoom, SumsHaveRoom, line_sums};

use rio_framer::{Framer, Told};
use rio_symbols::Symbol;
use rio_symbols::stype0::PACKET_NOT_ACCEPTED;

/// A sum would be 2^64 or more.
#[derive(Clone, Copy)]
pub struct TooMany;

/// What a port did.
#[derive(Drop)]
pub struct Sums {
    /// The characters that it sent.
    pub characters: u64,
    /// The packets among them, each as often as it was sent.
    pub packets: u64,
    /// What is neither a packet nor a symbol among them.
    pub bad: u64,
    /// The symbols among them, by stype0.
    pub senders: [u64; 8],
    /// The symbols among them, by stype1.
    pub receivers: [u64; 8],
    /// The packet-not-accepted symbols among them, by cause.
    pub causes: [u64; 32],
    /// How many ackIDs were used, where one that comes again after 31 others is another one.
    pub used: u64,
    /// The most packets that were sent and not freed.
    pub most: u64,
    /// The lines that name it.
    pub lines: LineCounts,
}

/// How many lines name a port, by their keywords.
#[derive(Drop)]
pub struct LineCounts {
    pub takes: u64,
    pub moves_in: u64,
    pub moves_out: u64,
    pub holds: u64,
    pub frees: u64,
    pub drops: u64,
    pub answers: u64,
    pub leaves: u64,
    pub fires: u64,
}

/// The kinds of lines that are counted for a port.
#[derive(Clone, Copy)]
pub enum LineKind {
    Take,
    MoveIn,
    MoveOut,
    Hold,
    Free,
    Drop,
    Answer,
    Leave,
    Fire,
}

/// So many more.
fn raise_by(count: &mut u64, more: u64) -> Result<(), TooMany>
    ensures sum { OnOk result (count.new ≡ count.old + more) }
    ensures too_many { OnErr result (18446744073709551616 ≤ count.old + more) }
{
    let Some(sum) = count.checked_add(more) else {
        return Err(TooMany);
    };
    *count = sum;
    Ok(())
}

/// One more.
fn raise(count: &mut u64) -> Result<(), TooMany>
    ensures sum { OnOk result (count.new ≡ count.old + 1) }
    ensures too_many { OnErr result (18446744073709551616 ≤ count.old + 1) }
{
    raise_by(count, 1)
}

impl LineCounts {
    /// A line is counted.
    pub(crate) fn raise(&mut self, kind: LineKind) -> Result<(), TooMany>
        ensures sums { OnOk result (self.new ≡ kind_raised self.old kind) }
        ensures too_many { OnErr result (EachHasRoom (line_sums (kind_raised self.old kind)) → ⊥) }
    {
        match kind {
            LineKind::Take => raise(&mut self.takes),
            LineKind::MoveIn => raise(&mut self.moves_in),
            LineKind::MoveOut => raise(&mut self.moves_out),
            LineKind::Hold => raise(&mut self.holds),
            LineKind::Free => raise(&mut self.frees),
            LineKind::Drop => raise(&mut self.drops),
            LineKind::Answer => raise(&mut self.answers),
            LineKind::Leave => raise(&mut self.leaves),
            LineKind::Fire => raise(&mut self.fires),
        }
    }
}

impl Sums {
    /// Nothing was done.
    pub(crate) fn new() -> Sums
        ensures { result ≡ no_sums }
    {
        Sums {
            characters: 0,
            packets: 0,
            bad: 0,
            senders: [0; 8],
            receivers: [0; 8],
            causes: [0; 32],
            used: 0,
            most: 0,
            lines: LineCounts {
                takes: 0,
                moves_in: 0,
                moves_out: 0,
                holds: 0,
                frees: 0,
                drops: 0,
                answers: 0,
                leaves: 0,
                fires: 0,
            },
        }
    }

    /// So many characters are sent.
    pub(crate) fn note_characters(&mut self, count: u64) -> Result<(), TooMany>
        ensures sums { OnOk result (self.new
            ≡ record self.old { characters = self.old.characters + count }) }
        ensures too_many { OnErr result
            (SumsHaveRoom (record self.old { characters = self.old.characters + count }) → ⊥) }
    {
        raise_by(&mut self.characters, count)
    }

    /// What the last characters told.
    pub(crate) fn note(&mut self, told: Told, framer: &Framer) -> Result<(), TooMany>
        requires { (symbol : Fields) → told ≡ Told.Ends symbol → IsSome framer.now.ended }
        ensures sums { OnOk result (self.new ≡ noted_all self.old (listed
            (events_by told framer.now.ended).first (events_by told framer.now.ended).second)) }
        ensures too_many { OnErr result (SumsHaveRoom (noted_all self.old (listed
            (events_by told framer.now.ended).first
            (events_by told framer.now.ended).second)) → ⊥) }
    {
        match told {
            Told::Nothing => Ok(()),
            Told::Ctl(symbol) => self.note_symbol(&symbol),
            Told::Bad(_) => raise(&mut self.bad),
            Told::Ends(symbol) => {
                self.note_ended(framer)?;
                self.note_symbol(&symbol)
            }
        }
    }

    /// A packet, or what is none.
    fn note_ended(&mut self, framer: &Framer) -> Result<(), TooMany>
        requires { IsSome framer.now.ended }
        ensures sums { OnOk result (self.new
            ≡ noted_all self.old (listed framer.now.ended None)) }
        ensures too_many { OnErr result
            (SumsHaveRoom (noted_all self.old (listed framer.now.ended None)) → ⊥) }
    {
        match framer.ended() {
            Ok((ack, _)) => self.note_packet(ack),
            Err(_) => raise(&mut self.bad),
        }
    }

    /// A packet: it is as many behind the oldest one that is not freed as its ackID is behind that
    /// one's.
    fn note_packet(&mut self, ack: u8) -> Result<(), TooMany>
        ensures sums { OnOk result (self.new ≡ packet_counted self.old ack) }
        ensures too_many { OnErr result (SumsHaveRoom (packet_counted self.old ack) → ⊥) }
    {
        raise(&mut self.packets)?;
        let oldest = (self.lines.frees % 32) as u8;
        let outstanding = u64::from((ack % 32 + 32 - oldest) % 32) + 1;
        let mut used = self.lines.frees;
        raise_by(&mut used, outstanding)?;
        if self.used < used {
            self.used = used;
        }
        if self.most < outstanding {
            self.most = outstanding;
        }
        Ok(())
    }

    /// A symbol.
    fn note_symbol(&mut self, symbol: &Symbol) -> Result<(), TooMany>
        ensures sums { OnOk result (self.new ≡ noted self.old (Ctl symbol.now)) }
        ensures too_many { OnErr result (SumsHaveRoom (noted self.old (Ctl symbol.now)) → ⊥) }
    {
        raise(&mut self.senders[usize::from(symbol.s0)])?;
        raise(&mut self.receivers[usize::from(symbol.s1)])?;
        if symbol.s0 == PACKET_NOT_ACCEPTED {
            raise(&mut self.causes[usize::from(symbol.p1)])?;
        }
        Ok(())
    }

    /// The packets that were sent again.
    pub fn again(&self) -> u64
        ensures { result ≡ sent_again self.now }
    {
        self.packets.saturating_sub(self.used)
    }

    /// The packets that are to be sent, or were sent and not freed.
    pub fn to_send(&self) -> u64
        ensures { result ≡ left_to_send self.now.lines }
    {
        let lines = &self.lines;
        lines
            .takes
            .saturating_add(lines.moves_in)
            .saturating_add(lines.answers)
            .saturating_sub(lines.frees)
    }

    /// The packets that the port holds.
    pub fn received(&self) -> u64
        ensures { result ≡ still_held self.now.lines }
    {
        let lines = &self.lines;
        lines
            .holds
            .saturating_sub(lines.moves_out)
            .saturating_sub(lines.drops)
            .saturating_sub(lines.answers)
            .saturating_sub(lines.leaves)
    }

    /// Adds the packets that were taken, answered, left and were dropped here.
    pub fn add_to(&self, total: &mut [u64; 4])
        ensures { total.new ≡ totals_with total.old self.now.lines }
    {
        let lines = &self.lines;
        let [taken, answered, gone, dropped] = *total;
        *total = [
            taken.saturating_add(lines.takes),
            answered.saturating_add(lines.answers),
            gone.saturating_add(lines.leaves),
            dropped.saturating_add(lines.drops),
        ];
    }
}

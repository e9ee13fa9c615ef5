//! The clocks of a line.
ghost use Rattle.std.specs.Prelude.{◌≡◌, ◌≤◌, ◌<◌, ◌+◌, ◌*◌, [], length, IfSome, OnOk, OnErr};
ghost use Rattle.std.specs.Vec.{vec_len, vec_capacity};
ghost use Rattle.std.specs.VecDeque.{deque_len, deque_capacity};
ghost use Rattle.rio_chars.specs.Written.{Writes};
ghost use Rattle.port_lines.specs.Clocks.{clocked_at, clocks, clocks_to, clock_gives, clock_text};
ghost use Rattle.port_lines.specs.Answers.{answers_clocks};

use crate::acting::Came;
use crate::clocked::{ClockedPort, Clocking, clock};
use crate::settings::PortSettings;
use crate::texts::{write_fire, write_given, write_packets};
use link_port::Port;
use rio_chars::{Char, NoMemory, Outbox, Sink};
use std::alloc::Global;

/// A clock for each character, one after another. It tells what becomes of packets and the
/// time-outs that fire, and then the characters that are given. If memory is not given, nothing is
/// done.
pub(crate) fn take_clocks<K: Sink>(
    alloc: Global,
    clocked: &mut ClockedPort,
    chars: &[Char],
    outbox: &mut Outbox<K>,
) -> Result<(), NoMemory>
    ensures stands { OnOk result
        (clocked.new ≡ (answers_clocks (clocks clocked.old chars.now)).stands) }
    ensures text { OnOk result
        (Writes outbox.old outbox.new (answers_clocks (clocks clocked.old chars.now)).text) }
    ensures same { OnErr result (clocked.new ≡ clocked.old) }
    ensures untold { OnErr result (outbox.new ≡ outbox.old) }
{
    let Some(room) = room_of(chars.len()) else {
        return Err(NoMemory);
    };
    let mut given = Vec::with_capacity(alloc, chars.len())?;
    clocked.clocking.waiting.reserve(room)?;
    give_chars(
        &mut clocked.port,
        &mut clocked.clocking,
        clocked.settings,
        chars,
        &mut given,
        outbox,
    );
    write_given(outbox, given.as_slice());
    Ok(())
}

/// How many characters may begin to wait in so many clocks: an answer in each, and a burst, with
/// room for one clock more.
fn room_of(count: usize) -> Option<usize>
    ensures { IfSome result (λ room. room ≡ 4 * count + 572) }
{
    count.checked_mul(4)?.checked_add(572)
}

/// A clock for each character, one after another.
fn give_chars<K: Sink>(
    port: &mut Port,
    clocking: &mut Clocking,
    settings: PortSettings,
    chars: &[Char],
    given: &mut Vec<Char>,
    outbox: &mut Outbox<K>,
)
    requires none { given.old.items ≡ [] }
    requires places { vec_len given.old + length chars.now ≤ vec_capacity given.old }
    requires room { deque_len clocking.old.waiting + (4 * length chars.now + 572)
        ≤ deque_capacity clocking.old.waiting }
    ensures stands { clocked_at settings port.new clocking.new.waiting.items
        clocking.new.patience_left
        ≡ (clocks (clocked_at settings port.old clocking.old.waiting.items
        clocking.old.patience_left) chars.now).stands }
    ensures given { given.new.items ≡ (clocks (clocked_at settings port.old
        clocking.old.waiting.items clocking.old.patience_left) chars.now).given }
    ensures text { Writes outbox.old outbox.new (clocks (clocked_at settings port.old
        clocking.old.waiting.items clocking.old.patience_left) chars.now).text }
{
    let mut came = Came::new();
    let mut left = chars;
    while let [first, rest @ ..] = left {
        let c = give_char(port, clocking, settings, *first, &mut came, outbox);
        given.push_reserved(c);
        left = rest;
    }
}

/// A clock, of which the packets are told that are held, given out and freed, and a time-out.
fn give_char<K: Sink>(
    port: &mut Port,
    clocking: &mut Clocking,
    settings: PortSettings,
    c: Char,
    came: &mut Came,
    outbox: &mut Outbox<K>,
) -> Char
    requires room { deque_len clocking.old.waiting + 288 ≤ deque_capacity clocking.old.waiting }
    ensures stands { clocked_at settings port.new clocking.new.waiting.items
        clocking.new.patience_left
        ≡ clocks_to (clocked_at settings port.old clocking.old.waiting.items
        clocking.old.patience_left) c }
    ensures given { result ≡ clock_gives (clocked_at settings port.old
        clocking.old.waiting.items clocking.old.patience_left) c }
    ensures text { Writes outbox.old outbox.new (clock_text (clocked_at settings port.old
        clocking.old.waiting.items clocking.old.patience_left) c) }
    ensures few { 284 < deque_len clocking.new.waiting
        → deque_len clocking.new.waiting ≤ deque_len clocking.old.waiting + 4 }
    ensures capacity { deque_capacity clocking.new.waiting
        ≡ deque_capacity clocking.old.waiting }
{
    let clocked = clock(port, clocking, settings, c, came);
    write_packets(outbox, clocked.held, &clocked.taken, came);
    write_fire(outbox, clocked.fired);
    clocked.given
}

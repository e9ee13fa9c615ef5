//! Readings of known characters, whole and cut at each place.
ghost use Rattle.std.specs.Prelude.{◌≤◌, length};

use link_model::Event;
use rio_chars::{Char, NoMemory, read_char};
use rio_framer::*;
use rio_packets::{Cause, check};
use rio_symbols::{Symbol, from_bytes};
use std::alloc::Global;
use std::test::Fail;

/// An event as a table writes it: a symbol by its fields, a packet by its ackID and its bytes.
#[derive(Clone, Copy, Debug)]
enum Wanted {
    Symbol([u8; 5]),
    Packet(u8, [u8; 8]),
    Bad(Cause),
}

const START: [u8; 5] = [4, 0, 31, 0, 0];

const END: [u8; 5] = [4, 0, 31, 2, 0];

const NOP: [u8; 5] = [4, 0, 31, 7, 0];

const PACKET: [u8; 8] = [0x00, 0x0f, 0x02, 0x01, 0xde, 0xb2, 0x00, 0x00];

#[test]
fn symbols_are_read_and_changed_ones_are_bad(rt: HostRuntime) -> Result<(), Fail> {
    assert!(rt;
        reads(
            rt.alloc(),
            "k1c d80 dff d0f",
            &[(3, Wanted::Symbol(NOP))],
            true
        )?
    );
    let bad = [(3, Wanted::Bad(Cause::BadSymbol))];
    for text in [
        "k1c d00 dff d0f",
        "k1c d81 dff d0f",
        "k1c d80 d7f d0f",
        "k1c d80 dfe d0f",
        "k1c d80 dff d2f",
    ] {
        assert!(rt; reads(rt.alloc(), text, &bad, true)?, "at {text}");
    }
    Ok(())
}

#[test]
fn a_packet_goes_on_behind_a_symbol_that_stands_in_it(rt: HostRuntime) -> Result<(), Fail> {
    let text = "k7c d80 df8 d1f d00 d0f d02 d01 k1c d80 dff d0f dde db2 d00 d00 k7c d80 dfa d18";
    let told = [
        (3, Wanted::Symbol(START)),
        (11, Wanted::Symbol(NOP)),
        (19, Wanted::Packet(0, PACKET)),
        (19, Wanted::Symbol(END)),
    ];
    assert!(rt; reads(rt.alloc(), text, &told, true)?);
    Ok(())
}

#[test]
fn data_and_idles_out_of_place_are_bad(rt: HostRuntime) -> Result<(), Fail> {
    let bad = Wanted::Bad(Cause::BadChar);
    let start = Wanted::Symbol(START);
    assert!(rt; reads(rt.alloc(), "d00", &[(0, bad)], true)?);
    assert!(rt;
        reads(
            rt.alloc(),
            "k7c d80 df8 d1f d00 kbc",
            &[(3, start), (5, bad)],
            true
        )?
    );
    assert!(rt; reads(rt.alloc(), "kbc kfd kfb", &[], true)?);
    assert!(rt; reads(rt.alloc(), "inv", &[(0, bad)], true)?);
    Ok(())
}

#[test]
fn a_symbol_is_broken_off_by_what_is_no_data(rt: HostRuntime) -> Result<(), Fail> {
    let bad = Wanted::Bad(Cause::BadChar);
    let start = Wanted::Symbol(START);
    let nop = Wanted::Symbol(NOP);
    assert!(rt; reads(rt.alloc(), "k1c d80 dff", &[], false)?);
    let other = "k1c d80 k7c d80 df8 d1f";
    assert!(rt; reads(rt.alloc(), other, &[(2, bad), (5, start)], false)?);
    let idle = "k1c d80 dff kbc k1c d80 dff d0f";
    assert!(rt; reads(rt.alloc(), idle, &[(3, bad), (7, nop)], true)?);
    let stray = "k1c k00 d01 inv kbc d00";
    assert!(rt; reads(rt.alloc(), stray, &[(1, bad), (5, bad)], true)?);
    Ok(())
}

/// NOP behind PD, start-of-packet behind SC, end-of-packet behind SC in a packet; and
/// restart-from-retry, which ends a packet.
#[test]
fn symbols_come_behind_their_delimiters(rt: HostRuntime) -> Result<(), Fail> {
    let general = Wanted::Bad(Cause::General);
    let start = (3, Wanted::Symbol(START));
    let end = (7, Wanted::Symbol(END));
    let restart = (8, Wanted::Symbol([4, 0, 31, 3, 0]));
    for text in ["k7c d80 dff d0f", "k1c d80 df8 d1f"] {
        assert!(rt;
            reads(rt.alloc(), text, &[(3, general)], true)?,
            "at {text}"
        );
    }
    let ended = "k7c d80 df8 d1f k7c d80 dfa d18";
    assert!(rt; reads(rt.alloc(), ended, &[start, (7, general), end], true)?);
    let restarted = "k7c d80 df8 d1f d00 k1c d80 dfb d01 kbc";
    assert!(rt; reads(rt.alloc(), restarted, &[start, restart], true)?);
    Ok(())
}

#[test]
fn a_packet_is_too_long_from_its_277th_byte_on(rt: HostRuntime) -> Result<(), Fail> {
    let mut chars = chars_of(rt.alloc(), "k7c d80 df8 d1f")?;
    for _ in 0..276 {
        chars.push(Char::Data(0))?;
    }
    let start = [(3, Wanted::Symbol(START))];
    assert!(rt; tells(rt.alloc(), chars.as_slice(), &start, false)?);
    chars.push(Char::Data(0))?;
    let told = [
        (3, Wanted::Symbol(START)),
        (280, Wanted::Bad(Cause::General)),
    ];
    assert!(rt; tells(rt.alloc(), chars.as_slice(), &told, true)?);
    Ok(())
}

/// A packet with a symbol in it, a symbol that breaks off another, a packet that start-of-packet
/// ends, and text that is none.
const RUNS: [&str; 5] = [
    "k7c d80 df8 d1f d00 d0f d02 d01 k1c d80 dff d0f dde db2 d00 d00 k7c d80 dfa d18",
    "k7c d80 df8 d1f d00 d0f d02 d01 dde db2 d00 d00 k7c d80 df8 d1f d00 d0f d02 d01 d00",
    "k1c d80 k7c d80 df8 d1f d00 k1c d80 dff kbc k1c d80 dff d0f",
    "d00 d01 d02 d03 d04 d05 d06 d07 d08 kbc inv d00 k1c d00 dff d0f",
    "k7c d80 df8 d1f d00 d0f d02 d01 d04 d05 d06 d07 d08 d09 d0a d0b k1c d80 kbc",
];

#[test]
fn a_run_is_its_characters_one_by_one_wherever_it_is_cut(rt: HostRuntime) -> Result<(), Fail> {
    for text in RUNS {
        let chars = chars_of(rt.alloc(), text)?;
        assert!(rt; chars.len() <= 4096);
        for cut in 0..=chars.len() {
            let (front, back) = chars.as_slice().split_at(cut);
            let mut by_run = Framer::new();
            let mut by_one = Framer::new();
            assert!(rt;
                runs_agree(&mut by_run, &mut by_one, front),
                "front of {cut}: {text}"
            );
            assert!(rt;
                runs_agree(&mut by_run, &mut by_one, back),
                "behind {cut}: {text}"
            );
            assert!(rt; by_run.at_rest() == by_one.at_rest());
        }
    }
    Ok(())
}

#[test]
fn a_run_ends_with_the_character_that_tells(rt: HostRuntime) -> Result<(), Fail> {
    let chars = chars_of(rt.alloc(), RUNS[0])?;
    assert!(rt; chars.len() == 20);
    let mut framer = Framer::new();
    let (first, _) = framer.feed_run(chars.as_slice());
    let (second, _) = framer.feed_run(&chars.as_slice()[4..]);
    let (third, _) = framer.feed_run(&chars.as_slice()[12..]);
    assert!(rt; [first, second, third] == [4, 8, 8]);
    Ok(())
}

/// Whether a framer that takes runs tells what a framer tells that takes one character after
/// another.
fn runs_agree(by_run: &mut Framer, by_one: &mut Framer, chars: &[Char]) -> bool {
    let mut rest = chars;
    for _ in 0..chars.len() {
        if rest.is_empty() || rest.len() > 4096 {
            break;
        }
        let (count, events) = by_run.feed_run(rest);
        let (Some(run), Some(behind)) = (
            rest.get(..usize::from(count)),
            rest.get(usize::from(count)..),
        ) else {
            return false;
        };
        if !agrees(by_one, run, &events) {
            return false;
        }
        rest = behind;
    }
    rest.is_empty()
}

/// Whether the characters of a run tell nothing but, with the last of them, these events.
fn agrees(framer: &mut Framer, run: &[Char], events: &Events) -> bool {
    let mut last = Events {
        first: None,
        second: None,
    };
    for c in run {
        if last.first.is_some() {
            return false;
        }
        last = framer.feed(*c);
    }
    last == *events
}

#[test]
fn a_packet_is_sent_with_its_ackid(rt: HostRuntime) -> Result<(), Fail> {
    let sent = "k7c d80 df8 d1f d10 d0f d02 d01 dde db2 d00 d00 k7c d80 dfa d18";
    let expected = chars_of(rt.alloc(), sent)?;
    let start = from_bytes(&[0x80, 0xf8, 0x1f]).ok().ok_or("start")?;
    let end = from_bytes(&[0x80, 0xfa, 0x18]).ok().ok_or("end")?;
    let (_, packet) = check(&PACKET).ok().ok_or("packet")?;
    assert!(rt; start.s1 == 0 && end.s1 == 2);
    let chars = packet_chars(&start, 2, &packet, &end);
    assert!(rt; chars.as_slice() == expected.as_slice());
    Ok(())
}

/// The characters of words that spaces part.
fn chars_of(alloc: Global, text: &str) -> Result<Vec<Char>, Fail> {
    let mut chars = Vec::new(alloc);
    for word in text.split_whitespace() {
        chars.push(read_char(word.as_bytes()).ok_or("no character")?)?;
    }
    Ok(chars)
}

/// Whether a text tells these events at these places, cut in two at each place.
fn reads(alloc: Global, text: &str, told: &[(usize, Wanted)], rest: bool) -> Result<bool, Fail> {
    let chars = chars_of(alloc, text)?;
    Ok(tells(alloc, chars.as_slice(), told, rest)?)
}

/// Whether the characters, cut in two at each place, tell these events at these places.
fn tells(
    alloc: Global,
    chars: &[Char],
    told: &[(usize, Wanted)],
    rest: bool,
) -> Result<bool, NoMemory> {
    if chars.len() > 4_194_304 {
        return Ok(false);
    }
    for cut in 0..=chars.len() {
        if !tells_at(alloc, chars, cut, told, rest)? {
            return Ok(false);
        }
    }
    Ok(true)
}

/// Whether the characters, cut in two at this place, tell these events.
fn tells_at(
    alloc: Global,
    chars: &[Char],
    cut: usize,
    told: &[(usize, Wanted)],
    rest: bool,
) -> Result<bool, NoMemory>
    requires few { length chars.now ≤ 4194304 }
    requires within { cut ≤ length chars.now }
{
    let (front, back) = chars.split_at(cut);
    let mut framer = Framer::new();
    let first = framer.feed_all(alloc, front)?;
    let second = framer.feed_all(alloc, back)?;
    let mut expected = told.iter();
    for (place, event) in &first {
        if !is_next(expected.next(), *place as usize, event) {
            return Ok(false);
        }
    }
    for (place, event) in &second {
        if !is_next(expected.next(), cut + *place as usize, event) {
            return Ok(false);
        }
    }
    Ok(expected.next().is_none() && framer.at_rest() == rest)
}

/// Whether an event is the expected one, at its place.
fn is_next(expected: Option<&(usize, Wanted)>, place: usize, event: &Event) -> bool {
    match expected {
        Some((at, told)) => *at == place && is_told(told, event),
        None => false,
    }
}

fn is_told(told: &Wanted, event: &Event) -> bool {
    match (told, event) {
        (Wanted::Symbol(fields), Event::Ctl(symbol)) => {
            [symbol.s0, symbol.p0, symbol.p1, symbol.s1, symbol.cmd] == *fields
        }
        (Wanted::Packet(ack, bytes), Event::Pkt(found, packet)) => {
            ack == found && packet.bytes() == bytes.as_slice()
        }
        (Wanted::Bad(cause), Event::Bad(found)) => cause == found,
        _ => false,
    }
}

//! A watch that fails while a packet passes a link.

use link_law::{Link, LinkEnd};
use link_port::{Port, PortFace};
use link_watch::{Note, NoteEnd, NoteList, Side, Watch};
use rio_chars::NoMemory;
use rio_packets::Packet;
use std::alloc::Global;
use std::test::Fail;

/// A watch that keeps so many notes, and fails at the next.
#[derive(Drop)]
struct Failing {
    list: NoteList,
    left: u64,
    faults: u64,
}

impl Watch for Failing {
    ghost faults = { λ watch. watch.faults };

    ghost grew = { λ watch notes next. Unit {0} };

    ghost cut = { λ watch note next. Unit {0} };

    ghost is_watch = { record {
      none = λ watch. tt;
      on = λ watch next last first rest h k. tt;
      cut_none = λ watch note. tt;
    } };

    fn note(&mut self, alloc: Global, note: &Note) -> Result<(), NoteEnd> {
        if self.left == 0 {
            self.faults = self.faults.saturating_add(1);
            return Err(NoteEnd::Failed);
        }
        self.left -= 1;
        let Ok(()) = self.list.note(alloc, note) else {
            return Err(NoteEnd::NoMemory);
        };
        Ok(())
    }
}

/// The notes of a packet that passes, by what is noted and at which side.
const ACROSS: [(&str, Side); 6] = [
    ("sent", Side::A),
    ("got", Side::B),
    ("hold", Side::B),
    ("sent", Side::B),
    ("got", Side::A),
    ("free", Side::A),
];

/// What a note tells, and at which side.
fn told(note: &Note) -> (&'static str, Side) {
    match note {
        Note::Sent(side, _) => ("sent", *side),
        Note::Got(side, _) => ("got", *side),
        Note::Hold(side, _) => ("hold", *side),
        Note::Free(side, _) => ("free", *side),
        Note::Fire(side) => ("fire", *side),
    }
}

/// A packet passes a link, and its acceptance comes back.
fn pass(
    alloc: Global,
    link: &mut Link,
    a: &mut Port,
    b: &mut Port,
    watch: &mut Failing,
) -> Result<(), LinkEnd> {
    link.pump(alloc, Side::A, 1, a, b, watch)?;
    link.deliver(alloc, Side::A, 16, a, b, watch)?;
    link.deliver(alloc, Side::B, 4, a, b, watch)?;
    Ok(())
}

/// Two new ports, of which the first has a packet to send.
fn ports(alloc: Global) -> Result<(Port, Port), NoMemory> {
    let mut sender = Port::new(alloc, 8)?;
    let packet = Packet::default();
    if sender.out_room(packet.prio()) {
        sender.out_put(packet);
    }
    Ok((sender, Port::new(alloc, 8)?))
}

#[test]
fn watch_that_fails_ends_the_call(rt: HostRuntime) -> Result<(), Fail> {
    let alloc = rt.alloc();
    for left in 0..8u64 {
        let mut watch = Failing {
            list: NoteList::new(alloc),
            left,
            faults: 0,
        };
        let (mut a, mut b) = ports(alloc)?;
        let passed = pass(alloc, &mut Link::new(alloc), &mut a, &mut b, &mut watch);
        assert_eq!(rt; passed.is_ok(), left >= 6);
        assert_eq!(rt; matches!(passed, Err(LinkEnd::Failed)), left < 6);
        assert_eq!(rt; watch.faults, u64::from(left < 6));
        let notes = watch.list.notes();
        assert_eq!(rt; notes.len() as u64, left.min(6));
        for (note, wanted) in notes.iter().zip(&ACROSS) {
            assert!(rt; told(note) == *wanted, "a front");
        }
    }
    Ok(())
}

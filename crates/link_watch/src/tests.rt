//! Notes that are kept as they came.
use crate::{Note, NoteList, Side, Watch};
use rio_chars::Char;
use std::test::Fail;

/// An idle.
const IDLE: [Char; 1] = [Char::Special(0xbc)];

#[test]
fn notes_are_kept_in_order(rt: HostRuntime) -> Result<(), Fail> {
    let alloc = rt.alloc();
    let mut list = NoteList::new(alloc);
    assert_eq!(rt; list.fire(alloc, Side::A), Ok(()));
    assert_eq!(rt; list.sent(alloc, Side::A, &IDLE), Ok(()));
    assert_eq!(rt; list.got(alloc, Side::B, &IDLE), Ok(()));
    match list.notes() {
        [
            Note::Fire(first),
            Note::Sent(second, sent),
            Note::Got(third, got),
        ] => {
            assert_eq!(rt; [*first, *second, third.other()], [Side::A; 3]);
            assert_eq!(rt; sent.as_slice(), IDLE.as_slice());
            assert_eq!(rt; got.as_slice(), sent.as_slice());
        }
        _ => panic!(rt; "other notes"),
    }
    Ok(())
}

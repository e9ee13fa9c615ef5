//! What is said of lines that newcomers typed.
use fabric_script::{Advice, WordKind, advise};
use std::alloc::Global;
use std::test::Fail;

/// Whether this is said of a line that is refused for this reason.
fn says(alloc: Global, reason: u8, text: &[u8], advice: Advice) -> bool {
    advise(alloc, text, reason) == advice
}

/// A word that is no number of a range.
fn no_number(place: u8, least: u32, most: u32) -> Advice {
    let kind = WordKind::Number { least, most };
    Advice::Word { place, kind }
}

#[test]
fn shape_of_a_line_is_to_blame(rt: HostRuntime) -> Result<(), Fail> {
    let alloc = rt.alloc();
    assert!(rt; says(alloc, 1, b"sned A 0 15 2 cafe", Advice::Keyword));
    assert!(rt; says(alloc, 1, b"", Advice::Keyword));
    assert!(rt; says(alloc, 1, b"  send A 0 15 2 -", Advice::Indent));
    assert!(rt; says(alloc, 1, b"endpoint A 1 # host", Advice::Comment));
    assert!(rt; says(alloc, 2, b"endpoint A 1\r", Advice::CarriageReturn));
    assert!(rt; says(alloc, 1, b"send A 0 15 2", Advice::WordCount(5)));
    assert!(rt; says(alloc, 1, b"collect A B", Advice::WordCount(1)));
    assert!(rt; says(alloc, 1, b"endpoint  A 1", Advice::EmptyWord));
    assert!(rt; says(alloc, 3, b"settle ", Advice::EmptyWord));
    Ok(())
}

#[test]
fn one_word_is_to_blame(rt: HostRuntime) -> Result<(), Fail> {
    let alloc = rt.alloc();
    let name = Advice::Word {
        place: 2,
        kind: WordKind::Name,
    };
    let port = Advice::Word {
        place: 3,
        kind: WordKind::Port,
    };
    let digits = Advice::Word {
        place: 7,
        kind: WordKind::Digits(6),
    };
    assert!(rt; says(alloc, 2, b"endpoint A 0x10", no_number(3, 0, 255)));
    assert!(rt; says(alloc, 2, b"switch S 1", no_number(3, 2, 16)));
    assert!(rt; says(alloc, 2, b"route S 1024 1", no_number(3, 0, 1023)));
    assert!(rt; says(alloc, 2, b"large A 65536", no_number(3, 0, 65535)));
    assert!(rt; says(alloc, 2, b"send16 A 0 15 65536 -", no_number(5, 0, 65535)));
    assert!(rt; says(alloc, 3, b"endpoint host_a 1", name));
    assert!(rt; says(alloc, 3, b"link A.0 B", port));
    assert!(rt; says(alloc, 9, b"read A 0 9 1 5 10", digits));
    assert!(rt; says(alloc, 5, b"collect Z", Advice::Nothing));
    Ok(())
}

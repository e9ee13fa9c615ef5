//! Characters, sources, sinks and outboxes by known texts, with each call failing in turn.
use crate::{
    Char, MemSink, MemSource, Outbox, PlainSink, PlainSource, ReadEnd, StdSink, StdSource,
    TextBuffer, char_text, read_all, read_char, read_hex, write_all,
};
use std::test::Fail;

const LINE: [u8; 7] = *b"a line\n";

#[test]
fn input_is_read_whole_unless_a_read_fails(rt: HostRuntime) -> Result<(), Fail> {
    let alloc = rt.alloc();
    for call in 0..6u32 {
        let fails = vec![in alloc; call]?;
        let mut source = MemSource::new(LINE.to_vec(alloc)?, 2, fails);
        match read_all(alloc, &mut source, 7) {
            Ok(bytes) => {
                assert_eq!(rt; call, 5);
                assert_eq!(rt; bytes.as_slice(), LINE.as_slice());
            }
            Err(end) => {
                assert!(rt; call < 5);
                assert_eq!(rt; end, ReadEnd::Fault);
            }
        }
    }
    Ok(())
}

#[test]
fn one_byte_more_than_the_limit_is_too_long(rt: HostRuntime) -> Result<(), Fail> {
    let alloc = rt.alloc();
    let mut source = PlainSource::new(LINE.to_vec(alloc)?);
    assert_eq!(rt;
        read_all(alloc, &mut source, 6).err(),
        Some(ReadEnd::TooLong)
    );
    Ok(())
}

#[test]
fn bytes_are_written_whole_unless_a_write_fails(rt: HostRuntime) -> Result<(), Fail> {
    let alloc = rt.alloc();
    for call in 0..4u32 {
        let fails = vec![in alloc; call]?;
        let Ok(mut sink) = MemSink::new(alloc, 7, 3, fails) else {
            panic!(rt; "no memory");
        };
        let done = write_all(&mut sink, &LINE).is_ok();
        assert_eq!(rt; done, call == 3);
        let written = [0, 3, 6, 7];
        assert_eq!(rt; sink.written().len(), written[call as usize]);
    }
    Ok(())
}

#[test]
fn text_is_told_until_a_write_fails(rt: HostRuntime) -> Result<(), Fail> {
    let alloc = rt.alloc();
    for call in 0..5u32 {
        let fails = vec![in alloc; call]?;
        let Ok(mut sink) = MemSink::new(alloc, 64, 5, fails) else {
            panic!(rt; "no memory");
        };
        let Ok(mut buffer) = TextBuffer::new(alloc) else {
            panic!(rt; "no memory");
        };
        let mut outbox = Outbox::new(&mut buffer, &mut sink);
        outbox.write(b"port ");
        outbox.write_decimal(4294967295);
        outbox.write_hex(&[0x0a, 0xff]);
        outbox.flush();
        assert_eq!(rt; outbox.failed(), call < 4);
        let text = b"port 42949672950aff";
        assert_eq!(rt; sink.written(), &text[..(5 * call as usize).min(19)]);
    }
    Ok(())
}

#[test]
fn characters_are_spelled_and_read_back(rt: HostRuntime) {
    let texts = [
        (Char::Data(0), b"d00"),
        (Char::Data(0x5a), b"d5a"),
        (Char::Special(0xbc), b"kbc"),
        (Char::Invalid, b"inv"),
    ];
    for (c, text) in texts {
        assert_eq!(rt; char_text(c), *text);
        assert_eq!(rt; read_char(text), Some(c));
    }
    assert_eq!(rt; read_char(b"d5A"), None);
    assert_eq!(rt; read_char(b"kbcc"), None);
    assert_eq!(rt; read_char(b""), None);
}

#[test]
fn characters_are_told_behind_spaces(rt: HostRuntime) -> Result<(), Fail> {
    let alloc = rt.alloc();
    let chars = [
        Char::Special(0x1c),
        Char::Data(0x80),
        Char::Data(0xff),
        Char::Invalid,
        Char::Data(0x0f),
    ];
    let Ok(mut sink) = MemSink::new(alloc, 64, 7, Vec::new(alloc)) else {
        panic!(rt; "no memory");
    };
    let Ok(mut buffer) = TextBuffer::new(alloc) else {
        panic!(rt; "no memory");
    };
    let mut outbox = Outbox::new(&mut buffer, &mut sink);
    outbox.write_chars(&chars);
    outbox.flush();
    assert!(rt; !outbox.failed());
    assert_eq!(rt; sink.written(), b" k1c d80 dff inv d0f".as_slice());
    Ok(())
}

#[test]
fn a_run_is_told_again_only_if_it_is_the_same(rt: HostRuntime) -> Result<(), Fail> {
    let alloc = rt.alloc();
    let run = [Char::Data(0x5a); 20];
    let mut other = run;
    other[19] = Char::Data(0x5b);
    let Ok(mut sink) = MemSink::new(alloc, 512, 512, Vec::new(alloc)) else {
        panic!(rt; "no memory");
    };
    let Ok(mut buffer) = TextBuffer::new(alloc) else {
        panic!(rt; "no memory");
    };
    let mut outbox = Outbox::new(&mut buffer, &mut sink);
    outbox.write_chars(&run);
    outbox.write_chars(&run);
    outbox.write_chars(&other);
    outbox.write_chars(&run[..19]);
    outbox.flush();
    assert!(rt; !outbox.failed());
    let mut text = Vec::new(alloc);
    for i in 0..79 {
        text.extend_from_slice(if i == 59 { b" d5b" } else { b" d5a" })?;
    }
    assert_eq!(rt; sink.written(), text.as_slice());
    Ok(())
}

#[test]
fn digits_are_read_two_a_byte(rt: HostRuntime) -> Result<(), Fail> {
    let alloc = rt.alloc();
    let Some(bytes) = read_hex(alloc, b"00cafe0f")? else {
        panic!(rt; "no bytes");
    };
    assert_eq!(rt; bytes.as_slice(), [0, 0xca, 0xfe, 0x0f].as_slice());
    assert!(rt; read_hex(alloc, b"")?.is_some());
    for digits in [b"cA".as_slice(), b"caf", b"g0", b"c ", b"/0", b"0:", b"`0"] {
        assert!(rt; read_hex(alloc, digits)?.is_none());
    }
    Ok(())
}

#[test]
fn readers_and_writers_of_the_standard_library_serve(rt: HostRuntime) -> Result<(), Fail> {
    let alloc = rt.alloc();
    let mut source = StdSource::new(LINE.as_slice());
    let Ok(bytes) = read_all(alloc, &mut source, 7) else {
        panic!(rt; "not read");
    };
    assert_eq!(rt; bytes.as_slice(), LINE.as_slice());
    let mut written = Vec::<u8>::new(alloc);
    let mut sink = StdSink::new(&mut written);
    assert!(rt; write_all(&mut sink, &bytes).is_ok());
    drop(sink);
    assert_eq!(rt; written.as_slice(), LINE.as_slice());
    assert!(rt; write_all(&mut PlainSink::new(), &bytes).is_ok());
    Ok(())
}

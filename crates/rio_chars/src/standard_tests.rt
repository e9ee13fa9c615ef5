//! Readers and writers that signals interrupt.
ghost use Rattle.std.specs.Prelude.{◌≤◌, IfOk};

use crate::{Sink, Source, StdSink, StdSource};
use std::io::{self, Error, ErrorKind, Read, Write};
use std::test::Fail;

/// A reader and a writer that is interrupted so many times, and then takes and gives one byte.
#[derive(Drop)]
struct Interrupted {
    times: u32,
}

impl Interrupted {
    /// The answer of one call.
    fn call(&mut self, size: usize) -> io::Result<usize>
        ensures { IfOk result (λ n. n ≤ size) }
    {
        if self.times > 0 {
            self.times -= 1;
            return Err(Error::from(ErrorKind::Interrupted));
        }
        Ok(size.min(1))
    }
}

impl Read for Interrupted {
    fn read(&mut self, buf: &mut [u8]) -> io::Result<usize> {
        self.call(buf.len())
    }
}

impl Write for Interrupted {
    fn write(&mut self, buf: &[u8]) -> io::Result<usize> {
        self.call(buf.len())
    }

    fn flush(&mut self) -> io::Result<()> {
        Ok(())
    }
}

#[test]
fn interrupted_calls_are_tried_at_most_1000_times(rt: HostRuntime) -> Result<(), Fail> {
    for (times, answers) in [
        (0, true),
        (1, true),
        (999, true),
        (1000, false),
        (u32::MAX, false),
    ] {
        let mut source = StdSource::new(Interrupted { times });
        let mut piece = [0; 4];
        assert_eq!(rt; source.read(&mut piece) == Ok(1), answers);
        let mut sink = StdSink::new(Interrupted { times });
        assert_eq!(rt; sink.write(&[7; 4]) == Ok(1), answers);
    }
    Ok(())
}

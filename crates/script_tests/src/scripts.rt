//! A script is printed as it was written.
use fabric_script::{parse, print};
use std::test::Fail;

/// A line of each kind, as it is printed.
const EACH_KIND: &[u8] = b"endpoint A 1\nswitch S 4\nlink A.0 S.3\nbuffers A.0 30\nroute S 900 3\n\
default S 255\nlock S 65535\nlarge A 4097\ncredits S.3\nsend A 3 15 255 00ff\nsend A 0 15 1 -\n\
read A 1 2 3 4 00000c\nwrite A 1 2 3 4 000070 0000beef\nsend16 A 3 15 65535 00ff\n\
read16 A 1 258 3 4 00000c\nwrite16 A 1 258 3 4 000070 0000beef\npump A.0 100\n\
deliver S.3 20\nalter A.0 8 k7c\ninsert A.0 0 inv\nerase A.0 0 4\ntimeout S.3\nsettle A.0\n\
move S\ncollect A\nrun 1\n";

#[test]
fn printed_script_is_the_text_that_was_read(rt: HostRuntime) -> Result<(), Fail> {
    let script = parse(rt.alloc(), EACH_KIND).map_err(|_| "no script")?;
    let printed = print(rt.alloc(), &script).map_err(|_| "no text")?;
    assert!(rt; printed.as_slice() == EACH_KIND);
    Ok(())
}

//! Scripts of numbers, against lines that a program outside this project makes.
use fabric_script::{print, soak_script};
use std::alloc::{AllocError, Global};
use std::test::Fail;

/// The number of lines of a script, the number of its bytes, and whether it has this line.
fn measured(alloc: Global, seed: u32, line: &[u8]) -> Result<(usize, usize, bool), AllocError> {
    let script = soak_script(alloc, seed).map_err(|_| AllocError)?;
    let text = print(alloc, &script).map_err(|_| AllocError)?;
    let has = text
        .as_slice()
        .split(|byte| *byte == b'\n')
        .any(|own| own == line);
    Ok((script.lines.len(), text.len(), has))
}

#[test]
fn number_stands_for_one_script(rt: HostRuntime) -> Result<(), Fail> {
    let first = measured(rt.alloc(), 1, b"send E2 0 15 1 41c6")?;
    assert_eq!(rt; first, (8648, 116_886, true));
    let last = measured(rt.alloc(), u32::MAX, b"send E1 3 15 2 3e39")?;
    assert_eq!(rt; last, (8594, 116_076, true));
    Ok(())
}

//! Which device words name.
ghost use Rattle.std.specs.Prelude.{◌≡◌, ℕ, IfOk, IsErrOf};
ghost use Rattle.fabric_script.specs.declared.lines.Line.TheVariants.{Move};
ghost use Rattle.fabric_script.specs.Reading.{Spells};
ghost use Rattle.fabric_script.specs.SetUps.{IsRefused};
ghost use Rattle.live_fabric.specs.OwnRegisters.{collect_text, move_text, NamesDevice, NamesNoDevice, NamesOwn, NamesNoOwn};

use fabric_script::{EventEnd, Line, SetUp};
use std::alloc::{AllocError, Global};

/// The line of a script that has the node of a name collect.
pub(crate) fn collect_line(alloc: Global, name: &[u8]) -> Result<Vec<u8>, AllocError>
    ensures { IfOk result (λ line. line.items ≡ collect_text name.now) }
{
    let mut line = Vec::new(alloc);
    line.extend_from_slice(b"collect ")?;
    line.extend_from_slice(name)?;
    Ok(line)
}

/// The line of a script that has the node of a name move a packet.
fn move_line(alloc: Global, name: &[u8]) -> Result<Vec<u8>, AllocError>
    ensures { IfOk result (λ line. line.items ≡ move_text name.now) }
{
    let mut line = Vec::new(alloc);
    line.extend_from_slice(b"move ")?;
    line.extend_from_slice(name)?;
    Ok(line)
}

/// The endpoint of a name.
pub(crate) fn read_endpoint(alloc: Global, set_up: &SetUp, name: &[u8]) -> Result<u8, EventEnd>
    ensures named { IfOk result (λ node. NamesOwn set_up.now.known name.now node) }
    ensures refused { (number : ℕ) → IsErrOf result (EventEnd.Refused number)
        → NamesNoOwn set_up.now.known name.now number }
{
    let line = collect_line(alloc, name)?;
    match set_up.read_event(alloc, line.as_slice()) {
        Ok(Line::Collect { node }) => Ok(node),
        Ok(_) => unreachable!(),
        Err(end) => Err(end),
    }
}

/// The switch of a name.
fn read_switch(alloc: Global, set_up: &SetUp, name: &[u8]) -> Result<u8, EventEnd>
    ensures named { IfOk result (λ node. Spells set_up.now.known (move_text name.now) (Move node)) }
    ensures refused { (number : ℕ) → IsErrOf result (EventEnd.Refused number)
        → IsRefused set_up.now.known (move_text name.now) number }
{
    let line = move_line(alloc, name)?;
    match set_up.read_event(alloc, line.as_slice()) {
        Ok(Line::Move { node }) => Ok(node),
        Ok(_) => unreachable!(),
        Err(end) => Err(end),
    }
}

/// The device of a name: a switch or an endpoint.
pub(crate) fn read_device(alloc: Global, set_up: &SetUp, name: &[u8]) -> Result<u8, EventEnd>
    ensures named { IfOk result (λ node. NamesDevice set_up.now.known name.now node) }
    ensures refused { (number : ℕ) → IsErrOf result (EventEnd.Refused number)
        → NamesNoDevice set_up.now.known name.now number }
{
    match read_switch(alloc, set_up, name) {
        Err(EventEnd::Refused(_)) => read_endpoint(alloc, set_up, name),
        read => read,
    }
}

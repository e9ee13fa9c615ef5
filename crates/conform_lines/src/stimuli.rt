//! What a line of a scenario asks of a device.
ghost use Rattle.std.specs.Prelude.{◌≡◌, IfOk};
ghost use Rattle.rio_chars.specs.Written.{Writes};
ghost use Rattle.conform_lines.specs.Items.{item_chars};
ghost use Rattle.conform_lines.specs.Stimuli.{ReadsStimulus, stimulus_text};

use crate::items::{LinkItem, push_item, read_item};
use port_lines::{PortRequest, RequestRefusal, read_request};
use rio_chars::{Chars, Outbox, Sink};
use std::alloc::{AllocError, Global};

/// What a line of a scenario asks of a device: that characters come from the wire which its words
/// spell, or what it asks of a port as it is. Otherwise it is told why it is refused.
pub fn read_stimulus(
    alloc: Global,
    line: &[u8],
) -> Result<Result<PortRequest, RequestRefusal>, AllocError>
    ensures { IfOk result (λ read. ReadsStimulus line.now read) }
{
    match read_item(alloc, line)? {
        Some(item) => {
            let chars = chars_of(alloc, &item)?;
            Ok(Ok(PortRequest::Got(chars)))
        }
        None => read_request(alloc, line),
    }
}

/// The characters that are put on the wire.
fn chars_of(alloc: Global, item: &LinkItem) -> Result<Chars, AllocError>
    ensures { IfOk result (λ chars. chars ≡ item_chars item.now) }
{
    let mut chars = Vec::new(alloc);
    push_item(&mut chars, item)?;
    Ok(Chars::new(chars))
}

/// Tells the line that a device is asked for a line of a scenario: characters by themselves, and
/// all else as the line is.
pub fn write_stimulus<K: Sink>(outbox: &mut Outbox<K>, line: &[u8], request: &PortRequest)
    ensures { Writes outbox.old outbox.new (stimulus_text line.now request.now) }
{
    match request {
        PortRequest::Got(chars) => {
            outbox.write(b"got");
            outbox.write_chars(chars.as_slice());
        }
        _ => outbox.write(line),
    }
    outbox.write(b"\n");
}

//! The texts of lines.

ghost use Rattle.std.specs.Prelude.{◌≡◌, false, [], IfOk, OnOk};
ghost use Rattle.rio_chars.specs.Written.{Writes};
ghost use Rattle.fabric_script.specs.Lines.{line_text};
ghost use Rattle.fabric_script.specs.LineTexts.{AreNamed, script_text};
ghost use Rattle.fabric_script.specs.Scripts.{ScriptPasses, IsScript, renumbered};

use crate::lines::{Line, Script};
use crate::names::Name;
use crate::writing::write_line;
use rio_chars::{NoMemory, Outbox, Sink, TextBuffer, TextSink};
use std::alloc::Global;

/// The text of a line, without its line feed. Its nodes have names.
pub fn line_text(alloc: Global, names: &[Name], line: &Line) -> Result<Vec<u8>, NoMemory>
    requires { AreNamed names.now line.now }
    ensures { IfOk result (λ text. text.items ≡ line_text names.now line.now) }
{
    let mut buffer = TextBuffer::new(alloc)?;
    let mut sink = TextSink::new(alloc);
    let mut outbox = Outbox::new(&mut buffer, &mut sink);
    write_line(&mut outbox, names, line);
    finish(&mut outbox)?;
    outbox.into_sink();
    Ok(sink.into_bytes())
}

/// The text of a script that passes: a line for each kept line, and no comments. Where it is not
/// too long for `parse`, `parse` gives the same names and lines again, numbered anew.
pub fn print(alloc: Global, script: &Script) -> Result<Vec<u8>, NoMemory>
    requires { ScriptPasses script.now.names.items script.now.lines.items }
    ensures text { IfOk result (λ text. text.items
        ≡ script_text script.now.names.items script.now.lines.items) }
    ensures reads { IfOk result (λ text. IsScript text.items
        script.now.names.items (renumbered 1 script.now.lines.items)) }
{
    let mut buffer = TextBuffer::new(alloc)?;
    let mut sink = TextSink::new(alloc);
    let mut outbox = Outbox::new(&mut buffer, &mut sink);
    write_lines(&mut outbox, script);
    finish(&mut outbox)?;
    outbox.into_sink();
    Ok(sink.into_bytes())
}

/// Writes the lines of a script that passes, each with its line feed.
fn write_lines<K: Sink>(outbox: &mut Outbox<K>, script: &Script)
    requires { ScriptPasses script.now.names.items script.now.lines.items }
    ensures { Writes outbox.old outbox.new
        (script_text script.now.names.items script.now.lines.items) }
{
    for line in &script.lines {
        write_line(outbox, script.names.as_slice(), &line.line);
        outbox.write(b"\n");
    }
}

/// Writes what waits to a sink that fails only if memory runs out.
fn finish<K: Sink>(outbox: &mut Outbox<K>) -> Result<(), NoMemory>
    ensures written { Writes outbox.old outbox.new [] }
    ensures empty { outbox.new.waiting ≡ [] }
    ensures fine { OnOk result (outbox.new.failed ≡ false) }
{
    outbox.flush();
    if outbox.failed() {
        return Err(NoMemory);
    }
    Ok(())
}

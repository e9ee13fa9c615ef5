//! What is said at a terminal.

use crate::command::{Asked, Command, asked_by};

/// What is said at a terminal of the input that the words ask for, if they ask for any.
pub(crate) fn awaited(words: &[String]) -> &'static [u8] {
    match asked_by(words) {
        Some(Asked::Input(command)) => awaited_by(&command),
        Some(Asked::Soak(_)) | None => b"",
    }
}

/// The same of a command.
fn awaited_by(command: &Command) -> &'static [u8] {
    match command {
        Command::Replay => b"rio: waiting for the lines of a script; Ctrl-D ends them\n",
        Command::Decode => b"rio: waiting for characters such as k7c and d80; Ctrl-D ends them\n",
        Command::Check => {
            b"rio: waiting for set-up lines, a line --- and a trace; Ctrl-D ends them\n"
        }
        Command::Io =>
            b"rio: waiting for set-up lines, a line --- and accesses; Ctrl-D ends them\n",
        Command::Enumerate(_) | Command::Contest { .. } => {
            b"rio: waiting for the set-up lines of a fabric; Ctrl-D ends them\n"
        }
    }
}

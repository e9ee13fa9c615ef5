//! What the program says of its end in words.

use crate::command::view_of;
use rio_chars::{Sink, write_decimal, write_unless};
use view_words::{LineRange, RefusedLine, ViewEnd, ViewStatus};

/// How the program is used.
pub(crate) const HELP: &[u8] = b"usage: rio_view VIEW [OPTION ..] < TRACE, with one of these views:

words [--flow]             the trace with words behind each line, or one line for each transfer
counts                     what each port did, and what is left at the end
ladder [--from N] [--to N] the links as a picture in SVG, from one event to another
wave                       the characters of each wire in VCD, for GTKWave and others
save                       what GTKWave is to show of that wave
packets                    the packets in pcapng, for Wireshark
page                       all of it as one page, for a browser
map [--tables] [--dot]     the fabric as a picture in SVG, or for Graphviz
coverage                   which entries of the step tables the ports met

All but map show a part of a trace by these options, and coverage by the last two:

--lines N-M                from one line of the input to another, as rio check numbers them
--link PORT                what the two ports of one link do
--port PORT                what one port does

Standard input has the set-up lines of a script, a line ---, and a trace, as examples/traced.sh
makes them of a script. A map needs the set-up lines alone, and takes what rio enumerate wrote
behind the line ---. rio_view --version says which version this is.
";

/// Says on one line what there is to say of an end, after these words.
pub(crate) fn say<M: Sink>(messages: &mut M, words: &[String], end: &Result<(), ViewEnd>) {
    match end {
        Ok(()) => {}
        Err(ViewEnd::Refused(refusal)) => say_refusal(messages, refusal),
        Err(ViewEnd::NoPort) => {
            write_unless(
                false,
                messages,
                b"rio_view: no port of a link has this name\n",
            );
        }
        Err(ViewEnd::TooHigh(lines)) => say_height(messages, *lines),
        Err(ViewEnd::Ended(ViewStatus::Words)) => say_words(messages, words),
        Err(ViewEnd::Ended(status)) => {
            let failed = write_unless(false, messages, b"rio_view: ");
            write_unless(failed, messages, status_text(*status));
        }
    }
}

/// Says what is wrong with words that ask for no view.
fn say_words<M: Sink>(messages: &mut M, words: &[String]) {
    match words {
        [] => {
            write_unless(false, messages, b"rio_view: no view is given");
        }
        [word, ..] => say_word(messages, word.as_str().as_bytes()),
    }
    write_unless(false, messages, b"; rio_view --help has them\n");
}

/// Says what is wrong with words that begin with this one.
fn say_word<M: Sink>(messages: &mut M, word: &[u8]) {
    if view_of(word).is_some() {
        let failed = write_unless(false, messages, b"rio_view: ");
        let failed = write_unless(failed, messages, word);
        write_unless(failed, messages, b" takes no such options");
    } else {
        let failed = write_unless(false, messages, b"rio_view: no view is called ");
        write_unless(failed, messages, word);
    }
}

/// Says that a picture would be too high, and which lines would do.
fn say_height<M: Sink>(messages: &mut M, lines: LineRange) {
    let mut digits = [0; 10];
    let failed = write_unless(
        false,
        messages,
        b"rio_view: the ladder would be higher than 32767 pixels, and few programs open it; \
--lines ",
    );
    let begin = write_decimal(lines.first, &mut digits);
    let failed = write_unless(failed, messages, &digits[begin..]);
    let failed = write_unless(failed, messages, b"-");
    let begin = write_decimal(lines.last, &mut digits);
    let failed = write_unless(failed, messages, &digits[begin..]);
    write_unless(failed, messages, b" would do\n");
}

/// Says which line is refused, and why.
fn say_refusal<M: Sink>(messages: &mut M, refusal: &RefusedLine) {
    let mut digits = [0; 10];
    let begin = write_decimal(refusal.line, &mut digits);
    let failed = write_unless(false, messages, b"rio_view: line ");
    let failed = write_unless(failed, messages, &digits[begin..]);
    let failed = write_unless(failed, messages, b": ");
    let failed = write_unless(failed, messages, refusal.words.as_slice());
    write_unless(failed, messages, b"\n");
}

/// What is said of a status that names no line.
fn status_text(status: ViewStatus) -> &'static [u8] {
    match status {
        ViewStatus::Done | ViewStatus::Words | ViewStatus::Refused => b"\n",
        ViewStatus::ReadFault => b"standard input cannot be read\n",
        ViewStatus::WriteFault => b"standard output cannot be written\n",
        ViewStatus::NoMemory => b"there is not enough memory\n",
        ViewStatus::TooLong => b"a line, or all set-up lines, are longer than 4194304 bytes\n",
    }
}

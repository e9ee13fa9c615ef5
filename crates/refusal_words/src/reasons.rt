//! The reasons of a script.
ghost use Rattle.std.specs.Prelude.{◌≡◌};
ghost use Rattle.refusal_words.specs.Reasons.{script_reason as script_reason_of, set_up_reason as set_up_reason_of};

/// What the reason of this number means, for which a line of a script is refused.
pub fn script_reason(reason: u8) -> &'static [u8]
    ensures { result.now ≡ script_reason_of reason }
{
    match reason {
        1 => b"no kind of line has this form",
        2 => b"a number is misspelled or out of range",
        3 => b"a name is misspelled",
        4 => b"a node of an earlier line has this name",
        5 => b"no node of an earlier line has this name",
        6 => b"the node has no port of this number",
        7 => b"the port is linked already",
        8 => b"an endpoint of an earlier line has this device ID",
        9 => b"bytes or a character are misspelled",
        10 =>
            b"the packet has a length that is not allowed: its data is an even number of bytes, at most 268 (266 after send16), and of type 8 it is 6 and up to 8 times 8 bytes",
        11 => b"the node is of the wrong kind for this line",
        12 => b"a line that sets the fabric up may not come after an event",
        13 => b"the port has no link",
        14 =>
            b"a script may have 64 nodes, and its events may cost 100000: run N costs 20 N times the links, settle 20, pump and deliver N, others 1",
        _ => b"this line is refused",
    }
}

/// What it means of set-up lines alone.
pub fn set_up_reason(reason: u8) -> &'static [u8]
    ensures { result.now ≡ set_up_reason_of reason }
{
    match reason {
        12 => b"only lines that set the fabric up may stand here: rio replay carries out events",
        14 => b"a fabric may have 64 nodes",
        _ => script_reason(reason),
    }
}

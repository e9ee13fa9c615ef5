//! How the program is used.

/// How the program is used.
pub(crate) const HELP: &[u8] = b"usage: rio COMMAND, with one of these commands:

replay < SCRIPT                    the trace of a script: what each port sent and got
check < TRACE                      whether a trace after its set-up lines is lawful, or why not
decode < CHARACTERS                the symbols and packets in the characters of one direction
enumerate NODE < SCRIPT            what an endpoint asks that numbers the fabric, and its map
contest NODE NODE NUMBER < SCRIPT  how two endpoints number one fabric, by this order of turns
io < ACCESSES                      what becomes of reads and writes of memory over the links
soak NUMBER                        the counts of 2,000 packets, of the script of this number

Standard input is read to its end. The exit status is 0 if all went well; man rio, or
docs/running.md, has the others and the lines of each input.
";

//! Which texts are lawful: each law is the contract of a function with an empty body.
ghost use Rattle.lawful_traces.specs.Texts.{TracesAreLawful, InputsOfTracesAreLawful};

/// The texts of the lines of a trace of a script that passes are a lawful trace, of as many steps
/// as the trace has: each spells its line, the last one and no other ends the trace, and no reason
/// hits a line.
pub fn traces_are_lawful()
    ensures { TracesAreLawful }
{}

/// An input of a check is lawful, with as many steps, if its set-up lines are those of a script
/// that passes, and behind the line `---` stand the texts of the lines of a trace of that script.
pub fn inputs_of_traces_are_lawful()
    ensures { InputsOfTracesAreLawful }
{}

//! Which texts of asks are lawful: a law is the contract of a function with an empty body.
ghost use Rattle.lawful_asks.specs.AskTexts.{AsksAreLawful, InputsOfAsksAreLawful};

/// The texts of the lines of a host's asks, from the state behind the set-up lines of a script on,
/// with the text `end` behind them, are a lawful trace, of as many steps as the lines have; if no
/// edit is made.
pub fn asks_are_lawful()
    ensures { AsksAreLawful }
{}

/// An input of a check is lawful, with as many steps, if its set-up lines are those of a script
/// that passes, and behind the line `---` stand the texts of the lines of a host's asks over the
/// fabric of that script, and `end`.
pub fn inputs_of_asks_are_lawful()
    ensures { InputsOfAsksAreLawful }
{}

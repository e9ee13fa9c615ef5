//! What an input of a check is: a law is the contract of a function with an empty body.
ghost use Rattle.std.specs.Prelude.{ℕ, List};
ghost use Rattle.judged_inputs.specs.Judged.{EndsSomehow};

/// Each input of a check, however long, has a lawful trace of so many steps, or a line behind its
/// set-up lines is the first that a reason hits, and this is the least, or its set-up lines are
/// refused.
pub fn every_input_is_judged()
    ensures { (bytes : List ℕ) → EndsSomehow bytes }
{}

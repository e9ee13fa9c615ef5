//! What is said of an input: each law is the contract of a function with an empty body.
ghost use Rattle.std.specs.Prelude.{◌≡◌, ℕ, List};
ghost use Rattle.script_input.specs.Inputs.{IsRefusedInput};
ghost use Rattle.trace_check.specs.Outcomes.{HasLawful, HasUnlawful};

/// An input is a lawful trace of one number of steps; or one line of its trace is the first that a
/// reason hits, and one reason the least that hits it. It is not both, and it is neither if its
/// set-up lines are refused or it has no line `---`.
pub fn verdicts_are_once()
    ensures lawful { (bytes : List ℕ) (steps other : ℕ) → HasLawful bytes steps
        → HasLawful bytes other → steps ≡ other }
    ensures unlawful { (bytes : List ℕ) (line reason other_line other_reason : ℕ)
        → HasUnlawful bytes line reason → HasUnlawful bytes other_line other_reason
        → (line ≡ other_line) × (reason ≡ other_reason) }
    ensures apart { (bytes : List ℕ) (steps line reason : ℕ) → HasLawful bytes steps
        → HasUnlawful bytes line reason → ⊥ }
    ensures refused { (bytes : List ℕ) (line reason : ℕ) → IsRefusedInput bytes line reason
        → ((steps : ℕ) → HasLawful bytes steps → ⊥)
        × ((other_line other_reason : ℕ) → HasUnlawful bytes other_line other_reason → ⊥) }
{}

//! A check that takes one line of a trace after another.

ghost use Rattle.std.specs.Prelude.{◌≡◌, ◌≤◌, ◌<◌, IsTrue, false, is_some};
ghost use Rattle.fabric_script.specs.SetUps.{KnownIsReady};

use crate::checking::{CheckEnd, Unlawful};
use crate::expecting::Expected;
use crate::reader::Reader;
use crate::reading::{BAD_FORM, says_short};
use fabric_script::{Line, SetUp, read_set_up};
use std::alloc::{AllocError, Global};
use trace_lines::{TraceLine, TraceLineEnd, read_trace_line};

/// A check of a trace, line by line as they come. It keeps what is on wires, in buffers and not yet
/// matched, and no line but an event, which waits for the next line: that one says whether its wire
/// was too short.
///
/// After an error [`Checker::expected`] tells what would have been lawful; else only that it may be
/// dropped is promised.
#[derive(Drop)]
pub struct Checker {
    set_up: SetUp,
    reader: Reader,
    waiting: Option<Line>,
    lines: u32,
    expected: Option<Expected>,
    ghost ready: { KnownIsReady set_up.known },
    ghost few: { reader.steps ≤ lines },
    ghost goes: { IsTrue (is_some waiting) → reader.ended ≡ false },
    ghost fewer: { IsTrue (is_some waiting) → reader.steps < lines },
}

impl Checker {
    ghost use Rattle.std.specs.Prelude.{◌+◌, [], ◌∷◌, ◌++◌, ℕ, List, None, length, IfOk, IsErrOf};
    ghost use Rattle.fabric_script.specs.Known.{of_set_up};
    ghost use Rattle.fabric_script.specs.Scripts.{RefusedIn};
    ghost use Rattle.trace_lines.specs.Reads.{line_read};
    ghost use Rattle.trace_lines.specs.Words.{SpellsLine};
    ghost use Rattle.trace_check.specs.Lawful.{as_behind, IsLawful};
    ghost use Rattle.trace_check.specs.Starting.{net_of};
    ghost use Rattle.trace_check.specs.Taken.{AreReadBy, AreReadTo, AreTaken, HasTakenLines};
    ghost use Rattle.trace_check.specs.Taken.{IsHitAt, IsHitIn, IsHitNext, LineIsHit};
    ghost use Rattle.trace_check.specs.Taken.{IsSetUpOf, ReadsOne};
    ghost use Rattle.trace_check.specs.Told.{IsToldAt, IsToldIn, IsToldNext, LineIsTold};
    ghost use Rattle.trace_check.specs.Wires.{are_short};

    /// A check of a trace of the fabric that these set-up lines make, of at most 16,777,216
    /// bytes, before its first line. Refused comes exactly if a reason hits the set-up lines,
    /// unless memory runs out.
    pub fn new(alloc: Global, script: &[u8]) -> Result<Checker, CheckEnd>
        requires { length script.now ≤ 16777216 }
        ensures made { IfOk result (λ checker. IsSetUpOf script.now checker.set_up) }
        ensures taken { IfOk result (HasTakenLines []) }
        ensures refused { (refusal : _) → IsErrOf result (CheckEnd.Refused refusal)
            → RefusedIn of_set_up script.now refusal.line refusal.reason }
        ensures lawful { (hit : _) → IsErrOf result (CheckEnd.Unlawful hit) → ⊥ }
    {
        let set_up = read_set_up(alloc, script)?;
        let reader = Reader::new(alloc, &set_up)?;
        Ok(Checker {
            set_up,
            reader,
            waiting: None,
            lines: 0,
            expected: None,
        })
    }

    /// How many lines were taken.
    pub fn lines(&self) -> u32
        ensures { result ≡ self.now.lines }
    {
        self.lines
    }

    /// What would have been lawful at the line that was told, after an error of
    /// [`Checker::take`] or [`Checker::end`] that tells one. It is None for reason 21 alone.
    pub fn expected(&self) -> &Option<Expected>
        ensures { result.now ≡ self.now.expected }
    {
        &self.expected
    }

    /// Takes the next line, without its line feed. Unlawful comes exactly if a reason hits this
    /// line, or the line before it if that edits a wire: at the line that is told, counted from 1,
    /// whatever more may come.
    pub fn take(&mut self, alloc: Global, text: &[u8]) -> Result<(), CheckEnd>
        requires few { self.old.lines < 4294967295 }
        ensures set_up { self.new.set_up ≡ self.old.set_up }
        ensures lawful { IfOk result (λ _. (texts : List (List ℕ)) → HasTakenLines texts self.old
            → HasTakenLines (texts ++ text.now ∷ []) self.new) }
        ensures unlawful { (hit : _) → IsErrOf result (CheckEnd.Unlawful hit)
            → (texts : List (List ℕ)) → HasTakenLines texts self.old
            → IsHitIn self.old.set_up (texts ++ text.now ∷ []) hit }
        ensures told { (hit : _) → IsErrOf result (CheckEnd.Unlawful hit)
            → (texts : List (List ℕ)) → HasTakenLines texts self.old
            → IsToldIn self.old.set_up (texts ++ text.now ∷ []) hit self.new.expected }
        ensures never_refused { (refusal : _) → IsErrOf result (CheckEnd.Refused refusal) → ⊥ }
    {
        self.judge(says_short(text))?;
        self.lines += 1;
        if self.reader.has_ended() {
            return Err(self.bad_form());
        }
        match read_trace_line(alloc, &self.set_up, text) {
            Ok(line) => self.take_line(line),
            Err(TraceLineEnd::NoForm) => Err(self.bad_form()),
            Err(TraceLineEnd::NoMemory) => Err(CheckEnd::NoMemory),
        }
    }

    /// No line follows: how many steps the trace has. Unlawful comes exactly if it has not ended,
    /// or its last line edits a wire and a reason hits it.
    pub fn end(&mut self) -> Result<u32, CheckEnd>
        requires few { self.old.lines < 4294967295 }
        ensures lawful { IfOk result (λ steps. (texts : List (List ℕ))
            → HasTakenLines texts self.old
            → IsLawful self.old.set_up.known (net_of self.old.set_up) texts steps) }
        ensures unlawful { (hit : _) → IsErrOf result (CheckEnd.Unlawful hit)
            → (texts : List (List ℕ)) → HasTakenLines texts self.old
            → IsHitAt self.old.set_up texts hit }
        ensures told { (hit : _) → IsErrOf result (CheckEnd.Unlawful hit)
            → (texts : List (List ℕ)) → HasTakenLines texts self.old
            → IsToldAt self.old.set_up texts hit self.new.expected }
        ensures never_refused { (refusal : _) → IsErrOf result (CheckEnd.Refused refusal) → ⊥ }
    {
        self.judge(false)?;
        if self.reader.has_ended() {
            return Ok(self.reader.steps());
        }
        self.lines += 1;
        Err(self.bad_form())
    }

    /// The last line that was taken is of no form.
    fn bad_form(&mut self) -> CheckEnd
        ensures hit { result ≡ CheckEnd.Unlawful
            (record { line = self.old.lines; reason = 21 }) }
        ensures kept { self.new.set_up ≡ self.old.set_up }
        ensures untold { self.new.expected ≡ None }
    {
        self.expected = None;
        hit_at(self.lines, BAD_FORM)
    }

    /// Takes in the last line that was taken: an event waits, and any other is judged.
    fn take_line(&mut self, line: TraceLine) -> Result<(), CheckEnd>
        requires going { self.old.reader.ended ≡ false }
        requires few { self.old.reader.steps < self.old.lines }
        requires alone { self.old.waiting ≡ None }
        ensures kept { (self.new.set_up ≡ self.old.set_up) × (self.new.lines ≡ self.old.lines) }
        ensures taken { IfOk result (λ _. (texts : List (List ℕ)) (text : List ℕ)
            → SpellsLine self.old.set_up.known text (line_read line)
            → AreReadTo self.old.set_up self.old.reader texts text
            → AreTaken self.old.set_up self.new.reader (texts ++ text ∷ []) self.new.waiting) }
        ensures hit { (hit : _) → IsErrOf result (CheckEnd.Unlawful hit)
            → (hit.line ≡ self.old.lines) × ((texts : List (List ℕ)) (text : List ℕ)
            → SpellsLine self.old.set_up.known text (line_read line)
            → AreReadTo self.old.set_up self.old.reader texts text
            → IsHitNext self.old.set_up texts text hit.reason) }
        ensures told { (hit : _) → IsErrOf result (CheckEnd.Unlawful hit)
            → (texts : List (List ℕ)) (text : List ℕ)
            → SpellsLine self.old.set_up.known text (line_read line)
            → AreReadTo self.old.set_up self.old.reader texts text
            → IsToldNext self.old.set_up texts text hit.reason self.new.expected }
        ensures never_refused { (refusal : _) → IsErrOf result (CheckEnd.Refused refusal) → ⊥ }
    {
        match line {
            TraceLine::Begun(event) => {
                self.waiting = Some(event);
                Ok(())
            }
            _ => self.check(line, false),
        }
    }

    /// Judges the event line that waits, by whether the next line says that a wire is too short.
    fn judge(&mut self, short: bool) -> Result<(), CheckEnd>
        ensures kept { (self.new.set_up ≡ self.old.set_up) × (self.new.lines ≡ self.old.lines)
            × (self.new.waiting ≡ None) }
        ensures read { IfOk result (λ _. (texts rest : List (List ℕ)) → HasTakenLines texts self.old
            → short ≡ are_short (as_behind rest)
            → AreReadBy self.old.set_up self.new.reader texts rest) }
        ensures hit { (hit : _) → IsErrOf result (CheckEnd.Unlawful hit)
            → (texts rest : List (List ℕ)) → HasTakenLines texts self.old
            → short ≡ are_short (as_behind rest) → IsHitAt self.old.set_up (texts ++ rest) hit }
        ensures told { (hit : _) → IsErrOf result (CheckEnd.Unlawful hit)
            → (texts rest : List (List ℕ)) → HasTakenLines texts self.old
            → IsToldAt self.old.set_up (texts ++ rest) hit self.new.expected }
        ensures never_refused { (refusal : _) → IsErrOf result (CheckEnd.Refused refusal) → ⊥ }
    {
        match self.waiting.take() {
            Some(event) => self.check(TraceLine::Begun(event), short),
            None => Ok(()),
        }
    }

    /// Takes in a line, whose number is that of the lines that were taken.
    fn check(&mut self, line: TraceLine, short: bool) -> Result<(), CheckEnd>
        requires going { self.old.reader.ended ≡ false }
        requires few { self.old.reader.steps < self.old.lines }
        requires alone { self.old.waiting ≡ None }
        ensures kept { (self.new.set_up ≡ self.old.set_up) × (self.new.lines ≡ self.old.lines)
            × (self.new.waiting ≡ None) }
        ensures read { IfOk result (λ _.
            ReadsOne self.old.set_up self.old.reader self.new.reader (line_read line) short) }
        ensures hit { (hit : _) → IsErrOf result (CheckEnd.Unlawful hit)
            → (hit.line ≡ self.old.lines)
            × LineIsHit self.old.set_up self.old.reader (line_read line) short hit.reason }
        ensures told { (hit : _) → IsErrOf result (CheckEnd.Unlawful hit)
            → LineIsTold self.old.set_up self.old.reader (line_read line) hit.reason
            self.new.expected }
        ensures never_refused { (refusal : _) → IsErrOf result (CheckEnd.Refused refusal) → ⊥ }
    {
        let number = self.lines();
        let expected = self.reader.state().expected(&line);
        match self.reader.check(line, short)? {
            Some(fault) => {
                self.expected = expected;
                Err(hit_at(number, fault.number()))
            }
            None => Ok(()),
        }
    }
}

/// A reason hits the line with this number.
fn hit_at(line: u32, reason: u8) -> CheckEnd
    ensures { result ≡ CheckEnd.Unlawful (record { line = line; reason = reason }) }
{
    CheckEnd::Unlawful(Unlawful { line, reason })
}

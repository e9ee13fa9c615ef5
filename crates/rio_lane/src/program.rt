//! The whole program, but for where its words and its streams come from.
ghost use Rattle.std.specs.Prelude.{◌≡◌, ◌≢◌, ◌≤◌, map, MatchOption, ℕ, codes, if◌then◌else◌};
ghost use Rattle.std.specs.Fmt.{decimal};
ghost use Rattle.std.specs.String.{string_bytes};
ghost use Rattle.live_lines.specs.declared.status.LiveStatus.TheVariants as ends_with;
ghost use Rattle.rio_lane.specs.declared.ends.LaneTask.{LaneTask};
ghost use Rattle.rio_lane.specs.LaneProgram.{LaneRan, LaneDid, AskTask, WordAsks, FourWordsAsk, SaysCommas};

use crate::ends::LaneTask;
use crate::serving::serve;
use fabric_script::read_number;
use live_lines::{LiveStatus, say, status_number};
use program_start::{Given, answer_question, question_of};
use rio_chars::{Sink, Source};
use std::alloc::Global;

/// How the program is used, in a line.
const USAGE: &[u8] =
    b"usage: rio_lane groups|chars|bits|sent|got [COMMAS], or --lanes 4 groups|chars [COMMAS]\n";

/// The same on several lines.
const HELP: &[u8] =
    b"usage: rio_lane groups|chars|bits|sent|got [COMMAS], or --lanes 4 groups|chars [COMMAS]

Each line is answered before the next is read.

groups   characters: their code groups, with an idle before and after them
chars    code groups of ten digits: the characters that a lane hears
bits     digits 0 and 1, cut anywhere: the same, from the first comma on
sent     lines that begin with sent, as groups; others are passed on
got      lines that begin with got, as characters; others are passed on

--lanes 4 has groups in rows of four, one of each lane.
COMMAS, 1 to 127, is how many commas a lane wants before it is in sync, and else 1.
docs/lanes.md has the rules.
";

/// How many commas a lane wants for which no number is said.
const COMMAS: u8 = 1;

/// Serves lines as the words after the program's name ask for, and answers the exit status.
/// `--help` and `--version` are answered. What there is to say of the end is said in one line to
/// `messages`. A line that cannot be said changes nothing.
pub fn run<S: Source, K: Sink, M: Sink>(given: &mut Given<S, K, M>) -> u8
    ensures { LaneRan (map string_bytes given.old.words.now) result
        S.left S.faults given.old.source given.new.source
        K.written K.faults given.old.sink given.new.sink }
{
    let status = serve_words(
        given.alloc,
        given.words,
        &mut given.source,
        &mut given.sink,
        &mut given.messages,
    );
    say(&mut given.messages, b"rio_lane: ", USAGE, status);
    status_number(status)
}

/// Serves lines as the words ask for, or answers what else they ask.
fn serve_words<S: Source, K: Sink, M: Sink>(
    alloc: Global,
    words: &[String],
    source: &mut S,
    sink: &mut K,
    messages: &mut M,
) -> LiveStatus
    ensures { LaneDid (map string_bytes words.now) result (S.left source.old)
        (S.left source.new)
        (S.faults source.old) (S.faults source.new) (K.written sink.old) (K.written sink.new)
        (K.faults sink.old) (K.faults sink.new) }
{
    if let Some(question) = question_of(words) {
        return told(answer_question(sink, b"rio_lane", HELP, question));
    }
    match asked(words) {
        Some((task, commas)) => serve(alloc, task, commas, source, sink, messages),
        None => LiveStatus::Words,
    }
}

/// How it ended, by whether a write failed.
fn told(failed: bool) -> LiveStatus
    ensures { result ≡ (if failed then ends_with.WriteFault else ends_with.Done) }
{
    if failed {
        LiveStatus::WriteFault
    } else {
        LiveStatus::Done
    }
}

/// The task and the number of commas that the words ask for.
pub(crate) fn asked(words: &[String]) -> Option<(LaneTask, u8)>
    ensures { MatchOption result
        ((task : LaneTask) (commas : ℕ) → ¬ AskTask (map string_bytes words.now) task commas)
        (λ asked. AskTask (map string_bytes words.now) asked.0 asked.1) }
{
    match words {
        [word] => asked_by_word(bytes(word)),
        [word, number] => asked_by_words(bytes(word), bytes(number)),
        [option, count, word] => asked_of_four(bytes(option), bytes(count), bytes(word)),
        [option, count, word, number] => {
            asked_of_four_lanes(bytes(option), bytes(count), bytes(word), bytes(number))
        }
        _ => None,
    }
}

/// The bytes of a word.
fn bytes(word: &String) -> &[u8]
    ensures { result.now ≡ string_bytes word.now }
{
    word.as_str().as_bytes()
}

/// The task that a word alone asks for, on one lane.
fn asked_by_word(word: &[u8]) -> Option<(LaneTask, u8)>
    ensures { MatchOption result
        ((task : LaneTask) (commas : ℕ) → ¬ (WordAsks 1 word.now task × (commas ≡ 1)))
        (λ asked. WordAsks 1 word.now asked.0 × (asked.1 ≡ 1)) }
{
    let Some(task) = task_of(word) else {
        return None;
    };
    Some((task, COMMAS))
}

/// The task and the number of commas that two words ask for, on one lane.
fn asked_by_words(word: &[u8], number: &[u8]) -> Option<(LaneTask, u8)>
    ensures { MatchOption result
        ((task : LaneTask) (commas : ℕ)
        → ¬ (WordAsks 1 word.now task × SaysCommas number.now commas))
        (λ asked. WordAsks 1 word.now asked.0 × SaysCommas number.now asked.1) }
{
    let Some(task) = task_of(word) else {
        return None;
    };
    let Some(commas) = number_of_commas(number) else {
        return None;
    };
    Some((task, commas))
}

/// The task that three words ask for, on four lanes.
fn asked_of_four(option: &[u8], count: &[u8], word: &[u8]) -> Option<(LaneTask, u8)>
    ensures { MatchOption result
        ((task : LaneTask) (commas : ℕ)
        → ¬ (FourWordsAsk option.now count.now word.now task × (commas ≡ 1)))
        (λ asked. FourWordsAsk option.now count.now word.now asked.0 × (asked.1 ≡ 1)) }
{
    let Some(task) = four_task(option, count, word) else {
        return None;
    };
    Some((task, COMMAS))
}

/// The task and the number of commas that four words ask for, on four lanes.
fn asked_of_four_lanes(
    option: &[u8],
    count: &[u8],
    word: &[u8],
    number: &[u8],
) -> Option<(LaneTask, u8)>
    ensures { MatchOption result
        ((task : LaneTask) (commas : ℕ)
        → ¬ (FourWordsAsk option.now count.now word.now task × SaysCommas number.now commas))
        (λ asked. FourWordsAsk option.now count.now word.now asked.0
        × SaysCommas number.now asked.1) }
{
    let Some(task) = four_task(option, count, word) else {
        return None;
    };
    let Some(commas) = number_of_commas(number) else {
        return None;
    };
    Some((task, commas))
}

/// The task that a word asks for, on one lane.
fn task_of(word: &[u8]) -> Option<LaneTask>
    ensures { MatchOption result ((task : LaneTask) → ¬ WordAsks 1 word.now task)
        (λ task. WordAsks 1 word.now task) }
{
    match word {
        b"groups" => Some(LaneTask::Groups),
        b"chars" => Some(LaneTask::Chars),
        b"bits" => Some(LaneTask::Bits),
        b"sent" => Some(LaneTask::Sent),
        b"got" => Some(LaneTask::Got),
        _ => None,
    }
}

/// The task that three words ask for.
fn four_task(option: &[u8], count: &[u8], word: &[u8]) -> Option<LaneTask>
    ensures { MatchOption result
        ((task : LaneTask) → ¬ FourWordsAsk option.now count.now word.now task)
        (λ task. FourWordsAsk option.now count.now word.now task) }
{
    match option {
        b"--lanes" => counted_task(count, word),
        _ => None,
    }
}

/// The task that a number of lanes and a word ask for.
fn counted_task(count: &[u8], word: &[u8]) -> Option<LaneTask>
    ensures { MatchOption result
        ((task : LaneTask) → ¬ ((count.now ≡ codes "4") × WordAsks 4 word.now task))
        (λ task. (count.now ≡ codes "4") × WordAsks 4 word.now task) }
{
    match count {
        b"4" => rows_task(word),
        _ => None,
    }
}

/// The task that a word asks for, on four lanes.
fn rows_task(word: &[u8]) -> Option<LaneTask>
    ensures { MatchOption result ((task : LaneTask) → ¬ WordAsks 4 word.now task)
        (λ task. WordAsks 4 word.now task) }
{
    match word {
        b"groups" => Some(LaneTask::FourGroups),
        b"chars" => Some(LaneTask::FourChars),
        _ => None,
    }
}

/// The number of commas that a word spells.
fn number_of_commas(word: &[u8]) -> Option<u8>
    ensures { MatchOption result
        ((commas : ℕ) → 1 ≤ commas → commas ≤ 127 → word.now ≢ decimal commas)
        (λ commas. (1 ≤ commas) × (commas ≤ 127) × (word.now ≡ decimal commas)) }
{
    match read_number(word) {
        Some(commas) if 1 <= commas && commas <= 127 => Some(commas as u8),
        _ => None,
    }
}

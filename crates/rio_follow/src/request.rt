//! What the words behind the program's name ask for.
ghost use Rattle.std.specs.Prelude.{map, codes, MatchBool, MatchOption, true, false, ◌≡◌, ◌≢◌};
ghost use Rattle.std.specs.String.{string_bytes};
ghost use Rattle.rio_follow.specs.Asking.{AskFollow, AskReactions, AsksReport};

/// That a trace is followed: whether `ok` is told of each line, and whether a report is written.
#[derive(Clone, Copy, Debug, PartialEq, Eq)]
pub struct FollowRequest {
    pub tell: bool,
    pub report: bool,
}

/// What the words ask for; None if they ask for nothing.
pub(crate) fn asked(words: &[String]) -> Option<FollowRequest>
    ensures { MatchOption result
        ((request : FollowRequest) → ¬ AskFollow (map string_bytes words.now) request)
        (AskFollow (map string_bytes words.now)) }
{
    match words {
        [] => Some(FollowRequest {
            tell: false,
            report: false,
        }),
        [word] => asked_by_one(word.as_str().as_bytes()),
        [kind, form] => asked_by_two(kind.as_str().as_bytes(), form.as_str().as_bytes()),
        [word, kind, form] => asked_by_three(
            word.as_str().as_bytes(),
            kind.as_str().as_bytes(),
            form.as_str().as_bytes(),
        ),
        _ => None,
    }
}

/// Whether the words ask that reactions are judged.
pub(crate) fn asks_reactions(words: &[String]) -> bool
    ensures { MatchBool result (AskReactions (map string_bytes words.now))
        (¬ AskReactions (map string_bytes words.now)) }
{
    match words {
        [word] => is_reactions(word.as_str().as_bytes()),
        _ => false,
    }
}

/// Whether a word is the one that asks for reactions.
fn is_reactions(word: &[u8]) -> bool
    ensures { MatchBool result (word.now ≡ codes "reactions") (word.now ≢ codes "reactions") }
{
    match word {
        b"reactions" => true,
        _ => false,
    }
}

/// What one word asks for.
fn asked_by_one(word: &[u8]) -> Option<FollowRequest>
    ensures { MatchOption result
        ((request : FollowRequest) → ¬ ((word.now ≡ codes "tell")
        × (request ≡ record { tell = true; report = false })))
        (λ request. (word.now ≡ codes "tell")
        × (request ≡ record { tell = true; report = false })) }
{
    match word {
        b"tell" => Some(FollowRequest {
            tell: true,
            report: false,
        }),
        _ => None,
    }
}

/// What two words ask for.
fn asked_by_two(kind: &[u8], form: &[u8]) -> Option<FollowRequest>
    ensures { MatchOption result
        ((request : FollowRequest) → ¬ (AsksReport kind.now form.now
        × (request ≡ record { tell = false; report = true })))
        (λ request. AsksReport kind.now form.now
        × (request ≡ record { tell = false; report = true })) }
{
    if asks_report(kind, form) {
        Some(FollowRequest {
            tell: false,
            report: true,
        })
    } else {
        None
    }
}

/// What three words ask for.
fn asked_by_three(word: &[u8], kind: &[u8], form: &[u8]) -> Option<FollowRequest>
    ensures { MatchOption result
        ((request : FollowRequest) → ¬ ((word.now ≡ codes "tell") × AsksReport kind.now form.now
        × (request ≡ record { tell = true; report = true })))
        (λ request. (word.now ≡ codes "tell") × AsksReport kind.now form.now
        × (request ≡ record { tell = true; report = true })) }
{
    match word {
        b"tell" if asks_report(kind, form) => Some(FollowRequest {
            tell: true,
            report: true,
        }),
        _ => None,
    }
}

/// Whether two words ask for a report.
fn asks_report(kind: &[u8], form: &[u8]) -> bool
    ensures { MatchBool result (AsksReport kind.now form.now) (¬ AsksReport kind.now form.now) }
{
    kind == b"--report".as_slice() && form == b"tap".as_slice()
}

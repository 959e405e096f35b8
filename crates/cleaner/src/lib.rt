// A cleaner, fed one entry at a time: it hands out an entry of the cleaned list whenever one is settled, and at the end the last.
#![tactic(auto)]

ghost use Rattle.std.specs.Prelude.{◌≡◌};
ghost use Rattle.cleaned.specs.Moves.{move, elbow};
ghost use Rattle.cleaned.specs.Cleaner.{fed_kept, fed_undecided, fed, ending};

use cleaned::{Cleaner, Fed, Move};
use entries::Entry;

// One entry more.
#[tactic(auto, unfolding(cleaned::specs::Cleaner::fed))]
pub fn feed(c: Cleaner, e: Entry) -> Fed
    ensures { result ≡ fed c e }
{
    match c {
        Cleaner::Empty => Fed {
            cleaner: Cleaner::Kept(e, e),
            settled: None,
        },
        Cleaner::Kept(kept, _) => feed_kept(kept, e),
        Cleaner::Undecided(kept, undecided, _) => feed_undecided(kept, undecided, e),
    }
}

// What is left at the end: the last entry, where there was one.
#[tactic(auto, unfolding(cleaned::specs::Cleaner::ending))]
pub fn end(c: Cleaner) -> Option<Entry>
    ensures { result ≡ ending c }
{
    match c {
        Cleaner::Empty => None,
        Cleaner::Kept(_, latest) | Cleaner::Undecided(_, _, latest) => Some(latest),
    }
}

// In the run that starts at `kept`.
fn feed_kept(kept: Entry, e: Entry) -> Fed
    ensures { result ≡ fed_kept kept e }
{
    if move_of(kept, e) == Move::Stays {
        return Fed {
            cleaner: Cleaner::Kept(kept, e),
            settled: None,
        };
    }
    Fed {
        cleaner: Cleaner::Undecided(kept, e, e),
        settled: Some(kept),
    }
}

// In the run that starts at `undecided`.
fn feed_undecided(kept: Entry, undecided: Entry, e: Entry) -> Fed
    ensures { result ≡ fed_undecided kept undecided e }
{
    let next = move_of(undecided, e);
    if next == Move::Stays {
        return Fed {
            cleaner: Cleaner::Undecided(kept, undecided, e),
            settled: None,
        };
    }
    if is_elbow(move_of(kept, undecided), next) {
        return Fed {
            cleaner: Cleaner::Kept(e, e),
            settled: None,
        };
    }
    Fed {
        cleaner: Cleaner::Undecided(undecided, e, e),
        settled: Some(undecided),
    }
}

// ---- moves

// By the coordinates that change; position and width take no part.
fn move_of(from: Entry, to: Entry) -> Move
    ensures { result ≡ move from to }
{
    match (from.x == to.x, from.y == to.y) {
        (true, true) => Move::Stays,
        (true, false) => Move::AlongY,
        (false, true) => Move::AlongX,
        (false, false) => Move::Diagonal,
    }
}

// Is one along one axis, and one along the other?
#[tactic(auto, unfolding(cleaned::specs::Moves::elbow))]
fn is_elbow(first: Move, second: Move) -> bool
    ensures { result ≡ elbow first second }
{
    matches!(
        (first, second),
        (Move::AlongX, Move::AlongY) | (Move::AlongY, Move::AlongX)
    )
}

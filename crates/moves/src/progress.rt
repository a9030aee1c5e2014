// How far a search is, what a move says of it, and how it ends.
ghost use Rattle.std.specs.Prelude.{◌≡◌, ◌^◌, ◌<◌};
ghost use Rattle.moves.specs.Moves.{move_is};
ghost use Rattle.moves.specs.Results.{goes_on, after, RoomFor, Countable, written_by, ended_by, ended_is, listed_by};

use crate::{Ended, Move, Moved};
use answers::put_pair;

// How far a search is: the nodes that wait, the pairs listed, the moves that opened a node, and whether the allowance was found spent.
#[derive(Clone, Copy)]
pub struct Progress {
    pub waiting: usize,
    pub listed: usize,
    pub openings: u32,
    pub spent: bool,
}

// The search is done when k documents are named or nothing waits.
pub fn goes_on(p: Progress, k: u32) -> bool
    ensures { result ≡ goes_on p k }
{
    !p.spent && p.waiting > 0 && p.listed < k as usize
}

// What a move says: a document goes into the answer slice, an opening is counted.
pub fn tell(moved: Moved, p: Progress, answers: &mut [u32]) -> Progress
    requires { RoomFor (move_is moved.made) p.listed answers.old × Countable (move_is moved.made) p.openings }
    ensures value { result ≡ after (move_is moved.made) p moved.waiting }
    ensures answers_after { answers.new ≡ written_by (move_is moved.made) p.listed answers.old }
{
    let mut next = Progress {
        waiting: moved.waiting,
        spent: false,
        ..p
    };
    match moved.made {
        Move::Names { document, count } => {
            put_pair(answers, p.listed, document as usize, count as usize);
            next.listed += 1;
        }
        Move::Opens { .. } => next.openings += 1,
        Move::Spent => next.spent = true,
    }
    next
}

// 'done' or 'spent', with the openings made; where the allowance was found spent they are the allowance.
pub fn ending(p: Progress) -> Ended
    requires { p.listed < 2 ^ 32 }
    ensures { ended_is result ≡ ended_by p }
{
    let listed = p.listed as u32;
    if p.spent {
        Ended::Spent {
            listed,
            allowance: p.openings,
        }
    } else {
        Ended::Done {
            listed,
            openings: p.openings,
        }
    }
}

// How many documents it lists, whichever way it ended.
pub fn listed(e: Ended) -> usize
    ensures { result ≡ listed_by (ended_is e) }
{
    match e {
        Ended::Done { listed, .. } | Ended::Spent { listed, .. } => listed as usize,
    }
}

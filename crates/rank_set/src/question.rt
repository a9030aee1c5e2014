// The count of a set of documents before a place, with its refusals.
ghost use Rattle.std.specs.Prelude.{◌≡◌, true, ◌≤◌};
ghost use Rattle.model.specs.Lists.{Within};
ghost use Rattle.model.specs.Opening.{contents};
ghost use Rattle.model.specs.RankSet.{ascending, rank_set, rank_set_result};
ghost use Rattle.answers.specs.Answers.{number_of};

use crate::nodes::rank_node;
use crate::sets::{is_ascending, reaches};
use archive::{Archive, open};
use refusals::Refusal;
use wavelet::Place;

// The count of a set before a place, which may be the end.
pub fn rank_set_in(archive: &Archive<'_>, set: &[u32], place: usize) -> usize
    requires { (ascending set.now ≡ true) × Within archive.now.layout.documents set.now × (place ≤ archive.now.layout.levels.entries) }
    ensures { (result ≡ rank_set set.now (contents archive.now.bytes.now).entries place) × (result ≤ place) }
{
    if set.is_empty() {
        return 0;
    }
    let tree = archive.tree();
    let root = Place {
        start: 0,
        at: place,
        end: tree.levels.entries,
    };
    rank_node(&tree, 0, root, set)
}

pub fn rank_set_opened(archive: &Archive<'_>, set: &[u32], place: u32) -> Result<u32, Refusal>
    ensures { number_of result ≡ rank_set_result archive.now.bytes.now set.now place }
{
    let p = place as usize;
    if 64 < set.len() {
        return Err(Refusal::Set);
    }
    if !is_ascending(set) {
        return Err(Refusal::Set);
    }
    if reaches(set, archive.layout.documents) {
        return Err(Refusal::Argument);
    }
    if archive.layout.levels.entries < p {
        return Err(Refusal::Argument);
    }
    Ok(rank_set_in(archive, set, p) as u32)
}

pub fn rank_set(archive: &[u8], set: &[u32], place: u32) -> Result<u32, Refusal>
    ensures { number_of result ≡ rank_set_result archive.now set.now place }
{
    rank_set_opened(&open(archive)?, set, place)
}

// Questions of one entry: which it is, how often a document occurs before it, where a document occurs.
ghost use Rattle.std.specs.Prelude.{◌≡◌, ◌≤◌, ◌<◌, get_or};
ghost use Rattle.bits.specs.Sequences as sequences;
ghost use Rattle.model.specs.Opening.{contents};
ghost use Rattle.model.specs.Queries.{access_result, rank_result, select_result};
ghost use Rattle.answers.specs.Answers.{number_of};

use archive::{Archive, open};
use refusals::Refusal;

// The entry at a place.
pub fn access_in(archive: &Archive<'_>, place: usize) -> usize
    requires { place < archive.now.layout.levels.entries }
    ensures { (result ≡ get_or (contents archive.now.bytes.now).entries place 0) × (result < archive.now.layout.documents) }
{
    archive.tree().access(place)
}

pub fn access_opened(archive: &Archive<'_>, place: u32) -> Result<u32, Refusal>
    ensures { number_of result ≡ access_result archive.now.bytes.now place }
{
    let p = place as usize;
    if archive.layout.levels.entries <= p {
        return Err(Refusal::Argument);
    }
    Ok(access_in(archive, p) as u32)
}

pub fn access(archive: &[u8], place: u32) -> Result<u32, Refusal>
    ensures { number_of result ≡ access_result archive.now place }
{
    access_opened(&open(archive)?, place)
}

// The count of a document before a place, which may be the end.
pub fn rank_in(archive: &Archive<'_>, document: usize, place: usize) -> usize
    requires { (document < archive.now.layout.documents) × (place ≤ archive.now.layout.levels.entries) }
    ensures { (result ≡ sequences.rank document (contents archive.now.bytes.now).entries place) × (result ≤ place) }
{
    archive.tree().rank(document, place)
}

pub fn rank_opened(archive: &Archive<'_>, document: u32, place: u32) -> Result<u32, Refusal>
    ensures { number_of result ≡ rank_result archive.now.bytes.now document place }
{
    let d = document as usize;
    let p = place as usize;
    if archive.layout.documents <= d {
        return Err(Refusal::Argument);
    }
    if archive.layout.levels.entries < p {
        return Err(Refusal::Argument);
    }
    Ok(rank_in(archive, d, p) as u32)
}

pub fn rank(archive: &[u8], document: u32, place: u32) -> Result<u32, Refusal>
    ensures { number_of result ≡ rank_result archive.now document place }
{
    rank_opened(&open(archive)?, document, place)
}

// The place of the j-th entry of a document, j from 1; n, one past the end, where it has fewer.
pub fn select_in(archive: &Archive<'_>, document: usize, j: usize) -> usize
    requires { (document < archive.now.layout.documents) × (0 < j) }
    ensures { result ≡ sequences.select document (contents archive.now.bytes.now).entries j }
{
    wavelet_select::select(&archive.tree(), document, j)
}

pub fn select_opened(archive: &Archive<'_>, document: u32, j: u32) -> Result<u32, Refusal>
    ensures { number_of result ≡ select_result archive.now.bytes.now document j }
{
    let d = document as usize;
    if archive.layout.documents <= d {
        return Err(Refusal::Argument);
    }
    if j == 0 {
        return Err(Refusal::Argument);
    }
    Ok(select_in(archive, d, j as usize) as u32)
}

pub fn select(archive: &[u8], document: u32, j: u32) -> Result<u32, Refusal>
    ensures { number_of result ≡ select_result archive.now document j }
{
    select_opened(&open(archive)?, document, j)
}

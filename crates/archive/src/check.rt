// The check on opening, and what it looks at, part by part.
ghost use Rattle.std.specs.Prelude.{◌≡◌, not, ◌&&◌, ◌+◌, ◌≤◌, ◌<◌, length, leb, eqb, IfOk};
ghost use Rattle.bits.specs.Sequences.{below};
ghost use Rattle.bits.specs.Bits.{number_at};
ghost use Rattle.wavelet.specs.Levels.{entries_in};
ghost use Rattle.model.specs.Lists.{any};
ghost use Rattle.model.specs.Opening.{pairs_hold, table_holds, opening};
ghost use Rattle.archive.specs.Layout.{sizes_in, Fitting};
ghost use Rattle.refusals.specs.Refusals.{outcome_by};
ghost use Rattle.archive.specs.Opening.{Laid, levels_outcome, parts_outcome};

use crate::offsets::{archive_length, layout_of, within_limits};
use crate::rows::Rows;
use crate::{Archive, Layout};
use bit_rows::number;
use refusals::Refusal;
use wavelet::Tree;

// Bytes with the layout that their header gives. Whether the rest is as the layout has it is not known.
#[derive(Clone, Copy)]
struct Headed<'a> {
    bytes: &'a [u8],
    layout: Layout,
    ghost long: { 40 ≤ length bytes.now },
    ghost fitting: { Fitting layout },
}

impl<'a> Headed<'a> {
    // Whether the pair of numbers at an offset is the given one.
    fn pair_is(&self, at: usize, offset: usize, size: usize) -> bool
        requires { at ≤ 32 }
        ensures { result ≡ (eqb (number_at self.now.bytes.now at) offset && eqb (number_at self.now.bytes.now (at + 4)) size) }
    {
        number(self.bytes, at) == offset && number(self.bytes, at + 4) == size
    }

    // Refusal 4: the three pairs are those of the layout.
    fn pairs_hold(&self) -> bool
        ensures { result ≡ pairs_hold self.now.bytes.now (sizes_in self.now.layout) }
    {
        let t = self.layout.levels;
        self.pair_is(16, 40, 8 * self.layout.terms)
            && self.pair_is(24, t.samples, t.rows - t.samples)
            && self.pair_is(32, t.rows, t.height * ((t.entries + 7) / 8))
    }

    // Refusal 6: each term starts where the one before ends, and the last ends at n.
    fn table_holds(&self) -> bool
        requires { Laid self.now.bytes.now self.now.layout }
        ensures { result ≡ table_holds self.now.bytes.now self.now.layout.levels.entries 0 (below self.now.layout.terms) }
    {
        let mut start = 0;
        for t in 0..self.layout.terms {
            let at = 40 + 8 * t;
            if number(self.bytes, at) != start {
                return false;
            }
            start += number(self.bytes, at + 4);
        }
        start == self.layout.levels.entries
    }

    // Refusals 7 to 9.
    fn check_levels(&self) -> Result<(), Refusal>
        requires { Laid self.now.bytes.now self.now.layout }
        ensures { outcome_by (λ _. sizes_in self.now.layout) result ≡ levels_outcome self.now.bytes.now self.now.layout }
    {
        let rows = Rows {
            bytes: self.bytes,
            levels: self.layout.levels,
        };
        if !rows.samples_hold() {
            return Err(Refusal::Sample);
        }
        if !rows.unused_hold() {
            return Err(Refusal::UnusedBit);
        }
        let tree = Tree {
            bytes: self.bytes,
            levels: self.layout.levels,
        };
        if !entries_hold(&tree, self.layout.documents) {
            return Err(Refusal::Entry);
        }
        Ok(())
    }

    // Refusals 4 to 9.
    fn check_parts(&self) -> Result<(), Refusal>
        ensures { outcome_by (λ _. sizes_in self.now.layout) result ≡ parts_outcome self.now.bytes.now self.now.layout }
    {
        if !self.pairs_hold() {
            return Err(Refusal::Pairs);
        }
        if self.bytes.len() != archive_length(self.layout) {
            return Err(Refusal::Length);
        }
        if !self.table_holds() {
            return Err(Refusal::TermTable);
        }
        self.check_levels()
    }
}

// Refusal 9: no entry is N or more. One descent counts the entries below N.
fn entries_hold(tree: &Tree<'_>, documents: usize) -> bool
    ensures { result ≡ not (any (leb documents) (entries_in tree.now.bytes.now tree.now.levels)) }
{
    let n = tree.levels.entries;
    tree.count_below(0, n, documents) == n
}

// The check on opening: an accepted archive, or the lowest refusal that applies.
pub fn open(archive: &[u8]) -> Result<Archive<'_>, Refusal>
    ensures outcome { outcome_by (λ a. sizes_in a.layout) result ≡ opening archive.now }
    ensures same { IfOk result (λ a. a.bytes.now ≡ archive.now) }
{
    if archive.len() < 40 {
        return Err(Refusal::TooShort);
    }
    if number(archive, 0) != 1 {
        return Err(Refusal::Edition);
    }
    let n = number(archive, 4);
    let documents = number(archive, 8);
    let terms = number(archive, 12);
    if !within_limits(n, documents, terms) {
        return Err(Refusal::Limits);
    }
    let headed = Headed {
        bytes: archive,
        layout: layout_of(n, documents, terms),
    };
    headed.check_parts()?;
    Ok(Archive {
        bytes: archive,
        layout: headed.layout,
    })
}

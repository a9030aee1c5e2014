// A waiting node with the range in it as four numbers, and the halves of one.
ghost use Rattle.std.specs.Prelude.{◌≡◌, ◌/◌, ◌%◌, ◌<◌};
ghost use Rattle.wavelet.specs.Levels.{level_of};
ghost use Rattle.wavelet.specs.Spans.{Ordered};
ghost use Rattle.greedy.specs.Records.{packed, span_in, zero_of, one_of};

use frontier::Record;
use wavelet::{Span, Tree};

// A node: its start and its depth, its places, and those of the range in it.
#[derive(Clone, Copy)]
pub struct Node {
    pub start: u32,
    pub depth: u32,
    pub span: Span,
}

// The node that waits as a record.
impl From<Record> for Node {
    ghost from_gives = { λ r node. (node.start ≡ r.second / 16) × (node.depth ≡ r.second % 16) × (node.span ≡ span_in r) };

    fn from(r: Record) -> Node {
        Node {
            start: r.second / 16,
            depth: r.second % 16,
            span: Span {
                start: (r.third / 65536) as usize,
                lo: (r.fourth / 65536) as usize,
                hi: (r.fourth % 65536) as usize,
                end: (r.third % 65536) as usize,
            },
        }
    }
}

impl Node {
    // The record as which it waits.
    pub fn record(self) -> Record
        requires { (self.start < 65536) × (self.depth < 16) × Ordered 65535 self.span }
        ensures { result ≡ packed self.start self.depth self.span }
    {
        let s = self.span;
        Record {
            first: (s.hi - s.lo) as u32,
            second: self.start * 16 + self.depth,
            third: (s.start * 65536 + s.end) as u32,
            fourth: (s.lo * 65536 + s.hi) as u32,
        }
    }
}

// The zero half and the one half of a node that is no leaf, as they wait.
pub fn halves(tree: &Tree<'_>, r: Record) -> (Record, Record)
    requires second_bound { (r.second % 16 < tree.now.levels.height) × (r.second < 65536) × Ordered tree.now.levels.entries (span_in r) }
    ensures zero_value { result.0 ≡ zero_of (level_of tree.now.bytes.now tree.now.levels (r.second % 16)) r }
    ensures one_value { result.1 ≡ one_of tree.now.levels.height (level_of tree.now.bytes.now tree.now.levels (r.second % 16)) r }
{
    let Node { start, depth, span } = Node::from(r);
    let two = tree.halve(depth as usize, span);
    let below = tree.levels.height - 1 - depth as usize;
    let zero = Node {
        start,
        depth: depth + 1,
        span: two.zero,
    };
    let one = Node {
        start: start + (1 << below),
        depth: depth + 1,
        span: two.one,
    };
    (zero.record(), one.record())
}

// The layout of an archive, as it follows from n, N and W.
ghost use Rattle.std.specs.Prelude.{◌≡◌, ◌^◌, ◌≤◌, ◌<◌};
ghost use Rattle.model.specs.Rows.{height};
ghost use Rattle.model.specs.Format.{within_limits, archive_length};
ghost use Rattle.archive.specs.Layout.{sizes_in, layout_of, Fitting};

use crate::Layout;
use wavelet::Levels;

// h: the smallest number with 2 ^ h at least N.
pub fn height_of(documents: usize) -> usize
    requires { documents ≤ 4096 }
    ensures { (result ≡ height documents) × (result ≤ 12) }
{
    documents.next_power_of_two().ilog2() as usize
}

// Whether n, N and W are within their limits.
pub fn within_limits(n: usize, documents: usize, terms: usize) -> bool
    ensures { result ≡ within_limits (record { entries = n; documents = documents; terms = terms }) }
{
    n <= 65535 && 1 <= documents && documents <= 4096 && 1 <= terms && terms <= 4096
}

// The layout of n entries, N documents and W terms.
pub fn layout_of(n: usize, documents: usize, terms: usize) -> Layout
    requires { (n ≤ 65535) × (1 ≤ documents) × (documents ≤ 4096) × (1 ≤ terms) × (terms ≤ 4096) }
    ensures { result ≡ layout_of (record { entries = n; documents = documents; terms = terms }) }
{
    let h = height_of(documents);
    let samples = 40 + 8 * terms;
    let rows = samples + h * (4 * ((n + 511) / 512));
    Layout {
        documents,
        terms,
        levels: Levels {
            entries: n,
            height: h,
            samples,
            rows,
        },
    }
}

// The length of the archive in bytes.
pub fn archive_length(l: Layout) -> usize
    requires { Fitting l }
    ensures { (result ≡ archive_length (sizes_in l)) × (result < 2 ^ 32) }
{
    let n = l.levels.entries;
    l.levels.rows + l.levels.height * ((n + 7) / 8)
}

// The search for marked openings, from one mark to the next.
ghost use Rattle.std.specs.Prelude.{◌≡◌, ◌&&◌, ◌+◌, ◌-◌, length, drop, leb};
ghost use Rattle.format.specs.Lent.{cells};
ghost use Rattle.format.specs.Opening.{opens};
ghost use Rattle.format.specs.Span.{before_opening};

use crate::{cell_count, opens_marked, unmarked_run};

// Whether a marked opening stands five cells before place `at`, and that is place q or later.
fn opens_before(track: &[u8], marks: &[u8], q: usize, at: usize) -> bool
    ensures { result ≡ (leb (q + 5) at && opens (drop (at - 5) (cells track.now marks.now))) }
{
    if at < 5 {
        return false;
    }
    if at - 5 < q {
        return false;
    }
    opens_marked(track, marks, at - 5)
}

// The first place at `from` or later at which a marked opening stands, or the end of the cells: an opening starts five cells before a mark.
pub fn next_opening(track: &[u8], marks: &[u8], from: usize) -> usize
    ensures { result ≡ from + length (before_opening (drop from (cells track.now marks.now))) }
{
    let n = cell_count(track, marks);
    let mut q = from;
    while q < n {
        let run = unmarked_run(track, marks, q);
        if run == n - q {
            return n;
        }
        let at = q + run;
        if opens_before(track, marks, q, at) {
            return at - 5;
        }
        q = at + 1;
    }
    q
}

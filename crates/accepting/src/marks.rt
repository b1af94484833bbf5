// The marks of a lent track: the lowest stray one, or the places of the marked openings.
ghost use Rattle.std.specs.Prelude.{◌≡◌, ◌≤◌, length};
ghost use Rattle.format.specs.Layout.{longest_track};
ghost use Rattle.format.specs.Lent.{cells};
ghost use Rattle.format.specs.Accept.{judge_marks};
ghost use Rattle.accepting.specs.Starts.{starts_in, most_openings, judged_marks, IsListed};

use format::Refusal;
use format::layout::{LONGEST, MARKED};

// No more marked openings stand on a track: each has eight bytes.
pub const MOST_OPENINGS: usize = LONGEST / MARKED;

// Goes from mark to mark: refuses the lowest mark outside a whole opening, or in one that starts before place e; else lists the places of the openings that it passes and gives their number.
// Stays as it is: the new form is no plainer. No iterator yields the places of the marks, since each is sought from where the opening before it ends, and k counts the places that are written into a list that is longer.
#[tactic(auto, using(crate::proofs::MarkToMark::start_room, crate::proofs::MarkToMark::run_within))]
pub(crate) fn judge_marks(
    track: &[u8],
    marks: &[u8],
    e: usize,
    starts: &mut [u16],
) -> Result<usize, Refusal>
    requires { (length track.now ≤ longest_track) × (length starts.old ≡ most_openings) }
    ensures result_value { judged_marks result ≡ judge_marks e 0 0 (cells track.now marks.now) }
    ensures listed { IsListed result (starts_in 0 (cells track.now marks.now)) starts.new }
{
    let n = search::cell_count(track, marks);
    let mut q = 0;
    let mut k = 0;
    while q < n {
        let run = search::unmarked_run(track, marks, q);
        if run == n - q {
            return Ok(k);
        }
        let at = q + run;
        if run < 5 {
            return Err(Refusal::MarkStray(at));
        }
        let start = at - 5;
        if start < e {
            return Err(Refusal::MarkStray(at));
        }
        if !search::opens_marked(track, marks, start) {
            return Err(Refusal::MarkStray(at));
        }
        starts[k] = start as u16;
        k += 1;
        q = start + MARKED;
    }
    Ok(k)
}

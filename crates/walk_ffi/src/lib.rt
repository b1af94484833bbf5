// A walk from its start under a name for C, so that a whole walk can be timed and compared.
#![tactic(auto)]

ghost use Rattle.std.specs.Prelude.{◌≡◌};
ghost use Rattle.station.specs.Packed.{packed_visit};
ghost use Rattle.walking.specs.Walked.{visit_of};

use format::Answer;

// The candidate that has n candidates to its left, as a new reader comes to it, packed as a step of Walk is.
#[unsafe(no_mangle)]
pub extern "C" fn walk_nth<'a>(track: &'a [u8], marks: &'a [u8], n: u64) -> u64
    ensures { result ≡ packed_visit (visit_of n track.now marks.now) }
{
    station::packed_visit(walking::nth_candidate(track, marks, n as usize).map_err(Answer::from))
}

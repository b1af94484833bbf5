// Walk: a reader that keeps a lent track and moves from one candidate to the next, left to right.
#![tactic(auto)]

ghost use Rattle.std.specs.Prelude.{◌≡◌};
ghost use Rattle.reader.specs.Finding.{judged_visit};
ghost use Rattle.walking.specs.Walked.{reader_at, step_of, after_step, visit_of};

use format::Refusal;
use reader::Visited;

// A reader: the lent track and its marks, with the place that it has come to, and whether they are lent within the rule.
#[derive(Clone, Copy)]
pub struct Walk<'a> {
    track: &'a [u8],
    marks: &'a [u8],
    at: usize,
    lent: bool,
}

// A new reader over these slices: it has come to place 0, and judges once whether they are lent within the rule.
pub fn start<'a>(track: &'a [u8], marks: &'a [u8]) -> Walk<'a>
    ensures { result ≡ reader_at track.entry marks.entry 0 }
{
    let lent = search::lent_for_reading(track, marks);
    Walk {
        track,
        marks,
        at: 0,
        lent,
    }
}

impl<'a> Walk<'a> {
    // Gives the next candidate and goes behind its first byte; 12 with none left, and 1 where the pair is lent out of rule, where the reader stays.
    pub fn step(&mut self) -> Result<Visited, Refusal>
        ensures { (judged_visit result ≡ step_of self.old) × (self.new ≡ after_step self.old) }
    {
        if !self.lent {
            return Err(Refusal::LentWrong);
        }
        let v = reader::step_lent(self.track, self.marks, self.at)?;
        self.at = v.place + 1;
        Ok(v)
    }
}

// The candidate that has n candidates to its left, as a new reader comes to it; 12 with none left.
pub fn nth_candidate<'a>(track: &'a [u8], marks: &'a [u8], n: usize) -> Result<Visited, Refusal>
    ensures { judged_visit result ≡ visit_of n track.now marks.now }
{
    let mut walk = start(track, marks);
    for _ in 0..n {
        let _ = walk.step();
    }
    walk.step()
}

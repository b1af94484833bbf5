// Home of a lent track: its place, check, closing byte and fields.
ghost use Rattle.std.specs.Prelude.{◌≡◌};
ghost use Rattle.format.specs.Lent.{cells};
ghost use Rattle.format.specs.Home.{home_of, judge_home_of, judge_home};
ghost use Rattle.sector.specs.As.{as_home};
ghost use Rattle.accepting.specs.Accepting.{judged_home, HomeStartsAt, HomeInWindow};

use format::Refusal;
use format::layout::{HOME, HOME_INFO, PLAIN};
use sector::Home;

// Home of the bytes r that follow its opening at p.
fn home_of(p: usize, r: &[u8]) -> Home
    ensures { as_home result ≡ home_of p r.now }
{
    Home {
        place: p,
        flag: sector::byte_at(r, 0),
        address: sector::address_in(r),
    }
}

// The judgement of home at p by the bytes r that follow its opening: 3, then 4.
fn judge_fields(p: usize, r: &[u8]) -> Result<Home, Refusal>
    ensures result_value { judged_home result ≡ judge_home_of p r.now }
    ensures home_starts_at { HomeStartsAt p result }
{
    if !sector::closed_after(r, HOME_INFO) {
        return Err(Refusal::HomeCheckWrong(p));
    }
    let h = home_of(p, r);
    if !sector::home_fields_right(h) {
        return Err(Refusal::HomeFieldsWrong(p));
    }
    Ok(h)
}

// The home of a track: 2 where it opens nowhere in its window, then 3, then 4.
pub fn judge_home(track: &[u8], marks: &[u8]) -> Result<Home, Refusal>
    ensures result_value { judged_home result ≡ judge_home (cells track.now marks.now) }
    ensures home_in_window { HomeInWindow result }
{
    let p = search::find_home(track, marks).ok_or(Refusal::HomeMissing)?;
    let from = p + PLAIN;
    let to = p + HOME;
    if search::cell_count(track, marks) < to {
        return Err(Refusal::HomeCheckWrong(p));
    }
    judge_fields(p, &track[from..to])
}

// What reading and writing the file of a cylinder share: its lengths, the number of its tracks, and what their Ls give.
#![tactic(auto)]

ghost use Rattle.std.specs.Prelude.{◌≡◌, ◌≤◌, true, false, length, take, MatchResult};
ghost use Rattle.base.specs.Indexed.{sum_to};
ghost use Rattle.format.specs.Answer.{as_refusal, header_wrong};
ghost use Rattle.cylinder.specs.Cylinder.{track_count_right, length_of, start_of, lengths_right};
ghost use Rattle.cylinder.specs.Packed.{packed_size};
ghost use Rattle.cylinder.specs.File.{table_end, stored_size, offset_of};

use format::Refusal;

// The length of the header of a cylinder's file: the number of tracks and two zero bytes.
pub const HEADER: usize = 4;

// The length of an entry of its table: an L and an offset.
pub const ENTRY: usize = 6;

// The greatest number of tracks.
pub const TRACKS: usize = 10;

// How many bytes n marks take.
pub fn packed_size(n: usize) -> usize
    ensures { result ≡ packed_size n }
{
    n.div_ceil(8)
}

// What a track of l bytes takes in the file: its bytes and its packed marks.
pub fn stored_size(l: u16) -> usize
    ensures value { result ≡ stored_size l }
    ensures upper_bound { result ≤ 73727 }
{
    let n = usize::from(l);
    n + packed_size(n)
}

// Whether the number of tracks is 1 to 10.
#[tactic(auto, unfolding(cylinder::specs::Cylinder::track_count_right))]
pub fn track_count_right(n: usize) -> bool
    ensures { result ≡ track_count_right n }
{
    (1..=TRACKS).contains(&n)
}

// What at most ten tracks with these Ls take in the file.
fn stored_total(lengths: &[u16]) -> usize
    requires { length lengths.now ≤ 10 }
    ensures value { result ≡ sum_to (λ k. stored_size (length_of lengths.now k)) (length lengths.now) }
    ensures upper_bound { result ≤ 737270 }
{
    lengths.iter().map(|l| stored_size(*l)).sum()
}

// The Ls of at most ten tracks.
#[derive(Clone, Copy)]
pub struct Lengths<'a> {
    pub items: &'a [u16],
    pub ghost few: { length items.now ≤ 10 },
}

// The Ls of a list of 1 to 10; any other number of them is refused by 18.
impl<'a> TryFrom<&'a [u16]> for Lengths<'a> {
    type Error = Refusal;

    ghost try_from_gives = { λ ls r. MatchResult r (λ x. (x.items ≡ ls) × (track_count_right (length ls.now) ≡ true)) (λ e. (as_refusal e ≡ header_wrong) × (track_count_right (length ls.now) ≡ false)) };

    #[tactic(auto, unfolding(cylinder::specs::Cylinder::track_count_right))]
    fn try_from(items: &'a [u16]) -> Result<Lengths<'a>, Refusal> {
        if !track_count_right(items.len()) {
            return Err(Refusal::HeaderWrong);
        }
        Ok(Lengths { items })
    }
}

impl<'a> Lengths<'a> {
    // The first n Ls of a table of ten: all of them where n is greater.
    pub fn first(table: &'a [u16; TRACKS], n: usize) -> Lengths<'a>
        ensures { result.items.now ≡ take n table.now }
    {
        Lengths {
            items: &table[..n.min(TRACKS)],
        }
    }

    // Where the table of these tracks ends, and the first track starts.
    pub fn table_end(self) -> usize
        ensures { result ≡ table_end (length self.entry.items.now) }
    {
        HEADER + self.items.len() * ENTRY
    }

    // Whether every L is in range.
    pub fn are_right(self) -> bool
        ensures { result ≡ lengths_right (length_of self.entry.items.now) (length self.entry.items.now) }
    {
        self.items
            .iter()
            .all(|l| search::length_right(usize::from(*l)))
    }

    // The sum of the Ls.
    pub fn total(self) -> usize
        ensures { result ≡ start_of self.entry.items.now (length self.entry.items.now) }
    {
        self.items.iter().map(|l| usize::from(*l)).sum()
    }

    // The length of the file of these tracks.
    #[tactic(auto, unfolding(cylinder::specs::File::offset_of))]
    pub fn file_length(self) -> usize
        ensures { result ≡ offset_of (length self.entry.items.now) (length_of self.entry.items.now) (length self.entry.items.now) }
    {
        self.table_end() + stored_total(self.items)
    }
}

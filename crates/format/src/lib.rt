// Why a call refuses, and the numbers of its answer.
#![tactic(auto)]

ghost use Rattle.std.specs.Prelude.{◌≡◌};
ghost use Rattle.format.specs.Fault.{as_fault, fault_number};
ghost use Rattle.format.specs.Answer.{as_numbers, as_refusal, as_answer, answer_at, fault_at};

pub mod layout;

// What is wrong with a block: the first of its opening, its check and its closing byte.
#[derive(Clone, Copy, Debug, PartialEq, Eq)]
pub enum Fault {
    Opening,
    Check,
    Closing,
}

// The second number that stands for a fault.
impl From<Fault> for u8 {
    ghost from_gives = { λ f n. n ≡ fault_number (as_fault f) };

    fn from(f: Fault) -> u8 {
        match f {
            Fault::Opening => 1,
            Fault::Check => 2,
            Fault::Closing => 3,
        }
    }
}

// Why a call refuses: a variant for each row of the table but that of 0, with the place that the row speaks of.
#[derive(Clone, Copy, Debug, PartialEq, Eq)]
pub enum Refusal {
    // 1: a lent length, a mark or the length of a list, or an L in the table of a cylinder's file is out of rule.
    LentWrong,
    // 2: home opens nowhere in its window, which starts at 23.
    HomeMissing,
    // 3: the check or the closing byte of home at this place is wrong.
    HomeCheckWrong(usize),
    // 4: flag, C or H of home at this place is out of rule.
    HomeFieldsWrong(usize),
    // 5: the mark at this place belongs to no whole opening, or to one that starts too early, before the end of sector 0's count.
    MarkStray(usize),
    // 6: sector 0's count does not open at its place.
    FirstCountMissing(usize),
    // 7: the check or the closing byte of the count at this place is wrong.
    CountCheckWrong(usize),
    // 8: flag, C or H of the count at this place is out of rule.
    CountFieldsWrong(usize),
    // 9: the count at this place, or its blocks with the least gap, do not fit its span.
    SpanTooShort(usize),
    // 10: opening, check or closing byte of the key at this place is wrong.
    KeyWrong(Fault, usize),
    // 11: opening, check or closing byte of the data block at this place is wrong, or it is not 00 where DL = 0.
    DataWrong(Fault, usize),
    // 12: there is no candidate with this S; or a walk has come to its end.
    SectorMissing,
    // 13: the count at this place repeats the S of another.
    SectorRepeated(usize),
    // 14: a wanted field is out of rule.
    WantedWrong,
    // 15: fewer than 13 bytes would be left behind the last block.
    RoomMissing,
    // 16: the pair does not agree, or its first track has flag 11.
    PairWrong,
    // 17: the bit cells of the byte at this place are no legal pattern, or its mark stands on another value than FF.
    PatternWrong(usize),
    // 18: the number of tracks is not 1 to 10, or the zero field of a cylinder's file is not zero.
    HeaderWrong,
    // 19: an offset in the table of a cylinder's file is not where the track has to start.
    OffsetWrong,
    // 20: a cylinder's file ends within its header or its table, or has another length than its table gives.
    FileLengthWrong,
    // 21: a spare bit behind the marks of a track is set in a cylinder's file.
    SpareBitsSet,
    // 24: a slice or list lent for writing is too short.
    BufferTooShort,
}

// The number, the second number and the place of an answer.
// Stays as it is: the C interface needs the numbers, and so do the lines that the programs print. What makes them stands below.
#[derive(Clone, Copy, Debug, PartialEq, Eq)]
pub struct Answer {
    pub number: u8,
    pub fault: u8,
    pub place: usize,
}

// The answer with this number and place, of which the second number is 0.
// Stays as it is: it makes the numbers that the C interface needs.
fn answer_at(number: u8, place: usize) -> Answer
    ensures { as_numbers result ≡ answer_at number place }
{
    Answer {
        number,
        fault: 0,
        place,
    }
}

// The answer with this number for a block at this place in which f is at fault.
// Stays as it is: it makes the numbers that the C interface needs.
fn fault_at(number: u8, f: Fault, place: usize) -> Answer
    ensures { as_numbers result ≡ fault_at number (as_fault f) place }
{
    Answer {
        number,
        fault: u8::from(f),
        place,
    }
}

// The numbers of a refusal: its row of the table.
impl From<Refusal> for Answer {
    ghost from_gives = { λ e a. as_numbers a ≡ as_refusal e };

    fn from(e: Refusal) -> Answer {
        match e {
            Refusal::LentWrong => answer_at(1, 0),
            Refusal::HomeMissing => answer_at(2, layout::HOME_FIRST),
            Refusal::HomeCheckWrong(p) => answer_at(3, p),
            Refusal::HomeFieldsWrong(p) => answer_at(4, p),
            Refusal::MarkStray(p) => answer_at(5, p),
            Refusal::FirstCountMissing(p) => answer_at(6, p),
            Refusal::CountCheckWrong(p) => answer_at(7, p),
            Refusal::CountFieldsWrong(p) => answer_at(8, p),
            Refusal::SpanTooShort(p) => answer_at(9, p),
            Refusal::KeyWrong(f, p) => fault_at(10, f, p),
            Refusal::DataWrong(f, p) => fault_at(11, f, p),
            Refusal::SectorMissing => answer_at(12, 0),
            Refusal::SectorRepeated(p) => answer_at(13, p),
            Refusal::WantedWrong => answer_at(14, 0),
            Refusal::RoomMissing => answer_at(15, 0),
            Refusal::PairWrong => answer_at(16, 0),
            Refusal::PatternWrong(p) => answer_at(17, p),
            Refusal::HeaderWrong => answer_at(18, 0),
            Refusal::OffsetWrong => answer_at(19, 0),
            Refusal::FileLengthWrong => answer_at(20, 0),
            Refusal::SpareBitsSet => answer_at(21, 0),
            Refusal::BufferTooShort => answer_at(24, 0),
        }
    }
}

// The answer of an outcome: 0 where the call is done, else that of the refusal.
// Stays as it is: it gives the numbers that the programs print.
pub fn answer_of<T>(outcome: &Result<T, Refusal>) -> Answer
    ensures { as_numbers result ≡ as_answer outcome.now }
{
    match outcome {
        Ok(_) => answer_at(0, 0),
        Err(e) => Answer::from(*e),
    }
}

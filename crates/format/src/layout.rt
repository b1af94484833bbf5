// The layout of a track: the openings, and the lengths that all places are made of.
ghost use Rattle.std.specs.Prelude.{◌≡◌, ◌≤◌};
ghost use Rattle.format.specs.Sector.{opening_length};

// The opening of home, of sector 0's count, of keys and of data blocks; none of its bytes is marked.
pub const PLAIN_OPENING: [u8; 6] = [0x00, 0x00, 0x00, 0x00, 0xFF, 0x0E];

// The opening of a later count.
pub const MARKED_OPENING: [u8; 8] = [0x00, 0x00, 0x00, 0x00, 0xFF, 0xFF, 0xFF, 0x0E];

// Its marks.
pub const MARKED_OPENING_MARKS: [u8; 8] = [0, 0, 0, 0, 0, 1, 1, 0];

// The closing byte.
pub const CLOSING_BYTE: u8 = 0xCC;

// What a data block where DL = 0 may go on with: check and closing byte of its 00.
pub const EMPTY_CLOSING: [u8; 3] = [0xFF, 0xFF, 0xCC];

// The least and the greatest L.
pub const SHORTEST: usize = 3815;

pub const LONGEST: usize = 4002;

// The first and the last place at which home starts.
pub const HOME_FIRST: usize = 23;

pub const HOME_LAST: usize = 37;

// The lengths of the two openings.
pub const PLAIN: usize = 6;

pub const MARKED: usize = 8;

// The length of the opening of a count: six bytes in sector 0, else eight.
pub fn opening_length(first: bool) -> usize
    ensures value { result ≡ opening_length first }
    ensures upper_bound { result ≤ 8 }
{
    if first { PLAIN } else { MARKED }
}

// The information of home and of a count.
pub const HOME_INFO: usize = 5;

pub const COUNT_INFO: usize = 9;

// The check.
pub const CHECK: usize = 2;

// The check and the closing byte.
pub const CLOSING: usize = 3;

// The gap after home, after a count and after a key.
pub const GAP: usize = 11;

// Home as a whole.
pub const HOME: usize = PLAIN + HOME_INFO + CLOSING;

// A count behind its opening.
pub const COUNT_TAIL: usize = COUNT_INFO + CLOSING;

// Sector 0's count as a whole.
pub const FIRST_COUNT: usize = PLAIN + COUNT_TAIL;

// From home's start to the opening of sector 0's count.
pub const HOME_TO_COUNT: usize = HOME + GAP;

// From home's start to the information of sector 0's count.
pub const HOME_TO_COUNT_INFO: usize = HOME_TO_COUNT + PLAIN;

// From the end of a count's opening to the opening of its key, or of its data block where it has no key.
pub const COUNT_TO_BLOCK: usize = COUNT_TAIL + GAP;

// What a block takes besides its information.
pub const BLOCK_FRAME: usize = PLAIN + CLOSING;

// What a key takes besides its information, with the gap after it.
pub const KEY_FRAME: usize = BLOCK_FRAME + GAP;

// The data block where DL = 0: its opening and one 00.
pub const EMPTY_BLOCK: usize = PLAIN + 1;

// The same where it goes on with check and closing byte.
pub const CLOSED_EMPTY_BLOCK: usize = EMPTY_BLOCK + CLOSING;

// The gap before home, and all that stands before sector 0's count, on a track that Blank writes.
pub const INDEX_GAP: usize = 30;

pub const HEAD: usize = INDEX_GAP + HOME_TO_COUNT;

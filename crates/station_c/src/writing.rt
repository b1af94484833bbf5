// The calls that write a track: Blank, Add and Correct.
ghost use Rattle.std.specs.Prelude.{◌≡◌, length};
ghost use Rattle.format.specs.Written.{leaves};
ghost use Rattle.format.specs.Blank.{blank};
ghost use Rattle.format.specs.Add.{add};
ghost use Rattle.format.specs.Correct.{correct};
ghost use Rattle.encode.specs.Room.{address_of};
ghost use Rattle.station.specs.Packed.{packed_after, packed};
ghost use Rattle.station.specs.Numbered.{numbered_rule};

// Stays as it is: the C interface, in which each call is an export that hands its arguments on.
// Blank: writes home and sector 0 in the lent pair; a refusal writes nothing.
#[unsafe(no_mangle)]
pub extern "C" fn iso3561_blank(
    track: &mut [u8],
    marks: &mut [u8],
    cylinder: u16,
    head: u16,
    flag: u8,
    partner_cylinder: u16,
    partner_head: u16,
    sector: u8,
    key: &[u8],
    body: &[u8],
) -> u64
    ensures { packed_after result track.new marks.new ≡ packed (leaves (blank (length track.old) (length marks.old) (address_of cylinder head) flag (address_of partner_cylinder partner_head) sector key.now body.now) track.old marks.old) }
{
    station::writing::iso3561_blank(
        track,
        marks,
        cylinder,
        head,
        flag,
        partner_cylinder,
        partner_head,
        sector,
        key,
        body,
    )
}

// Add: copies the track into the new pair with one more sector after the last; a refusal writes nothing.
#[unsafe(no_mangle)]
pub extern "C" fn iso3561_add(
    track: &[u8],
    marks: &[u8],
    new_track: &mut [u8],
    new_marks: &mut [u8],
    b7: u8,
    sector: u8,
    key: &[u8],
    body: &[u8],
    rule: u16,
    a: u16,
    b: u16,
) -> u64
    ensures { packed_after result new_track.new new_marks.new ≡ packed (leaves (add (numbered_rule rule a b) track.now marks.now (length new_track.old) (length new_marks.old) b7 sector key.now body.now) new_track.old new_marks.old) }
{
    station::writing::iso3561_add(
        track, marks, new_track, new_marks, b7, sector, key, body, rule, a, b,
    )
}

// Stays as it is: the C interface, in which each call is an export that hands its arguments on.
// Correct: copies the track into the new pair with a new key and data for one sector; a refusal writes nothing.
#[unsafe(no_mangle)]
pub extern "C" fn iso3561_correct(
    track: &[u8],
    marks: &[u8],
    new_track: &mut [u8],
    new_marks: &mut [u8],
    sector: u8,
    key: &[u8],
    body: &[u8],
    rule: u16,
    a: u16,
    b: u16,
) -> u64
    ensures { packed_after result new_track.new new_marks.new ≡ packed (leaves (correct (numbered_rule rule a b) track.now marks.now (length new_track.old) (length new_marks.old) sector key.now body.now) new_track.old new_marks.old) }
{
    station::writing::iso3561_correct(
        track, marks, new_track, new_marks, sector, key, body, rule, a, b,
    )
}

// The check under a name for C, so that it can be timed and compared alone.
#![tactic(auto)]

ghost use Rattle.std.specs.Prelude.{◌≡◌};
ghost use Rattle.crc.specs.Check.{check_of};

// The check of the bytes.
#[unsafe(no_mangle)]
pub extern "C" fn crc_check_of(bytes: &[u8]) -> u16
    ensures { result ≡ check_of bytes.now }
{
    crc::check_of(bytes)
}

// Days of deliveries as bytes.
ghost use Rattle.std.specs.Prelude.{◌≡◌, length, map};
ghost use Rattle.capi.specs.Days.{number_of};

use crate::bounds::DAY_BYTES;

// Reads each day's bytes as a number, the high byte first.
pub(crate) fn read(whole: &[[u8; DAY_BYTES]], daily: &mut [u64])
    requires { length daily.old ≡ length whole.now }
    ensures { daily.new ≡ map number_of whole.now }
{
    for (k, bytes) in whole.iter().enumerate() {
        daily[k] = u64::from_be_bytes(*bytes);
    }
}

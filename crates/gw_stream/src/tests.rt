//! What the tests of this crate share.

ghost use Rattle.std.specs.Prelude.{◌≡◌};

use crate::timer::Timer;

pub(crate) const NOW: u64 = 784_111_777_000;

pub(crate) fn half_a_minute() -> Timer
    ensures { result.last ≡ 0 }
{
    Timer::new(Some(NOW + 30_000))
}

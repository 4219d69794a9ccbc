//! Dates of messages.
ghost use Rattle.std.specs.Prelude.{◌<◌};
ghost use Rattle.gw_proxy.specs.Date.{IsDateAt};

use httpdate::HttpDate;

/// The text of the second in which a moment lies, in milliseconds since 1970 and before the year 10000 (RFC 9110,
/// section 5.6.7).
pub(crate) fn date_at(moment: u64) -> [u8; 29]
    requires { moment < 253_402_300_800_000 }
    ensures { IsDateAt moment result }
{
    let Ok(date) = HttpDate::from_unix_secs(moment / 1000) else {
        unreachable!();
    };
    date.to_bytes()
}

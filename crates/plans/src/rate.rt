ghost use Rattle.std.specs.Prelude.{◌≡◌, IfSome};
ghost use Rattle.plans.specs.Rates.{rate_of, interval as interval_of, interval_at};

/// A sampling rate and its SYT_INTERVAL: of so many blocks one is stamped.
#[derive(Clone, Copy, PartialEq, Eq, Debug)]
pub struct Rate {
    pub hertz: u32,
    pub interval: u8,
}

/// SYT_INTERVAL by the sampling frequency code.
pub(crate) fn interval(sfc: u8) -> u8
    ensures { result ≡ interval_of sfc }
{
    match sfc {
        0..=2 => 8,
        3..=4 => 16,
        _ => 32,
    }
}

impl Rate {
    /// The rate of a sampling frequency code, 0 to 6.
    // The code is the number that FDF and a trailer carry, so no enum of rates stands between; an `Option`,
    // since what a code without a rate is refused with is the caller's business.
    pub fn of(sfc: u8) -> Option<Rate>
        ensures value { result ≡ rate_of sfc }
        ensures rule { IfSome result (λ rate. rate.interval ≡ interval_at rate.hertz) }
    {
        let hertz = match sfc {
            0 => 32_000,
            1 => 44_100,
            2 => 48_000,
            3 => 88_200,
            4 => 96_000,
            5 => 176_400,
            6 => 192_000,
            _ => return None,
        };
        Some(Rate {
            hertz,
            interval: interval(sfc),
        })
    }
}

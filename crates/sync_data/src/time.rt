ghost use Rattle.std.specs.Prelude.{◌≡◌, IfOk, IsOk, ◌↔◌, Some, refl};
ghost use Rattle.std.specs.Ordering.{eq_by_cmp, as_partial_cmp};
ghost use Rattle.std.specs.Cmp.{partial_equiv_from_equiv, eq_by_cmp_equiv, partial_order_from_total};
ghost use Rattle.sync_data.specs.Times.{IsTime, time_cmp, time_cmp_total};

use std::cmp::Ordering;
use std::marker::Model;

/// Why two numbers are no time: a billion nanoseconds or more, or nanoseconds of the other sign.
#[derive(Clone, Copy, Debug, PartialEq, Eq)]
pub struct BadTime;

/// A moment: seconds and nanoseconds since the epoch, both before it or both after it.
#[derive(Clone, Copy)]
pub struct Time {
    secs: i64,
    nanos: i32,
}

impl Model for Time {
    ghost use Rattle.sync_data.specs.Times.{Moment, IsTime};

    ghost Value = { Moment };

    ghost view = { λ t. record { secs = t.secs; nanos = t.nanos } };

    ghost invariant = { λ t. IsTime t.secs t.nanos };

    ghost inverse = { λ m. record { secs = m.secs; nanos = m.nanos } };
}

impl Time {
    /// The time of those seconds and nanoseconds.
    pub fn new(secs: i64, nanos: i32) -> Result<Time, BadTime>
        ensures ok { IfOk result (λ time. time ≡ record { secs = secs; nanos = nanos }) }
        ensures good { IsOk result ↔ IsTime secs nanos }
    {
        if nanos < -999_999_999 || nanos > 999_999_999 {
            return Err(BadTime);
        }
        if secs > 0 && nanos < 0 {
            return Err(BadTime);
        }
        if secs < 0 && nanos > 0 {
            return Err(BadTime);
        }
        Ok(Time { secs, nanos })
    }

    /// The seconds.
    pub fn secs(&self) -> i64
        ensures value { result ≡ self.now.secs }
        ensures time { IsTime self.now.secs self.now.nanos }
    {
        self.secs
    }

    /// The nanoseconds, from -999,999,999 to 999,999,999.
    pub fn nanos(&self) -> i32
        ensures value { result ≡ self.now.nanos }
        ensures time { IsTime self.now.secs self.now.nanos }
    {
        self.nanos
    }
}

impl PartialEq for Time {
    ghost eq = { eq_by_cmp time_cmp };

    ghost laws = { partial_equiv_from_equiv (eq_by_cmp_equiv time_cmp_total) };

    fn eq(&self, other: &Time) -> bool {
        self.cmp(other).is_eq()
    }
}

impl Eq for Time {
    ghost laws = { eq_by_cmp_equiv time_cmp_total };
}

impl PartialOrd for Time {
    ghost partial_cmp = { as_partial_cmp time_cmp };

    ghost laws = { partial_order_from_total time_cmp_total };

    fn partial_cmp(&self, other: &Time) -> Option<Ordering> {
        Some(self.cmp(other))
    }
}

impl Ord for Time {
    ghost cmp = { time_cmp };

    ghost total = { time_cmp_total };

    ghost matches_partial_cmp = { λ x y. refl };

    ghost matches_eq = { λ x y. refl };

    fn cmp(&self, other: &Time) -> Ordering {
        self.secs
            .cmp(&other.secs)
            .then(self.nanos.cmp(&other.nanos))
    }
}

ghost use Rattle.std.specs.Prelude.{◌≡◌, ◌+◌, ◌^◌, ◌<◌};
ghost use Rattle.sum_list.specs.Counts.{by};

use crate::measured::Measure;

/// A place of a list, and the sums of both lengths of the items in front of it.
#[derive(Clone, Copy, PartialEq, Eq)]
pub struct At {
    pub place: usize,
    pub before: u64,
    pub after: u64,
}

impl At {
    /// The first place of any list.
    pub(crate) fn start() -> At
        ensures { result ≡ record { place = 0; before = 0; after = 0 } }
    {
        At {
            place: 0,
            before: 0,
            after: 0,
        }
    }

    /// The place so much further on.
    pub(crate) fn behind(self, more: At) -> At
        requires places { self.place + more.place < 2 ^ 64 }
        requires before { self.before + more.before < 2 ^ 64 }
        requires after { self.after + more.after < 2 ^ 64 }
        ensures { result ≡ record { place = self.place + more.place; before = self.before + more.before; after = self.after + more.after } }
    {
        At {
            place: self.place + more.place,
            before: self.before + more.before,
            after: self.after + more.after,
        }
    }

    /// How much lies in front of it.
    pub(crate) fn by(self, measure: Measure) -> u64
        ensures { result ≡ by measure self.place self.before self.after }
    {
        match measure {
            Measure::Places => self.place as u64,
            Measure::Before => self.before,
            Measure::After => self.after,
        }
    }
}

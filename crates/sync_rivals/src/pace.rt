/// How a walk asks an index: behind places that were named one after the other it goes on place by place for a while, twice as
/// long each time, since there the answer costs more than the look that it spares.
#[derive(Clone, Copy)]
pub struct Pace {
    row: usize,
    left: usize,
}

impl Pace {
    /// It asks for the first place.
    pub fn new() -> Pace {
        Pace { row: 0, left: 0 }
    }

    /// Whether it goes on to the very next place without asking.
    #[inline(always)]
    pub(crate) fn goes_on(&mut self) -> bool {
        if self.left == 0 {
            return false;
        }
        self.left -= 1;
        true
    }

    /// It asked, and the very next place was named, or another.
    #[inline(always)]
    pub(crate) fn asked(&mut self, was_next: bool) {
        self.row = if was_next {
            self.row.saturating_add(self.row).saturating_add(1)
        } else {
            0
        };
        self.left = self.row;
    }
}

ghost use Rattle.std.specs.Prelude.{◌≡◌, ◌≤◌, ◌<◌, ◌+◌, ◌∷◌, [], List, IsTrue, IfOk};
ghost use Rattle.sync_data.specs.declared.instr.Instr.{Instr};
ghost use Rattle.sync_rivals.specs.Marks.{AreGone};
ghost use Rattle.sync_rivals.specs.Lists.{Lists, StandsAt, StaysAt, StaysListed, put_list, Serves, Pass};

use super::listing::Listing;
use super::pace::Pace;
use super::rivals::rivals_of;
use std::alloc::Global;
use std::marker::Model;
use sync_base::{Instr, NoMemory};

/// An index of the first so many lists of instructions of a sequence: where each of them is found by what may meet it and
/// not leave both as they are. It grows by `list`, and follows what becomes of the sequence.
#[derive(Drop)]
pub struct RivalIndex {
    listing: Listing,
    first: u64,
    listed: usize,
}

impl Model for RivalIndex {
    ghost use Rattle.std.specs.Prelude.{◌<◌, ◌+◌, ◌^◌};
    ghost use Rattle.sync_rivals.specs.Lists.{Indexed, coded_indexed};

    ghost Value = { Indexed };

    ghost coded = { coded_indexed };

    ghost view = { λ a. record { marks = a.listing; first = a.first; listed = a.listed } };

    ghost invariant = { λ a. a.first + a.listed < 2 ^ 64 };
}

impl RivalIndex {
    /// No list is listed. It takes no memory.
    pub fn new(alloc: Global) -> RivalIndex
        ensures { (lists : List (List Instr)) → Lists result lists }
    {
        RivalIndex {
            listing: Listing::new(alloc),
            first: 0,
            listed: 0,
        }
    }

    /// How many lists are listed: the first so many.
    pub fn listed(&self) -> usize
        ensures { result ≡ self.now.listed }
    {
        self.listed
    }

    /// Lists the first list that isn't, by instructions that lie under the places where it does. Where memory runs out it isn't
    /// listed either, and is met as before.
    pub fn list(&mut self, instrs: &[Instr])
        ensures { (l : List Instr) (lists : List (List Instr)) → StaysListed instrs.now l → Lists self.old lists → StandsAt self.old.listed l lists → Lists self.new lists }
    {
        let number = self.first + self.listed as u64;
        if number == u64::MAX {
            return;
        }
        if self.listing.list(number, instrs).is_err() {
            return;
        }
        self.listed += 1;
    }

    /// The list at a place stands as these instructions, which are left of those before. What was dropped leaves the index;
    /// where memory runs out the lists from this one on are listed no more.
    pub fn change(&mut self, place: usize, before: &[Instr], after: &[Instr])
        ensures kept { (lists : List (List Instr)) → Lists self.old lists → StaysAt place after.now lists → Lists self.new (put_list place after.now lists) }
        ensures gone { place < self.old.listed → after.now ≡ [] → AreGone self.new.marks (self.old.first + place) before.now }
    {
        if place >= self.listed || before.len() == after.len() {
            return;
        }
        let number = self.first + place as u64;
        self.listing.unlist(number, before);
        if after.is_empty() {
            return;
        }
        if self.listing.list(number, after).is_err() {
            self.listed = place;
        }
    }

    /// The first list, of these instructions, leaves the sequence. It takes no memory.
    pub fn drop_first(&mut self, instrs: &[Instr])
        ensures kept { (l : List Instr) (lists : List (List Instr)) → Lists self.old (l ∷ lists) → Lists self.new lists }
        ensures gone { 0 < self.old.listed → AreGone self.new.marks self.old.first instrs.now }
    {
        if self.listed == 0 {
            return;
        }
        self.listing.unlist(self.first, instrs);
        self.first += 1;
        self.listed -= 1;
    }

    /// The codes under which `next` looks for rivals of these instructions, and of what is left of them. Where no list is
    /// listed there are none, and it takes no memory.
    pub fn rivals_of(&self, alloc: Global, instrs: &[Instr]) -> Result<Vec<u64>, NoMemory>
        ensures { IfOk result (λ codes. Serves self.now codes.items instrs.now) }
    {
        if self.listed == 0 {
            return Ok(Vec::new(alloc));
        }
        rivals_of(alloc, instrs)
    }

    /// The next place from `from` on, and before `end`, whose list may meet instructions whose rivals have these codes; `end`
    /// where there is none, or where no instruction is left. All before it stay as they are. It takes no memory. A list that
    /// isn't listed may meet them, and so may each where there are more codes to look for than places, and each to which the
    /// walk goes on by its pace.
    pub fn next(
        &self,
        pace: &mut Pace,
        codes: &[u64],
        none_left: bool,
        from: usize,
        end: usize,
    ) -> usize
        requires order { from ≤ end }
        ensures order { (from ≤ result) × (result ≤ end) }
        ensures pass { (instrs : List Instr) (lists : List (List Instr)) → Serves self.now codes.now instrs → (IsTrue none_left → instrs ≡ []) → Lists self.now lists → Pass from result lists instrs }
    {
        if none_left {
            return end;
        }
        let listed = self.listed.min(end);
        if from >= listed {
            return from;
        }
        if pace.goes_on() || codes.len() > listed - from {
            return from;
        }
        let place = self.ask(codes, from, listed);
        pace.asked(place == from);
        place
    }

    /// The same by the marks, among the lists that are listed.
    fn ask(&self, codes: &[u64], from: usize, listed: usize) -> usize
        requires within { listed ≤ self.now.listed }
        requires order { from < listed }
        ensures order { (from ≤ result) × (result ≤ listed) }
        ensures pass { (instrs : List Instr) (lists : List (List Instr)) → Serves self.now codes.now instrs → Lists self.now lists → Pass from result lists instrs }
    {
        match self.listing.next(codes, self.first + from as u64) {
            None => listed,
            Some(number) => ((number - self.first) as usize).min(listed),
        }
    }
}

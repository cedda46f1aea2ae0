ghost use Rattle.std.specs.Prelude.{◌≡◌, ◌≢◌, ◌<◌, ◌++◌, ◌∷◌, [], ℕ, Ok, IfOk, IfErr, OnOk, OnErr, length, slice_get, All};
ghost use Rattle.std.specs.Option.{option_map};
ghost use Rattle.sync_theory.specs.Changesets.{cross_sets, Changeset as Changes};
ghost use Rattle.sync_theory.specs.Grid.{carry};
ghost use Rattle.sync_theory.specs.Reciprocals.{from_base, settle};
ghost use Rattle.sync_data.specs.declared.instr.Instr.{Instr};
ghost use Rattle.sync_law.specs.Instrs.{meet};
ghost use Rattle.sync_transform.specs.Sets.{made_by};
ghost use Rattle.sync_recip.specs.Lists.{entry_at, entry_of};
ghost use Rattle.sync_recip.specs.Carrying.{AllFit, crossed_entries, Fits, entries_of, IsStuckBy};

use super::carried::{Carried, Crossed, put_crossed};
use super::carry::carry_over;
use super::items::Items;
use super::kept::Kept;
use super::refusal::RecipRefusal;
use super::shared::SharedEntry;
use super::shifted::ShiftedEntry;
use std::alloc::Global;
use std::marker::Model;
use sync_base::{Changeset, Entry, Ident, NoMemory};
use sync_index::Index;
use sync_rivals::RivalIndex;

/// After so many looks at an entry it has paid to list it.
const LOOKS: usize = 64;

/// Fewer entries from a base on aren't listed: they are looked at a few times, and then the base is behind them.
const SHORT: usize = 256;

/// The entries of others with their versions, which rise, as one client's changes crossed them.
#[derive(Drop)]
pub struct Recip {
    alloc: Global,
    rivals: RivalIndex,
    items: Items,
    crossed: usize,
}

impl Model for Recip {
    ghost use Rattle.std.specs.Prelude.{ℕ, List, map};
    ghost use Rattle.sync_data.specs.declared.instr.Instr.{Instr};
    ghost use Rattle.sync_theory.specs.Changesets.{Changeset};
    ghost use Rattle.sync_rivals.specs.Lists.{Lists};
    ghost use Rattle.sync_recip.specs.Lists.{kept_entry, lists_in, pair_of, versions, IsRising};

    ghost Value = { List (ℕ × Changeset Instr) };

    ghost view = { λ a. map pair_of a.items };

    ghost invariant = { λ a. IsRising (versions a.items) × Lists a.rivals (lists_in (map kept_entry a.items)) };
}

impl Recip {
    /// Nothing. It takes no memory.
    pub fn new(alloc: Global) -> Recip
        ensures { result ≡ [] }
    {
        Recip {
            alloc,
            rivals: RivalIndex::new(alloc),
            items: Items::new(alloc),
            crossed: 0,
        }
    }

    /// How many entries there are.
    pub fn len(&self) -> usize
        ensures { result ≡ length self.now }
    {
        self.items.len()
    }

    /// A copy of the entry at a place, counted from 0, with its version; none at or past the end.
    pub fn get(&self, place: usize) -> Result<Option<(u32, Entry)>, NoMemory>
        ensures { IfOk result (λ found. option_map {U = ℕ × Changes Instr} (λ p. (p.0, entry_of p.1)) found ≡ slice_get self.now place) }
    {
        if place >= self.items.len() {
            return Ok(None);
        }
        match self.items.copy_of(place) {
            Ok(entry) => Ok(Some((self.items.version(place), entry))),
            Err(NoMemory) => Err(NoMemory),
        }
    }

    /// A copy of the entry with a version, as the client's changes crossed it; none where no entry has it.
    pub fn at(&self, version: u32) -> Result<Option<Entry>, NoMemory>
        ensures { IfOk result (λ found. option_map entry_of found ≡ entry_at version self.now) }
    {
        let place = self.items.count_below(version);
        if place >= self.items.len() {
            return Ok(None);
        }
        if self.items.version(place) != version {
            return Ok(None);
        }
        match self.items.copy_of(place) {
            Ok(entry) => Ok(Some(entry)),
            Err(NoMemory) => Err(NoMemory),
        }
    }

    /// Adds an entry at the end, whose version is above all others.
    pub fn push(&mut self, version: u32, entry: Entry) -> Result<(), NoMemory>
        requires { All (λ pair. pair.0 < version) self.old }
        ensures ok { OnOk result (self.new ≡ self.old ++ (version, entry_of entry) ∷ []) }
        ensures unchanged { OnErr result (self.new ≡ self.old) }
    {
        match SharedEntry::new(self.alloc, entry) {
            Ok(item) => self.add(version, item),
            Err(NoMemory) => Err(NoMemory),
        }
    }

    /// Adds an entry that others hold too, and copies nothing. Its version is above all others.
    pub fn push_shared(&mut self, version: u32, entry: &SharedEntry) -> Result<(), NoMemory>
        requires { All (λ pair. pair.0 < version) self.old }
        ensures ok { OnOk result (self.new ≡ self.old ++ (version, entry_of entry.now) ∷ []) }
        ensures unchanged { OnErr result (self.new ≡ self.old) }
    {
        match entry.share() {
            Ok(item) => self.add(version, item),
            Err(NoMemory) => Err(NoMemory),
        }
    }

    fn add(&mut self, version: u32, item: SharedEntry) -> Result<(), NoMemory>
        requires { All (λ pair. pair.0 < version) self.old }
        ensures ok { OnOk result (self.new ≡ self.old ++ (version, entry_of item) ∷ []) }
        ensures unchanged { OnErr result (self.new ≡ self.old) }
    {
        let item = ShiftedEntry::new(item);
        self.items.push(Kept { version, item })
    }

    /// A change that the client made at a base, as carried over the entries from the base on, and these as it crossed them.
    /// The list stays as it is.
    pub fn carry(
        &mut self,
        alloc: Global,
        own: Ident,
        base: u32,
        changes: Changeset,
    ) -> Result<Carried, RecipRefusal>
        requires { All (λ pair. pair.1.origin ≢ own) self.old }
        ensures same { self.new ≡ self.old }
        ensures ok { IfOk result (λ c. (number : ℕ) → carry (cross_sets meet) (made_by own number changes) (from_base base self.old) ≡ Ok (made_by own number c.changes, entries_of c self.old)) }
        ensures base { IfOk result (λ c. c.base ≡ base) }
        ensures fits { IfOk result (λ c. Fits c self.old) }
        ensures stuck { IfErr result (λ e. (number : ℕ) → IsStuckBy e (carry (cross_sets meet) (made_by own number changes) (from_base base self.old))) }
    {
        let Ok(index) = Index::of(alloc, changes.instrs()) else {
            return Err(RecipRefusal::NoMemory);
        };
        let Ok(codes) = self.rivals.rivals_of(alloc, changes.instrs()) else {
            return Err(RecipRefusal::NoMemory);
        };
        let first = self.items.count_below(base);
        self.items.leave_before(first);
        carry_over(
            alloc,
            &mut self.items,
            &self.rivals,
            &index,
            codes.as_slice(),
            first,
            own,
            base,
            changes,
        )
    }

    /// Puts the entries as crossed in place of those from the base on, and hands out the change as carried. Where memory runs
    /// out fewer of them are indexed.
    pub fn settle(&mut self, carried: Carried) -> Changeset
        requires { Fits carried self.old }
        ensures settled { self.new ≡ settle carried.base self.old (entries_of carried self.old) }
        ensures changes { result ≡ carried.changes }
    {
        let Carried {
            base,
            changes,
            crossed,
        } = carried;
        let count = crossed.len();
        self.put_all(base, crossed);
        self.list_more(base, count);
        self.join_more(base, count);
        changes
    }

    fn put_all(&mut self, base: u32, crossed: Vec<Crossed>)
        requires { AllFit crossed.items (from_base base self.old) }
        ensures { self.new ≡ settle base self.old (crossed_entries crossed.items (from_base base self.old)) }
    {
        let first = self.items.count_below(base);
        put_crossed(&mut self.rivals, &mut self.items, first, crossed);
    }

    /// Lists some of the entries that aren't: as many as crossed, and one in LOOKS of those that were looked at, so that
    /// listing takes about as long as looking. Where few stand from the base on none is listed: those before it are looked at
    /// no more.
    fn list_more(&mut self, base: u32, crossed: usize)
        ensures { self.new ≡ self.old }
    {
        let count = self.items.len();
        let first = self.items.count_below(base);
        if count - first < SHORT {
            return;
        }
        let looked = count.saturating_sub(self.rivals.listed().max(first));
        for _ in 0..(looked / LOOKS + 1).saturating_add(crossed) {
            let place = self.rivals.listed();
            if place >= count {
                return;
            }
            self.rivals.list(self.items.listed(place));
        }
    }

    /// Joins entries from a base on to a stretch, once as many have crossed as there are, so that joining takes about as long as
    /// crossing. A short list isn't joined.
    fn join_more(&mut self, base: u32, crossed: usize)
        ensures { self.new ≡ self.old }
    {
        self.crossed = self.crossed.saturating_add(crossed);
        let first = self.items.count_below(base);
        if self.crossed < LOOKS || self.crossed < self.items.len() - first {
            return;
        }
        self.crossed = 0;
        self.items.join(first, LOOKS);
    }
}

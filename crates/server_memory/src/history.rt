ghost use Rattle.std.specs.Prelude.{◌≡◌, ◌≤◌, ◌<◌, ◌+◌, ◌-◌, ◌++◌, ◌∷◌, [], ℕ, suc, true, length, map, drop, All, Some, None, IfSome, IfOk, OnOk, OnErr};
ghost use Rattle.std.specs.Option.{option_copied, option_map};
ghost use Rattle.sync_recip.specs.Lists.{entry_of};
ghost use Rattle.sync_recip.specs.Carrying.{entries_of};
ghost use Rattle.sync_transform.specs.Sets.{made_by};
ghost use Rattle.sync_model.specs.Servers.{place_of};
ghost use Rattle.sync_model.specs.Parts.{Given as GivenParts, at_ident, idents_retired, marked};
ghost use Rattle.sync_data.specs.declared.instr.Instr.{Instr};
ghost use Rattle.server_memory.specs.History.{no_history, kept_as, newly_given, with_entry, len_of, IsEntry, IsHistory, IsReciprocal};
ghost use Rattle.server_memory.specs.Integrating.{found, IsNext};
ghost use Rattle.server_memory.specs.Merging.{Carries};
ghost use Rattle.server_memory.specs.Readers.{item_from};

use crate::extending::{extend_others, with_versions};
use crate::given::{Given, ident_in};
use crate::lists::keep;
use crate::refusal::ChangeRefusal;
use std::alloc::Global;
use std::marker::Model;
use sync_base::{Changeset, Entry, Id, Ident, NoMemory};
use sync_recip::{Carried, SharedEntry};

/// The greatest length of a history, and the greatest ident.
pub const LAST: u32 = 4_294_967_295;

/// The history from its floor on with the bases of its entries, whether the file is in form 2, what is kept of each
/// ident, and the retired idents with their heirs. The first ident is 1. A reciprocal list shares the entries of the
/// history, but for those that changed as they were crossed.
#[derive(Drop)]
pub struct History {
    floor: u32,
    entries: Vec<SharedEntry>,
    bases: Vec<u32>,
    second: bool,
    idents: Vec<Given>,
    retired: Vec<(Ident, Ident)>,
}

impl Model for History {
    ghost use Rattle.std.specs.Prelude.{map};
    ghost use Rattle.sync_recip.specs.Lists.{entry_of};
    ghost use Rattle.server_memory.specs.History.{HistoryParts, IsHistory};

    ghost Value = { HistoryParts };

    ghost view = { λ a. record { floor = a.floor; entries = map entry_of a.entries.items; bases = a.bases.items; second = a.second; idents = a.idents.items; retired = a.retired.items } };

    ghost invariant = { λ a. IsHistory (record { floor = a.floor; entries = map entry_of a.entries.items; bases = a.bases.items; second = a.second; idents = a.idents.items; retired = a.retired.items }) };
}

impl History {
    /// Nothing. It takes no memory.
    pub(crate) fn new(alloc: Global) -> History
        ensures { result ≡ no_history }
    {
        History {
            floor: 0,
            entries: Vec::new(alloc),
            bases: Vec::new(alloc),
            second: false,
            idents: Vec::new(alloc),
            retired: Vec::new(alloc),
        }
    }

    /// These entries, the first of which has the version of the floor. It takes no memory.
    pub(crate) fn kept(
        floor: u32,
        entries: Vec<SharedEntry>,
        bases: Vec<u32>,
        second: bool,
        idents: Vec<Given>,
        retired: Vec<(Ident, Ident)>,
    ) -> History
        requires { IsHistory (kept_as floor (map entry_of entries.items) bases.items second idents.items retired.items) }
        ensures { result ≡ kept_as floor (map entry_of entries.items) bases.items second idents.items retired.items }
    {
        History {
            floor,
            entries,
            bases,
            second,
            idents,
            retired,
        }
    }

    /// The version of the first entry.
    pub fn floor(&self) -> u32
        ensures { result ≡ self.now.floor }
    {
        self.floor
    }

    /// How many entries there were, those before the floor among them.
    pub fn len(&self) -> u32
        ensures { result ≡ len_of self.now }
    {
        self.floor + self.entries.len() as u32
    }

    /// The entry of a version, if it is kept.
    pub fn entry(&self, version: u32) -> Option<&Entry>
        ensures { option_map (λ e. entry_of e.now) result ≡ item_from self.now.floor self.now.entries version }
    {
        if version < self.floor {
            return None;
        }
        match self.entries.as_slice().get((version - self.floor) as usize) {
            Some(shared) => Some(shared.entry()),
            None => None,
        }
    }

    /// The base of the entry of a version, if it is kept.
    pub fn base(&self, version: u32) -> Option<u32>
        ensures { result ≡ item_from self.now.floor self.now.bases version }
    {
        if version < self.floor {
            return None;
        }
        self.bases
            .as_slice()
            .get((version - self.floor) as usize)
            .copied()
    }

    /// The entries from a version on.
    pub(crate) fn from(&self, version: u32) -> &[SharedEntry]
        requires kept { self.now.floor ≤ version }
        requires within { version ≤ len_of self.now }
        ensures entries { map entry_of result.now ≡ drop (version - self.now.floor) self.now.entries }
        ensures each { All (λ e. IsEntry (length self.now.idents) (entry_of e)) result.now }
        ensures short { version + length result.now ≤ 4294967295 }
    {
        let place = (version - self.floor) as usize;
        &self.entries[place..]
    }

    /// Whether the file is in form 2.
    pub fn second(&self) -> bool
        ensures { result ≡ self.now.second }
    {
        self.second
    }

    /// From here on the file is in form 2.
    pub(crate) fn upgrade(&mut self)
        ensures { self.new ≡ record self.old { second = true } }
    {
        self.second = true;
    }

    /// How many idents were given.
    pub fn given(&self) -> u32
        ensures { result ≡ length self.now.idents }
    {
        self.idents.len() as u32
    }

    /// What is kept of an ident, if it was given.
    pub fn at(&self, ident: Ident) -> Option<&Given>
        ensures given { option_copied result ≡ at_ident ident self.now.idents }
        ensures others { IfSome result (λ g. All (IsReciprocal (len_of self.now) ident) g.now.reciprocal) }
    {
        if ident == 0 {
            return None;
        }
        self.idents.as_slice().get(ident as usize - 1)
    }

    /// The ident of a uuid, if it has one.
    pub fn ident_of(&self, id: &Id) -> Option<Ident>
        ensures { result ≡ found (place_of id.now (map (λ g. g.uuid) self.now.idents)) }
    {
        ident_in(self.idents.as_slice(), id)
    }

    /// The retired idents with their heirs, in the order of their records.
    pub fn retired(&self) -> &[(Ident, Ident)]
        ensures { result.now ≡ self.now.retired }
    {
        self.retired.as_slice()
    }

    /// Gives a uuid the next ident.
    pub fn bind(&mut self, alloc: Global, id: Id) -> Result<Ident, NoMemory>
        requires { length self.old.idents < 4294967295 }
        ensures bound { OnOk result (self.new ≡ record self.old { idents = self.old.idents ++ newly_given id self.old.floor self.old.entries ∷ [] }) }
        ensures ident { IfOk result (λ ident. ident ≡ suc (length self.old.idents)) }
    {
        let reciprocal = with_versions(alloc, self.floor, self.entries.as_slice())?;
        keep(&mut self.idents, Given::new(id, reciprocal))?;
        Ok(self.idents.len() as u32)
    }

    /// Takes another settled number of an ident that is given.
    pub fn settle_at(&mut self, ident: Ident, settled: u32)
        requires { (g : GivenParts Instr) × (at_ident ident self.old.idents ≡ Some g) }
        ensures { self.new ≡ record self.old { idents = marked ident settled 1 self.old.idents } }
    {
        let place = ident as usize - 1;
        self.idents[place].settle_at(settled);
    }

    /// Retires an ident that is given for another.
    pub fn retire(&mut self, alloc: Global, ident: Ident, by: Ident) -> Result<(), NoMemory>
        requires { (g : GivenParts Instr) × (at_ident ident self.old.idents ≡ Some g) }
        ensures { OnOk result (self.new ≡ record self.old { idents = idents_retired ident by 1 self.old.idents; retired = self.old.retired ++ (ident, by) ∷ [] }) }
    {
        let place = ident as usize - 1;
        keep(&mut self.retired, (ident, by))?;
        self.idents[place].retire(alloc, by);
        Ok(())
    }

    /// A change of an ident that is given, as carried over the entries of others from its base on. They stay as they are.
    pub(crate) fn carry(
        &mut self,
        alloc: Global,
        ident: Ident,
        base: u32,
        changes: Changeset,
    ) -> Result<Carried, ChangeRefusal>
        requires { (g : GivenParts Instr) × (at_ident ident self.old.idents ≡ Some g) }
        ensures same { self.new ≡ self.old }
        ensures carries { (g : GivenParts Instr) → at_ident ident self.old.idents ≡ Some g → (number : ℕ) → Carries result ident number changes base g.reciprocal }
    {
        let place = ident as usize - 1;
        self.idents[place].carry(alloc, ident, base, changes)
    }

    /// Takes the next change of an ident as integrated.
    pub(crate) fn integrate(
        &mut self,
        alloc: Global,
        ident: Ident,
        number: u32,
        base: u32,
        second: bool,
        carried: Carried,
    ) -> Result<(), NoMemory>
        requires room { len_of self.old < 4294967295 }
        requires given { IsNext ident number base carried self.old.idents }
        ensures { (g : GivenParts Instr) → at_ident ident self.old.idents ≡ Some g → OnOk result (self.new ≡ with_entry self.old ident base second (made_by ident number carried.changes) (entries_of carried g.reciprocal)) }
    {
        let place = ident as usize - 1;
        let last = self.entries.len();
        let version = self.floor + last as u32;
        let changes = self.idents[place].settle(number, base, carried);
        let entry = Entry {
            origin: ident,
            number,
            changes,
        };
        keep_entry(&mut self.entries, &mut self.bases, alloc, entry, base)?;
        self.second |= second;
        extend_others(&mut self.idents, place, version, &self.entries[last])
    }
}

/// Puts an entry at the end, for others to share, and its base beside it.
pub(crate) fn keep_entry(
    entries: &mut Vec<SharedEntry>,
    bases: &mut Vec<u32>,
    alloc: Global,
    entry: Entry,
    base: u32,
) -> Result<(), NoMemory>
    ensures ok { OnOk result (entries.new.items ≡ entries.old.items ++ entry ∷ []) }
    ensures based { OnOk result (bases.new.items ≡ bases.old.items ++ base ∷ []) }
    ensures unchanged { OnErr result (entries.new.items ≡ entries.old.items) }
    ensures bases_unchanged { OnErr result (bases.new.items ≡ bases.old.items) }
{
    let shared = SharedEntry::new(alloc, entry)?;
    keep(bases, base)?;
    match keep(entries, shared) {
        Ok(()) => Ok(()),
        Err(NoMemory) => {
            bases.pop();
            Err(NoMemory)
        }
    }
}

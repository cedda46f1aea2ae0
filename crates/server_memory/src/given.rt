ghost use Rattle.std.specs.Prelude.{◌≡◌, ◌≢◌, ◌≤◌, ◌<◌, ℕ, suc, length, map, None, OnOk, OnErr, All};
ghost use Rattle.sync_recip.specs.Lists.{entry_of};
ghost use Rattle.sync_recip.specs.Carrying.{Fits, entries_of};
ghost use Rattle.sync_model.specs.Parts.{settled, extended, given_up};
ghost use Rattle.sync_model.specs.Servers.{place_of};
ghost use Rattle.server_memory.specs.Integrating.{found};
ghost use Rattle.server_memory.specs.Merging.{carried_as, Carries};

use crate::kinds::Counted;
use crate::refusal::{ChangeRefusal, Refusal};
use std::alloc::Global;
use std::marker::Model;
use sync_base::{Changeset, Id, Ident, NoMemory};
use sync_recip::{Carried, Recip, RecipRefusal, SharedEntry};

/// What a server keeps of an ident: the client's uuid, how many of its changes are integrated, the base of the last
/// one, for whom it was retired, the greatest settled number of its questions, and the entries of others as its changes
/// crossed them. A retired ident has none of these.
#[derive(Drop)]
pub struct Given {
    id: Id,
    count: u32,
    last: u32,
    heir: Option<Ident>,
    mark: u32,
    reciprocal: Recip,
}

impl Model for Given {
    ghost use Rattle.sync_data.specs.declared.instr.Instr.{Instr};
    ghost use Rattle.sync_model.specs.Parts.{Given as GivenParts};

    ghost Value = { GivenParts Instr };

    ghost view = { λ a. record { uuid = a.id; count = a.count; last = a.last; heir = a.heir; mark = a.mark; reciprocal = a.reciprocal } };
}

impl Given {
    /// A client of which no change is integrated.
    pub(crate) fn new(id: Id, reciprocal: Recip) -> Given
        ensures { result ≡ record { uuid = id; count = 0; last = 0; heir = None; mark = 0; reciprocal = reciprocal } }
    {
        Given {
            id,
            count: 0,
            last: 0,
            heir: None,
            mark: 0,
            reciprocal,
        }
    }

    /// A client with that count, which was retired for the heir if there is one.
    pub(crate) fn counted(id: Id, count: Counted, heir: Option<Ident>, reciprocal: Recip) -> Given
        ensures { result ≡ record { uuid = id; count = count.number; last = count.base; heir = heir; mark = count.settled; reciprocal = reciprocal } }
    {
        Given {
            id,
            count: count.number,
            last: count.base,
            heir,
            mark: count.settled,
            reciprocal,
        }
    }

    /// The same client, with these entries of others as its changes crossed them.
    pub(crate) fn crossing(&self, reciprocal: Recip) -> Given
        ensures { result ≡ record self.now { reciprocal = reciprocal } }
    {
        Given {
            id: self.id,
            count: self.count,
            last: self.last,
            heir: self.heir,
            mark: self.mark,
            reciprocal,
        }
    }

    /// The client's uuid.
    pub fn id(&self) -> &Id
        ensures { result.now ≡ self.now.uuid }
    {
        &self.id
    }

    /// How many of its changes are integrated.
    pub fn count(&self) -> u32
        ensures { result ≡ self.now.count }
    {
        self.count
    }

    /// The base of the last one.
    pub fn last(&self) -> u32
        ensures { result ≡ self.now.last }
    {
        self.last
    }

    /// For whom it was retired, if it was.
    pub fn heir(&self) -> Option<Ident>
        ensures { result ≡ self.now.heir }
    {
        self.heir
    }

    /// The greatest settled number of its questions.
    pub fn mark(&self) -> u32
        ensures { result ≡ self.now.mark }
    {
        self.mark
    }

    /// The entries of others, as its changes crossed them.
    pub fn reciprocal(&self) -> &Recip
        ensures { result.now ≡ self.now.reciprocal }
    {
        &self.reciprocal
    }

    /// A change of the client's as carried over the entries of others from its base on. They stay as they are.
    pub(crate) fn carry(
        &mut self,
        alloc: Global,
        own: Ident,
        base: u32,
        changes: Changeset,
    ) -> Result<Carried, ChangeRefusal>
        requires { All (λ pair. pair.1.origin ≢ own) self.old.reciprocal }
        ensures same { self.new ≡ self.old }
        ensures carries { (number : ℕ) → Carries result own number changes base self.old.reciprocal }
    {
        answer_of(self.reciprocal.carry(alloc, own, base, changes))
    }

    /// Takes its next change as integrated, and hands it out as carried. It takes no memory.
    pub(crate) fn settle(&mut self, number: u32, base: u32, carried: Carried) -> Changeset
        requires next { number ≡ suc self.old.count }
        requires base { carried.base ≡ base }
        requires fits { Fits carried self.old.reciprocal }
        ensures settled { self.new ≡ settled base (entries_of carried self.old.reciprocal) self.old }
        ensures changes { result ≡ carried.changes }
    {
        self.count = number;
        self.last = base;
        self.reciprocal.settle(carried)
    }

    /// Takes another settled number.
    pub(crate) fn settle_at(&mut self, settled: u32)
        ensures { self.new ≡ record self.old { mark = settled } }
    {
        self.mark = settled;
    }

    /// Retires it for another. It takes no memory.
    pub(crate) fn retire(&mut self, alloc: Global, by: Ident)
        ensures { self.new ≡ given_up by self.old }
    {
        self.heir = Some(by);
        self.reciprocal = Recip::new(alloc);
    }

    /// Shares an entry of another, whose version is above all before. A retired ident has no use for it.
    pub(crate) fn extend(&mut self, version: u32, entry: &SharedEntry) -> Result<(), NoMemory>
        requires { All (λ pair. pair.0 < version) self.old.reciprocal }
        ensures ok { OnOk result (self.new ≡ extended version (entry_of entry.now) self.old) }
        ensures unchanged { OnErr result (self.new ≡ self.old) }
    {
        if self.heir.is_some() {
            return Ok(());
        }
        self.reciprocal.push_shared(version, entry)
    }
}

fn answer_of(carried: Result<Carried, RecipRefusal>) -> Result<Carried, ChangeRefusal>
    ensures { result ≡ carried_as carried }
{
    match carried {
        Ok(carried) => Ok(carried),
        Err(RecipRefusal::Mismatch { place, kind }) => {
            Err(ChangeRefusal::Refused(Refusal::Mismatch { place, kind }))
        }
        Err(RecipRefusal::NoMemory) => Err(ChangeRefusal::NoMemory),
    }
}

/// The ident of a uuid among these, of which the first has ident 1.
pub(crate) fn ident_in(idents: &[Given], id: &Id) -> Option<Ident>
    requires { length idents.now ≤ 4294967295 }
    ensures { result ≡ found (place_of id.now (map (λ g. g.uuid) idents.now)) }
{
    for (place, given) in idents.iter().enumerate() {
        if *id == *given.id() {
            return Some(place as u32 + 1);
        }
    }
    None
}

ghost use Rattle.std.specs.Prelude.{◌≡◌, ◌≢◌, ◌<◌, ◌+◌, ◌≤◌, ◌&&◌, not, [], length, Some, IfOk, IfErr, OnOk, OnErr};
ghost use Rattle.sync_theory.specs.Grid.{tail};
ghost use Rattle.sync_base.specs.Checks.{act_all};
ghost use Rattle.sync_model.specs.Profile.{needs};
ghost use Rattle.sync_model.specs.Limits.{ClientLists};
ghost use Rattle.sync_exchange.specs.Profile.{the_profile};
ghost use Rattle.sync_client.specs.Seen.{Past, seen};
ghost use Rattle.sync_client.specs.Entries.{IsRead, IsUnread, RefusesActing, RefusesOther, Takes, TookOther};
ghost use Rattle.sync_client.specs.Refusals.{rebase_refusal, IsPlain};
ghost use Rattle.sync_rebase.specs.Taking.{IsHead};

use crate::refusal::ClientRefusal;
use crate::replica::Replica;
use std::alloc::Global;
use sync_codec::{DecodeRefusal, any_needs_second, decode};
use sync_data::{Changeset, Entry, Ident};
use sync_exchange::limits_tell;
use sync_rebase::RebaseRefusal;
use sync_store::AllRefusal;

/// The changeset of an entry of this version.
pub(crate) fn changes_of(
    alloc: Global,
    version: u32,
    ms: u64,
    body: &[u8],
) -> Result<Changeset, ClientRefusal>
    requires { length body.now ≤ 67108864 }
    ensures read { IfOk result (IsRead ms body.now) }
    ensures unread { IfErr result (IsUnread version body.now) }
    ensures plain { IfErr result IsPlain }
{
    limits_tell();
    match decode(alloc, ms, body) {
        Ok(changes) => Ok(changes),
        Err(DecodeRefusal::Bad(bad)) => Err(ClientRefusal::BadBody {
            version,
            offset: bad.offset,
            rule: bad.rule,
        }),
        Err(DecodeRefusal::NoMemory) => Err(ClientRefusal::NoMemory),
    }
}

/// Whether the changeset needs form 2 where that isn't allowed.
pub(crate) fn exceeds(changes: &Changeset, second: bool) -> bool
    ensures { result ≡ (needs the_profile changes.now.instrs && not second) }
{
    any_needs_second(changes.instrs()) && !second
}

impl Replica {
    /// Takes an entry of the history, whose version is the cursor: the client that made it, its number among that client's, its
    /// time in milliseconds since the epoch, and its bytes.
    pub(crate) fn take_entry(
        &mut self,
        alloc: Global,
        origin: Ident,
        number: u32,
        ms: u64,
        body: &[u8],
    ) -> Result<(), ClientRefusal>
        requires room { self.old.cursor < 4294967295 }
        requires length { length body.now ≤ 67108864 }
        ensures plain { IfErr result IsPlain }
        ensures origin { origin ≤ 4294967295 }
        ensures number { number ≤ 4294967295 }
        ensures ident { self.new.ident ≡ self.old.ident }
        ensures count { self.new.count ≡ self.old.count }
        ensures cursor { OnOk result (self.new.cursor ≡ self.old.cursor + 1) }
        ensures step { (past : Past) → ClientLists the_profile (seen past self.old) → Takes (seen past self.old) (seen past self.new) (record { origin = origin; number = number; ms = ms; body = body.now }) result }
    {
        let changes = changes_of(alloc, self.cursor, ms, body)?;
        if self.is_beyond(&changes) {
            return Err(ClientRefusal::OldEntry {
                version: self.cursor,
            });
        }
        let entry = Entry {
            origin,
            number,
            changes,
        };
        if entry.origin == self.ident {
            self.take_own(&entry)
        } else {
            self.take_other(alloc, entry)
        }
    }

    /// Whether the changeset needs form 2, and the file is in form 1.
    pub(crate) fn is_beyond(&self, changes: &Changeset) -> bool
        ensures { result ≡ (needs the_profile changes.now.instrs && not self.now.second) }
    {
        exceeds(changes, self.second)
    }

    /// Takes an entry of its own: the oldest unsent changeset is in the history now.
    fn take_own(&mut self, entry: &Entry) -> Result<(), ClientRefusal>
        requires { self.old.cursor < 4294967295 }
        ensures head { OnOk result (IsHead entry.now self.old.unsent) }
        ensures took { OnOk result (self.new ≡ record self.old { unsent = tail self.old.unsent; cursor = self.old.cursor + 1 }) }
        ensures forked { IfErr result (λ why. why ≡ ClientRefusal.Forked entry.now.number) }
        ensures plain { IfErr result IsPlain }
        ensures differs { OnErr result (¬ IsHead entry.now self.old.unsent) }
        ensures unchanged { OnErr result (self.new ≡ self.old) }
    {
        if !self.unsent.is_head(entry) {
            return Err(ClientRefusal::Forked {
                number: entry.number,
            });
        }
        self.unsent.drop_head();
        self.cursor += 1;
        Ok(())
    }

    /// Takes an entry of another: it is carried over the unsent changesets, and acts on the objects.
    fn take_other(&mut self, alloc: Global, entry: Entry) -> Result<(), ClientRefusal>
        requires room { self.old.cursor < 4294967295 }
        requires other { self.old.ident ≢ entry.origin }
        ensures took { OnOk result (TookOther self.old self.new entry) }
        ensures ident { self.new.ident ≡ self.old.ident }
        ensures count { self.new.count ≡ self.old.count }
        ensures cursor { OnOk result (self.new.cursor ≡ self.old.cursor + 1) }
        ensures refused { IfErr result (RefusesOther self.old self.new entry) }
        ensures plain { IfErr result IsPlain }
    {
        if self.unsent.is_empty() {
            return self.take_alone(&entry);
        }
        let carried = match self.unsent.carry(alloc, self.ident, entry) {
            Ok(carried) => carried,
            Err(refusal) => return Err(self.carry_refusal(refusal)),
        };
        self.apply_carried(carried.changes())?;
        drop(self.unsent.settle(carried));
        self.cursor += 1;
        Ok(())
    }

    /// The same where nothing is unsent, so that there is nothing to carry it over.
    fn take_alone(&mut self, entry: &Entry) -> Result<(), ClientRefusal>
        requires room { self.old.cursor < 4294967295 }
        requires none { self.old.unsent ≡ [] }
        ensures took { OnOk result (TookOther self.old self.new entry.now) }
        ensures ident { self.new.ident ≡ self.old.ident }
        ensures count { self.new.count ≡ self.old.count }
        ensures cursor { OnOk result (self.new.cursor ≡ self.old.cursor + 1) }
        ensures refused { IfErr result (RefusesOther self.old self.new entry.now) }
        ensures plain { IfErr result IsPlain }
    {
        self.apply_carried(&entry.changes)?;
        self.cursor += 1;
        Ok(())
    }

    fn carry_refusal(&self, refusal: RebaseRefusal) -> ClientRefusal
        ensures value { result ≡ rebase_refusal self.now.cursor refusal }
        ensures plain { IsPlain result }
    {
        match refusal {
            RebaseRefusal::Mismatch { number, kind } => ClientRefusal::Mismatch {
                version: self.cursor,
                number,
                kind: kind.code(),
            },
            RebaseRefusal::NoMemory => ClientRefusal::NoMemory,
        }
    }

    fn apply_carried(&mut self, changes: &Changeset) -> Result<(), ClientRefusal>
        ensures acts { OnOk result (act_all changes.now.instrs self.old.objects ≡ Some self.new.objects) }
        ensures others { self.new ≡ record self.old { objects = self.new.objects } }
        ensures refused { IfErr result (RefusesActing self.old self.new changes.now.instrs) }
        ensures plain { IfErr result IsPlain }
    {
        let _ = changes.instrs();
        match self.objects.apply_all(changes) {
            Ok(()) => Ok(()),
            Err(AllRefusal::Break { place, cause }) => Err(ClientRefusal::NotApplicable {
                version: self.cursor,
                place: place as u32,
                code: cause.code(),
            }),
            Err(AllRefusal::NoMemory) => Err(ClientRefusal::NoMemory),
        }
    }
}

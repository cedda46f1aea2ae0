ghost use Rattle.std.specs.Prelude.{◌≡◌, ◌++◌, ◌∷◌, [], ℕ, List, true, false, Some, None, Ok, IfErr, OnOk, OnErr};
ghost use Rattle.sync_journal.specs.Stands.{Stands, StandsNoted};
ghost use Rattle.sync_model.specs.Clients as model;
ghost use Rattle.sync_exchange.specs.Profile.{the_profile};
ghost use Rattle.life_bytes.specs.Spelling.{note_spelling};
ghost use Rattle.life_marks.specs.ClientMarks.{seen};
ghost use Rattle.marked_client.specs.Marked.{IsFault};
ghost use Rattle.marked_client.specs.Testing.{has_lives};

use crate::refusal::MarkedRefusal;
use crate::testing::Standing;
use life_bytes::{Life, Note, note_bytes};
use life_marks::ClientMarks;
use std::alloc::Global;
use sync_client::{Client, ClientRefusal};
use sync_data::Id;
use sync_disk::Disk;
use sync_journal::JournalRefusal;
use sync_subset::Subset;

/// A client over a disk, and what its file says of lives.
#[derive(Drop)]
pub struct MarkedClient<D: Disk> {
    pub(crate) alloc: Global,
    pub(crate) client: Client<D>,
    pub(crate) marks: ClientMarks,
    /// That of this opening.
    pub(crate) life: Option<Life>,
}

impl<D: Disk> MarkedClient<D> {
    ghost use Rattle.sync_client.specs.Clients.{IsClientOf, Says, journal_of};
    ghost use Rattle.marked_client.specs.Marked.{Notes, Same, is_closed, life_of, marks_of, standing_of};

    /// The client.
    pub fn client(&self) -> &Client<D>
        ensures { result.now ≡ self.now.client }
    {
        &self.client
    }

    /// What its file says of lives.
    pub fn marks(&self) -> &ClientMarks
        ensures { seen result.now ≡ marks_of self.now }
    {
        &self.marks
    }

    /// Whether it sends messages with lives: it was opened with one, or its file has one, and it made nothing and got no ident
    /// without.
    pub fn has_lives(&self) -> bool
        ensures { result ≡ has_lives (marks_of self.now) (life_of self.now) }
    {
        !self.marks.is_plain()
            && (self.life.is_some() || self.marks.life().is_some() || self.marks.birth().is_some())
    }

    /// Hands the disk back.
    pub fn into_disk(self) -> D {
        self.client.into_disk()
    }

    /// As `Client::born`.
    pub fn born(&mut self, id: Id) -> Result<(), ClientRefusal>
        ensures does { (records : List model.ClientRecord) → IsClientOf records self.old.client → Says (model.born (model.client_of the_profile records) id) records self.new.client result }
        ensures life { life_of self.new ≡ life_of self.old }
        ensures marks { marks_of self.new ≡ marks_of self.old }
    {
        self.client.born(id)
    }

    /// As `Client::upgrade`.
    pub fn upgrade(&mut self) -> Result<bool, ClientRefusal>
        ensures does { (records : List model.ClientRecord) → IsClientOf records self.old.client → Says (model.upgrade (model.client_of the_profile records)) records self.new.client result }
        ensures life { life_of self.new ≡ life_of self.old }
        ensures marks { marks_of self.new ≡ marks_of self.old }
    {
        self.client.upgrade()
    }

    /// As `Client::subscribe`.
    pub fn subscribe(&mut self, tables: Subset) -> Result<(), ClientRefusal>
        ensures does { (records : List model.ClientRecord) → IsClientOf records self.old.client → Says (model.subscribe (model.client_of the_profile records) tables) records self.new.client result }
        ensures life { life_of self.new ≡ life_of self.old }
        ensures marks { marks_of self.new ≡ marks_of self.old }
    {
        self.client.subscribe(tables)
    }

    /// What the tests of an answer look at beside the marks.
    pub(crate) fn standing(&self) -> Standing
        ensures value { (records : List model.ClientRecord) → IsClientOf records self.now.client → result ≡ standing_of records self.now }
        ensures closed { result.is_closed ≡ is_closed self.now }
    {
        Standing {
            has_lives: self.has_lives(),
            is_closed: self.client.journal.is_closed(),
            id: self.client.id(),
            ident: self.client.ident(),
            cursor: self.client.cursor(),
        }
    }

    /// Out of memory the client is closed, as its marks may be behind its file.
    pub(crate) fn out_of_memory(&mut self) -> MarkedRefusal
        ensures value { result ≡ MarkedRefusal.Client ClientRefusal.NoMemory }
        ensures same { Same self.old self.new }
        ensures marks { marks_of self.new ≡ marks_of self.old }
        ensures closes { is_closed self.new ≡ true }
    {
        self.client.journal.close();
        MarkedRefusal::Client(ClientRefusal::NoMemory)
    }

    /// Writes a note. It closes the client where that fails.
    pub(crate) fn note(&mut self, note: Note) -> Result<(), MarkedRefusal>
        ensures notes { OnOk result (Notes (note ∷ []) self.old self.new) }
        ensures fault { IfErr result IsFault }
        ensures same { Same self.old self.new }
        ensures open_ { is_closed self.old ≡ false → OnOk result (is_closed self.new ≡ false) }
        ensures closes { OnErr result (is_closed self.new ≡ true) }
    {
        match self.put_note(&note) {
            Ok(()) => {}
            Err(why) => {
                drop(note);
                return Err(why);
            }
        }
        self.marks.take_note(note);
        Ok(())
    }

    fn put_note(&mut self, note: &Note) -> Result<(), MarkedRefusal>
        ensures fault { IfErr result IsFault }
        ensures records { (rs : List (List ℕ)) → Stands rs (journal_of self.old.client) → OnOk result (Stands rs (journal_of self.new.client)) }
        ensures noted { (ps : List (List ℕ)) → StandsNoted ps (journal_of self.old.client) → OnOk result (StandsNoted (ps ++ note_spelling note.now ∷ []) (journal_of self.new.client)) }
        ensures marks { marks_of self.new ≡ marks_of self.old }
        ensures same { Same self.old self.new }
        ensures open_ { is_closed self.old ≡ false → OnOk result (is_closed self.new ≡ false) }
        ensures closes { OnErr result (is_closed self.new ≡ true) }
    {
        let Ok(bytes) = note_bytes(self.alloc, note) else {
            return Err(self.out_of_memory());
        };
        match self.client.journal.note(bytes.as_slice()) {
            Ok(()) => Ok(()),
            Err(JournalRefusal::Closed) => Err(MarkedRefusal::Client(ClientRefusal::Closed)),
            Err(JournalRefusal::DiskFault) => Err(MarkedRefusal::Client(ClientRefusal::DiskFault)),
            Err(_) => Err(self.out_of_memory()),
        }
    }
}

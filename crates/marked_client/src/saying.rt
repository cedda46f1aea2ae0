ghost use Rattle.std.specs.Prelude.{◌≡◌, ◌⊎◌, ◌≤◌, List, Some, Err, length, IfOk, IfErr};
ghost use Rattle.sync_model.specs.Clients as model;
ghost use Rattle.sync_exchange.specs.Profile.{the_profile};
ghost use Rattle.life_bytes.specs.Parts.{most_saves};
ghost use Rattle.marked_client.specs.Marked.{count_test, give_up_test, uuid_of};
ghost use Rattle.life_bytes.specs.declared.said.Said.{Said};
ghost use Rattle.marked_client.specs.Saying.{cursor_told, plain_says, says_of};

use crate::client::MarkedClient;
use crate::refusal::MarkedRefusal;
use crate::testing::{Standing, because};
use life_bytes::{GiveUp, Letter, Life, Mark, Runs, Said, Saving, Says};
use sync_client::ClientRefusal;
use sync_data::Id;
use sync_disk::Disk;
use sync_messages::Message;

/// The most uuids, and the most lives, of a GiveUp.
const MOST_UUIDS: usize = 4_096;

const MOST_LIVES: usize = 65_536;

impl<D: Disk> MarkedClient<D> {
    ghost use Rattle.sync_client.specs.Clients.{IsClientOf};
    ghost use Rattle.marked_client.specs.Marked.{GivesUp, LetterOf, LetterSays, marks_of, standing_of};

    /// As `Client::bind`, with the lives of its file. Errors besides: Broken.
    pub fn bind(&self) -> Result<Letter, MarkedRefusal>
        ensures { (records : List model.ClientRecord) → IsClientOf records self.now.client → LetterSays (model.bind (model.client_of the_profile records)) records self.now result }
    {
        match self.client.bind() {
            Ok(message) => self.says(message),
            Err(why) => Err(MarkedRefusal::Client(why)),
        }
    }

    /// As `Client::ask`, with the lives of its file. Errors besides: Broken.
    pub fn ask(&self) -> Result<Letter, MarkedRefusal>
        ensures { (records : List model.ClientRecord) → IsClientOf records self.now.client → LetterSays (model.ask (model.client_of the_profile records)) records self.now result }
    {
        match self.client.ask() {
            Ok(message) => self.says(message),
            Err(why) => Err(MarkedRefusal::Client(why)),
        }
    }

    /// As `Client::upload`, with the lives of its file. Errors besides: Broken.
    pub fn upload(&self) -> Result<Letter, MarkedRefusal>
        ensures { (records : List model.ClientRecord) → IsClientOf records self.now.client → LetterSays (model.upload the_profile (model.client_of the_profile records)) records self.now result }
    {
        match self.client.upload() {
            Ok(message) => self.says(message),
            Err(why) => Err(MarkedRefusal::Client(why)),
        }
    }

    /// As `Client::upload_from`, with the lives of its file. It bears fewer transactions where more than 65,536 tokens would stand
    /// before them. Errors besides: Broken.
    pub fn upload_from(&self, after: u32) -> Result<Letter, MarkedRefusal>
        ensures { (records : List model.ClientRecord) → IsClientOf records self.now.client → LetterSays (model.upload_from the_profile (model.client_of the_profile records) after) records self.now result }
    {
        match self.client.upload_from(after) {
            Ok(message) => self.says(message),
            Err(why) => Err(MarkedRefusal::Client(why)),
        }
    }

    /// The message that gives up the clients of those uuids, and asks up to which numbers the history has the transactions of
    /// those lives. Errors, in this order: Closed, NotBorn, NotNamed, NoLives, TooMany; and Broken.
    pub fn give_up(&self, uuids: Vec<Id>, lives: Vec<Life>) -> Result<Letter, MarkedRefusal>
        ensures refused { (records : List model.ClientRecord) (why : MarkedRefusal) → IsClientOf records self.now.client → give_up_test (standing_of records self.now) uuids.items lives.items ≡ Some why → result ≡ Err why }
        ensures told { (records : List model.ClientRecord) → IsClientOf records self.now.client → IfOk result (GivesUp records self.now uuids.items lives.items) }
    {
        let at = self.standing();
        if let Some(why) = give_up_test(&at, uuids.as_slice(), lives.as_slice()) {
            drop((uuids, lives));
            return Err(why);
        }
        let given = GiveUp::new(at.ident, uuids, lives);
        self.around(
            Runs::new(self.alloc),
            Vec::new(self.alloc),
            Said::GiveUp(given),
        )
    }

    /// Today's message, with the lives of the file where it has any.
    fn says(&self, message: Message) -> Result<Letter, MarkedRefusal>
        ensures told { (records : List model.ClientRecord) → IsClientOf records self.now.client → IfOk result (LetterOf records self.now message) }
        ensures refused { IfErr result (λ why. (why ≡ MarkedRefusal.Client ClientRefusal.NoMemory) ⊎ (why ≡ MarkedRefusal.Broken)) }
    {
        if self.has_lives() {
            return self.says_lives(message);
        }
        Ok(Letter::Message(message))
    }

    fn says_lives(&self, message: Message) -> Result<Letter, MarkedRefusal>
        ensures told { (records : List model.ClientRecord) → IsClientOf records self.now.client → IfOk result (λ letter. letter ≡ Letter.Says (says_of (marks_of self.now) (uuid_of records) (model.client_of the_profile records).cursor message)) }
        ensures refused { IfErr result (λ why. (why ≡ MarkedRefusal.Client ClientRefusal.NoMemory) ⊎ (why ≡ MarkedRefusal.Broken)) }
    {
        match message {
            Message::Upload(upload) => self.uploads(upload),
            other => self.plainly(other),
        }
    }

    /// Around anything but an Upload there are no lives and no saves.
    fn plainly(&self, message: Message) -> Result<Letter, MarkedRefusal>
        ensures told { (records : List model.ClientRecord) → IsClientOf records self.now.client → IfOk result (λ letter. letter ≡ Letter.Says (plain_says (marks_of self.now) (uuid_of records) (model.client_of the_profile records).cursor (Said.Message message))) }
        ensures refused { IfErr result (λ why. why ≡ MarkedRefusal.Broken) }
    {
        self.around(
            Runs::new(self.alloc),
            Vec::new(self.alloc),
            Said::Message(message),
        )
    }

    /// What is sent around a message.
    pub(crate) fn around(
        &self,
        runs: Runs,
        saves: Vec<Saving>,
        inner: Said,
    ) -> Result<Letter, MarkedRefusal>
        requires { length saves.items ≤ most_saves }
        ensures told { (records : List model.ClientRecord) → IsClientOf records self.now.client → IfOk result (λ letter. letter ≡ Letter.Says (record { uuid = uuid_of records; cursor = cursor_told (marks_of self.now) (model.client_of the_profile records).cursor; lives = runs; saves = saves.items; inner = inner })) }
        ensures refused { IfErr result (λ why. why ≡ MarkedRefusal.Broken) }
    {
        match Says::new(self.uuid(), self.cursor(), runs, saves, inner) {
            Ok(says) => Ok(Letter::Says(says)),
            Err(_) => Err(MarkedRefusal::Broken),
        }
    }

    pub(crate) fn uuid(&self) -> Id
        ensures { (records : List model.ClientRecord) → IsClientOf records self.now.client → result ≡ uuid_of records }
    {
        self.client.id().unwrap_or([0; 16])
    }

    /// The cursor, and the life of the entry before it.
    fn cursor(&self) -> Mark
        ensures { (records : List model.ClientRecord) → IsClientOf records self.now.client → result ≡ cursor_told (marks_of self.now) (model.client_of the_profile records).cursor }
    {
        let number = self.client.cursor();
        let none = Life::new([0; 16]);
        if number == 0 {
            return Mark { number, life: none };
        }
        Mark {
            number,
            life: self.marks.last().unwrap_or(none),
        }
    }
}

/// Why clients aren't given up.
fn give_up_test(at: &Standing, uuids: &[Id], lives: &[Life]) -> Option<MarkedRefusal>
    ensures { result ≡ give_up_test at.now uuids.now lives.now }
{
    if at.is_closed {
        return because(ClientRefusal::Closed);
    }
    if at.id.is_none() {
        return because(ClientRefusal::NotBorn);
    }
    if at.ident == 0 {
        return because(ClientRefusal::NotNamed);
    }
    if !at.has_lives {
        return Some(MarkedRefusal::NoLives);
    }
    count_test(uuids, lives)
}

fn count_test(uuids: &[Id], lives: &[Life]) -> Option<MarkedRefusal>
    ensures { result ≡ count_test uuids.now lives.now }
{
    if uuids.len() > MOST_UUIDS || lives.len() > MOST_LIVES {
        return Some(MarkedRefusal::TooMany);
    }
    None
}

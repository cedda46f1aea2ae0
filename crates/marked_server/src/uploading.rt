ghost use Rattle.std.specs.Prelude.{◌≡◌, ◌≤◌, ◌<◌, length};
ghost use Rattle.std.specs.Option.{option_map};
ghost use Rattle.sync_messages.specs.Parts.{most_listed};
ghost use Rattle.marked_server.specs.Uploading.{saves_at, life_at};

use crate::code::refused;
use crate::server::MarkedServer;
use crate::testing::token_test;
use life_bytes::{Life, Note, Numbers, Saves, Saving, Says};
use sync_data::Ident;
use sync_disk::Disk;
use sync_messages::{Change, Message, Stored, Upload};
use sync_server::ServerRefusal;

impl<D: Disk> MarkedServer<D> {
    /// Takes the changes of an Upload, up to the first that is refused, with the lives of those that are new.
    pub(crate) fn take_upload(
        &mut self,
        says: &Says,
        upload: &Upload,
    ) -> Result<Message, ServerRefusal> {
        let ident = upload.ident();
        for (place, change) in upload.changes().iter().enumerate() {
            let life = life_at(says, place);
            let saves = saves_at(says.saves(), change.number());
            if let Some(refusal) = self.take_change(ident, change, life, saves)? {
                return Ok(refusal);
            }
        }
        Ok(Message::Stored(Stored::new(ident, self.count_of(ident))))
    }

    /// Passes over a change that the history has, and takes the next one behind the notes of it; or tells why not.
    fn take_change(
        &mut self,
        ident: Ident,
        change: &Change,
        life: Life,
        saves: Option<&Saves>,
    ) -> Result<Option<Message>, ServerRefusal>
        requires { 1 ≤ ident }
    {
        let number = change.number();
        let count = self.count_of(ident);
        if number <= count {
            return Ok(None);
        }
        if number - 1 > count {
            return self.serve_change(ident, change);
        }
        if let Some(code) = token_test(self.marks.reached(), saves, life, number) {
            return Ok(Some(refused(ident, number, code, number)));
        }
        self.take_next(ident, change, life, saves)
    }

    /// Does today's step with the next change, behind the notes of it.
    fn take_next(
        &mut self,
        ident: Ident,
        change: &Change,
        life: Life,
        saves: Option<&Saves>,
    ) -> Result<Option<Message>, ServerRefusal>
        requires { 1 ≤ ident }
    {
        self.note_life(ident, life)?;
        match saves {
            None => self.serve_change(ident, change),
            Some(saves) => {
                self.note(Note::Saved(saves.token()))?;
                let refusal = self.serve_change(ident, change)?;
                if refusal.is_some() {
                    // No entry followed the note of what it saves: the next one saves nothing.
                    self.note(Note::Numbers(Numbers::new(ident, life)))?;
                }
                Ok(refusal)
            }
        }
    }

    /// Today's step with this change; its refusal, if it is refused.
    fn serve_change(
        &mut self,
        ident: Ident,
        change: &Change,
    ) -> Result<Option<Message>, ServerRefusal>
        requires { 1 ≤ ident }
    {
        let mut changes = Vec::new(self.alloc);
        let Ok(copy) = change.copy() else {
            return Err(self.out_of_memory());
        };
        if changes.push(copy).is_err() {
            return Err(self.out_of_memory());
        }
        match self.serve(Message::Upload(Upload::new(ident, changes)))? {
            Message::Stored(_) => Ok(None),
            refusal => Ok(Some(refusal)),
        }
    }
}

/// What an Upload saves as that number.
fn saves_at(saves: &[Saving], number: u32) -> Option<&Saves>
    ensures { option_map (λ s. s.now) result ≡ saves_at saves.now number }
{
    for saving in saves {
        if saving.number == number {
            return Some(&saving.saves);
        }
    }
    None
}

/// The life of the change of an Upload at that place.
fn life_at(says: &Says, place: usize) -> Life
    requires { place < most_listed }
    ensures { result ≡ life_at says.now.lives place }
{
    says.runs()
        .life_of(place as u32 + 1)
        .unwrap_or(Life::new([0; 16]))
}

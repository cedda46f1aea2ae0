use crate::end::{LivesEnd, unmarked, unopened};
use byte_lists::ByteLists;
use life_bytes::Life;
use life_marks::ClientMarks;
use std::alloc::Global;
use sync_client::Client;
use sync_data::{Id, NoMemory};
use sync_disk::Disk;

/// The file of a client that another one takes over from.
#[derive(Drop)]
pub(crate) struct Old {
    pub pieces: ByteLists,
    pub marks: ClientMarks,
    pub id: Id,
    /// The lives of its transactions, and of those that it saved.
    pub lives: Vec<Life>,
}

/// Reads the old client of a disk. It is left as it is.
pub(crate) fn open_old<D: Disk>(alloc: Global, disk: D) -> Result<Old, LivesEnd> {
    let mut client = match Client::open(alloc, disk) {
        Ok(client) => client,
        Err(refusal) => {
            let cause = refusal.cause;
            drop(refusal);
            return Err(unopened(cause));
        }
    };
    let Some(id) = client.id() else {
        return Err(LivesEnd::NoLives);
    };
    let pieces = match client.journal.pieces() {
        Ok(pieces) => pieces,
        Err(cause) => return Err(unopened(cause)),
    };
    let marks = match ClientMarks::of(alloc, &pieces, None) {
        Ok(marks) => marks,
        Err(why) => return Err(unmarked(why)),
    };
    if marks.is_plain() {
        return Err(LivesEnd::NoLives);
    }
    match lives_in(alloc, &marks) {
        Ok(lives) => Ok(Old {
            pieces,
            marks,
            id,
            lives,
        }),
        Err(NoMemory) => Err(LivesEnd::Ran(sync_io::Status::NoMemory)),
    }
}

fn lives_in(alloc: Global, marks: &ClientMarks) -> Result<Vec<Life>, NoMemory> {
    let mut lives = Vec::new(alloc);
    for place in 0..marks.numbers().len() {
        let number = place.saturating_add(1);
        if let Some(token) = marks.token_of(number) {
            if place_of(lives.as_slice(), token.life()).is_none()
                && lives.push(token.life()).is_err()
            {
                return Err(NoMemory);
            }
        }
    }
    Ok(lives)
}

pub(crate) fn place_of(lives: &[Life], life: Life) -> Option<usize> {
    for (place, one) in lives.iter().enumerate() {
        if *one == life {
            return Some(place);
        }
    }
    None
}

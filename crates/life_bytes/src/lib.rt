//! Lives: the notes that journals bear of them, the messages that bear them, and their bytes.
#![tactic(auto)]

mod answered;
mod answers;
mod field;
mod give_up;
mod given_up;
mod letter;
mod letter_reading;
mod letter_writing;
mod life;
mod mark;
mod note;
mod note_reading;
mod note_writing;
mod numbers;
mod parts;
mod refusal;
mod run;
mod runs;
mod said;
mod saves;
mod says;
mod token;

pub use answered::Answered;
pub use answers::{Answers, BadAnswers};
pub use give_up::GiveUp;
pub use given_up::GivenUp;
pub use letter::Letter;
pub use letter_reading::letter_of;
pub use letter_writing::letter_bytes;
pub use life::Life;
pub use mark::Mark;
pub use note::Note;
pub use note_reading::{is_note, note_of};
pub use note_writing::note_bytes;
pub use numbers::Numbers;
pub use refusal::NoteRefusal;
pub use run::Run;
pub use runs::{BadRuns, Runs, RunsRefusal, life_at, put_lives};
pub use said::Said;
pub use saves::{Saves, Saving};
pub use says::{BadSays, Says};
pub use token::Token;

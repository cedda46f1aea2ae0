ghost use Rattle.std.specs.Prelude.{◌≡◌, ◌↔◌, ℕ, IfSome, IfNone, Some, map, string_bytes};
ghost use Rattle.sync_top.specs.Jobs.{AsksFor, IsExchange, IsFileJob, IsNumber, IsNumberedJob, IsPlain, IsShortNumber, IsStart, command_word, is_padded};

use sync_node::FileCommand;
use uuid::Uuid;

/// The most turns of a generated exchange.
pub const MOST_TURNS: u32 = 100_000;

/// What a command line asks for (docs/FORMATS.md, "Commands").
#[derive(Clone, Copy, PartialEq, Eq)]
pub enum Job {
    /// Event lines are read and answered.
    Replay,
    /// An exchange of so many turns is generated.
    Generate { seed: u64, count: u32 },
    /// A command over the file that the second word names; the third, where there is one, is its number or uuid.
    File { command: FileCommand },
}

/// Whether a word begins with a sign or a needless zero.
fn is_padded(word: &[u8]) -> bool
    ensures { result ≡ is_padded word.now }
{
    match word {
        [] => false,
        [first, rest @ ..] => *first == b'+' || *first == b'0' && !rest.is_empty(),
    }
}

/// The number that a word is in decimal, without a sign and without needless zeros.
fn number_of(word: &str) -> Option<u64>
    ensures { (n : ℕ) → (result ≡ Some n) ↔ IsNumber n word.now }
{
    if is_padded(word.as_bytes()) {
        return None;
    }
    word.parse::<u64>().ok()
}

/// The exchange of this seed and this number of turns.
fn generate_of(seed: &str, count: &str) -> Option<Job>
    ensures { (job : Job) → (result ≡ Some job) ↔ IsExchange job seed.now count.now }
{
    let seed = number_of(seed)?;
    let count = number_of(count)?;
    if count > MOST_TURNS as u64 {
        return None;
    }
    Some(Job::Generate {
        seed,
        count: count as u32,
    })
}

/// The command over a file that a word names, of those that take no more words.
fn file_command_of(word: &str) -> Option<FileCommand>
    ensures some { IfSome result (λ command. IsPlain command × (word.now ≡ command_word command)) }
    ensures none { IfNone result ((command : FileCommand) → IsPlain command → word.now ≡ command_word command → ⊥) }
{
    match word {
        "edit" => Some(FileCommand::Edit),
        "send" => Some(FileCommand::Send),
        "ask" => Some(FileCommand::Ask),
        "take" => Some(FileCommand::Take),
        "serve" => Some(FileCommand::Serve),
        "show" => Some(FileCommand::Show),
        "recover" => Some(FileCommand::Recover),
        "trim" => Some(FileCommand::Trim),
        "shrink" => Some(FileCommand::Shrink),
        _ => None,
    }
}

/// The command over a file that these two words are.
fn file_job_of(word: &str) -> Option<Job>
    ensures { (job : Job) → (result ≡ Some job) ↔ IsFileJob job word.now }
{
    match file_command_of(word) {
        Some(command) => Some(Job::File { command }),
        None => None,
    }
}

/// The 32-bit number that a word is in decimal, without a sign and without needless zeros.
fn short_number_of(word: &str) -> Option<u32>
    ensures { (n : ℕ) → (result ≡ Some n) ↔ IsShortNumber n word.now }
{
    let number = number_of(word)?;
    if number > u32::MAX as u64 {
        return None;
    }
    Some(number as u32)
}

/// The start of a client of the uuid that a word is, in any form that the crate `uuid` reads.
fn start_of(word: &str) -> Option<Job>
    ensures { (job : Job) → (result ≡ Some job) ↔ IsStart job word.now }
{
    match Uuid::parse_str(word) {
        Ok(uuid) => {
            let id = uuid.into_bytes();
            let command = FileCommand::Start { id };
            Some(Job::File { command })
        }
        Err(_) => None,
    }
}

/// The command over a file that a word and a number or a uuid are, or the exchange that is generated of a seed and a number of turns.
fn numbered_job_of(word: &str, second: &str, third: &str) -> Option<Job>
    ensures { (job : Job) → (result ≡ Some job) ↔ IsNumberedJob job word.now second.now third.now }
{
    match word {
        "gen" => generate_of(second, third),
        "start" => start_of(third),
        "retire" => {
            let ident = short_number_of(third)?;
            if ident == 0 {
                return None;
            }
            let command = FileCommand::Retire { ident };
            Some(Job::File { command })
        }
        "rescue" => {
            let after = short_number_of(third)?;
            let command = FileCommand::Rescue { after };
            Some(Job::File { command })
        }
        _ => None,
    }
}

/// What the words of a command line ask for; none where they are no command's.
pub fn job_of(words: &[String]) -> Option<Job>
    ensures { (job : Job) → (result ≡ Some job) ↔ AsksFor job (map string_bytes words.now) }
{
    match words {
        [word] if word.as_str() == "replay" => Some(Job::Replay),
        [word, _] => file_job_of(word.as_str()),
        [word, second, third] => { numbered_job_of(word.as_str(), second.as_str(), third.as_str()) }
        _ => None,
    }
}

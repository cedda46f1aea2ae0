ghost use Rattle.std.specs.Prelude.{◌≡◌, ◌≢◌};

use std::env;
use std::io::ErrorKind;
use sync_io::Status;

/// How the program ends where its arguments can't be read: memory ran out, or else one is no text, and they are no command.
fn status_of(kind: ErrorKind) -> Status
    ensures no_memory { kind ≡ ErrorKind.OutOfMemory → result ≡ Status.NoMemory }
    ensures bad_words { kind ≢ ErrorKind.OutOfMemory → result ≡ Status.BadWords }
{
    match kind {
        ErrorKind::OutOfMemory => Status::NoMemory,
        _ => Status::BadWords,
    }
}

/// The program's arguments without its own name.
pub fn words(rt: &HostRuntime) -> Result<Vec<String>, Status> {
    let arguments = match env::args(rt) {
        Ok(arguments) => arguments,
        Err(refusal) => return Err(status_of(refusal.kind())),
    };
    let mut words = Vec::new(rt.alloc());
    for word in arguments.skip(1) {
        if words.push(word).is_err() {
            return Err(Status::NoMemory);
        }
    }
    Ok(words)
}

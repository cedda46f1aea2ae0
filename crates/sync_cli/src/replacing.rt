// A node's file that is written anew where it stands: a server's trimmed, or a client's short one.
ghost use Rattle.std.specs.Prelude.{◌≡◌, ◌∷◌, [], codes, map, string_bytes, IfSome};
ghost use Rattle.sync_cli.specs.Replacing.{AsksToReplace};

use crate::end::End;
use crate::lives::{new_file_of, write_anew};
use crate::running::{Kept, kept_at, run_over_file};
use file_lock::{LockRefusal, hold};
use lives_node::NewFile;
use std::fs;
use std::fs::File;
use std::io::Write;
use std::path::Path;
use sync_io::Status;

/// The path in the words NAME, `--replace` and FILE; none where they are others.
fn path_behind<'a>(words: &'a [String], name: &str) -> Option<&'a str>
    ensures some { IfSome result (λ path. map string_bytes words.now ≡ name.now ∷ codes "--replace" ∷ path.now ∷ []) }
{
    match words {
        [word, option, path] if word.as_str() == name && option.as_str() == "--replace" => {
            Some(path.as_str())
        }
        _ => None,
    }
}

/// The path in the words `trim --replace FILE` or `shrink --replace FILE`; none where they are others.
pub(crate) fn path_to_replace(words: &[String]) -> Option<&str>
    ensures some { IfSome result (λ _. AsksToReplace (map string_bytes words.now)) }
{
    match path_behind(words, "trim") {
        Some(path) => Some(path),
        None => path_behind(words, "shrink"),
    }
}

/// What writes the new file: the words' command, or that over a file that keeps lives.
#[derive(Clone, Copy)]
enum Writer {
    Words,
    Lives(NewFile),
}

/// Writes the new file of the node at a path.
fn write_with<O: Write + Drop>(
    rt: &HostRuntime,
    writer: Writer,
    words: &[String],
    path: &str,
    output: &mut O,
) -> Status {
    match writer {
        Writer::Words => run_over_file(rt, words, path, std::io::empty(), output),
        Writer::Lives(file) => match write_anew(rt, file, path, output) {
            End::Ran(status) => status,
            // (it opens the file without a life)
            _ => Status::DiskFault,
        },
    }
}

/// The same to another path, and brings it to the disk.
fn write_beside(
    rt: &HostRuntime,
    writer: Writer,
    words: &[String],
    path: &str,
    beside: &str,
) -> Status {
    let Ok(told) = fs::metadata(rt, path) else {
        return Status::DiskFault;
    };
    let Ok(file) = File::create(rt, beside) else {
        return Status::DiskFault;
    };
    if file.set_permissions(told.permissions()).is_err() {
        return Status::DiskFault;
    }
    let mut output = file;
    match write_with(rt, writer, words, path, &mut output) {
        Status::Done => {
            if output.sync_all().is_ok() {
                Status::Done
            } else {
                Status::DiskFault
            }
        }
        // the output is the new file
        Status::WriteFault => Status::DiskFault,
        status => status,
    }
}

/// Brings a folder's names to the disk.
fn sync_folder(rt: &HostRuntime, path: Path<'_>) -> Status {
    let Some(folder) = path.parent() else {
        return Status::DiskFault;
    };
    match File::open(rt, folder) {
        Ok(folder) => {
            if folder.sync_all().is_ok() {
                Status::Done
            } else {
                Status::DiskFault
            }
        }
        Err(_) => Status::DiskFault,
    }
}

/// What the name of the new file ends with, as long as it stands beside the old one.
fn ending(words: &[String]) -> &'static str {
    match words {
        [word, ..] if word.as_str() == "shrink" => "shrunk",
        _ => "trimmed",
    }
}

/// Puts the new file in the place of the old one, which is held. Where anything fails the old file is as it was, unless it is only
/// the folder that isn't brought to the disk: then one of the two stands there after a crash of the machine.
fn put_in_place(rt: &HostRuntime, writer: Writer, words: &[String], path: Path<'_>) -> Status {
    let Ok(beside) = format!(in rt.alloc(); "{}.{}", path.as_str(), ending(words)) else {
        return Status::NoMemory;
    };
    let status = write_beside(rt, writer, words, path.as_str(), beside.as_str());
    if !matches!(status, Status::Done) {
        let _ = fs::remove_file(rt, beside.as_str());
        return status;
    }
    if fs::rename(rt, beside.as_str(), path.as_str()).is_err() {
        let _ = fs::remove_file(rt, beside.as_str());
        return Status::DiskFault;
    }
    sync_folder(rt, path)
}

fn replace_at(rt: &HostRuntime, writer: Writer, words: &[String], path: &str) -> Status {
    // (a link stays one)
    match fs::canonicalize(rt, path) {
        Ok(path) => put_in_place(rt, writer, words, path.as_path()),
        Err(_) => Status::DiskFault,
    }
}

/// Trims the server's file at a path, or shrinks the client's, where it stands: the new file is written beside it, brought to the
/// disk, and takes its place, while no other command writes to it. `words` ask for the new file.
pub(crate) fn replace_file(rt: &HostRuntime, words: &[String], path: &str) -> End {
    let held = match hold(rt, path) {
        Ok(held) => held,
        Err(LockRefusal::Busy) => return End::Busy,
        Err(LockRefusal::Failed) => return End::Ran(Status::DiskFault),
    };
    let end = match kept_at(rt, path) {
        Kept::Nothing => End::Ran(replace_at(rt, Writer::Words, words, path)),
        Kept::Lives => match new_file_of(words) {
            Some(file) => End::Ran(replace_at(rt, Writer::Lives(file), words, path)),
            None => End::KeepsLives,
        },
        Kept::DiskFault => End::Ran(Status::DiskFault),
        Kept::NoMemory => End::Ran(Status::NoMemory),
    };
    drop(held);
    end
}

//! The commands over files of the host, by the call that the program makes.
use super::desk::words_of;
use super::failure::{Failure, number};
use super::step::Step;
use super::tally::Tally;
use file_lock::hold;
use std::alloc::Global;
use std::io::Cursor;
use std::{env, fs, process};
use sync_cli::run_program;

/// The files of the host that the steps name, each by its last letter.
#[derive(Drop)]
struct Folder {
    /// What their paths begin with.
    front: String,
}

impl Folder {
    fn new(rt: &HostRuntime) -> Result<Folder, Failure> {
        let alloc = rt.alloc();
        let name = format!(in alloc; "program_cases_{}_", process::id(rt.process()))?;
        let path = env::temp_dir(rt)?.join(alloc, name.as_str())?;
        let front = path.as_path().as_str().to_string(alloc)?;
        Ok(Folder { front })
    }

    fn path(&self, alloc: Global, name: &str) -> Result<String, Failure> {
        let front = self.front.as_str();
        Ok(format!(in alloc; "{front}{name}")?)
    }

    /// The words of a command, with the path of the file in place of its name. `gen` names none.
    fn words(&self, alloc: Global, command: &str) -> Result<Vec<String>, Failure> {
        let mut words = words_of(alloc, command)?;
        match words.as_mut_slice() {
            [_, option, name] if option.as_str() == "--replace" => {
                *name = self.path(alloc, name.as_str())?;
            }
            [word, name, ..] if word.as_str() != "gen" => {
                *name = self.path(alloc, name.as_str())?;
            }
            _ => {}
        }
        // (a client that takes over names the old client's file too)
        if words.len() == 4 {
            let old = self.path(alloc, words[2].as_str())?;
            words[2] = old;
        }
        Ok(words)
    }

    /// Removes these files.
    fn remove(&self, rt: &HostRuntime, names: &[&str]) -> Result<(), Failure> {
        for name in names {
            let path = self.path(rt.alloc(), name)?;
            let _ = fs::remove_file(rt, path.as_str());
        }
        Ok(())
    }

    /// The same where another command holds the file, if the line begins with `held`.
    fn is_right(&self, rt: &HostRuntime, step: &Step, exit: u32) -> Result<bool, Failure> {
        match step.commands.as_str().strip_prefix("held ") {
            Some(command) => {
                let words = self.words(rt.alloc(), command)?;
                let path = match words.as_slice() {
                    [_, option, path] if option.as_str() == "--replace" => path,
                    [_, path, ..] => path,
                    _ => return Ok(false),
                };
                let held = hold(rt, path.as_str());
                let is_right = held.is_ok() && self.ends_so(rt, &words, step, exit)?;
                drop(held);
                Ok(is_right)
            }
            None => {
                let words = self.words(rt.alloc(), step.commands.as_str())?;
                self.ends_so(rt, &words, step, exit)
            }
        }
    }

    /// Whether the program ends with that number on these words, and writes what it must.
    fn ends_so(
        &self,
        rt: &HostRuntime,
        words: &[String],
        step: &Step,
        exit: u32,
    ) -> Result<bool, Failure> {
        let alloc = rt.alloc();
        if let [word, path] = words {
            if word.as_str() == "holds" {
                return Ok(fs::read(rt, path.as_str())? == step.want);
            }
        }
        let mut written = Vec::new(alloc);
        let input = Cursor::new(step.input.as_slice());
        let end = run_program(rt, words, input, Cursor::new(&mut written));
        Ok(end.exit() as u32 == exit && written == step.want)
    }
}

/// Tries each step of `files.txt`, over files that are new.
pub fn try_all(rt: &HostRuntime) -> Result<Tally, Failure> {
    let alloc = rt.alloc();
    let mut tally = Tally::new();
    let mut step = Step::new(alloc, "")?;
    let folder = Folder::new(rt)?;
    folder.remove(rt, &["A", "B", "C", "D", "E", "F", "G", "S", "T"])?;
    let text = fs::read_to_string(rt, "files.txt")?;
    for line in text.lines() {
        if let Some((mark, rest)) = line.split_once(" ") {
            if mark == "=" {
                let is_right = folder.is_right(rt, &step, number(rest)?)?;
                tally.count(rt, is_right, step.commands.as_str())?;
            } else {
                step.take(alloc, mark, rest)?;
            }
        }
    }
    folder.remove(rt, &["A", "B", "C", "D", "E", "F", "G", "S", "T"])?;
    Ok(tally)
}

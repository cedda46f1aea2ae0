ghost use Rattle.std.specs.Prelude.{◌≡◌, ℕ, ◌+◌, ◌<◌, ◌≤◌, List, [], length, Option, None, Some, Err, IfOk, IfErr, IfSome, OnOk};
ghost use Rattle.std.specs.Option.{option_map};
ghost use Rattle.sync_io.specs.Faults.{HasRisen};
ghost use Rattle.sync_io.specs.Input.{max_input};
ghost use Rattle.sync_io.specs.Readers.{readings_of};
ghost use Rattle.sync_node.specs.Items.{EndsReading, IsReadStatus, is_blank, lines_from, lines_of, read_status};

use super::reader::{Item, ItemReader};
use std::alloc::Global;
use sync_io::{LineReader, NoMemory, ReadRefusal, Source, Status};

/// Reads the lines of an input that aren't blank. Blank ones are counted.
#[derive(Drop)]
pub struct Lines {
    reader: LineReader,
    count: u64,
}

/// Whether a line is blank: spaces, tabs and carriage returns only.
pub fn is_blank(line: &[u8]) -> bool
    ensures { result ≡ is_blank line.now }
{
    line.iter()
        .all(|b| *b == b' ' || *b == b'\t' || *b == b'\r')
}

/// The status where a reader refuses the item after so many.
pub fn read_status(before: u64, refusal: ReadRefusal) -> Status
    requires too_long { refusal ≡ ReadRefusal.TooLong → before + 1 < 4294967296 }
    requires cut { refusal ≡ ReadRefusal.Cut → before + 1 < 4294967296 }
    ensures { result ≡ read_status (before + 1) refusal }
{
    match refusal {
        ReadRefusal::Failed => Status::ReadFault,
        ReadRefusal::TooLong | ReadRefusal::Cut => Status::BadInput {
            place: (before + 1) as u32,
        },
        ReadRefusal::InputTooLong => Status::InputTooLong,
        ReadRefusal::NoMemory => Status::NoMemory,
    }
}

impl Lines {
    ghost use Rattle.sync_node.specs.Readers.{IsReady, LineRead, lines_ahead};

    /// The next line, blank or not.
    fn next_line<S: Source>(&mut self, source: &mut S) -> Result<Option<Vec<u8>>, Status>
        requires { IsReady self.old }
        ensures read { IfOk result (λ line. LineRead line self.old.count (readings_of self.old.reader (S.left source.old)) (readings_of self.new.reader (S.left source.new))) }
        ensures stays_ready { OnOk result (IsReady self.new) }
        ensures counts { IfOk result (λ line. IfSome line (λ _. self.new.count ≡ self.old.count + 1)) }
        ensures few { self.new.count ≤ max_input }
        ensures err { IfErr result (λ status. EndsReading status (lines_ahead self.old (S.left source.old))) }
        ensures faults { S.faults source.old ≤ S.faults source.new }
        ensures cause { result ≡ Err Status.ReadFault → HasRisen (S.faults source.old) (S.faults source.new) }
        ensures only { IfErr result IsReadStatus }
    {
        match self.reader.next(source) {
            Ok(Some(line)) => {
                self.count += 1;
                Ok(Some(line))
            }
            Ok(None) => Ok(None),
            Err(refusal) => Err(read_status(self.count, refusal)),
        }
    }
}

impl ItemReader for Lines {
    ghost use Rattle.sync_node.specs.Readers.{IsReady, lines_ahead};

    ghost items_of = { lines_of };

    ghost ahead = { lines_ahead };

    ghost count = { λ lines. lines.count };

    ghost ready = { IsReady };

    fn new(alloc: Global) -> Result<Lines, NoMemory> {
        match LineReader::new(alloc) {
            Ok(reader) => Ok(Lines { reader, count: 0 }),
            Err(_) => Err(NoMemory),
        }
    }

    fn is_ahead(&self) -> bool {
        match self.reader.ahead() {
            Some(line) => !is_blank(line),
            None => false,
        }
    }

    fn next<S: Source>(&mut self, source: &mut S) -> Result<Option<Item>, Status> {
        'lines: loop {
            let line = match self.next_line(source) {
                Ok(Some(line)) => line,
                Ok(None) => return Ok(None),
                Err(status) => return Err(status),
            };
            if !is_blank(&line) {
                let number = self.count as u32;
                return Ok(Some(Item {
                    number,
                    bytes: line,
                }));
            }
        }
    }
}

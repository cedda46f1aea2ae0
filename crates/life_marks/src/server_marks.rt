ghost use Rattle.std.specs.Prelude.{◌≡◌, ◌≤◌, ◌-◌, length, slice_set, Some, OnOk};
ghost use Rattle.life_marks.specs.Reached.{number_of};
ghost use Rattle.life_marks.specs.ServerMarks.{own_token, as_member, noting, ended};

use crate::life_list::LifeList;
use crate::reached::Reached;
use life_bytes::{Life, Note, Token};
use std::alloc::Global;
use sync_data::{Id, Ident, NoMemory};
use sync_records::ServerRecord;

/// What a server keeps of an ident: its client's uuid, whether this has lives, the life that was noted last, and that of its
/// last entry in the history.
#[derive(Clone, Copy)]
pub struct Line {
    pub uuid: Id,
    pub is_member: bool,
    pub noted: Option<Life>,
    pub last: Option<Life>,
}

/// What the records and notes of a server's file say of lives.
#[derive(Drop)]
pub struct ServerMarks {
    birth: Option<Life>,
    life: Option<Life>,
    before: Option<Life>,
    floor: u32,
    entries: LifeList,
    lines: Vec<Line>,
    reached: Reached,
    saved: Option<Token>,
}

/// The life of what was written before the first one.
pub(crate) const NO_LIFE: Id = [0; 16];

impl ServerMarks {
    ghost use Rattle.life_marks.specs.ServerMarks.{seen, no_marks, line_of, with_line, token_told, after_entry, after_client, after_note, after_record, life_before, first_of};

    /// Those of an empty file. It takes no memory.
    pub fn new(alloc: Global) -> ServerMarks
        ensures { seen result ≡ no_marks }
    {
        ServerMarks {
            birth: None,
            life: None,
            before: None,
            floor: 0,
            entries: LifeList::new(alloc),
            lines: Vec::new(alloc),
            reached: Reached::new(alloc),
            saved: None,
        }
    }

    /// The first life of the file; none where it has none.
    pub fn birth(&self) -> Option<Life>
        ensures { result ≡ (seen self.now).birth }
    {
        self.birth
    }

    /// The last life of the file; none where it has none.
    pub fn life(&self) -> Option<Life>
        ensures { result ≡ (seen self.now).life }
    {
        self.life
    }

    /// What is kept of an ident; none where it isn't given.
    pub fn line(&self, ident: Ident) -> Option<Line>
        ensures { result ≡ line_of ident (seen self.now).lines }
    {
        if ident == 0 {
            return None;
        }
        self.lines.as_slice().get(ident as usize - 1).copied()
    }

    /// Up to which number the history has the transactions of each life.
    pub fn reached(&self) -> &Reached
        ensures { number_of result.now ≡ (seen self.now).reached }
    {
        &self.reached
    }

    /// The lives of the entries from the floor on.
    pub fn entries(&self) -> &LifeList
        ensures { result.now ≡ (seen self.now).entries }
    {
        &self.entries
    }

    /// The version of the first of these.
    pub fn floor(&self) -> u32
        ensures { result ≡ (seen self.now).floor }
    {
        self.floor
    }

    /// The life of the entry before a version; that of version 0 is the birth. None below the floor, above the history, and
    /// where none is known.
    pub fn life_before(&self, version: u32) -> Option<Life>
        ensures { result ≡ life_before (seen self.now) version }
    {
        if version == 0 {
            return self.birth;
        }
        if version < self.floor {
            return None;
        }
        if version == self.floor {
            return self.before;
        }
        self.entries.life_of(version - 1 - self.floor)
    }

    /// Takes a note that stands behind what was taken so far. After `NoMemory` the marks are of no use.
    pub fn take_note(&mut self, note: &Note) -> Result<(), NoMemory>
        ensures { OnOk result (seen self.new ≡ after_note (seen self.old) note.now) }
    {
        self.saved = None;
        match note {
            Note::Life(life) => {
                self.take_life(*life);
                Ok(())
            }
            Note::Of(life) => {
                self.before = Some(*life);
                Ok(())
            }
            Note::Member(named) => {
                self.take_member(named.ident());
                Ok(())
            }
            Note::Numbers(numbers) => {
                self.take_numbers(numbers.ident(), numbers.life());
                Ok(())
            }
            Note::Saved(token) => {
                self.saved = Some(*token);
                Ok(())
            }
            Note::Reached(token) => self.reached.reach(*token),
            Note::Lives(runs) => self.entries.extend(runs.runs()),
            Note::Birth(_) => Ok(()),
            Note::Saves(_) => Ok(()),
        }
    }

    /// The same of a record.
    pub fn take_record(&mut self, added: &ServerRecord) -> Result<(), NoMemory>
        ensures { OnOk result (seen self.new ≡ after_record (seen self.old) added.now) }
    {
        match added {
            ServerRecord::Client { id } => self.take_client(*id),
            ServerRecord::Entry { origin, number, .. } => self.take_entry(*origin, *number),
            ServerRecord::Floor { version } => {
                self.floor = *version;
                self.saved = None;
                Ok(())
            }
            ServerRecord::Count { ident, number, .. } => {
                if *number != 0 {
                    self.end_line(*ident);
                }
                self.saved = None;
                Ok(())
            }
            ServerRecord::Form => Ok(()),
            ServerRecord::Retired { .. }
            | ServerRecord::Settled { .. }
            | ServerRecord::Part { .. }
            | ServerRecord::Carried { .. }
            | ServerRecord::Past { .. } => {
                self.saved = None;
                Ok(())
            }
        }
    }

    /// A client gets the next ident.
    pub fn take_client(&mut self, uuid: Id) -> Result<(), NoMemory>
        ensures { OnOk result (seen self.new ≡ after_client (seen self.old) uuid) }
    {
        self.saved = None;
        let line = Line {
            uuid,
            is_member: false,
            noted: None,
            last: None,
        };
        match self.lines.push(line) {
            Ok(()) => Ok(()),
            Err(_) => Err(NoMemory),
        }
    }

    /// An entry of that ident with that number goes into the history.
    pub fn take_entry(&mut self, ident: Ident, number: u32) -> Result<(), NoMemory>
        ensures { OnOk result (seen self.new ≡ after_entry (seen self.old) ident number) }
    {
        let life = self.life.unwrap_or(Life::new(NO_LIFE));
        self.entries.push(life)?;
        let token = self.token_told(ident, number);
        self.end_line(ident);
        self.saved = None;
        match token {
            Some(token) => self.reached.reach(token),
            None => Ok(()),
        }
    }

    /// The token of the next entry.
    fn token_told(&self, ident: Ident, number: u32) -> Option<Token>
        ensures { result ≡ token_told (seen self.now).saved (line_of ident (seen self.now).lines) number }
    {
        if let Some(token) = self.saved {
            return Some(token);
        }
        match self.line(ident) {
            Some(line) => own_token(line, number),
            None => None,
        }
    }

    fn take_life(&mut self, life: Life)
        ensures { seen self.new ≡ record (seen self.old) { birth = first_of (seen self.old).birth life; life = Some life } }
    {
        if self.birth.is_none() {
            self.birth = Some(life);
        }
        self.life = Some(life);
    }

    fn take_member(&mut self, ident: Ident)
        ensures { seen self.new ≡ record (seen self.old) { lines = with_line ident as_member (seen self.old).lines } }
    {
        match self.line(ident) {
            Some(line) => self.put_line(ident, member(line)),
            None => {}
        }
    }

    fn take_numbers(&mut self, ident: Ident, life: Life)
        ensures { seen self.new ≡ record (seen self.old) { lines = with_line ident (noting life) (seen self.old).lines } }
    {
        match self.line(ident) {
            Some(line) => self.put_line(ident, noted(line, life)),
            None => {}
        }
    }

    /// The last entry of an ident is of the life that is noted.
    fn end_line(&mut self, ident: Ident)
        ensures { seen self.new ≡ record (seen self.old) { lines = with_line ident ended (seen self.old).lines } }
    {
        match self.line(ident) {
            Some(line) => self.put_line(ident, ended(line)),
            None => {}
        }
    }

    fn put_line(&mut self, ident: Ident, line: Line)
        requires named { 1 ≤ ident }
        requires given { ident ≤ length (seen self.old).lines }
        ensures { seen self.new ≡ record (seen self.old) { lines = slice_set (seen self.old).lines (ident - 1) line } }
    {
        self.lines[ident as usize - 1] = line;
    }
}

fn member(line: Line) -> Line
    ensures { result ≡ as_member line }
{
    let mut line = line;
    line.is_member = true;
    line
}

fn noted(line: Line, life: Life) -> Line
    ensures { result ≡ noting life line }
{
    let mut line = line;
    line.noted = Some(life);
    line
}

fn ended(line: Line) -> Line
    ensures { result ≡ ended line }
{
    let mut line = line;
    let noted = line.noted;
    line.last = noted;
    line
}

/// The token of an ident's own transaction.
fn own_token(line: Line, number: u32) -> Option<Token>
    ensures { result ≡ own_token (Some line) number }
{
    if number == 0 {
        return None;
    }
    Some(Token::new(line.noted.unwrap_or(Life::new(line.uuid)), number))
}

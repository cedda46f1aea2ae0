ghost use Rattle.std.specs.Prelude.{◌≡◌, ◌++◌, ◌∷◌, [], Some, OnOk, IfOk};
ghost use Rattle.std.specs.Option.{option_map};
ghost use Rattle.life_marks.specs.Reached.{number_of};
ghost use Rattle.life_marks.specs.ServerMarks.{raised_by};
ghost use Rattle.life_marks.specs.ClientMarks.{higher, higher_by, chosen, own_made};

use crate::life_list::LifeList;
use crate::reached::Reached;
use crate::server_marks::NO_LIFE;
use life_bytes::{Life, Note, Saves, Token};
use std::alloc::Global;
use std::collections::BTreeMap;
use sync_data::NoMemory;
use sync_records::ClientRecord;

/// What stands right before the next record of a file.
#[derive(Drop)]
pub(crate) enum Before {
    Floor,
    Saves(Saves),
    Other,
}

/// What the records and notes of a client's file say of lives.
#[derive(Drop)]
pub struct ClientMarks {
    alloc: Global,
    birth: Option<Life>,
    life: Option<Life>,
    noted: Option<Life>,
    last: Option<Life>,
    numbers: LifeList,
    saves: BTreeMap<u32, Saves>,
    reached: Reached,
    before: Before,
    is_plain: bool,
}

impl ClientMarks {
    ghost use Rattle.life_marks.specs.ClientMarks.{seen, no_marks, after_note, after_record, after_took, after_made, saving, token_of, frontier};

    /// Those of an empty file. It takes no memory.
    pub fn new(alloc: Global) -> ClientMarks
        ensures { seen result ≡ no_marks }
    {
        ClientMarks {
            alloc,
            birth: None,
            life: None,
            noted: None,
            last: None,
            numbers: LifeList::new(alloc),
            saves: BTreeMap::new(alloc),
            reached: Reached::new(alloc),
            before: Before::Other,
            is_plain: false,
        }
    }

    /// The first life of the history that gave the client its ident; none where none did.
    pub fn birth(&self) -> Option<Life>
        ensures { result ≡ (seen self.now).birth }
    {
        self.birth
    }

    /// The last life of the file; none where it has none.
    pub fn life(&self) -> Option<Life>
        ensures { result ≡ (seen self.now).life }
    {
        self.life
    }

    /// The life that was noted last of the history.
    pub fn noted(&self) -> Option<Life>
        ensures { result ≡ (seen self.now).noted }
    {
        self.noted
    }

    /// The life of the last entry before the cursor, if it is known.
    pub fn last(&self) -> Option<Life>
        ensures { result ≡ (seen self.now).last }
    {
        self.last
    }

    /// The lives of its transactions, of which the first has number 1.
    pub fn numbers(&self) -> &LifeList
        ensures { result.now ≡ (seen self.now).numbers }
    {
        &self.numbers
    }

    /// Of each life the number of the last transaction that it made or saved.
    pub fn reached(&self) -> &Reached
        ensures { number_of result.now ≡ (seen self.now).reached }
    {
        &self.reached
    }

    /// Whether it got its ident, or made a transaction, without lives, or is short. Then it never has any.
    pub fn is_plain(&self) -> bool
        ensures { result ≡ (seen self.now).is_plain }
    {
        self.is_plain
    }

    /// What it saves as this number; none where it made that itself.
    pub fn saves_at(&self, number: u32) -> Option<&Saves>
        ensures { option_map (λ s. s.now) result ≡ (seen self.now).saves number }
    {
        self.saves.get(&number)
    }

    /// The token of its transaction of this number: that of the original where it saves one. None where it made none.
    pub fn token_of(&self, number: u32) -> Option<Token>
        ensures { result ≡ token_of (seen self.now) number }
    {
        if number == 0 {
            return None;
        }
        if let Some(saves) = self.saves_at(number) {
            return Some(saves.token());
        }
        match self.numbers.life_of(number - 1) {
            Some(life) => Some(Token::new(life, number)),
            None => None,
        }
    }

    /// What must stand before its own transaction of this number: the last that it made itself before, and what it saved
    /// since, of each life the highest number.
    pub fn frontier(&self, number: u32) -> Result<Vec<Token>, NoMemory>
        ensures { IfOk result (λ tokens. tokens.items ≡ frontier (seen self.now) number) }
    {
        let mut tokens = Vec::new(self.alloc);
        let mut before = number.saturating_sub(1);
        while before > 0 {
            tokens = higher_by(self.alloc, self.token_of(before), tokens)?;
            if self.saves_at(before).is_none() {
                return Ok(tokens);
            }
            before -= 1;
        }
        Ok(tokens)
    }

    /// Takes a note that stands behind what was taken so far.
    pub fn take_note(&mut self, note: Note)
        ensures { seen self.new ≡ after_note (seen self.old) note }
    {
        let at_floor = matches!(self.before, Before::Floor);
        self.before = Before::Other;
        match note {
            Note::Life(life) => self.life = Some(life),
            Note::Birth(life) => self.birth = Some(life),
            Note::Of(life) => {
                self.noted = Some(life);
                if at_floor {
                    self.last = Some(life);
                }
            }
            Note::Saves(saves) => self.before = Before::Saves(saves),
            Note::Member(_) => {}
            Note::Numbers(_) => {}
            Note::Saved(_) => {}
            Note::Reached(_) => {}
            Note::Lives(_) => {}
        }
    }

    /// The same of a record. After `NoMemory` the marks are of no use.
    pub fn take_record(&mut self, added: &ClientRecord) -> Result<(), NoMemory>
        ensures { OnOk result (seen self.new ≡ after_record (seen self.old) added.now) }
    {
        match added {
            ClientRecord::Named(_) => {
                self.is_plain |= self.birth.is_none();
                self.before = Before::Other;
                Ok(())
            }
            ClientRecord::Made { number, .. } => self.take_made(*number),
            ClientRecord::Took { .. } => {
                self.take_took();
                Ok(())
            }
            ClientRecord::Resumed { .. } => {
                self.is_plain = true;
                self.before = Before::Other;
                Ok(())
            }
            ClientRecord::Floor { .. } => {
                self.before = Before::Floor;
                Ok(())
            }
            ClientRecord::Born { .. }
            | ClientRecord::Form
            | ClientRecord::Subset { .. }
            | ClientRecord::Part { .. }
            | ClientRecord::Waits { .. } => {
                self.before = Before::Other;
                Ok(())
            }
        }
    }

    /// It takes an entry.
    pub fn take_took(&mut self)
        ensures { seen self.new ≡ after_took (seen self.old) }
    {
        self.last = self.noted;
        self.before = Before::Other;
    }

    /// It made a transaction of this number.
    pub fn take_made(&mut self, number: u32) -> Result<(), NoMemory>
        ensures { OnOk result (seen self.new ≡ after_made (seen self.old) number) }
    {
        self.is_plain |= self.life.is_none();
        let life = self.life.unwrap_or(Life::new(NO_LIFE));
        self.numbers.push(life)?;
        match std::mem::replace(&mut self.before, Before::Other) {
            Before::Saves(saves) => {
                self.reached.reach(saves.token())?;
                self.put_saves(number, saves)
            }
            Before::Floor => self.reach(own_made(life, number)),
            Before::Other => self.reach(own_made(life, number)),
        }
    }

    fn reach(&mut self, token: Option<Token>) -> Result<(), NoMemory>
        ensures { OnOk result (seen self.new ≡ record (seen self.old) { reached = raised_by token (seen self.old).reached }) }
    {
        match token {
            Some(token) => self.reached.reach(token),
            None => Ok(()),
        }
    }

    fn put_saves(&mut self, number: u32, saves: Saves) -> Result<(), NoMemory>
        ensures { OnOk result (seen self.new ≡ record (seen self.old) { saves = saving (Some saves) number (seen self.old).saves }) }
    {
        match self.saves.insert(number, saves) {
            Ok(_) => Ok(()),
            Err(_) => Err(NoMemory),
        }
    }
}

/// The token of a file's own transaction.
fn own_made(life: Life, number: u32) -> Option<Token>
    ensures { result ≡ own_made life number }
{
    if number == 0 {
        return None;
    }
    Some(Token::new(life, number))
}

/// The list, with the token or a higher one of its life.
fn higher_by(
    alloc: Global,
    token: Option<Token>,
    tokens: Vec<Token>,
) -> Result<Vec<Token>, NoMemory>
    ensures { IfOk result (λ r. r.items ≡ higher_by token tokens.items) }
{
    match token {
        Some(token) => higher(alloc, token, tokens),
        None => Ok(tokens),
    }
}

/// The same where there is one. The list is written anew: it is short.
fn higher(alloc: Global, token: Token, tokens: Vec<Token>) -> Result<Vec<Token>, NoMemory>
    ensures { IfOk result (λ r. r.items ≡ higher token tokens.items) }
{
    let mut all = Vec::new(alloc);
    let mut is_there = false;
    for found in tokens.as_slice() {
        let is_same = !is_there && found.life() == token.life();
        is_there |= is_same;
        keep(&mut all, chosen(is_same, *found, token))?;
    }
    if !is_there {
        keep(&mut all, token)?;
    }
    Ok(all)
}

/// Of two tokens of one life the higher one; else the first.
fn chosen(is_same: bool, found: Token, token: Token) -> Token
    ensures { result ≡ chosen is_same found token }
{
    if is_same && found.number() < token.number() {
        token
    } else {
        found
    }
}

fn keep(tokens: &mut Vec<Token>, token: Token) -> Result<(), NoMemory>
    ensures { OnOk result (tokens.new.items ≡ tokens.old.items ++ token ∷ []) }
{
    match tokens.push(token) {
        Ok(()) => Ok(()),
        Err(_) => Err(NoMemory),
    }
}

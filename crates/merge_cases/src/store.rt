use crate::failure::Failure;
use crate::fields::{cut, edits, let_go, number};
use std::alloc::Global;
use sync_base::{Break, Changeset, Instr, MOST_PAYLOAD};
use sync_dump::dump_lines;
use sync_store::{AllRefusal, ApplyRefusal, Store};

/// What the stores of the next cases have at first.
#[derive(Drop)]
pub struct Base {
    alloc: Global,
    changes: Changeset,
}

/// Whether the case of a line holds. A line `base EDITS` says what the next cases begin with.
pub fn holds(base: &mut Base, line: &str) -> Result<bool, Failure> {
    let (word, rest) = cut(line);
    let (edits, want) = cut(rest);
    let changes = changes_of(base.alloc, edits)?;
    match word {
        "base" => {
            base.changes = changes;
            base.store()?;
            Ok(true)
        }
        "shows" => base.shows(&changes, want),
        "acts" => base.takes_each(changes.instrs()),
        "refuses" => {
            let (place, code) = cut(want);
            base.refuses(&changes, number(place)?, number(code)?)
        }
        _ => Err(Failure::Line),
    }
}

fn changes_of(alloc: Global, field: &str) -> Result<Changeset, Failure> {
    Ok(Changeset::checked(0, edits(alloc, field)?)?)
}

impl Base {
    pub fn empty(alloc: Global) -> Result<Base, Failure> {
        let changes = Changeset::checked(0, Vec::new(alloc))?;
        Ok(Base { alloc, changes })
    }

    fn store(&self) -> Result<Store, Failure> {
        let mut store = Store::new(self.alloc)?;
        match store.apply_all(&self.changes) {
            Ok(()) => Ok(store),
            Err(_) => Err(Failure::Line),
        }
    }

    /// Whether the instructions act one after the other, and all together, and the store shows these lines then.
    fn shows(&self, changes: &Changeset, want: &str) -> Result<bool, Failure> {
        let lines = lines_of(self.alloc, want)?;
        let mut whole = self.store()?;
        let mut one_by_one = self.store()?;
        let acts = whole.apply_all(changes).is_ok();
        let each_acts = take_all(&mut one_by_one, changes.instrs())?;
        let same = self.is_shown(&whole, lines.as_slice())?
            & self.is_shown(&one_by_one, lines.as_slice())?;
        Ok(acts & each_acts & same)
    }

    /// Whether each of the instructions alone acts.
    fn takes_each(&self, instrs: &[Instr]) -> Result<bool, Failure> {
        for instr in instrs {
            if !gives(&mut self.store()?, instr, 0)? {
                return Ok(false);
            }
        }
        Ok(true)
    }

    /// Whether the instruction at that place is the first that doesn't act, by this code, and nothing changes.
    fn refuses(&self, changes: &Changeset, place: u32, code: u32) -> Result<bool, Failure> {
        let mut store = self.store()?;
        let before = dump_lines(self.alloc, &store)?;
        let refused = match store.apply_all(changes) {
            Err(AllRefusal::Break { place: at, cause }) => at == place as u64
                && is_code(cause, code),
            _ => false,
        };
        let same = self.is_shown(&store, before.as_slice())?;
        Ok(refused & same & self.refuses_at(changes.instrs(), place as usize, code)?)
    }

    /// The same of the instructions one after the other.
    fn refuses_at(&self, instrs: &[Instr], place: usize, code: u32) -> Result<bool, Failure> {
        let mut store = self.store()?;
        let Some(instr) = instrs.get(place) else {
            return Ok(false);
        };
        for earlier in instrs.iter().take(place) {
            if !gives(&mut store, earlier, 0)? {
                return Ok(false);
            }
        }
        let before = dump_lines(self.alloc, &store)?;
        let refused = gives(&mut store, instr, code)?;
        Ok(refused & self.is_shown(&store, before.as_slice())?)
    }

    fn is_shown(&self, store: &Store, lines: &[u8]) -> Result<bool, Failure> {
        let found = dump_lines(self.alloc, store)?;
        Ok(found.as_slice() == lines)
    }
}

/// Lines that are parted by tabs.
fn lines_of(alloc: Global, fields: &str) -> Result<Vec<u8>, Failure> {
    let mut lines = Vec::new(alloc);
    for byte in fields.as_bytes() {
        lines.push(if *byte == b'\t' { b'\n' } else { *byte })?;
    }
    if !fields.is_empty() {
        lines.push(b'\n')?;
    }
    Ok(lines)
}

fn is_code(cause: Break, code: u32) -> bool {
    cause.code() as u32 == code
}

/// The code by which a look refuses an instruction, 0 where it acts.
fn looked(store: &Store, instr: &Instr) -> u8 {
    match store.check(instr) {
        Ok(()) => 0,
        Err(cause) => cause.code(),
    }
}

/// The code by which an attempt refuses an instruction, 0 where it acts; 255 where it is too large or memory ran out.
fn tried(store: &mut Store, instr: Instr) -> u8 {
    if instr.payload() > MOST_PAYLOAD {
        let_go(instr);
        return 255;
    }
    match store.apply(instr) {
        Ok(()) => 0,
        Err(ApplyRefusal::Break(cause)) => cause.code(),
        Err(ApplyRefusal::NoMemory) => 255,
    }
}

/// Whether a look and an attempt give this code, 0 where the instruction acts.
fn gives(store: &mut Store, instr: &Instr, code: u32) -> Result<bool, Failure> {
    let by_look = looked(store, instr) as u32;
    let by_attempt = tried(store, instr.copy()?) as u32;
    Ok((by_look == code) & (by_attempt == code))
}

fn take_all(store: &mut Store, instrs: &[Instr]) -> Result<bool, Failure> {
    for instr in instrs {
        if !gives(store, instr, 0)? {
            return Ok(false);
        }
    }
    Ok(true)
}

ghost use Rattle.std.specs.Prelude.{◌≡◌, ◌≤◌, ◌++◌, ◌∷◌, [], true, map, IfOk, OnOk};
ghost use Rattle.sync_model.specs.Cuts.{cut, closed};
ghost use Rattle.sync_exchange.specs.Profile.{fits_changeset, weight};
ghost use Rattle.sync_snapshot.specs.Parts.{untimed, parts_with, Takes};

use super::whole::weight;
use std::alloc::Global;
use std::marker::Model;
use std::mem;
use sync_base::{Changeset, Instr, MOST_INSTRS, MOST_PAYLOAD, NoMemory};

/// Cuts instructions into changesets as they come: each is the longest beginning of the rest within the limits.
#[derive(Drop)]
pub(crate) struct Cutter {
    alloc: Global,
    parts: Vec<Changeset>,
    part: Vec<Instr>,
    payload: u64,
}

impl Model for Cutter {
    ghost use Rattle.std.specs.Prelude.{◌≡◌, ◌≤◌, length, sum_by};
    ghost use Rattle.sync_exchange.specs.Profile.{weight};
    ghost use Rattle.sync_snapshot.specs.Parts.{Cut};

    ghost Value = { Cut };

    ghost view = { λ a. record { parts = a.parts.items; part = a.part.items } };

    ghost invariant = { λ a. (a.payload ≡ sum_by weight a.part.items) × (a.payload ≤ 4194304) × (length a.part.items ≤ 65536) };
}

impl Cutter {
    /// No instructions yet.
    pub fn new(alloc: Global) -> Cutter
        ensures { result ≡ record { parts = []; part = [] } }
    {
        Cutter {
            alloc,
            parts: Vec::new(alloc),
            part: Vec::new(alloc),
            payload: 0,
        }
    }

    /// Takes the next instructions, in order.
    pub fn push_all(&mut self, instrs: Vec<Instr>) -> Result<(), NoMemory>
        ensures { OnOk result (Takes self.old self.new instrs.items) }
    {
        for instr in instrs {
            self.push(instr)?;
        }
        Ok(())
    }

    /// Takes the next instruction. One that no changeset can bear is refused; no store holds what would need one.
    pub fn push(&mut self, instr: Instr) -> Result<(), NoMemory>
        ensures { OnOk result (Takes self.old self.new (instr ∷ [])) }
    {
        let Some(bytes) = weight(&instr) else {
            drop(instr);
            return Err(NoMemory);
        };
        if self.has_room(&instr, bytes) {
            return self.put(instr, bytes);
        }
        match self.close() {
            Ok(()) => self.put(instr, bytes),
            Err(NoMemory) => {
                drop(instr);
                Err(NoMemory)
            }
        }
    }

    /// Whether the open changeset is within the limits with one more instruction of so many bytes.
    fn has_room(&self, instr: &Instr, bytes: u64) -> bool
        requires weight { bytes ≡ weight instr.now }
        requires small { bytes ≤ 4194304 }
        ensures { result ≡ fits_changeset (self.now.part ++ instr.now ∷ []) }
    {
        let _ = instr;
        let count = self.part.len() as u64 + 1;
        let payload = self.payload + bytes;
        count <= MOST_INSTRS && payload <= MOST_PAYLOAD
    }

    /// Puts an instruction at the end of the open changeset, where it is within the limits.
    fn put(&mut self, instr: Instr, bytes: u64) -> Result<(), NoMemory>
        requires weight { bytes ≡ weight instr }
        requires small { bytes ≤ 4194304 }
        requires fits { fits_changeset (self.old.part ++ instr ∷ []) ≡ true }
        ensures { OnOk result (self.new ≡ record { parts = self.old.parts; part = self.old.part ++ instr ∷ [] }) }
    {
        let payload = self.payload + bytes;
        match self.part.push(instr) {
            Ok(()) => {
                self.payload = payload;
                Ok(())
            }
            Err(failed) => {
                drop(failed);
                Err(NoMemory)
            }
        }
    }

    /// Closes the changeset that is open, if it has instructions.
    fn close(&mut self) -> Result<(), NoMemory>
        ensures { OnOk result (self.new ≡ record { parts = self.old.parts ++ map untimed (closed self.old.part []); part = [] }) }
    {
        if self.part.is_empty() {
            return Ok(());
        }
        let empty = Vec::new(self.alloc);
        let instrs = mem::replace(&mut self.part, empty);
        self.payload = 0;
        let Ok(part) = Changeset::checked(0, instrs) else {
            return Err(NoMemory);
        };
        match self.parts.push(part) {
            Ok(()) => Ok(()),
            Err(_) => Err(NoMemory),
        }
    }

    /// All changesets.
    pub fn finish(self) -> Result<Vec<Changeset>, NoMemory>
        ensures { IfOk result (λ parts. parts.items ≡ parts_with self []) }
    {
        let mut cutter = self;
        cutter.close()?;
        Ok(cutter.parts)
    }
}

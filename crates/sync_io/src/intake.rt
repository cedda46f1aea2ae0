ghost use Rattle.std.specs.Prelude.{◌≡◌, ◌+◌, ◌-◌, ◌++◌, ℕ, ◌<◌, ◌≤◌, List, [], drop, length, Ok, Err, Some, IfOk, IfErr, OnOk, OnErr, IfSome};
ghost use Rattle.sync_io.specs.Faults.{HasRisen};
ghost use Rattle.sync_io.specs.Input.{input_of, max_input};
ghost use Rattle.sync_io.specs.Intakes.{Filled, IsFillRefusal};

use super::fill::Fill;
use super::memory::NoMemory;
use super::refusal::ReadRefusal;
use super::source::Source;
use std::alloc::Global;
use std::marker::Model;

/// As many bytes are read from one source, and no more.
pub const MAX_INPUT: u64 = 4_294_967_296;

/// As many bytes are asked for at a time.
const PIECE: usize = 8_192;

/// The bytes that were read and not handed out, and how many were read in all.
#[derive(Drop)]
pub struct Intake {
    bytes: Vec<u8>,
    start: usize,
    taken: u64,
}

impl Model for Intake {
    ghost use Rattle.std.specs.Prelude.{drop};
    ghost use Rattle.sync_io.specs.Intakes.{Taken, IsIntake};

    ghost Value = { Taken };

    ghost view = { λ a. record { held = drop a.start a.bytes.items; taken = a.taken } };

    ghost invariant = { λ a. IsIntake a.start a.bytes.items a.taken };
}

impl Intake {
    /// An intake that has read nothing.
    pub fn new(alloc: Global) -> Result<Intake, NoMemory>
        ensures { IfOk result (λ made. made ≡ record { held = []; taken = 0 }) }
    {
        let Ok(bytes) = Vec::with_capacity(alloc, PIECE) else {
            return Err(NoMemory);
        };
        Ok(Intake {
            bytes,
            start: 0,
            taken: 0,
        })
    }

    /// The bytes that were read and not handed out.
    pub fn held(&self) -> &[u8]
        ensures held { result.now ≡ self.now.held }
        ensures small { length self.now.held ≤ self.now.taken }
        ensures most { self.now.taken ≤ max_input }
    {
        &self.bytes[self.start..]
    }

    /// What its memory comes from.
    pub fn allocator(&self) -> Global {
        *self.bytes.allocator()
    }

    /// Hands out so many bytes.
    pub fn skip(&mut self, count: usize)
        requires { count ≤ length self.old.held }
        ensures { self.new ≡ record { held = drop count self.old.held; taken = self.old.taken } }
    {
        self.start += count;
    }

    /// How many bytes may still be read.
    fn room(&self) -> u64
        ensures { result + self.now.taken ≡ max_input }
    {
        MAX_INPUT - self.taken
    }

    /// Forgets what was handed out.
    fn close_up(&mut self)
        ensures { self.new ≡ self.old }
    {
        if self.start > 0 {
            let length = self.bytes.len() - self.start;
            self.bytes.copy_within(self.start.., 0);
            self.bytes.truncate(length);
            self.start = 0;
        }
    }

    /// Keeps bytes that were read.
    fn keep(&mut self, piece: &[u8]) -> Result<(), NoMemory>
        requires { self.old.taken + length piece.now ≤ max_input }
        ensures ok { OnOk result (self.new ≡ record { held = self.old.held ++ piece.now; taken = self.old.taken + length piece.now }) }
        ensures err { OnErr result (self.new ≡ self.old) }
    {
        self.close_up();
        if self.bytes.extend_from_slice(piece).is_err() {
            return Err(NoMemory);
        }
        self.taken += piece.len() as u64;
        Ok(())
    }

    /// Reads more bytes, once.
    pub fn fill<S: Source>(&mut self, source: &mut S) -> Result<Fill, ReadRefusal>
        ensures same { IfOk result (λ _. input_of self.new.taken self.new.held (S.left source.new)
            ≡ input_of self.old.taken self.old.held (S.left source.old)) }
        ensures filled { IfOk result (λ fill. Filled fill self.old self.new (S.left source.new)) }
        ensures err { OnErr result (self.new ≡ self.old) }
        ensures most { self.new.taken ≤ max_input }
        ensures faults { S.faults source.old ≤ S.faults source.new }
        ensures cause { result ≡ Err ReadRefusal.Failed → HasRisen (S.faults source.old) (S.faults source.new) }
        ensures only { IfErr result IsFillRefusal }
    {
        let room = self.room().min(PIECE as u64) as usize;
        if room == 0 {
            return Ok(Fill::Full);
        }
        let mut space = [0u8; PIECE];
        let piece = &mut space[..room];
        let Ok(count) = source.read(piece) else {
            return Err(ReadRefusal::Failed);
        };
        if count == 0 {
            return Ok(Fill::End);
        }
        match self.keep(&piece[..count]) {
            Ok(()) => Ok(Fill::More),
            Err(NoMemory) => Err(ReadRefusal::NoMemory),
        }
    }
}

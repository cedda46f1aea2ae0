ghost use Rattle.std.specs.Prelude.{◌≡◌, length, IfOk, IsOk, IfErr, ◌↔◌};
ghost use Rattle.sync_data.specs.Payload.{payload_all, capped, Changes, IsSmall};

use super::instr::Instr;
use super::memory::NoMemory;
use std::marker::Model;

/// The most instructions of a changeset.
pub const MOST_INSTRS: u64 = 65_536;

/// The most bytes that the instructions of a changeset carry together.
pub const MOST_PAYLOAD: u64 = 4_194_304;

/// Too many instructions, or too many bytes that they carry; both sums. A payload above 2^64 - 1 is given as 2^64 - 1.
#[derive(Clone, Copy, Debug, PartialEq, Eq)]
pub struct TooLarge {
    pub instrs: u64,
    pub payload: u64,
}

/// The instructions of one transaction, with its time in milliseconds since the epoch.
/// At most 65,536 instructions, which carry at most 4,194,304 bytes.
pub struct Changeset {
    ms: u64,
    instrs: Vec<Instr>,
}

impl Drop for Changeset {
    fn drop(self) {
        let Changeset { ms: _, instrs: _ } = self;
    }
}

impl Model for Changeset {
    ghost use Rattle.sync_data.specs.Payload.{Changes, IsSmall};

    ghost Value = { Changes };

    ghost view = { λ a. record { ms = a.ms; instrs = a.instrs.items } };

    ghost invariant = { λ a. IsSmall a.instrs.items };
}

impl Changeset {
    /// A changeset of these, where they are few and small enough. It takes no memory.
    pub fn checked(ms: u64, instrs: Vec<Instr>) -> Result<Changeset, TooLarge>
        ensures ok { IfOk result (λ made. made ≡ record { ms = ms; instrs = instrs.items }) }
        ensures good { IsOk result ↔ IsSmall instrs.items }
        ensures large { IfErr result (λ e. (e.instrs ≡ length instrs.items) × (e.payload ≡ capped (payload_all instrs.items))) }
    {
        let mut payload: u64 = 0;
        for instr in instrs.as_slice() {
            payload = payload.saturating_add(instr.payload());
        }
        let count = instrs.len() as u64;
        if count <= MOST_INSTRS && payload <= MOST_PAYLOAD {
            Ok(Changeset { ms, instrs })
        } else {
            Err(TooLarge {
                instrs: count,
                payload,
            })
        }
    }

    /// The time, in milliseconds since the epoch.
    pub fn ms(&self) -> u64
        ensures { result ≡ self.now.ms }
    {
        self.ms
    }

    /// The instructions, in order.
    pub fn instrs(&self) -> &[Instr]
        ensures listed { result.now ≡ self.now.instrs }
        ensures small { IsSmall self.now.instrs }
    {
        self.instrs.as_slice()
    }

    /// The instructions, given back. It takes no memory.
    pub fn into_instrs(self) -> Vec<Instr>
        ensures listed { result.items ≡ self.instrs }
        ensures small { IsSmall self.instrs }
    {
        let Changeset { ms: _, instrs } = self;
        instrs
    }

    /// An equal changeset.
    pub fn copy(&self) -> Result<Changeset, NoMemory>
        ensures equal { IfOk result (λ copy. copy ≡ self.now) }
    {
        match self.instrs.clone() {
            Ok(instrs) => Ok(Changeset {
                ms: self.ms,
                instrs,
            }),
            Err(_) => Err(NoMemory),
        }
    }
}

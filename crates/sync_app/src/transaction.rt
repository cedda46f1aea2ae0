ghost use Rattle.std.specs.Prelude.{◌≡◌, ◌+◌, ◌<◌, [], None, true, length, vec_len, vec_capacity, OnOk, OnErr};
ghost use Rattle.sync_base.specs.Effects.{effect_of, is_effect};
ghost use Rattle.sync_data.specs.Payload.{capped, payload};
ghost use Rattle.sync_app.specs.Drafts.{IsDraft, Puts, Weighs};
ghost use Rattle.sync_app.specs.Sketches.{ShowsSame, Takes, note_of};

use super::refusal::Refusal;
use super::sketch::Sketch;
use super::slots::{let_go, make_room, put_last};
use std::alloc::Global;
use std::marker::Model;
use sync_base::{Instr, MOST_INSTRS, MOST_PAYLOAD, NoMemory};
use sync_store::Store;

/// Instructions that act one after the other on objects, built one by one. The objects stay as they are: whoever lets a
/// transaction go has changed nothing.
#[derive(Drop)]
pub struct Transaction<'a> {
    pub(crate) sketch: Sketch<'a>,
    instrs: Vec<Instr>,
    payload: u64,
}

impl<'a> Model for Transaction<'a> {
    ghost use Rattle.std.specs.Coded.{codes};
    ghost use Rattle.sync_app.specs.Codes.{coded_draft};
    ghost use Rattle.sync_app.specs.Drafts.{Draft};
    ghost use Rattle.sync_app.specs.Keeping.{Keeps};

    ghost Value = { Draft };

    ghost coded = { coded_draft (Prim.hlevel codes) };

    ghost view = { λ a. record { base = a.sketch.objects.now; instrs = a.instrs.items } };

    ghost invariant = { λ a. Keeps a.sketch a.instrs.items a.payload };
}

impl<'a> Transaction<'a> {
    /// A transaction without instructions. It takes no memory.
    pub fn new(alloc: Global, objects: &'a Store) -> Transaction<'a>
        ensures { result ≡ record { base = objects.now; instrs = [] } }
    {
        objects.keeps_its_limits();
        Transaction {
            sketch: Sketch::new(alloc, objects),
            instrs: Vec::new(alloc),
            payload: 0,
        }
    }

    /// The instructions so far.
    pub fn instrs(&self) -> &[Instr]
        ensures listed { result.now ≡ self.now.instrs }
        ensures draft { IsDraft self.now }
    {
        self.instrs.as_slice()
    }

    /// The instructions, to be committed. It takes no memory.
    pub fn finish(self) -> Vec<Instr>
        ensures listed { result.items ≡ self.entry.instrs }
        ensures draft { IsDraft self.entry }
    {
        self.instrs
    }

    /// Adds an instruction, where it acts after those before it.
    pub fn put(&mut self, instr: Instr) -> Result<(), Refusal>
        ensures { Puts result instr self.old self.new }
    {
        let payload = match self.weigh(&instr) {
            Ok(payload) => payload,
            Err(refusal) => {
                let_go(instr);
                return Err(refusal);
            }
        };
        match prepare(&mut self.sketch, &mut self.instrs, &instr) {
            Ok(()) => {}
            Err(_) => {
                let_go(instr);
                return Err(Refusal::NoMemory);
            }
        }
        put_last(&mut self.instrs, instr);
        self.payload = payload;
        Ok(())
    }

    /// The bytes that the instructions carry with one more, which acts after them and is not too much.
    fn weigh(&self, instr: &Instr) -> Result<u64, Refusal>
        ensures { Weighs result instr.now self.now }
    {
        match self.sketch.check(instr) {
            Ok(()) => {}
            Err(refusal) => return Err(refusal),
        }
        is_placed(instr);
        let payload = weight_with(self.payload, instr);
        if payload > MOST_PAYLOAD {
            return Err(Refusal::TooLarge);
        }
        if self.instrs.len() as u64 >= MOST_INSTRS {
            return Err(Refusal::TooLarge);
        }
        Ok(payload)
    }
}

/// Makes room for an instruction that acts, and follows it in the sketch; or, where memory is wanting, neither.
fn prepare(sketch: &mut Sketch<'_>, instrs: &mut Vec<Instr>, instr: &Instr) -> Result<(), NoMemory>
    requires { length instrs.old.items < 65536 }
    ensures room { OnOk result (vec_len instrs.new < vec_capacity instrs.new) }
    ensures taken { OnOk result (Takes (note_of sketch.old (length instrs.old.items) (effect_of instr.now)) sketch.old sketch.new) }
    ensures unchanged { OnErr result (ShowsSame sketch.old sketch.new) }
    ensures instrs { instrs.new.items ≡ instrs.old.items }
{
    make_room(instrs)?;
    sketch.follow(instr, instrs.len())
}

/// The bytes that instructions carry, with one more.
fn weight_with(weight: u64, instr: &Instr) -> u64
    ensures { result ≡ capped (weight + payload instr.now) }
{
    weight.saturating_add(instr.payload())
}

/// The place of every instruction lies in the list of which it has the length.
fn is_placed(instr: &Instr) -> bool
    ensures { is_effect (effect_of instr.now) ≡ true }
{
    match instr {
        Instr::ListUpdate(i) => i.spot.place() < i.spot.prior(),
        Instr::ListInsert(i) => i.spot.place() <= i.spot.prior(),
        Instr::ListErase(i) => i.spot.place() < i.spot.prior(),
        _ => true,
    }
}

ghost use Rattle.std.specs.Prelude.{◌≡◌, ◌+◌, ◌*◌, ◌<◌, take, drop, ℕ, ◌≤◌, List, [], length, Ok, Err, Some, None, IfOk, IfErr, IfSome, OnErr, OnOk};
ghost use Rattle.sync_io.specs.Faults.{HasRisen};
ghost use Rattle.sync_io.specs.Input.{input_of, max_input};
ghost use Rattle.sync_io.specs.Found.{KeepsInput};
ghost use Rattle.sync_io.specs.Framing.{front_of};
ghost use Rattle.sync_io.specs.FrameReaders.{AnswersFrame, CountsFrame, FindsFrame, framings_of};

use super::fill::Fill;
use super::framing::{Ahead, Front};
use super::intake::Intake;
use super::memory::NoMemory;
use super::refusal::ReadRefusal;
use super::source::Source;
use byteorder::{BigEndian, ByteOrder};
use std::alloc::Global;
use std::marker::Model;

const MAX_FRAME: usize = 67_108_864;

/// As many bytes tell a frame's length.
const SIZE: usize = 4;

/// Reads frames (docs/FORMATS.md, "Frames"): a length in four bytes, the highest first, and so many
/// bytes. After a refusal the reader answers that refusal again, without reading; after `NoMemory`
/// it isn't used again.
#[derive(Drop)]
pub struct FrameReader {
    intake: Intake,
    frames: u64,
    refused: Option<ReadRefusal>,
}

impl Model for FrameReader {
    ghost use Rattle.std.specs.Prelude.{◌≤◌, ◌+◌, length};
    ghost use Rattle.sync_io.specs.FrameReaders.{FrameState, IsFrameCounted};

    ghost Value = { FrameState };

    ghost view = { λ r. record { held = r.intake.held; taken = r.intake.taken; frames = r.frames; refused = r.refused } };

    ghost invariant = { λ r. IsFrameCounted r.frames r.intake.held r.intake.taken };
}

/// What stands at the front of the bytes.
#[tactic(auto, unfolding(crate::specs::Framing::front_of, crate::specs::Framing::size_of))]
fn front(bytes: &[u8]) -> Front
    ensures { result ≡ front_of bytes.now }
{
    if bytes.len() < SIZE {
        return Front::Part;
    }
    let size = BigEndian::read_u32(bytes) as usize;
    if size > MAX_FRAME {
        return Front::Long;
    }
    if bytes.len() < SIZE + size {
        return Front::Part;
    }
    Front::Whole { size }
}

/// Reads until the frame under way is whole.
fn find_frame<S: Source>(intake: &mut Intake, source: &mut S) -> Result<Ahead, ReadRefusal>
    ensures same { KeepsInput result (input_of intake.old.taken intake.old.held (S.left source.old))
        (input_of intake.new.taken intake.new.held (S.left source.new)) }
    ensures found { FindsFrame result intake.new (S.left source.new) }
    ensures counted { length intake.new.held + intake.old.taken ≡ length intake.old.held + intake.new.taken }
    ensures most { intake.new.taken ≤ max_input }
    ensures faults { S.faults source.old ≤ S.faults source.new }
    ensures cause { result ≡ Err ReadRefusal.Failed → HasRisen (S.faults source.old) (S.faults source.new) }
{
    'pieces: loop {
        match front(intake.held()) {
            Front::Whole { size } => return Ok(Ahead::Frame { size }),
            Front::Long => return Err(ReadRefusal::TooLong),
            Front::Part => {}
        }
        match intake.fill(source)? {
            Fill::More => {}
            Fill::End => return Ok(Ahead::End),
            Fill::Full => return Ok(Ahead::Full),
        }
    }
}

/// Hands out so many bytes behind the length in front.
fn take_frame(intake: &mut Intake, size: usize) -> Result<Vec<u8>, ReadRefusal>
    requires { 4 + size ≤ length intake.old.held }
    ensures frame { IfOk result (λ frame. frame.items ≡ take size (drop 4 intake.old.held)) }
    ensures rest { OnOk result (intake.new ≡ record { held = drop (4 + size) intake.old.held; taken = intake.old.taken }) }
    ensures most { intake.new.taken ≤ max_input }
    ensures err { OnErr result ((result ≡ Err ReadRefusal.NoMemory) × (intake.new ≡ intake.old)) }
{
    let held = intake.held();
    let end = SIZE + size;
    let Ok(frame) = Vec::from_slice(intake.allocator(), &held[SIZE..end]) else {
        return Err(ReadRefusal::NoMemory);
    };
    intake.skip(end);
    Ok(frame)
}

impl FrameReader {
    /// A reader that has read nothing.
    pub fn new(alloc: Global) -> Result<FrameReader, NoMemory>
        ensures { IfOk result (λ made. made ≡ record { held = []; taken = 0; frames = 0; refused = None }) }
    {
        Ok(FrameReader {
            intake: Intake::new(alloc)?,
            frames: 0,
            refused: None,
        })
    }

    /// The next frame without its length, or None at the end of the input.
    pub fn next<S: Source>(&mut self, source: &mut S) -> Result<Option<Vec<u8>>, ReadRefusal>
        // Over a source that tells its bytes: the first of what the input gives.
        ensures reads { self.old.refused ≡ None → AnswersFrame result
            (framings_of self.old (S.left source.old)) (framings_of self.new (S.left source.new)) }
        ensures counts { self.old.refused ≡ None → CountsFrame result self.old.frames self.new.frames }
        ensures few { 4 * self.new.frames ≤ max_input }

        // A refusal is kept to, and then nothing is read.
        ensures ok { OnOk result ((self.old.refused ≡ None) × (self.new.refused ≡ None)) }
        ensures keeps { IfErr result (λ refusal. self.new.refused ≡ Some refusal) }
        ensures again { IfSome self.old.refused
            (λ refusal. (result ≡ Err refusal) × (self.new ≡ self.old) × (source.new ≡ source.old)) }

        ensures faults { S.faults source.old ≤ S.faults source.new }
        ensures cause { result ≡ Err ReadRefusal.Failed → self.old.refused ≡ None
            → HasRisen (S.faults source.old) (S.faults source.new) }
    {
        if let Some(refusal) = self.refused {
            return Err(refusal);
        }
        match self.read_frame(source) {
            Ok(frame) => Ok(frame),
            Err(refusal) => {
                self.refused = Some(refusal);
                Err(refusal)
            }
        }
    }

    /// The next frame of a reader that refused nothing yet.
    fn read_frame<S: Source>(&mut self, source: &mut S) -> Result<Option<Vec<u8>>, ReadRefusal>
        requires { self.old.refused ≡ None }
        ensures reads { AnswersFrame result (framings_of self.old (S.left source.old))
            (framings_of self.new (S.left source.new)) }
        ensures counts { CountsFrame result self.old.frames self.new.frames }
        ensures few { 4 * self.new.frames ≤ max_input }
        ensures refused { self.new.refused ≡ None }
        ensures faults { S.faults source.old ≤ S.faults source.new }
        ensures cause { result ≡ Err ReadRefusal.Failed
            → HasRisen (S.faults source.old) (S.faults source.new) }
    {
        match find_frame(&mut self.intake, source) {
            Ok(Ahead::Frame { size }) => {
                let frame = take_frame(&mut self.intake, size)?;
                self.frames += 1;
                Ok(Some(frame))
            }
            Ok(Ahead::End) => {
                if self.intake.held().len() == 0 {
                    return Ok(None);
                }
                Err(ReadRefusal::Cut)
            }
            Ok(Ahead::Full) => Err(ReadRefusal::InputTooLong),
            Err(refusal) => Err(refusal),
        }
    }
}

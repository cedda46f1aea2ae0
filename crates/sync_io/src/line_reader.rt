ghost use Rattle.std.specs.Prelude.{◌≡◌, ◌+◌, ◌<◌, take, drop, ℕ, ◌≤◌, List, [], length, Ok, Err, Some, None, ◌==◌, position, IfOk, IfErr, IfSome, OnErr, OnOk};
ghost use Rattle.sync_io.specs.Faults.{HasRisen};
ghost use Rattle.sync_io.specs.Input.{input_of, max_input};
ghost use Rattle.sync_io.specs.Reading.{feed_place, line_feed};
ghost use Rattle.sync_io.specs.Found.{FindsEnd, KeepsInput};
ghost use Rattle.sync_io.specs.Readers.{AnswersLine, CountsLine, readings_of};

use super::fill::Fill;
use super::found::Found;
use super::intake::Intake;
use super::memory::NoMemory;
use super::refusal::ReadRefusal;
use super::source::Source;
use std::alloc::Global;
use std::marker::Model;

const MAX_LINE: usize = 67_108_864;

/// Reads lines (docs/FORMATS.md, "Lines"). A line ends at a line feed, which isn't part of it. The
/// last line may lack it. After a refusal the reader answers that refusal again, without reading;
/// after `NoMemory` it isn't used again.
#[derive(Drop)]
pub struct LineReader {
    intake: Intake,
    lines: u64,
    refused: Option<ReadRefusal>,
}

impl Model for LineReader {
    ghost use Rattle.std.specs.Prelude.{◌≤◌, ◌+◌, length};
    ghost use Rattle.sync_io.specs.Readers.{LineState, IsCounted};

    ghost Value = { LineState };

    ghost view = { λ r. record { held = r.intake.held; taken = r.intake.taken; lines = r.lines; refused = r.refused } };

    ghost invariant = { λ r. IsCounted r.lines r.intake.held r.intake.taken };
}

fn first_feed(bytes: &[u8]) -> Option<usize>
    ensures { result ≡ position (λ b. b == line_feed) bytes.now }
{
    bytes.iter().position(|b| *b == b'\n')
}

/// The place of the first line feed, or the length where there is none. There is none before
/// `seen`.
#[tactic(auto, using(crate::proofs::Feeds::feed_within))]
fn feed_place(bytes: &[u8], seen: usize) -> usize
    requires { seen ≤ feed_place bytes.now }
    ensures place { result ≡ feed_place bytes.now }
    ensures within { result ≤ length bytes.now }
{
    let rest = &bytes[seen..];
    seen + first_feed(rest).unwrap_or(rest.len())
}

/// Reads until the line under way has its end.
fn find_end<S: Source>(intake: &mut Intake, source: &mut S) -> Result<Found, ReadRefusal>
    ensures same { KeepsInput result (input_of intake.old.taken intake.old.held (S.left source.old))
        (input_of intake.new.taken intake.new.held (S.left source.new)) }
    ensures found { FindsEnd result intake.new (S.left source.new) }
    ensures counted { length intake.new.held + intake.old.taken ≡ length intake.old.held + intake.new.taken }
    ensures most { intake.new.taken ≤ max_input }
    ensures faults { S.faults source.old ≤ S.faults source.new }
    ensures cause { result ≡ Err ReadRefusal.Failed → HasRisen (S.faults source.old) (S.faults source.new) }
{
    let mut seen = 0;
    'pieces: loop {
        let held = intake.held();
        let place = feed_place(held, seen);
        if place > MAX_LINE {
            return Err(ReadRefusal::TooLong);
        }
        if place < held.len() {
            return Ok(Found::Feed { place });
        }
        seen = place;
        match intake.fill(source)? {
            Fill::More => {}
            Fill::End => return Ok(Found::End),
            Fill::Full => return Ok(Found::Full),
        }
    }
}

/// Hands out so many bytes, and passes over some more.
fn take_line(intake: &mut Intake, count: usize, skipped: usize) -> Result<Vec<u8>, ReadRefusal>
    requires { count + skipped ≤ length intake.old.held }
    ensures line { IfOk result (λ line. line.items ≡ take count intake.old.held) }
    ensures rest { OnOk result (intake.new ≡ record { held = drop (count + skipped) intake.old.held; taken = intake.old.taken }) }
    ensures most { intake.new.taken ≤ max_input }
    ensures err { OnErr result ((result ≡ Err ReadRefusal.NoMemory) × (intake.new ≡ intake.old)) }
{
    let Ok(line) = Vec::from_slice(intake.allocator(), &intake.held()[..count]) else {
        return Err(ReadRefusal::NoMemory);
    };
    intake.skip(count + skipped);
    Ok(line)
}

impl LineReader {
    /// A reader that has read nothing.
    pub fn new(alloc: Global) -> Result<LineReader, NoMemory>
        ensures { IfOk result (λ made. made ≡ record { held = []; taken = 0; lines = 0; refused = None }) }
    {
        Ok(LineReader {
            intake: Intake::new(alloc)?,
            lines: 0,
            refused: None,
        })
    }

    /// The next line, where the whole of it was read already, and the line feed behind it.
    pub fn ahead(&self) -> Option<&[u8]>
        ensures line { IfSome result (λ line. line.now ≡ take (feed_place self.now.held) self.now.held) }
        ensures whole { IfSome result (λ line. length line.now < length self.now.held) }
    {
        let held = self.intake.held();
        let place = feed_place(held, 0);
        if place < held.len() {
            Some(&held[..place])
        } else {
            None
        }
    }

    /// The next line, or None at the end of the input.
    pub fn next<S: Source>(&mut self, source: &mut S) -> Result<Option<Vec<u8>>, ReadRefusal>
        // Over a source that tells its bytes: the first of what the input gives.
        ensures reads { self.old.refused ≡ None → AnswersLine result
            (readings_of self.old (S.left source.old)) (readings_of self.new (S.left source.new)) }
        ensures counts { self.old.refused ≡ None → CountsLine result self.old.lines self.new.lines }
        ensures few { self.new.lines ≤ max_input }

        // A refusal is kept to, and then nothing is read.
        ensures ok { OnOk result ((self.old.refused ≡ None) × (self.new.refused ≡ None)) }
        ensures keeps { IfErr result (λ refusal. self.new.refused ≡ Some refusal) }
        ensures again { IfSome self.old.refused
            (λ refusal. (result ≡ Err refusal) × (self.new ≡ self.old) × (source.new ≡ source.old)) }

        ensures faults { S.faults source.old ≤ S.faults source.new }
        ensures cause { result ≡ Err ReadRefusal.Failed → self.old.refused ≡ None
            → HasRisen (S.faults source.old) (S.faults source.new) }
    {
        if let Some(refusal) = self.refused {
            return Err(refusal);
        }
        match self.read_line(source) {
            Ok(line) => Ok(line),
            Err(refusal) => {
                self.refused = Some(refusal);
                Err(refusal)
            }
        }
    }

    /// The next line of a reader that refused nothing yet.
    fn read_line<S: Source>(&mut self, source: &mut S) -> Result<Option<Vec<u8>>, ReadRefusal>
        requires { self.old.refused ≡ None }
        ensures reads { AnswersLine result (readings_of self.old (S.left source.old))
            (readings_of self.new (S.left source.new)) }
        ensures counts { CountsLine result self.old.lines self.new.lines }
        ensures few { self.new.lines ≤ max_input }
        ensures refused { self.new.refused ≡ None }
        ensures faults { S.faults source.old ≤ S.faults source.new }
        ensures cause { result ≡ Err ReadRefusal.Failed
            → HasRisen (S.faults source.old) (S.faults source.new) }
    {
        match find_end(&mut self.intake, source) {
            Ok(Found::Feed { place }) => {
                let line = take_line(&mut self.intake, place, 1)?;
                self.lines += 1;
                Ok(Some(line))
            }
            Ok(Found::End) => {
                let count = self.intake.held().len();
                if count == 0 {
                    return Ok(None);
                }
                let line = take_line(&mut self.intake, count, 0)?;
                self.lines += 1;
                Ok(Some(line))
            }
            Ok(Found::Full) => Err(ReadRefusal::InputTooLong),
            Err(refusal) => Err(refusal),
        }
    }
}

ghost use Rattle.std.specs.Prelude.{◌≡◌, ℕ, ◌+◌, ◌≤◌, List, [], ◌++◌, length, IfOk, OnOk, Ok};
ghost use Rattle.std.specs.List.{list_any};
ghost use Rattle.sync_data.specs.Payload.{IsSmall, payload_all};
ghost use Rattle.sync_codec.specs.Fields.{Gives};
ghost use Rattle.sync_codec.specs.Spelling.{needs_second, spelling};
ghost use Rattle.sync_codec.specs.Decoding.{version_in, count_in, next_at, instrs_at, ended, listed_in, instrs_in, rule_number, bad_bytes, Answers, IsRead};
ghost use Rattle.sync_codec.specs.Valid.{AreInstrs};
ghost use Rattle.sync_data.specs.declared.instr.Instr.{Instr};

use crate::fields::{byte_of, number32_of};
use crate::reader::Reader;
use crate::refusal::{BadBytes, DecodeRefusal, Fault, ReadRefusal, Rule, broken};
use crate::strings::table_of;
use std::alloc::Global;
use sync_base::{AddColumn, Changeset, Instr, MOST_INSTRS, MOST_PAYLOAD, Shape};
use sync_intern::Strings;

/// Whether the version at the front is the second.
#[tactic(auto, unfolding(crate::specs::Decoding::version_in))]
fn version_of(bytes: &[u8]) -> Result<(bool, &[u8]), ReadRefusal>
    ensures { Gives (λ x. (x.0, x.1.now)) result (version_in bytes.now) }
{
    let (byte, rest) = byte_of(bytes)?;
    match byte {
        1 => Ok((false, rest)),
        2 => Ok((true, rest)),
        _ => broken(bytes, Rule::Version),
    }
}

/// The number of instructions at the front.
#[tactic(auto, unfolding(crate::specs::Decoding::count_in))]
fn count_of(bytes: &[u8]) -> Result<(u32, &[u8]), ReadRefusal>
    ensures count { Gives (λ x. (x.0, x.1.now)) result (count_in bytes.now) }
    ensures small { IfOk result (λ x. x.0 ≤ 65536) }
{
    let (count, rest) = number32_of(bytes)?;
    if count as u64 > MOST_INSTRS {
        return broken(bytes, Rule::TooLarge);
    }
    Ok((count, rest))
}

/// Whether an instruction isn't in the first version.
pub fn needs_second(instr: &Instr) -> bool
    ensures { result ≡ needs_second instr.now }
{
    match instr {
        Instr::DictUpdate(_) => true,
        Instr::Clear(_) => true,
        Instr::AddColumn(i) => has_dictionaries(i),
        _ => false,
    }
}

fn has_dictionaries(instr: &AddColumn) -> bool
    ensures { result ≡ needs_second (Instr.AddColumn instr.now) }
{
    match instr.def.shape {
        Shape::Dict => true,
        _ => false,
    }
}

/// Whether one of the instructions isn't in the first version.
pub fn any_needs_second(instrs: &[Instr]) -> bool
    ensures { result ≡ list_any needs_second instrs.now }
{
    instrs.iter().any(|instr| needs_second(instr))
}

/// The instructions with the next one. Those that were read carry that many bytes.
#[tactic(auto, unfolding(crate::specs::Decoding::next_at))]
fn take_instr(
    alloc: Global,
    reader: &mut Reader,
    done: &mut Vec<Instr>,
    payload: u64,
) -> Result<u64, ReadRefusal>
    requires { payload ≡ payload_all done.old.items }
    ensures taken { Gives (λ _. (done.new.items, reader.new)) result (next_at done.old.items reader.old) }
    ensures payload { IfOk result (λ sum. (sum ≡ payload_all done.new.items) × (sum ≤ 4194304)) }
    ensures one_more { OnOk result (length done.new.items ≡ length done.old.items + 1) }
{
    let field = reader.rest();
    let instr = reader.instr(alloc)?;
    let payload = payload.saturating_add(instr.payload());
    if payload > MOST_PAYLOAD {
        drop(instr);
        return broken(field, Rule::TooLarge);
    }
    done.push(instr)?;
    Ok(payload)
}

/// So many instructions.
fn take_instrs(alloc: Global, count: u32, reader: &mut Reader) -> Result<Vec<Instr>, ReadRefusal>
    ensures taken { Gives (λ is. (is.items, reader.new)) result (instrs_at count [] reader.old) }
    ensures small { IfOk result (λ is. (length is.items ≡ count) × (payload_all is.items ≤ 4194304)) }
{
    let mut instrs = Vec::with_capacity(alloc, (count as usize).min(reader.rest().len()))?;
    let mut payload = 0;
    for _ in 0..count {
        match take_instr(alloc, reader, &mut instrs, payload) {
            Ok(sum) => payload = sum,
            Err(refusal) => return Err(refusal),
        }
    }
    Ok(instrs)
}

/// What is seen after the last instruction.
#[tactic(auto, unfolding(crate::specs::Decoding::ended))]
fn at_end(bytes: &[u8], reader: &Reader, instrs: &[Instr]) -> Result<(), ReadRefusal>
    ensures { Gives (λ _. instrs.now) result (ended bytes.now instrs.now reader.now) }
{
    let rest = reader.rest();
    if !reader.all_used() {
        return broken(rest, Rule::StringUnused);
    }
    if reader.second() && !any_needs_second(instrs) {
        return broken(bytes, Rule::NeedlessVersion);
    }
    if !rest.is_empty() {
        return broken(rest, Rule::Trailing);
    }
    Ok(())
}

/// The instructions that the bytes spell.
#[tactic(auto, unfolding(crate::specs::Decoding::instrs_in))]
fn instrs_of(alloc: Global, bytes: &[u8]) -> Result<Vec<Instr>, ReadRefusal>
    ensures read { Gives (λ is. is.items) result (instrs_in bytes.now) }
    ensures small { IfOk result (λ is. IsSmall is.items) }
{
    let (second, rest) = version_of(bytes)?;
    let (strings, rest) = table_of(alloc, rest)?;
    listed(alloc, bytes, second, strings, rest)
}

/// The instructions behind the strings, which are the rest of these bytes.
fn listed<'a>(
    alloc: Global,
    bytes: &[u8],
    second: bool,
    strings: Strings<'a>,
    rest: &'a [u8],
) -> Result<Vec<Instr>, ReadRefusal>
    ensures read { Gives (λ is. is.items) result (listed_in bytes.now second strings.entry rest.now) }
    ensures small { IfOk result (λ is. IsSmall is.items) }
{
    let (count, rest) = count_of(rest)?;
    let mut reader = Reader::new(second, &strings, rest);
    let instrs = take_instrs(alloc, count, &mut reader)?;
    at_end(bytes, &reader, instrs.as_slice())?;
    Ok(instrs)
}

fn rule_number(rule: Rule) -> u8
    ensures { result ≡ rule_number rule }
{
    match rule {
        Rule::Truncated => 40,
        Rule::Version => 41,
        Rule::Varint => 42,
        Rule::BadText => 43,
        Rule::StringRepeat => 44,
        Rule::StringOrder => 45,
        Rule::StringUnused => 46,
        Rule::NameLength => 47,
        Rule::BadTag => 48,
        Rule::BadPlace => 49,
        Rule::BadTime => 50,
        Rule::TooLarge => 51,
        Rule::Trailing => 52,
        Rule::NeedlessVersion => 53,
    }
}

/// A fault, with the offset of its field.
fn bad_bytes(bytes: &[u8], fault: Fault) -> BadBytes
    requires { length bytes.now ≤ 67108864 }
    ensures { result ≡ bad_bytes bytes.now fault }
{
    BadBytes {
        offset: bytes.len().saturating_sub(fault.left) as u32,
        rule: rule_number(fault.rule),
    }
}

/// The changeset that the bytes spell, or their first fault.
fn changeset_of(alloc: Global, ms: u64, bytes: &[u8]) -> Result<Changeset, DecodeRefusal>
    requires { length bytes.now ≤ 67108864 }
    ensures { Answers ms bytes.now result }
{
    match instrs_of(alloc, bytes) {
        Err(ReadRefusal::NoMemory) => Err(DecodeRefusal::NoMemory),
        Err(ReadRefusal::Bad(fault)) => Err(DecodeRefusal::Bad(bad_bytes(bytes, fault))),
        Ok(instrs) => match Changeset::checked(ms, instrs) {
            Ok(changes) => Ok(changes),
            Err(_) => unreachable!(),
        },
    }
}

/// The changeset that the bytes spell, of that time in milliseconds. The bytes are at most 67,108,864.
/// `Bad` comes exactly where they spell none, with the first rule that they break. `NoMemory` may come at any bytes.
pub fn decode(alloc: Global, ms: u64, bytes: &[u8]) -> Result<Changeset, DecodeRefusal>
    requires { length bytes.now ≤ 67108864 }
    // What is read is spelled so.
    ensures found { IfOk result (λ v. (v.ms ≡ ms) × AreInstrs v.instrs × (bytes.now ≡ spelling v.instrs)) }
    // What is spelled so is read, unless memory runs out.
    ensures only { (is : List Instr) → AreInstrs is → bytes.now ≡ spelling is → IsRead ms is result }
    // Which fault it is.
    ensures exact { Answers ms bytes.now result }
{
    changeset_of(alloc, ms, bytes)
}

/// Bytes that spell a changeset begin no other spelling, and spell no other one.
pub fn spellings_differ()
    ensures { (is others : List Instr) (more : List ℕ) → AreInstrs is → AreInstrs others → spelling is ++ more ≡ spelling others → (more ≡ []) × (is ≡ others) }
{}

/// The spelling of a changeset's instructions is read, and gives them back.
pub fn what_is_spelled_is_read()
    ensures { (is : List Instr) → AreInstrs is → instrs_in (spelling is) ≡ Ok is }
{}

ghost use Rattle.std.specs.Prelude.{◌≡◌, ◌≤◌, ◌<◌, ◌^◌, true, length, IfSome};
ghost use Rattle.std.specs.List.{flat_map, AllByRecursion};
ghost use Rattle.sync_data.specs.Payload.{payload, value_payload};
ghost use Rattle.sync_io.specs.Varints.{zigzag};
ghost use Rattle.sync_codec.specs.Spelling.{value_fields, strings_in_field};
ghost use Rattle.sync_codec.specs.Valid.{IsGap, IsValue, IsTimeValue, IsString};
ghost use Rattle.sync_exchange.specs.Bounded.{IsHeldName, IsHeldKey, IsHeldKind};
ghost use Rattle.sync_exchange.specs.Lemmas.Held.{IsHeldPath};
ghost use Rattle.sync_base.specs.Effects.{path_of};
ghost use Rattle.sync_exchange.specs.Profile.{weight};

use sync_base::{
    Between, CellName, DictUpdate, Id, Instr, Key, KeyText, Kind, MOST_PAYLOAD, Name, Time, Value,
};
use sync_io::{zigzag32, zigzag64};

/// The bytes that an instruction of a state's list carries; none where they are more than a changeset bears.
pub(crate) fn weight(instr: &Instr) -> Option<u64>
    ensures { IfSome result (λ bytes. (bytes ≡ weight instr.now) × (bytes ≤ 4194304)) }
{
    let bytes = instr.payload();
    if bytes > MOST_PAYLOAD {
        return None;
    }
    if !is_light(instr) {
        return None;
    }
    Some(bytes)
}

/// Whether it is an instruction of a state's list. What the types hold can be spelled, so a changeset can bear it.
fn is_light(instr: &Instr) -> bool
    requires small { payload instr.now ≤ 4194304 }
    ensures { result ≡ true → weight instr.now ≤ 4194304 }
{
    match instr {
        Instr::AddTable(i) => name_is_held(&i.table),
        Instr::AddColumn(i) => {
            name_is_held(&i.table);
            name_is_held(&i.column);
            kind_is_held(&i.def.kind)
        }
        Instr::CreateObject(i) => {
            name_is_held(&i.table);
            key_is_held(&i.key)
        }
        Instr::Update(i) => {
            cell_is_held(&i.cell);
            value_is_held(&i.value)
        }
        Instr::ListInsert(i) => {
            cell_is_held(&i.cell);
            gap_is_held(i.spot);
            value_is_held(&i.value)
        }
        Instr::SetInsert(i) => {
            cell_is_held(&i.cell);
            value_is_held(&i.value)
        }
        Instr::DictUpdate(i) => binding_is_held(i),
        _ => false,
    }
}

fn binding_is_held(instr: &DictUpdate) -> bool
    requires small { payload (Instr.DictUpdate instr.now) ≤ 4194304 }
    ensures { result ≡ true → weight (Instr.DictUpdate instr.now) ≤ 4194304 }
{
    match &instr.value {
        None => false,
        Some(value) => {
            cell_is_held(&instr.cell);
            text_is_held(&instr.at);
            value_is_held(value)
        }
    }
}

// What the types of names, keys and values hold. Each of these is true.

#[tactic(auto, using(sync_codec::specs::Lemmas::utf8_is))]
fn name_is_held(name: &Name) -> bool
    ensures { IsHeldName name.now }
{
    !name.text().is_empty()
}

#[tactic(auto, using(sync_codec::specs::Lemmas::utf8_is))]
fn text_is_held(text: &KeyText) -> bool
    ensures { IsString text.now }
{
    text.text().len() <= 255
}

fn integer_is_held(number: i64) -> bool
    ensures { zigzag number < 2 ^ 64 }
{
    zigzag64(number) <= u64::MAX
}

fn id_is_held(id: &Id) -> bool
    ensures { length id.now ≡ 16 }
{
    id.len() == 16
}

fn key_is_held(key: &Key) -> bool
    ensures { IsHeldKey key.now }
{
    match key {
        Key::Int(number) => integer_is_held(*number),
        Key::Text(text) => text_is_held(text),
        Key::Uuid(id) => id_is_held(id),
    }
}

fn kind_is_held(kind: &Kind) -> bool
    ensures { IsHeldKind kind.now }
{
    match kind {
        Kind::Link(table) => name_is_held(table),
        _ => true,
    }
}

fn cell_is_held(cell: &CellName) -> bool
    ensures { IsHeldPath (path_of cell.now) }
{
    name_is_held(&cell.table) & key_is_held(&cell.key) & name_is_held(&cell.column)
}

fn gap_is_held(spot: Between) -> bool
    ensures { IsGap spot }
{
    spot.place() <= spot.prior()
}

fn time_is_held(time: Time) -> bool
    ensures { IsTimeValue time }
{
    integer_is_held(time.secs()) & (zigzag32(time.nanos()) <= u32::MAX)
}

#[tactic(auto, using(sync_codec::specs::Lemmas::utf8_is))]
fn value_is_held(value: &Value) -> bool
    requires small { value_payload value.now ≤ 4194304 }
    ensures value { IsValue value.now }
    ensures strings { AllByRecursion IsString (flat_map strings_in_field (value_fields value.now)) }
{
    match value {
        Value::Int(number) => integer_is_held(*number),
        Value::Text(text) => text.text().len() as u64 <= MOST_PAYLOAD,
        Value::Bytes(bytes) => bytes.bytes().len() as u64 <= MOST_PAYLOAD,
        Value::Time(time) => time_is_held(*time),
        Value::Uuid(id) => id_is_held(id),
        Value::Link { table, key } => name_is_held(table) & key_is_held(key),
        _ => true,
    }
}

ghost use Rattle.std.specs.Prelude.{◌≡◌, ◌≤◌};
ghost use Rattle.sync_data.specs.Payload.{payload, key_payload, value_payload, binding_payload_of, kind_payload, cell_payload, capped};

use super::column::Kind;
use super::instr::{CellName, Instr};
use super::key::Key;
use super::value::Value;

impl Key {
    /// The bytes of a text key.
    pub fn payload(&self) -> u64
        ensures value { result ≡ key_payload self.now }
        ensures small { result ≤ 255 }
    {
        match self {
            Key::Text(text) => text.text().len() as u64,
            _ => 0,
        }
    }
}

impl Value {
    /// The bytes that the value carries: of a text, of bytes, or of a link's table and text key.
    pub fn payload(&self) -> u64
        ensures { result ≡ capped (value_payload self.now) }
    {
        match self {
            Value::Text(text) => text.text().len() as u64,
            Value::Bytes(bytes) => bytes.bytes().len() as u64,
            Value::Link { table, key } => (table.len() as u64).saturating_add(key.payload()),
            _ => 0,
        }
    }
}

impl Kind {
    fn payload(&self) -> u64
        ensures value { result ≡ kind_payload self.now }
        ensures small { result ≤ 63 }
    {
        match self {
            Kind::Link(table) => table.len() as u64,
            _ => 0,
        }
    }
}

impl CellName {
    fn payload(&self) -> u64
        ensures value { result ≡ cell_payload self.now }
        ensures small { result ≤ 381 }
    {
        let table = self.table.len() as u64;
        let column = self.column.len() as u64;
        table + self.key.payload() + column
    }
}

fn binding_payload(value: &Option<Value>) -> u64
    ensures { result ≡ capped (binding_payload_of value.now) }
{
    match value {
        Some(value) => value.payload(),
        None => 0,
    }
}

impl Instr {
    /// The bytes that the instruction carries: of its names, text keys, texts and bytes.
    pub fn payload(&self) -> u64
        ensures { result ≡ capped (payload self.now) }
    {
        match self {
            Instr::AddTable(i) => i.table.len() as u64,
            Instr::AddColumn(i) => {
                let table = i.table.len() as u64;
                let column = i.column.len() as u64;
                table + column + i.def.kind.payload()
            }
            Instr::CreateObject(i) => i.table.len() as u64 + i.key.payload(),
            Instr::EraseObject(i) => i.table.len() as u64 + i.key.payload(),
            Instr::Update(i) => i.cell.payload().saturating_add(i.value.payload()),
            Instr::AddInteger(i) => i.cell.payload(),
            Instr::ListUpdate(i) => i.cell.payload().saturating_add(i.value.payload()),
            Instr::ListInsert(i) => i.cell.payload().saturating_add(i.value.payload()),
            Instr::ListErase(i) => i.cell.payload(),
            Instr::SetInsert(i) => i.cell.payload().saturating_add(i.value.payload()),
            Instr::SetErase(i) => i.cell.payload().saturating_add(i.value.payload()),
            Instr::DictUpdate(i) => {
                let named = i.cell.payload() + i.at.text().len() as u64;
                named.saturating_add(binding_payload(&i.value))
            }
            Instr::Clear(i) => i.cell.payload(),
        }
    }
}

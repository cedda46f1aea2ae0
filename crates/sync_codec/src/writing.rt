ghost use Rattle.std.specs.Prelude.{◌≡◌, ◌<◌, ◌^◌, All, OnOk, ◌∷◌, ◌++◌, [], length};
ghost use Rattle.std.specs.List.{flat_map};
ghost use Rattle.sync_data.specs.Payload.{payload, value_payload, binding_payload_of, IsSmall};
ghost use Rattle.sync_data.specs.declared.instr.Instr.{Instr};
ghost use Rattle.sync_io.specs.Varints.{zigzag};
ghost use Rattle.sync_codec.specs.Spelling.{byte, number, run, string, flag_byte, key_kind_byte, kind_byte, shape_byte, target_fields, key_fields, value_fields, binding_fields, column_fields, cell_fields, spot_fields, instr_fields};
ghost use Rattle.sync_codec.specs.Writing.{with_field, with_fields};
ghost use Rattle.sync_codec.specs.Valid.{IsName, IsKey, IsTimeValue, IsValue, IsBinding, IsKind, IsCell, IsElement, IsGap, IsInstr};

use crate::writer::Writer;
use sync_base::{
    AddColumn, AddTable, Between, CellName, Column, DictUpdate, Id, Inside, Instr, Key, KeyKind,
    Kind, ListErase, ListInsert, ListUpdate, Name, NoMemory, Shape, Time, Value,
};

fn key_kind_byte(kind: KeyKind) -> u8
    ensures { result ≡ key_kind_byte kind }
{
    match kind {
        KeyKind::Int => 0,
        KeyKind::Text => 1,
        KeyKind::Uuid => 2,
    }
}

fn kind_byte(kind: &Kind) -> u8
    ensures { result ≡ kind_byte kind.now }
{
    match kind {
        Kind::Int => 1,
        Kind::Bool => 2,
        Kind::Text => 3,
        Kind::Bytes => 4,
        Kind::Time => 5,
        Kind::Uuid => 6,
        Kind::Link(_) => 7,
    }
}

fn shape_byte(shape: Shape) -> u8
    ensures { result ≡ shape_byte shape }
{
    match shape {
        Shape::One => 0,
        Shape::List => 1,
        Shape::Set => 2,
        Shape::Dict => 3,
    }
}

impl<'a> Writer<'a> {
    fn flag(&mut self, flag: bool) -> Result<(), NoMemory>
        ensures { OnOk result (self.new ≡ with_field self.old (byte (flag_byte flag))) }
    {
        self.byte(if flag { 1 } else { 0 })
    }

    fn name(&mut self, name: &'a Name) -> Result<(), NoMemory>
        ensures spelled { OnOk result (self.new ≡ with_field self.old (string name.now)) }
        ensures is { OnOk result (IsName name.now) }
    {
        self.string(name.text())
    }

    /// A byte, and then 16 bytes.
    fn tagged_id(&mut self, tag: u8, id: &Id) -> Result<(), NoMemory>
        ensures spelled { OnOk result (self.new ≡ with_field (with_field self.old (byte tag)) (run id.now)) }
        ensures is { OnOk result (length id.now ≡ 16) }
    {
        self.byte(tag)?;
        self.run(id)
    }

    fn tagged_signed(&mut self, tag: u8, value: i64) -> Result<(), NoMemory>
        ensures spelled { OnOk result (self.new ≡ with_field (with_field self.old (byte tag)) (number (zigzag value))) }
        ensures is { OnOk result (zigzag value < 2 ^ 64) }
    {
        self.byte(tag)?;
        self.signed64(value)
    }

    /// A byte, a length, and that many bytes.
    fn tagged_bytes(&mut self, tag: u8, bytes: &[u8]) -> Result<(), NoMemory>
        ensures { OnOk result (self.new ≡ with_field (with_field (with_field self.old (byte tag)) (number (length bytes.now))) (run bytes.now)) }
    {
        self.byte(tag)?;
        self.number64(bytes.len() as u64)?;
        self.run(bytes)
    }

    /// Writes a key.
    pub fn key(&mut self, key: &'a Key) -> Result<(), NoMemory>
        ensures spelled { OnOk result (self.new ≡ with_fields self.old (key_fields key.now)) }
        ensures is { OnOk result (IsKey key.now) }
    {
        match key {
            Key::Int(number) => self.tagged_signed(0, *number),
            Key::Uuid(id) => self.tagged_id(2, id),
            Key::Text(text) => {
                self.byte(1)?;
                self.string(text.text())
            }
        }
    }

    fn time(&mut self, time: Time) -> Result<(), NoMemory>
        ensures spelled { OnOk result (self.new ≡ with_fields self.old (value_fields (Value.Time time))) }
        ensures is { OnOk result (IsTimeValue time) }
    {
        self.tagged_signed(5, time.secs())?;
        self.signed32(time.nanos())
    }

    fn link(&mut self, table: &'a Name, key: &'a Key) -> Result<(), NoMemory>
        ensures spelled { OnOk result (self.new ≡ with_fields self.old (value_fields (Value.Link table.now key.now))) }
        ensures is { OnOk result (IsName table.now × IsKey key.now) }
    {
        self.byte(7)?;
        self.name(table)?;
        self.key(key)
    }

    fn flag_value(&mut self, flag: bool) -> Result<(), NoMemory>
        ensures { OnOk result (self.new ≡ with_fields self.old (value_fields (Value.Bool flag))) }
    {
        self.byte(2)?;
        self.flag(flag)
    }

    /// Writes a value.
    #[tactic(auto, using(crate::specs::Lemmas::utf8_is))]
    pub fn value(&mut self, value: &'a Value) -> Result<(), NoMemory>
        requires small { value_payload value.now < 2 ^ 32 }
        ensures spelled { OnOk result (self.new ≡ with_fields self.old (value_fields value.now)) }
        ensures is { OnOk result (IsValue value.now) }
    {
        match value {
            Value::Null => self.byte(0),
            Value::Int(number) => self.tagged_signed(1, *number),
            Value::Bool(flag) => self.flag_value(*flag),
            Value::Text(text) => self.tagged_bytes(3, text.text().as_bytes()),
            Value::Bytes(bytes) => self.tagged_bytes(4, bytes.bytes()),
            Value::Time(time) => self.time(*time),
            Value::Uuid(id) => self.tagged_id(6, id),
            Value::Link { table, key } => self.link(table, key),
        }
    }

    fn binding(&mut self, value: &'a Option<Value>) -> Result<(), NoMemory>
        requires small { binding_payload_of value.now < 2 ^ 32 }
        ensures spelled { OnOk result (self.new ≡ with_fields self.old (binding_fields value.now)) }
        ensures is { OnOk result (IsBinding value.now) }
    {
        match value {
            None => self.byte(0),
            Some(value) => {
                self.byte(1)?;
                self.value(value)
            }
        }
    }

    fn target(&mut self, kind: &'a Kind) -> Result<(), NoMemory>
        ensures spelled { OnOk result (self.new ≡ with_fields self.old (target_fields kind.now)) }
        ensures is { OnOk result (IsKind kind.now) }
    {
        match kind {
            Kind::Link(table) => self.name(table),
            _ => Ok(()),
        }
    }

    fn column(&mut self, column: &'a Column) -> Result<(), NoMemory>
        ensures spelled { OnOk result (self.new ≡ with_fields self.old (column_fields column.now)) }
        ensures is { OnOk result (IsKind column.now.kind) }
    {
        self.byte(kind_byte(&column.kind))?;
        self.flag(column.nullable)?;
        self.byte(shape_byte(column.shape))?;
        self.target(&column.kind)
    }

    #[tactic(auto, using(crate::specs::Writing::with_fields_more))]
    fn cell_name(&mut self, cell: &'a CellName) -> Result<(), NoMemory>
        ensures spelled { OnOk result (self.new ≡ with_fields self.old (cell_fields cell.now)) }
        ensures is { OnOk result (IsCell cell.now) }
    {
        self.name(&cell.table)?;
        self.key(&cell.key)?;
        self.name(&cell.column)
    }

    fn element(&mut self, spot: Inside) -> Result<(), NoMemory>
        ensures spelled { OnOk result (self.new ≡ with_fields self.old (spot_fields spot)) }
        ensures is { OnOk result (IsElement spot) }
    {
        self.number32(spot.place())?;
        self.number32(spot.prior())
    }

    fn gap(&mut self, spot: Between) -> Result<(), NoMemory>
        ensures spelled { OnOk result (self.new ≡ with_fields self.old (spot_fields spot)) }
        ensures is { OnOk result (IsGap spot) }
    {
        self.number32(spot.place())?;
        self.number32(spot.prior())
    }

    fn add_table(&mut self, instr: &'a AddTable) -> Result<(), NoMemory>
        ensures spelled { OnOk result (self.new ≡ with_fields self.old (byte 1 ∷ string instr.now.table ∷ byte (key_kind_byte instr.now.key) ∷ [])) }
        ensures is { OnOk result (IsName instr.now.table) }
    {
        self.byte(1)?;
        self.name(&instr.table)?;
        self.byte(key_kind_byte(instr.key))
    }

    fn add_column(&mut self, instr: &'a AddColumn) -> Result<(), NoMemory>
        ensures spelled { OnOk result (self.new ≡ with_fields self.old (byte 2 ∷ string instr.now.table ∷ string instr.now.column ∷ column_fields instr.now.def)) }
        ensures is { OnOk result (IsName instr.now.table × IsName instr.now.column × IsKind instr.now.def.kind) }
    {
        self.byte(2)?;
        self.name(&instr.table)?;
        self.name(&instr.column)?;
        self.column(&instr.def)
    }

    fn object(&mut self, opcode: u8, table: &'a Name, key: &'a Key) -> Result<(), NoMemory>
        ensures spelled { OnOk result (self.new ≡ with_fields self.old (byte opcode ∷ string table.now ∷ key_fields key.now)) }
        ensures is { OnOk result (IsName table.now × IsKey key.now) }
    {
        self.byte(opcode)?;
        self.name(table)?;
        self.key(key)
    }

    fn cell_alone(&mut self, opcode: u8, cell: &'a CellName) -> Result<(), NoMemory>
        ensures spelled { OnOk result (self.new ≡ with_fields self.old (byte opcode ∷ cell_fields cell.now)) }
        ensures is { OnOk result (IsCell cell.now) }
    {
        self.byte(opcode)?;
        self.cell_name(cell)
    }

    #[tactic(auto, using(crate::specs::Writing::with_fields_more))]
    fn cell_and_value(
        &mut self,
        opcode: u8,
        cell: &'a CellName,
        value: &'a Value,
    ) -> Result<(), NoMemory>
        requires small { value_payload value.now < 2 ^ 32 }
        ensures spelled { OnOk result (self.new ≡ with_fields self.old (byte opcode ∷ (cell_fields cell.now ++ value_fields value.now))) }
        ensures is { OnOk result (IsCell cell.now × IsValue value.now) }
    {
        self.cell_alone(opcode, cell)?;
        self.value(value)
    }

    #[tactic(auto, using(crate::specs::Writing::with_fields_more))]
    fn add_integer(&mut self, cell: &'a CellName, amount: i64) -> Result<(), NoMemory>
        ensures spelled { OnOk result (self.new ≡ with_fields self.old (byte 6 ∷ (cell_fields cell.now ++ number (zigzag amount) ∷ []))) }
        ensures is { OnOk result (IsCell cell.now × (zigzag amount < 2 ^ 64)) }
    {
        self.cell_alone(6, cell)?;
        self.signed64(amount)
    }

    #[tactic(auto, using(crate::specs::Writing::with_fields_more))]
    fn list_update(&mut self, instr: &'a ListUpdate) -> Result<(), NoMemory>
        requires small { value_payload instr.now.value < 2 ^ 32 }
        ensures spelled { OnOk result (self.new ≡ with_fields self.old (byte 7 ∷ (cell_fields instr.now.cell ++ (spot_fields instr.now.spot ++ value_fields instr.now.value)))) }
        ensures is { OnOk result (IsInstr (Instr.ListUpdate instr.now)) }
    {
        self.cell_alone(7, &instr.cell)?;
        self.element(instr.spot)?;
        self.value(&instr.value)
    }

    #[tactic(auto, using(crate::specs::Writing::with_fields_more))]
    fn list_insert(&mut self, instr: &'a ListInsert) -> Result<(), NoMemory>
        requires small { value_payload instr.now.value < 2 ^ 32 }
        ensures spelled { OnOk result (self.new ≡ with_fields self.old (byte 8 ∷ (cell_fields instr.now.cell ++ (spot_fields instr.now.spot ++ value_fields instr.now.value)))) }
        ensures is { OnOk result (IsInstr (Instr.ListInsert instr.now)) }
    {
        self.cell_alone(8, &instr.cell)?;
        self.gap(instr.spot)?;
        self.value(&instr.value)
    }

    #[tactic(auto, using(crate::specs::Writing::with_fields_more))]
    fn list_erase(&mut self, instr: &'a ListErase) -> Result<(), NoMemory>
        ensures spelled { OnOk result (self.new ≡ with_fields self.old (byte 9 ∷ (cell_fields instr.now.cell ++ spot_fields instr.now.spot))) }
        ensures is { OnOk result (IsInstr (Instr.ListErase instr.now)) }
    {
        self.cell_alone(9, &instr.cell)?;
        self.element(instr.spot)
    }

    #[tactic(auto, using(crate::specs::Writing::with_fields_more))]
    fn dict_update(&mut self, instr: &'a DictUpdate) -> Result<(), NoMemory>
        requires small { binding_payload_of instr.now.value < 2 ^ 32 }
        ensures spelled { OnOk result (self.new ≡ with_fields self.old (byte 12 ∷ (cell_fields instr.now.cell ++ string instr.now.at ∷ binding_fields instr.now.value))) }
        ensures is { OnOk result (IsInstr (Instr.DictUpdate instr.now)) }
    {
        self.cell_alone(12, &instr.cell)?;
        self.string(instr.at.text())?;
        self.binding(&instr.value)
    }

    /// Writes an instruction.
    #[tactic(auto, unfolding(crate::specs::Spelling::instr_fields))]
    pub fn instr(&mut self, instr: &'a Instr) -> Result<(), NoMemory>
        requires small { payload instr.now < 2 ^ 32 }
        ensures spelled { OnOk result (self.new ≡ with_fields self.old (instr_fields instr.now)) }
        ensures is { OnOk result (IsInstr instr.now) }
    {
        match instr {
            Instr::AddTable(i) => self.add_table(i),
            Instr::AddColumn(i) => self.add_column(i),
            Instr::CreateObject(i) => self.object(3, &i.table, &i.key),
            Instr::EraseObject(i) => self.object(4, &i.table, &i.key),
            Instr::Update(i) => self.cell_and_value(5, &i.cell, &i.value),
            Instr::AddInteger(i) => self.add_integer(&i.cell, i.amount),
            Instr::ListUpdate(i) => self.list_update(i),
            Instr::ListInsert(i) => self.list_insert(i),
            Instr::ListErase(i) => self.list_erase(i),
            Instr::SetInsert(i) => self.cell_and_value(10, &i.cell, &i.value),
            Instr::SetErase(i) => self.cell_and_value(11, &i.cell, &i.value),
            Instr::DictUpdate(i) => self.dict_update(i),
            Instr::Clear(i) => self.cell_alone(13, &i.cell),
        }
    }

    /// Writes instructions, one after the other.
    pub fn instrs(&mut self, instrs: &'a [Instr]) -> Result<(), NoMemory>
        requires small { IsSmall instrs.now }
        ensures spelled { OnOk result (self.new ≡ with_fields self.old (flat_map instr_fields instrs.now)) }
        ensures are { OnOk result (All IsInstr instrs.now) }
    {
        for instr in instrs {
            self.instr(instr)?;
        }
        Ok(())
    }
}

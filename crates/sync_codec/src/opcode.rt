ghost use Rattle.std.specs.Prelude.{◌≡◌};
ghost use Rattle.sync_codec.specs.Instrs.{opcode_of};

/// What an instruction does, told by its first byte: 1 to 13, in this order.
#[derive(Clone, Copy, PartialEq, Eq)]
pub enum Opcode {
    AddTable,
    AddColumn,
    CreateObject,
    EraseObject,
    Update,
    AddInteger,
    ListUpdate,
    ListInsert,
    ListErase,
    SetInsert,
    SetErase,
    DictUpdate,
    Clear,
}

impl Opcode {
    /// The opcode of a byte. The last two stand in the table under the second version alone.
    pub fn of(second: bool, byte: u8) -> Option<Opcode>
        ensures { result ≡ opcode_of second byte }
    {
        match byte {
            1 => Some(Opcode::AddTable),
            2 => Some(Opcode::AddColumn),
            3 => Some(Opcode::CreateObject),
            4 => Some(Opcode::EraseObject),
            5 => Some(Opcode::Update),
            6 => Some(Opcode::AddInteger),
            7 => Some(Opcode::ListUpdate),
            8 => Some(Opcode::ListInsert),
            9 => Some(Opcode::ListErase),
            10 => Some(Opcode::SetInsert),
            11 => Some(Opcode::SetErase),
            12 if second => Some(Opcode::DictUpdate),
            13 if second => Some(Opcode::Clear),
            _ => None,
        }
    }
}

ghost use Rattle.std.specs.Prelude.{◌≡◌};
ghost use Rattle.sync_data.specs.declared.instr.Instr.{Instr};
ghost use Rattle.sync_base.specs.Footprints.{Framed};
ghost use Rattle.sync_base.specs.Lemmas.Reads.{framed};

use sync_data::{
    AddColumn, AddInteger, AddTable, Clear, CreateObject, DictUpdate, EraseObject, Instr,
    ListErase, ListInsert, ListUpdate, SetErase, SetInsert, Update,
};

/// An instruction, or one of its thirteen kinds.
pub trait Act {
    /// It as an instruction, whose effect the definitions tell.
    ghost instr: { Self → Instr };

    /// It as an instruction.
    fn wrap(self) -> Instr
        ensures { result ≡ instr self };

    /// It reads its footprint alone, and changes nothing but what the footprint names as changed.
    ghost frame: { (i : Self) → Framed (instr i) } = { λ i. framed (instr i) };
}

impl Act for Instr {
    ghost instr = { λ i. i };

    fn wrap(self) -> Instr {
        self
    }
}

impl Act for AddTable {
    ghost instr = { λ i. Instr.AddTable i };

    fn wrap(self) -> Instr {
        Instr::AddTable(self)
    }
}

impl Act for AddColumn {
    ghost instr = { λ i. Instr.AddColumn i };

    fn wrap(self) -> Instr {
        Instr::AddColumn(self)
    }
}

impl Act for CreateObject {
    ghost instr = { λ i. Instr.CreateObject i };

    fn wrap(self) -> Instr {
        Instr::CreateObject(self)
    }
}

impl Act for EraseObject {
    ghost instr = { λ i. Instr.EraseObject i };

    fn wrap(self) -> Instr {
        Instr::EraseObject(self)
    }
}

impl Act for Update {
    ghost instr = { λ i. Instr.Update i };

    fn wrap(self) -> Instr {
        Instr::Update(self)
    }
}

impl Act for AddInteger {
    ghost instr = { λ i. Instr.AddInteger i };

    fn wrap(self) -> Instr {
        Instr::AddInteger(self)
    }
}

impl Act for ListUpdate {
    ghost instr = { λ i. Instr.ListUpdate i };

    fn wrap(self) -> Instr {
        Instr::ListUpdate(self)
    }
}

impl Act for ListInsert {
    ghost instr = { λ i. Instr.ListInsert i };

    fn wrap(self) -> Instr {
        Instr::ListInsert(self)
    }
}

impl Act for ListErase {
    ghost instr = { λ i. Instr.ListErase i };

    fn wrap(self) -> Instr {
        Instr::ListErase(self)
    }
}

impl Act for SetInsert {
    ghost instr = { λ i. Instr.SetInsert i };

    fn wrap(self) -> Instr {
        Instr::SetInsert(self)
    }
}

impl Act for SetErase {
    ghost instr = { λ i. Instr.SetErase i };

    fn wrap(self) -> Instr {
        Instr::SetErase(self)
    }
}

impl Act for DictUpdate {
    ghost instr = { λ i. Instr.DictUpdate i };

    fn wrap(self) -> Instr {
        Instr::DictUpdate(self)
    }
}

impl Act for Clear {
    ghost instr = { λ i. Instr.Clear i };

    fn wrap(self) -> Instr {
        Instr::Clear(self)
    }
}

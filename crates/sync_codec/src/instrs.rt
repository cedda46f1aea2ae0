ghost use Rattle.std.specs.Prelude.{◌≡◌};
ghost use Rattle.sync_codec.specs.Fields.{Gives};
ghost use Rattle.sync_codec.specs.Instrs.{add_table_at, add_column_at, create_object_at, erase_object_at, update_at, add_integer_at, list_update_at, list_insert_at, list_erase_at, set_insert_at, set_erase_at, dict_update_at, clear_at, fields_at, instr_at};

use crate::opcode::Opcode;
use crate::reader::Reader;
use crate::refusal::{ReadRefusal, Rule, broken};
use std::alloc::Global;
use sync_base::{
    AddColumn, AddInteger, AddTable, Clear, CreateObject, DictUpdate, EraseObject, Instr,
    ListErase, ListInsert, ListUpdate, SetErase, SetInsert, Update,
};

impl Reader<'_> {
    #[tactic(auto, unfolding(crate::specs::Instrs::add_table_at))]
    fn add_table(&mut self) -> Result<AddTable, ReadRefusal>
        ensures { Gives (λ i. (i, self.new)) result (add_table_at self.old) }
    {
        let table = self.name()?;
        let key = self.key_kind()?;
        Ok(AddTable { table, key })
    }

    #[tactic(auto, unfolding(crate::specs::Instrs::add_column_at))]
    fn add_column(&mut self) -> Result<AddColumn, ReadRefusal>
        ensures { Gives (λ i. (i, self.new)) result (add_column_at self.old) }
    {
        let table = self.name()?;
        let column = self.name()?;
        let def = self.column()?;
        Ok(AddColumn { table, column, def })
    }

    #[tactic(auto, unfolding(crate::specs::Instrs::create_object_at))]
    fn create_object(&mut self, alloc: Global) -> Result<CreateObject, ReadRefusal>
        ensures { Gives (λ i. (i, self.new)) result (create_object_at self.old) }
    {
        let table = self.name()?;
        let key = self.key(alloc)?;
        Ok(CreateObject { table, key })
    }

    #[tactic(auto, unfolding(crate::specs::Instrs::erase_object_at))]
    fn erase_object(&mut self, alloc: Global) -> Result<EraseObject, ReadRefusal>
        ensures { Gives (λ i. (i, self.new)) result (erase_object_at self.old) }
    {
        let table = self.name()?;
        let key = self.key(alloc)?;
        Ok(EraseObject { table, key })
    }

    #[tactic(auto, unfolding(crate::specs::Instrs::update_at))]
    fn update(&mut self, alloc: Global) -> Result<Update, ReadRefusal>
        ensures { Gives (λ i. (i, self.new)) result (update_at self.old) }
    {
        let cell = self.cell_name(alloc)?;
        let value = self.value(alloc)?;
        Ok(Update { cell, value })
    }

    #[tactic(auto, unfolding(crate::specs::Instrs::add_integer_at))]
    fn add_integer(&mut self, alloc: Global) -> Result<AddInteger, ReadRefusal>
        ensures { Gives (λ i. (i, self.new)) result (add_integer_at self.old) }
    {
        let cell = self.cell_name(alloc)?;
        let amount = self.signed64()?;
        Ok(AddInteger { cell, amount })
    }

    #[tactic(auto, unfolding(crate::specs::Instrs::list_update_at))]
    fn list_update(&mut self, alloc: Global) -> Result<ListUpdate, ReadRefusal>
        ensures { Gives (λ i. (i, self.new)) result (list_update_at self.old) }
    {
        let cell = self.cell_name(alloc)?;
        let spot = self.element()?;
        let value = self.value(alloc)?;
        Ok(ListUpdate { cell, spot, value })
    }

    #[tactic(auto, unfolding(crate::specs::Instrs::list_insert_at))]
    fn list_insert(&mut self, alloc: Global) -> Result<ListInsert, ReadRefusal>
        ensures { Gives (λ i. (i, self.new)) result (list_insert_at self.old) }
    {
        let cell = self.cell_name(alloc)?;
        let spot = self.gap()?;
        let value = self.value(alloc)?;
        Ok(ListInsert { cell, spot, value })
    }

    #[tactic(auto, unfolding(crate::specs::Instrs::list_erase_at))]
    fn list_erase(&mut self, alloc: Global) -> Result<ListErase, ReadRefusal>
        ensures { Gives (λ i. (i, self.new)) result (list_erase_at self.old) }
    {
        let cell = self.cell_name(alloc)?;
        let spot = self.element()?;
        Ok(ListErase { cell, spot })
    }

    #[tactic(auto, unfolding(crate::specs::Instrs::set_insert_at))]
    fn set_insert(&mut self, alloc: Global) -> Result<SetInsert, ReadRefusal>
        ensures { Gives (λ i. (i, self.new)) result (set_insert_at self.old) }
    {
        let cell = self.cell_name(alloc)?;
        let value = self.value(alloc)?;
        Ok(SetInsert { cell, value })
    }

    #[tactic(auto, unfolding(crate::specs::Instrs::set_erase_at))]
    fn set_erase(&mut self, alloc: Global) -> Result<SetErase, ReadRefusal>
        ensures { Gives (λ i. (i, self.new)) result (set_erase_at self.old) }
    {
        let cell = self.cell_name(alloc)?;
        let value = self.value(alloc)?;
        Ok(SetErase { cell, value })
    }

    #[tactic(auto, unfolding(crate::specs::Instrs::dict_update_at))]
    fn dict_update(&mut self, alloc: Global) -> Result<DictUpdate, ReadRefusal>
        ensures { Gives (λ i. (i, self.new)) result (dict_update_at self.old) }
    {
        let cell = self.cell_name(alloc)?;
        let at = self.key_text(alloc)?;
        let value = self.binding(alloc)?;
        Ok(DictUpdate { cell, at, value })
    }

    #[tactic(auto, unfolding(crate::specs::Instrs::clear_at))]
    fn clear(&mut self, alloc: Global) -> Result<Clear, ReadRefusal>
        ensures { Gives (λ i. (i, self.new)) result (clear_at self.old) }
    {
        let cell = self.cell_name(alloc)?;
        Ok(Clear { cell })
    }

    /// The fields of an instruction of that opcode.
    #[tactic(auto, unfolding(crate::specs::Instrs::fields_at))]
    fn fields(&mut self, alloc: Global, opcode: Opcode) -> Result<Instr, ReadRefusal>
        ensures { Gives (λ i. (i, self.new)) result (fields_at opcode self.old) }
    {
        match opcode {
            Opcode::AddTable => Ok(Instr::AddTable(self.add_table()?)),
            Opcode::AddColumn => Ok(Instr::AddColumn(self.add_column()?)),
            Opcode::CreateObject => Ok(Instr::CreateObject(self.create_object(alloc)?)),
            Opcode::EraseObject => Ok(Instr::EraseObject(self.erase_object(alloc)?)),
            Opcode::Update => Ok(Instr::Update(self.update(alloc)?)),
            Opcode::AddInteger => Ok(Instr::AddInteger(self.add_integer(alloc)?)),
            Opcode::ListUpdate => Ok(Instr::ListUpdate(self.list_update(alloc)?)),
            Opcode::ListInsert => Ok(Instr::ListInsert(self.list_insert(alloc)?)),
            Opcode::ListErase => Ok(Instr::ListErase(self.list_erase(alloc)?)),
            Opcode::SetInsert => Ok(Instr::SetInsert(self.set_insert(alloc)?)),
            Opcode::SetErase => Ok(Instr::SetErase(self.set_erase(alloc)?)),
            Opcode::DictUpdate => Ok(Instr::DictUpdate(self.dict_update(alloc)?)),
            Opcode::Clear => Ok(Instr::Clear(self.clear(alloc)?)),
        }
    }

    /// The next instruction.
    #[tactic(auto, unfolding(crate::specs::Instrs::instr_at))]
    pub fn instr(&mut self, alloc: Global) -> Result<Instr, ReadRefusal>
        ensures { Gives (λ i. (i, self.new)) result (instr_at self.old) }
    {
        let field = self.rest();
        let second = self.second();
        let byte = self.byte()?;
        match Opcode::of(second, byte) {
            Some(opcode) => self.fields(alloc, opcode),
            None => broken(field, Rule::BadTag),
        }
    }
}

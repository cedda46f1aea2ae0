ghost use Rattle.std.specs.Prelude.{◌≡◌};
ghost use Rattle.sync_base.specs.Rules.{meeting};

use rule_dict::DictRules;
use rule_field::FieldRules;
use rule_list::ListRules;
use rule_object::ObjectRules;
use rule_schema::SchemaRules;
use rule_set::SetRules;
use sync_base::{
    AddColumn, AddInteger, AddTable, Clear, CreateObject, DictUpdate, EraseObject, Instr,
    ListErase, ListInsert, ListUpdate, Meets, Mismatch, Outcome, SetErase, SetInsert, Update,
    keep_both,
};

/// What is left of two instructions that meet, by the rule table over all pairs. Of 51 pairs a rule tells; both sides of the
/// other 118 stay. It takes no memory.
pub fn meet(left: Instr, right: Instr, left_later: bool) -> Result<Outcome, Mismatch>
    ensures { result ≡ meeting left right left_later }
{
    match left {
        Instr::AddTable(left) => meet_add_table(left, right, left_later),
        Instr::AddColumn(left) => meet_add_column(left, right, left_later),
        Instr::CreateObject(left) => meet_create_object(left, right, left_later),
        Instr::EraseObject(left) => meet_erase_object(left, right, left_later),
        Instr::Update(left) => meet_update(left, right, left_later),
        Instr::AddInteger(left) => meet_add_integer(left, right, left_later),
        Instr::ListUpdate(left) => meet_list_update(left, right, left_later),
        Instr::ListInsert(left) => meet_list_insert(left, right, left_later),
        Instr::ListErase(left) => meet_list_erase(left, right, left_later),
        Instr::SetInsert(left) => meet_set_insert(left, right, left_later),
        Instr::SetErase(left) => meet_set_erase(left, right, left_later),
        Instr::DictUpdate(left) => meet_dict_update(left, right, left_later),
        Instr::Clear(left) => meet_clear(left, right, left_later),
    }
}

fn meet_add_table(left: AddTable, right: Instr, left_later: bool) -> Result<Outcome, Mismatch>
    ensures { result ≡ meeting (Instr.AddTable left) right left_later }
{
    match right {
        Instr::AddTable(right) => SchemaRules::meet(left, right, left_later),
        right => keep_both(left, right),
    }
}

fn meet_add_column(left: AddColumn, right: Instr, left_later: bool) -> Result<Outcome, Mismatch>
    ensures { result ≡ meeting (Instr.AddColumn left) right left_later }
{
    match right {
        Instr::AddColumn(right) => SchemaRules::meet(left, right, left_later),
        right => keep_both(left, right),
    }
}

fn meet_create_object(
    left: CreateObject,
    right: Instr,
    left_later: bool,
) -> Result<Outcome, Mismatch>
    ensures { result ≡ meeting (Instr.CreateObject left) right left_later }
{
    match right {
        Instr::EraseObject(right) => ObjectRules::meet(left, right, left_later),
        right => keep_both(left, right),
    }
}

fn meet_erase_object(left: EraseObject, right: Instr, left_later: bool) -> Result<Outcome, Mismatch>
    ensures { result ≡ meeting (Instr.EraseObject left) right left_later }
{
    match right {
        Instr::CreateObject(right) => ObjectRules::meet(left, right, left_later),
        Instr::EraseObject(right) => ObjectRules::meet(left, right, left_later),
        Instr::Update(right) => FieldRules::meet(left, right, left_later),
        Instr::AddInteger(right) => FieldRules::meet(left, right, left_later),
        Instr::ListUpdate(right) => ListRules::meet(left, right, left_later),
        Instr::ListInsert(right) => ListRules::meet(left, right, left_later),
        Instr::ListErase(right) => ListRules::meet(left, right, left_later),
        Instr::SetInsert(right) => SetRules::meet(left, right, left_later),
        Instr::SetErase(right) => SetRules::meet(left, right, left_later),
        Instr::DictUpdate(right) => DictRules::meet(left, right, left_later),
        Instr::Clear(right) => DictRules::meet(left, right, left_later),
        right => keep_both(left, right),
    }
}

fn meet_update(left: Update, right: Instr, left_later: bool) -> Result<Outcome, Mismatch>
    ensures { result ≡ meeting (Instr.Update left) right left_later }
{
    match right {
        Instr::EraseObject(right) => FieldRules::meet(left, right, left_later),
        Instr::Update(right) => FieldRules::meet(left, right, left_later),
        Instr::AddInteger(right) => FieldRules::meet(left, right, left_later),
        right => keep_both(left, right),
    }
}

fn meet_add_integer(left: AddInteger, right: Instr, left_later: bool) -> Result<Outcome, Mismatch>
    ensures { result ≡ meeting (Instr.AddInteger left) right left_later }
{
    match right {
        Instr::EraseObject(right) => FieldRules::meet(left, right, left_later),
        Instr::Update(right) => FieldRules::meet(left, right, left_later),
        right => keep_both(left, right),
    }
}

fn meet_list_update(left: ListUpdate, right: Instr, left_later: bool) -> Result<Outcome, Mismatch>
    ensures { result ≡ meeting (Instr.ListUpdate left) right left_later }
{
    match right {
        Instr::EraseObject(right) => ListRules::meet(left, right, left_later),
        Instr::ListUpdate(right) => ListRules::meet(left, right, left_later),
        Instr::ListInsert(right) => ListRules::meet(left, right, left_later),
        Instr::ListErase(right) => ListRules::meet(left, right, left_later),
        Instr::Clear(right) => DictRules::meet(left, right, left_later),
        right => keep_both(left, right),
    }
}

fn meet_list_insert(left: ListInsert, right: Instr, left_later: bool) -> Result<Outcome, Mismatch>
    ensures { result ≡ meeting (Instr.ListInsert left) right left_later }
{
    match right {
        Instr::EraseObject(right) => ListRules::meet(left, right, left_later),
        Instr::ListUpdate(right) => ListRules::meet(left, right, left_later),
        Instr::ListInsert(right) => ListRules::meet(left, right, left_later),
        Instr::ListErase(right) => ListRules::meet(left, right, left_later),
        Instr::Clear(right) => DictRules::meet(left, right, left_later),
        right => keep_both(left, right),
    }
}

fn meet_list_erase(left: ListErase, right: Instr, left_later: bool) -> Result<Outcome, Mismatch>
    ensures { result ≡ meeting (Instr.ListErase left) right left_later }
{
    match right {
        Instr::EraseObject(right) => ListRules::meet(left, right, left_later),
        Instr::ListUpdate(right) => ListRules::meet(left, right, left_later),
        Instr::ListInsert(right) => ListRules::meet(left, right, left_later),
        Instr::ListErase(right) => ListRules::meet(left, right, left_later),
        Instr::Clear(right) => DictRules::meet(left, right, left_later),
        right => keep_both(left, right),
    }
}

fn meet_set_insert(left: SetInsert, right: Instr, left_later: bool) -> Result<Outcome, Mismatch>
    ensures { result ≡ meeting (Instr.SetInsert left) right left_later }
{
    match right {
        Instr::EraseObject(right) => SetRules::meet(left, right, left_later),
        Instr::SetErase(right) => SetRules::meet(left, right, left_later),
        Instr::Clear(right) => DictRules::meet(left, right, left_later),
        right => keep_both(left, right),
    }
}

fn meet_set_erase(left: SetErase, right: Instr, left_later: bool) -> Result<Outcome, Mismatch>
    ensures { result ≡ meeting (Instr.SetErase left) right left_later }
{
    match right {
        Instr::EraseObject(right) => SetRules::meet(left, right, left_later),
        Instr::SetInsert(right) => SetRules::meet(left, right, left_later),
        Instr::Clear(right) => DictRules::meet(left, right, left_later),
        right => keep_both(left, right),
    }
}

fn meet_dict_update(left: DictUpdate, right: Instr, left_later: bool) -> Result<Outcome, Mismatch>
    ensures { result ≡ meeting (Instr.DictUpdate left) right left_later }
{
    match right {
        Instr::EraseObject(right) => DictRules::meet(left, right, left_later),
        Instr::DictUpdate(right) => DictRules::meet(left, right, left_later),
        Instr::Clear(right) => DictRules::meet(left, right, left_later),
        right => keep_both(left, right),
    }
}

fn meet_clear(left: Clear, right: Instr, left_later: bool) -> Result<Outcome, Mismatch>
    ensures { result ≡ meeting (Instr.Clear left) right left_later }
{
    match right {
        Instr::EraseObject(right) => DictRules::meet(left, right, left_later),
        Instr::ListUpdate(right) => DictRules::meet(left, right, left_later),
        Instr::ListInsert(right) => DictRules::meet(left, right, left_later),
        Instr::ListErase(right) => DictRules::meet(left, right, left_later),
        Instr::SetInsert(right) => DictRules::meet(left, right, left_later),
        Instr::SetErase(right) => DictRules::meet(left, right, left_later),
        Instr::DictUpdate(right) => DictRules::meet(left, right, left_later),
        Instr::Clear(right) => DictRules::meet(left, right, left_later),
        right => keep_both(left, right),
    }
}

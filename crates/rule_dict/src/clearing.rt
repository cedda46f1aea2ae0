use super::DictRules;
use sync_base::{
    Clear, DictUpdate, ListErase, ListInsert, ListUpdate, Meets, Mismatch, Outcome, SetErase,
    SetInsert, left_wins, neither_wins, right_wins, same_cell,
};

impl Meets<ListUpdate, Clear> for DictRules {
    fn meet(left: ListUpdate, right: Clear, _: bool) -> Result<Outcome, Mismatch> {
        right_wins(same_cell(&left.cell, &right.cell), left, right)
    }
}

impl Meets<ListInsert, Clear> for DictRules {
    fn meet(left: ListInsert, right: Clear, _: bool) -> Result<Outcome, Mismatch> {
        right_wins(same_cell(&left.cell, &right.cell), left, right)
    }
}

impl Meets<ListErase, Clear> for DictRules {
    fn meet(left: ListErase, right: Clear, _: bool) -> Result<Outcome, Mismatch> {
        right_wins(same_cell(&left.cell, &right.cell), left, right)
    }
}

impl Meets<SetInsert, Clear> for DictRules {
    fn meet(left: SetInsert, right: Clear, _: bool) -> Result<Outcome, Mismatch> {
        right_wins(same_cell(&left.cell, &right.cell), left, right)
    }
}

impl Meets<SetErase, Clear> for DictRules {
    fn meet(left: SetErase, right: Clear, _: bool) -> Result<Outcome, Mismatch> {
        right_wins(same_cell(&left.cell, &right.cell), left, right)
    }
}

impl Meets<DictUpdate, Clear> for DictRules {
    fn meet(left: DictUpdate, right: Clear, _: bool) -> Result<Outcome, Mismatch> {
        right_wins(same_cell(&left.cell, &right.cell), left, right)
    }
}

impl Meets<Clear, ListUpdate> for DictRules {
    fn meet(left: Clear, right: ListUpdate, _: bool) -> Result<Outcome, Mismatch> {
        left_wins(same_cell(&left.cell, &right.cell), left, right)
    }
}

impl Meets<Clear, ListInsert> for DictRules {
    fn meet(left: Clear, right: ListInsert, _: bool) -> Result<Outcome, Mismatch> {
        left_wins(same_cell(&left.cell, &right.cell), left, right)
    }
}

impl Meets<Clear, ListErase> for DictRules {
    fn meet(left: Clear, right: ListErase, _: bool) -> Result<Outcome, Mismatch> {
        left_wins(same_cell(&left.cell, &right.cell), left, right)
    }
}

impl Meets<Clear, SetInsert> for DictRules {
    fn meet(left: Clear, right: SetInsert, _: bool) -> Result<Outcome, Mismatch> {
        left_wins(same_cell(&left.cell, &right.cell), left, right)
    }
}

impl Meets<Clear, SetErase> for DictRules {
    fn meet(left: Clear, right: SetErase, _: bool) -> Result<Outcome, Mismatch> {
        left_wins(same_cell(&left.cell, &right.cell), left, right)
    }
}

impl Meets<Clear, DictUpdate> for DictRules {
    fn meet(left: Clear, right: DictUpdate, _: bool) -> Result<Outcome, Mismatch> {
        left_wins(same_cell(&left.cell, &right.cell), left, right)
    }
}

impl Meets<Clear, Clear> for DictRules {
    fn meet(left: Clear, right: Clear, _: bool) -> Result<Outcome, Mismatch> {
        neither_wins(same_cell(&left.cell, &right.cell), left, right)
    }
}

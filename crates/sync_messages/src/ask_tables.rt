ghost use Rattle.std.specs.Prelude.{◌≡◌, ◌≤◌, IfOk};

use crate::ask::Ask;
use std::marker::Model;
use sync_data::NoMemory;
use sync_subset::Subset;

/// The question of a client that gets the objects of some tables alone: what it asks, the form of its file, which is 1 or
/// 2, and its tables.
#[derive(Drop)]
pub struct AskTables {
    ask: Ask,
    form: u32,
    tables: Subset,
}

impl Model for AskTables {
    ghost use Rattle.sync_messages.specs.Parts.{AskTablesParts, IsAskTables};

    ghost Value = { AskTablesParts };

    ghost view = { λ a. record { ask = a.ask; form = a.form; tables = a.tables } };

    ghost invariant = { λ a. IsAskTables (record { ask = a.ask; form = a.form; tables = a.tables }) };
}

impl AskTables {
    /// That client's question, where its file is in that form, for its tables.
    pub fn new(ask: Ask, form: u32, tables: Subset) -> AskTables
        requires first { 1 ≤ form }
        requires second { form ≤ 2 }
        ensures { result ≡ record { ask = ask; form = form; tables = tables } }
    {
        AskTables { ask, form, tables }
    }

    /// What the client asks.
    pub fn ask(&self) -> &Ask
        ensures { result.now ≡ self.now.ask }
    {
        &self.ask
    }

    /// The form of the client's file: 1, or 2 where it takes changesets of version 2 too.
    pub fn form(&self) -> u32
        ensures value { result ≡ self.now.form }
        ensures first { 1 ≤ result }
        ensures second { result ≤ 2 }
    {
        self.form
    }

    /// The client's tables.
    pub fn tables(&self) -> &Subset
        ensures { result.now ≡ self.now.tables }
    {
        &self.tables
    }

    /// An equal question.
    pub fn copy(&self) -> Result<AskTables, NoMemory>
        ensures { IfOk result (λ copy. copy ≡ self.now) }
    {
        Ok(AskTables {
            ask: self.ask.copy(),
            form: self.form,
            tables: self.tables.copy()?,
        })
    }
}

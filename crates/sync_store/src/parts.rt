ghost use Rattle.std.specs.Prelude.{◌≡◌};
ghost use Rattle.sync_base.specs.States.{no_state};

use super::objects::Objects;
use std::alloc::Global;
use std::marker::Model;
use sync_schema::Schema;

/// A schema and objects, which need not fit each other.
#[derive(Drop)]
pub(crate) struct Parts {
    pub(crate) alloc: Global,
    pub(crate) schema: Schema,
    pub(crate) objects: Objects,
}

impl Model for Parts {
    ghost use Rattle.sync_base.specs.States.{State};
    ghost use Rattle.sync_store.specs.Codes.{coded_state};

    ghost Value = { State };

    ghost coded = { coded_state };

    ghost view = { λ a. record { tables = a.schema; objects = a.objects } };
}

impl Parts {
    /// Takes everything out.
    pub(crate) fn clear(&mut self)
        ensures { self.new ≡ no_state }
    {
        self.schema.clear();
        self.objects.clear();
    }
}

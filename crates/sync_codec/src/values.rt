ghost use Rattle.std.specs.Prelude.{◌≡◌};
ghost use Rattle.sync_codec.specs.Fields.{Gives};
ghost use Rattle.sync_codec.specs.Values.{time_at, blob_at, text_at, int_value_at, flag_value_at, text_value_at, bytes_value_at, time_value_at, uuid_value_at, link_value_at, later_value_at, value_at, binding_at};

use crate::reader::Reader;
use crate::refusal::{ReadRefusal, Rule, broken};
use std::alloc::Global;
use sync_base::{Blob, Text, Time, Value};

impl Reader<'_> {
    #[tactic(auto, unfolding(crate::specs::Values::time_at), using(crate::specs::Lemmas::is_time_from, crate::specs::Lemmas::is_time_not))]
    fn time(&mut self) -> Result<Time, ReadRefusal>
        ensures { Gives (λ t. (t, self.new)) result (time_at self.old) }
    {
        let field = self.rest();
        let secs = self.signed64()?;
        let nanos = self.signed32()?;
        match Time::new(secs, nanos) {
            Ok(time) => Ok(time),
            Err(_) => broken(field, Rule::BadTime),
        }
    }

    #[tactic(auto, unfolding(crate::specs::Values::blob_at))]
    fn blob(&mut self, alloc: Global) -> Result<Blob, ReadRefusal>
        ensures { Gives (λ b. (b, self.new)) result (blob_at self.old) }
    {
        let len = self.number32()?;
        let run = self.run(len as usize)?;
        match Blob::new(alloc, run) {
            Ok(bytes) => Ok(bytes),
            Err(_) => Err(ReadRefusal::NoMemory),
        }
    }

    #[tactic(auto, unfolding(crate::specs::Values::text_at), using(crate::specs::Lemmas::utf8_is, crate::specs::Lemmas::utf8_not))]
    fn text(&mut self, alloc: Global) -> Result<Text, ReadRefusal>
        ensures { Gives (λ t. (t, self.new)) result (text_at self.old) }
    {
        let len = self.number32()?;
        let field = self.rest();
        let run = self.run(len as usize)?;
        match str::from_utf8(run) {
            Err(_) => broken(field, Rule::BadText),
            Ok(text) => match Text::new(alloc, text) {
                Ok(text) => Ok(text),
                Err(_) => Err(ReadRefusal::NoMemory),
            },
        }
    }

    #[tactic(auto, unfolding(crate::specs::Values::int_value_at))]
    fn int_value(&mut self) -> Result<Value, ReadRefusal>
        ensures { Gives (λ v. (v, self.new)) result (int_value_at self.old) }
    {
        let number = self.signed64()?;
        Ok(Value::Int(number))
    }

    #[tactic(auto, unfolding(crate::specs::Values::flag_value_at))]
    fn flag_value(&mut self) -> Result<Value, ReadRefusal>
        ensures { Gives (λ v. (v, self.new)) result (flag_value_at self.old) }
    {
        let flag = self.flag()?;
        Ok(Value::Bool(flag))
    }

    #[tactic(auto, unfolding(crate::specs::Values::text_value_at))]
    fn text_value(&mut self, alloc: Global) -> Result<Value, ReadRefusal>
        ensures { Gives (λ v. (v, self.new)) result (text_value_at self.old) }
    {
        let text = self.text(alloc)?;
        Ok(Value::Text(text))
    }

    #[tactic(auto, unfolding(crate::specs::Values::bytes_value_at))]
    fn bytes_value(&mut self, alloc: Global) -> Result<Value, ReadRefusal>
        ensures { Gives (λ v. (v, self.new)) result (bytes_value_at self.old) }
    {
        let bytes = self.blob(alloc)?;
        Ok(Value::Bytes(bytes))
    }

    #[tactic(auto, unfolding(crate::specs::Values::time_value_at))]
    fn time_value(&mut self) -> Result<Value, ReadRefusal>
        ensures { Gives (λ v. (v, self.new)) result (time_value_at self.old) }
    {
        let time = self.time()?;
        Ok(Value::Time(time))
    }

    #[tactic(auto, unfolding(crate::specs::Values::uuid_value_at))]
    fn uuid_value(&mut self) -> Result<Value, ReadRefusal>
        ensures { Gives (λ v. (v, self.new)) result (uuid_value_at self.old) }
    {
        let id = self.id()?;
        Ok(Value::Uuid(id))
    }

    #[tactic(auto, unfolding(crate::specs::Values::link_value_at))]
    fn link_value(&mut self, alloc: Global) -> Result<Value, ReadRefusal>
        ensures { Gives (λ v. (v, self.new)) result (link_value_at self.old) }
    {
        let table = self.name()?;
        let key = self.key(alloc)?;
        Ok(Value::Link { table, key })
    }

    /// The next value, where its tag was 4 to 7. `field` is where the tag stood.
    #[tactic(auto, unfolding(crate::specs::Values::later_value_at))]
    fn later_value(&mut self, alloc: Global, tag: u8, field: &[u8]) -> Result<Value, ReadRefusal>
        ensures { Gives (λ v. (v, self.new)) result (later_value_at tag self.old field.now) }
    {
        match tag {
            4 => self.bytes_value(alloc),
            5 => self.time_value(),
            6 => self.uuid_value(),
            7 => self.link_value(alloc),
            _ => broken(field, Rule::BadTag),
        }
    }

    /// The next value.
    #[tactic(auto, unfolding(crate::specs::Values::value_at))]
    pub fn value(&mut self, alloc: Global) -> Result<Value, ReadRefusal>
        ensures { Gives (λ v. (v, self.new)) result (value_at self.old) }
    {
        let field = self.rest();
        match self.byte()? {
            0 => Ok(Value::Null),
            1 => self.int_value(),
            2 => self.flag_value(),
            3 => self.text_value(alloc),
            tag => self.later_value(alloc, tag, field),
        }
    }

    /// The next binding of a dictionary: a flag, and the value where it is set.
    #[tactic(auto, unfolding(crate::specs::Values::binding_at))]
    pub fn binding(&mut self, alloc: Global) -> Result<Option<Value>, ReadRefusal>
        ensures { Gives (λ v. (v, self.new)) result (binding_at self.old) }
    {
        if !self.flag()? {
            return Ok(None);
        }
        let value = self.value(alloc)?;
        Ok(Some(value))
    }
}

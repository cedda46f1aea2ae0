ghost use Rattle.std.specs.Prelude.{◌≡◌, IfOk, length, ◌≤◌};
ghost use Rattle.sync_codec.specs.Fields.{Gives};
ghost use Rattle.sync_codec.specs.Reading.{string_at};
ghost use Rattle.sync_codec.specs.Keys.{flag_at, key_kind_at, shape_at, int_key_at, text_key_at, uuid_key_at, key_at, kind_byte_at, link_at, kind_at, column_at, cell_name_at, element_at, gap_at};

use crate::reader::Reader;
use crate::refusal::{ReadRefusal, Rule, broken};
use std::alloc::Global;
use sync_base::{Between, CellName, Column, Inside, Key, KeyKind, KeyText, Kind, Shape};

impl Reader<'_> {
    /// The next flag: a byte 0 or 1.
    #[tactic(auto, unfolding(crate::specs::Keys::flag_at))]
    pub fn flag(&mut self) -> Result<bool, ReadRefusal>
        ensures { Gives (λ b. (b, self.new)) result (flag_at self.old) }
    {
        let field = self.rest();
        match self.byte()? {
            0 => Ok(false),
            1 => Ok(true),
            _ => broken(field, Rule::BadTag),
        }
    }

    /// The next kind of keys.
    #[tactic(auto, unfolding(crate::specs::Keys::key_kind_at))]
    pub fn key_kind(&mut self) -> Result<KeyKind, ReadRefusal>
        ensures { Gives (λ k. (k, self.new)) result (key_kind_at self.old) }
    {
        let field = self.rest();
        match self.byte()? {
            0 => Ok(KeyKind::Int),
            1 => Ok(KeyKind::Text),
            2 => Ok(KeyKind::Uuid),
            _ => broken(field, Rule::BadTag),
        }
    }

    #[tactic(auto, unfolding(crate::specs::Keys::shape_at))]
    fn shape(&mut self) -> Result<Shape, ReadRefusal>
        ensures { Gives (λ s. (s, self.new)) result (shape_at self.old) }
    {
        let field = self.rest();
        let second = self.second();
        match self.byte()? {
            0 => Ok(Shape::One),
            1 => Ok(Shape::List),
            2 => Ok(Shape::Set),
            3 if second => Ok(Shape::Dict),
            _ => broken(field, Rule::BadTag),
        }
    }

    #[tactic(auto, unfolding(crate::specs::Keys::int_key_at))]
    fn int_key(&mut self) -> Result<Key, ReadRefusal>
        ensures { Gives (λ k. (k, self.new)) result (int_key_at self.old) }
    {
        let number = self.signed64()?;
        Ok(Key::Int(number))
    }

    /// The next text key.
    pub fn key_text(&mut self, alloc: Global) -> Result<KeyText, ReadRefusal>
        ensures { Gives (λ k. (k, self.new)) result (string_at self.old) }
    {
        let text = self.string()?;
        match KeyText::new(alloc, text) {
            Ok(key) => Ok(key),
            Err(_) => Err(ReadRefusal::NoMemory),
        }
    }

    #[tactic(auto, unfolding(crate::specs::Keys::text_key_at))]
    fn text_key(&mut self, alloc: Global) -> Result<Key, ReadRefusal>
        ensures { Gives (λ k. (k, self.new)) result (text_key_at self.old) }
    {
        let text = self.key_text(alloc)?;
        Ok(Key::Text(text))
    }

    #[tactic(auto, unfolding(crate::specs::Keys::uuid_key_at))]
    fn uuid_key(&mut self) -> Result<Key, ReadRefusal>
        ensures { Gives (λ k. (k, self.new)) result (uuid_key_at self.old) }
    {
        let id = self.id()?;
        Ok(Key::Uuid(id))
    }

    /// The next key.
    #[tactic(auto, unfolding(crate::specs::Keys::key_at))]
    pub fn key(&mut self, alloc: Global) -> Result<Key, ReadRefusal>
        ensures { Gives (λ k. (k, self.new)) result (key_at self.old) }
    {
        let field = self.rest();
        match self.byte()? {
            0 => self.int_key(),
            1 => self.text_key(alloc),
            2 => self.uuid_key(),
            _ => broken(field, Rule::BadTag),
        }
    }

    /// The next byte of a kind, 1 to 7.
    #[tactic(auto, unfolding(crate::specs::Keys::kind_byte_at))]
    fn kind_byte(&mut self) -> Result<u8, ReadRefusal>
        ensures { Gives (λ b. (b, self.new)) result (kind_byte_at self.old) }
    {
        let field = self.rest();
        let byte = self.byte()?;
        if byte > 0 && byte < 8 {
            Ok(byte)
        } else {
            broken(field, Rule::BadTag)
        }
    }

    #[tactic(auto, unfolding(crate::specs::Keys::link_at))]
    fn link(&mut self) -> Result<Kind, ReadRefusal>
        ensures { Gives (λ k. (k, self.new)) result (link_at self.old) }
    {
        let target = self.name()?;
        Ok(Kind::Link(target))
    }

    /// The kind of that byte, with the target of a link, which comes next.
    #[tactic(auto, unfolding(crate::specs::Keys::kind_at))]
    fn kind(&mut self, byte: u8) -> Result<Kind, ReadRefusal>
        ensures { Gives (λ k. (k, self.new)) result (kind_at byte self.old) }
    {
        match byte {
            1 => Ok(Kind::Int),
            2 => Ok(Kind::Bool),
            3 => Ok(Kind::Text),
            4 => Ok(Kind::Bytes),
            5 => Ok(Kind::Time),
            6 => Ok(Kind::Uuid),
            _ => self.link(),
        }
    }

    /// What the next column holds.
    #[tactic(auto, unfolding(crate::specs::Keys::column_at))]
    pub fn column(&mut self) -> Result<Column, ReadRefusal>
        ensures { Gives (λ c. (c, self.new)) result (column_at self.old) }
    {
        let byte = self.kind_byte()?;
        let nullable = self.flag()?;
        let shape = self.shape()?;
        let kind = self.kind(byte)?;
        Ok(Column {
            kind,
            nullable,
            shape,
        })
    }

    /// The next name of a cell.
    #[tactic(auto, unfolding(crate::specs::Keys::cell_name_at))]
    pub fn cell_name(&mut self, alloc: Global) -> Result<CellName, ReadRefusal>
        ensures { Gives (λ c. (c, self.new)) result (cell_name_at self.old) }
    {
        let table = self.name()?;
        let key = self.key(alloc)?;
        let column = self.name()?;
        Ok(CellName { table, key, column })
    }

    /// The next place of an element.
    #[tactic(auto, unfolding(crate::specs::Keys::element_at))]
    pub fn element(&mut self) -> Result<Inside, ReadRefusal>
        ensures { Gives (λ s. (s, self.new)) result (element_at self.old) }
    {
        let field = self.rest();
        let place = self.number32()?;
        let prior = self.number32()?;
        match Inside::new(place, prior) {
            Ok(spot) => Ok(spot),
            Err(_) => broken(field, Rule::BadPlace),
        }
    }

    /// The next place of a gap.
    #[tactic(auto, unfolding(crate::specs::Keys::gap_at))]
    pub fn gap(&mut self) -> Result<Between, ReadRefusal>
        ensures { Gives (λ s. (s, self.new)) result (gap_at self.old) }
    {
        let field = self.rest();
        let place = self.number32()?;
        let prior = self.number32()?;
        match Between::new(place, prior) {
            Ok(spot) => Ok(spot),
            Err(_) => broken(field, Rule::BadPlace),
        }
    }
}

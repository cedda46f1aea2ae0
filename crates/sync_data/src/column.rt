ghost use Rattle.std.specs.Prelude.{◌≡◌};

use super::memory::NoMemory;
use super::name::Name;

/// The kind of a column's values. A link names its target table.
#[derive(PartialEq, Eq, Drop)]
pub enum Kind {
    Int,
    Bool,
    Text,
    Bytes,
    Time,
    Uuid,
    Link(Name),
}

/// How many values a cell has: one, a list, a set, or a dictionary by text keys.
#[derive(Clone, Copy, Debug, PartialEq, Eq)]
pub enum Shape {
    One,
    List,
    Set,
    Dict,
}

/// What a column holds.
#[derive(PartialEq, Eq, Drop)]
pub struct Column {
    pub kind: Kind,
    pub nullable: bool,
    pub shape: Shape,
}

impl Kind {
    /// An equal kind. It takes no memory and always succeeds.
    pub fn copy(&self) -> Result<Kind, NoMemory>
        ensures equal { result ≡ Ok self.now }
    {
        match self {
            Kind::Int => Ok(Kind::Int),
            Kind::Bool => Ok(Kind::Bool),
            Kind::Text => Ok(Kind::Text),
            Kind::Bytes => Ok(Kind::Bytes),
            Kind::Time => Ok(Kind::Time),
            Kind::Uuid => Ok(Kind::Uuid),
            Kind::Link(table) => Ok(Kind::Link(table.copy()?)),
        }
    }
}

impl Column {
    /// An equal column. It takes no memory and always succeeds.
    pub fn copy(&self) -> Result<Column, NoMemory>
        ensures equal { result ≡ Ok self.now }
    {
        Ok(Column {
            kind: self.kind.copy()?,
            nullable: self.nullable,
            shape: self.shape,
        })
    }
}

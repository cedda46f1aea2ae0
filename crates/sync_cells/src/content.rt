use super::element::Element;
use std::collections::{BTreeMap, BTreeSet};
use sum_list::SumList;
use sync_base::{KeyText, Value as Held};

/// What a cell holds.
pub enum Content {
    One(Held),
    List(SumList<Element>),
    Set(BTreeSet<Held>),
    Dict(BTreeMap<KeyText, Held>),
}

impl Drop for Content {
    fn drop(self) {
        match self {
            Content::One(_) => {}
            Content::List(_) => {}
            Content::Set(_) => {}
            Content::Dict(_) => {}
        }
    }
}

ghost use Rattle.std.specs.Prelude.{◌≡◌, ◌<◌, ◌^◌, IfOk};
ghost use Rattle.sync_gen.specs.Edits.{number_updated, number_raised, text_updated, element_inserted, element_erased, element_updated, member_inserted, member_erased, link_updated, erased_or_linked, edit_by, edit_of};

use super::generator::Gen;
use super::instrs::{
    add_integer, create_object, erase_object, integer, link_to, list_erase, list_insert,
    list_update, set_erase, set_insert, text_of, update,
};
use super::lists::list_length;
use std::alloc::Global;
use sync_base::{Instr, NoMemory};
use sync_store::Store;

impl Gen {
    /// The edit that is drawn for these objects: one of sixteen is created where it is absent, and else changed or
    /// erased. Out of memory, the numbers are drawn all the same.
    pub fn edit(&mut self, alloc: Global, objects: &Store) -> Result<Instr, NoMemory>
        ensures edit { IfOk result (λ instr. instr ≡ (edit_of objects.now self.old).0) }
        ensures state { self.new ≡ (edit_of objects.now self.old).1 }
    {
        let key = self.draw(16);
        match list_length(objects, key) {
            None => Ok(create_object(key)),
            Some(length) => {
                let row = self.draw(10);
                self.edit_by(alloc, key, length, row)
            }
        }
    }

    fn edit_by(&mut self, alloc: Global, key: u32, length: u32, row: u32) -> Result<Instr, NoMemory>
        requires { length < 2 ^ 31 }
        ensures edit { IfOk result (λ instr. instr ≡ (edit_by key length row self.old).0) }
        ensures state { self.new ≡ (edit_by key length row self.old).1 }
    {
        match row {
            0 => Ok(self.number_updated(key)),
            1 => Ok(self.number_raised(key)),
            2 => self.text_updated(alloc, key),
            3 | 4 => self.element_inserted(alloc, key, length),
            5 | 6 if length == 0 => list_insert(alloc, key, 0, 0, 0),
            5 => Ok(self.element_erased(key, length)),
            6 => self.element_updated(alloc, key, length),
            7 => Ok(self.member_inserted(key)),
            8 => Ok(self.member_erased(key)),
            _ => Ok(self.erased_or_linked(key)),
        }
    }

    fn number_updated(&mut self, key: u32) -> Instr
        ensures edit { result ≡ (number_updated key self.old).0 }
        ensures state { self.new ≡ (number_updated key self.old).1 }
    {
        let number = self.draw(1000);
        update(key, "n", integer(number))
    }

    fn number_raised(&mut self, key: u32) -> Instr
        ensures edit { result ≡ (number_raised key self.old).0 }
        ensures state { self.new ≡ (number_raised key self.old).1 }
    {
        let number = self.draw(1000);
        add_integer(key, number)
    }

    fn text_updated(&mut self, alloc: Global, key: u32) -> Result<Instr, NoMemory>
        ensures edit { IfOk result (λ instr. instr ≡ (text_updated key self.old).0) }
        ensures state { self.new ≡ (text_updated key self.old).1 }
    {
        let number = self.draw(1000);
        Ok(update(key, "s", text_of(alloc, number)?))
    }

    fn element_inserted(&mut self, alloc: Global, key: u32, length: u32) -> Result<Instr, NoMemory>
        requires { length < 2 ^ 31 }
        ensures edit { IfOk result (λ instr. instr ≡ (element_inserted key length self.old).0) }
        ensures state { self.new ≡ (element_inserted key length self.old).1 }
    {
        let place = self.draw(length + 1);
        let number = self.draw(1000);
        list_insert(alloc, key, length, place, number)
    }

    fn element_erased(&mut self, key: u32, length: u32) -> Instr
        requires { 0 < length }
        ensures edit { result ≡ (element_erased key length self.old).0 }
        ensures state { self.new ≡ (element_erased key length self.old).1 }
    {
        let place = self.draw(length);
        list_erase(key, length, place)
    }

    fn element_updated(&mut self, alloc: Global, key: u32, length: u32) -> Result<Instr, NoMemory>
        requires { 0 < length }
        ensures edit { IfOk result (λ instr. instr ≡ (element_updated key length self.old).0) }
        ensures state { self.new ≡ (element_updated key length self.old).1 }
    {
        let place = self.draw(length);
        let number = self.draw(1000);
        list_update(alloc, key, length, place, number)
    }

    fn member_inserted(&mut self, key: u32) -> Instr
        ensures edit { result ≡ (member_inserted key self.old).0 }
        ensures state { self.new ≡ (member_inserted key self.old).1 }
    {
        let number = self.draw(20);
        set_insert(key, number)
    }

    fn member_erased(&mut self, key: u32) -> Instr
        ensures edit { result ≡ (member_erased key self.old).0 }
        ensures state { self.new ≡ (member_erased key self.old).1 }
    {
        let number = self.draw(20);
        set_erase(key, number)
    }

    fn erased_or_linked(&mut self, key: u32) -> Instr
        ensures edit { result ≡ (erased_or_linked key self.old).0 }
        ensures state { self.new ≡ (erased_or_linked key self.old).1 }
    {
        if self.draw(4) == 0 {
            return erase_object(key);
        }
        self.link_updated(key)
    }

    fn link_updated(&mut self, key: u32) -> Instr
        ensures edit { result ≡ (link_updated key self.old).0 }
        ensures state { self.new ≡ (link_updated key self.old).1 }
    {
        let number = self.draw(16);
        update(key, "k", link_to(number))
    }
}

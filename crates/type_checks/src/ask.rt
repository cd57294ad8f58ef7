//! Words that ask of types.

use crate::machine::{Machine, Stop, number};
use crate::premises::total_size;
use c_types::Term;
use std::alloc::AllocError;
use std::str;

impl Machine {
    /// Prints what is asked of the type on top of the stack; false where the word is none.
    pub fn ask(&mut self, name: &str, argument: &str) -> Result<bool, Stop> {
        match name {
            "size" => self.size()?,
            "align" => self.align()?,
            "spell" => self.spell()?,
            "length" => self.length()?,
            "bits" => self.bits()?,
            "pointer?" | "const?" | "constmember?" | "union?" | "finished?" => self.is(name)?,
            "same" | "compatible" | "alike" | "equal" => self.compare(name)?,
            "members" | "total" => self.count_members(name)?,
            "offset" => self.offset(number(argument))?,
            "find" => self.find(argument)?,
            "findall" => self.find_all()?,
            "name" => self.name_length()?,
            "parameters" => self.count_parameters()?,
            _ => return Ok(false),
        }
        Ok(true)
    }

    fn say_number(&mut self, value: Option<u64>) -> Result<(), AllocError> {
        match value {
            None => self.say("none"),
            Some(value) => {
                let text = format!(in self.alloc; "{value}")?;
                self.say(text.as_str())
            }
        }
    }

    fn say_whether(&mut self, whether: bool) -> Result<(), AllocError> {
        self.say(if whether { "yes" } else { "no" })
    }

    fn size(&mut self) -> Result<(), Stop> {
        let id = self.at(0)?;
        let size = self.table.size_of(id).map(|n| n as u64);
        self.say_number(size)?;
        Ok(())
    }

    fn align(&mut self) -> Result<(), Stop> {
        let id = self.at(0)?;
        let align = self.table.align_of(id).map(|n| n as u64);
        self.say_number(align)?;
        Ok(())
    }

    fn spell(&mut self) -> Result<(), Stop> {
        let id = self.at(0)?;
        let text = self.table.spelling(self.alloc, id)?;
        match str::from_utf8(text.as_slice()) {
            Ok(text) => self.say(text)?,
            Err(_) => self.say("no text")?,
        }
        Ok(())
    }

    /// How many bytes its spelling has.
    fn length(&mut self) -> Result<(), Stop> {
        let id = self.at(0)?;
        let text = self.table.spelling(self.alloc, id)?;
        self.say_number(Some(text.len() as u64))?;
        Ok(())
    }

    /// The qualifiers that are met on the way to its plain type.
    fn bits(&mut self) -> Result<(), Stop> {
        let id = self.at(0)?;
        let bits = self.table.qualifiers_met(id);
        self.say_number(Some(bits as u64))?;
        Ok(())
    }

    fn is(&mut self, name: &str) -> Result<(), Stop> {
        let id = self.at(0)?;
        let whether = match name {
            "pointer?" => self.table.has_pointer(id),
            "const?" => self.table.holds_const(id),
            "constmember?" => self.table.has_const_member(id),
            "union?" => self.table.is_union(id),
            _ => self.table.is_finished(id),
        };
        self.say_whether(whether)?;
        Ok(())
    }

    /// Compares the two types on top of the stack.
    fn compare(&mut self, name: &str) -> Result<(), Stop> {
        let b = self.at(0)?;
        let a = self.at(1)?;
        let whether = match name {
            "same" => self.table.same(a, b),
            "compatible" => self.table.compatible(a, b),
            "alike" => self.table.alike(a, b),
            _ => self.table.canonical(a) == b,
        };
        self.say_whether(whether)?;
        Ok(())
    }

    fn count_members(&mut self, name: &str) -> Result<(), Stop> {
        let id = self.at(0)?;
        if !self.table.is_finished(id) {
            return Err(Stop::Word);
        }
        let count = if name == "total" {
            total_size(&self.table, id)
        } else {
            self.table.members(id).len() as u64
        };
        self.say_number(Some(count))?;
        Ok(())
    }

    fn offset(&mut self, member: u32) -> Result<(), Stop> {
        let id = self.at(0)?;
        if !self.table.is_finished(id) {
            return Err(Stop::Word);
        }
        let offset = self.table.offset_of(id, member);
        self.say_number(Some(offset as u64))?;
        Ok(())
    }

    fn find(&mut self, name: &str) -> Result<(), Stop> {
        let id = self.at(0)?;
        if !self.table.is_finished(id) {
            return Err(Stop::Word);
        }
        let place = self.table.member(id, name.as_bytes());
        self.say_number(place)?;
        Ok(())
    }

    /// How many members are found at their places by their names.
    fn find_all(&mut self) -> Result<(), Stop> {
        let id = self.at(0)?;
        if !self.table.is_finished(id) {
            return Err(Stop::Word);
        }
        let mut count: u64 = 0;
        for (i, member) in self.table.members(id).as_slice().iter().enumerate() {
            if self.table.member(id, member.name.as_slice()) == Some(i as u64) {
                count = count.wrapping_add(1);
            }
        }
        self.say_number(Some(count))?;
        Ok(())
    }

    /// How many bytes the typedef name has.
    fn name_length(&mut self) -> Result<(), Stop> {
        let id = self.at(0)?;
        let length = match self.table.term(id) {
            Term::Named(name, _) => name.len() as u64,
            _ => 0,
        };
        self.say_number(Some(length))?;
        Ok(())
    }

    fn count_parameters(&mut self) -> Result<(), Stop> {
        let id = self.at(0)?;
        let count = self.table.parameters_of(id).len() as u64;
        self.say_number(Some(count))?;
        Ok(())
    }
}

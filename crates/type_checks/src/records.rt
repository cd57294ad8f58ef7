//! Words that declare structs, unions and enumerations.

use crate::machine::{Machine, Stop};
use c_types::Member;
use tok_base::Items;

impl Machine {
    /// Declares or finishes a record; false where the word is another one.
    pub fn records(&mut self, name: &str, argument: &str) -> Result<bool, Stop> {
        match name {
            "struct" => self.declare(false, argument)?,
            "union" => self.declare(true, argument)?,
            "enum" => self.enumeration(argument)?,
            "member" => self.member(argument)?,
            "finish" => self.finish()?,
            _ => return Ok(false),
        }
        Ok(true)
    }

    fn declare(&mut self, is_union: bool, argument: &str) -> Result<(), Stop> {
        let name = Items::from_slice(self.alloc, argument.as_bytes())?;
        let id = self.table.declare_record(is_union, name)?;
        self.push(id)
    }

    fn enumeration(&mut self, argument: &str) -> Result<(), Stop> {
        let name = Items::from_slice(self.alloc, argument.as_bytes())?;
        let id = self.table.declare_enum(name)?;
        self.push(id)
    }

    /// The type on top of the stack is that of the next record's next member; `#` in a name is how many
    /// members there are before it.
    fn member(&mut self, argument: &str) -> Result<(), Stop> {
        let ty = self.pop()?;
        let mut name = Items::new(self.alloc);
        for byte in argument.as_bytes() {
            if *byte == b'#' {
                let count = self.members.len();
                let digits = format!(in self.alloc; "{count}")?;
                for digit in digits.as_bytes() {
                    name.push(*digit)?;
                }
            } else {
                name.push(*byte)?;
            }
        }
        self.members.push(Member { name, ty })?;
        Ok(())
    }

    /// The record on top of the stack has the members that were named.
    fn finish(&mut self) -> Result<(), Stop> {
        let id = self.at(0)?;
        let mut members = Items::new(self.alloc);
        std::mem::swap(&mut members, &mut self.members);
        let bound = self.table.len();
        if !self.table.is_unfinished(id)
            || members.is_empty()
            || !members.as_slice().iter().all(|m| m.ty.0 < bound)
        {
            return Err(Stop::Word);
        }
        self.table.finish_record(id, members)?;
        Ok(())
    }
}

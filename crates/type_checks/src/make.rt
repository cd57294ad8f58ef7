//! Words that make types.

ghost use Rattle.std.specs.Prelude.{◌<◌, ℕ, IfOk};
ghost use Rattle.c_types.specs.Table.{AllBelow};

use crate::machine::{Machine, Stop, number};
use c_types::{Term, TypeId};
use num_ops::IntKind;
use std::alloc::Global;
use tok_base::{Items, NoMemory};

impl Machine {
    /// Makes a type of those on the stack; false where the word is another one.
    pub fn make(&mut self, name: &str, argument: &str) -> Result<bool, Stop> {
        match name {
            "void" => self.void()?,
            "int" => self.int(argument)?,
            "ptr" => self.pointer()?,
            "array" => self.array(number(argument))?,
            "flexible" => self.flexible()?,
            "q" => self.qualified(number(argument))?,
            "as" => self.named(argument)?,
            "copy" => self.copy(number(argument))?,
            "drop" => self.drop_top()?,
            "under" => self.under()?,
            "plain" => self.plain()?,
            "result" => self.result()?,
            "calls" => self.function(number(argument))?,
            _ => return Ok(false),
        }
        Ok(true)
    }

    fn void(&mut self) -> Result<(), Stop> {
        let id = self.table.add(Term::Void)?;
        self.push(id)
    }

    fn int(&mut self, argument: &str) -> Result<(), Stop> {
        let id = self.table.add(Term::Int(kind(argument)))?;
        self.push(id)
    }

    fn pointer(&mut self) -> Result<(), Stop> {
        let to = self.pop()?;
        let id = self.table.add(Term::Pointer(to))?;
        self.push(id)
    }

    fn array(&mut self, count: u32) -> Result<(), Stop> {
        let element = self.pop()?;
        let id = self.table.add(Term::Array(element, count))?;
        self.push(id)
    }

    fn flexible(&mut self) -> Result<(), Stop> {
        let element = self.pop()?;
        let id = self.table.add(Term::Flexible(element))?;
        self.push(id)
    }

    fn qualified(&mut self, qualifiers: u32) -> Result<(), Stop> {
        let inner = self.pop()?;
        let id = self
            .table
            .add(Term::Qualified((qualifiers % 8) as u8, inner))?;
        self.push(id)
    }

    fn named(&mut self, argument: &str) -> Result<(), Stop> {
        let inner = self.pop()?;
        let name = Items::from_slice(self.alloc, argument.as_bytes())?;
        let id = self.table.add(Term::Named(name, inner))?;
        self.push(id)
    }

    fn copy(&mut self, below: u32) -> Result<(), Stop> {
        let id = self.at(below as usize)?;
        self.push(id)
    }

    fn drop_top(&mut self) -> Result<(), Stop> {
        self.pop()?;
        Ok(())
    }

    /// Takes the type below the top away.
    fn under(&mut self) -> Result<(), Stop> {
        let id = self.pop()?;
        self.pop()?;
        self.push(id)
    }

    fn plain(&mut self) -> Result<(), Stop> {
        let id = self.pop()?;
        let plain = self.table.plain(id);
        self.push(plain)
    }

    fn result(&mut self) -> Result<(), Stop> {
        let id = self.pop()?;
        match self.table.result_of(id) {
            None => Err(Stop::Word),
            Some(returned) => self.push(returned),
        }
    }

    /// A function that returns the type below the top, and takes so many of the one on top.
    fn function(&mut self, count: u32) -> Result<(), Stop> {
        let parameter = self.at(0)?;
        let returned = self.at(1)?;
        let parameters = so_many(self.alloc, parameter, count)?;
        let id = self.table.add(Term::Function(returned, parameters))?;
        self.push(id)
    }
}

fn so_many(alloc: Global, id: TypeId, count: u32) -> Result<Items<TypeId>, NoMemory>
    ensures { IfOk result (λ ids. (n : ℕ) → id.0 < n → AllBelow n ids) }
{
    let mut ids = Items::new(alloc);
    for _ in 0..count {
        ids.push(id)?;
    }
    Ok(ids)
}

fn kind(name: &str) -> IntKind {
    match name {
        "_Bool" => IntKind::Bool,
        "char" => IntKind::Char,
        "schar" => IntKind::SChar,
        "uchar" => IntKind::UChar,
        "short" => IntKind::Short,
        "ushort" => IntKind::UShort,
        "uint" => IntKind::UInt,
        "long" => IntKind::Long,
        "ulong" => IntKind::ULong,
        "llong" => IntKind::LongLong,
        "ullong" => IntKind::ULongLong,
        _ => IntKind::Int,
    }
}

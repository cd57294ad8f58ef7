//! The stack of types, and the words of a line.

ghost use Rattle.std.specs.Prelude.{◌≡◌, ◌<◌, ◌≤◌, length, IfOk};

use c_types::{Member, TypeEnd, TypeId, TypeTable};
use std::alloc::{AllocError, Global};
use tok_base::{Items, NoMemory};

/// Why a line stops.
#[derive(Clone, Copy, Debug)]
pub enum Stop {
    Refused(TypeEnd),
    /// A word that isn't one, or a type that isn't there.
    Word,
}

impl From<TypeEnd> for Stop {
    fn from(end: TypeEnd) -> Stop {
        Stop::Refused(end)
    }
}

impl From<NoMemory> for Stop {
    fn from(_: NoMemory) -> Stop {
        Stop::Refused(TypeEnd::NoMemory)
    }
}

impl From<AllocError> for Stop {
    fn from(_: AllocError) -> Stop {
        Stop::Refused(TypeEnd::NoMemory)
    }
}

/// A table with a stack of its types, the members of the next record, and what is printed so far.
#[derive(Drop)]
pub struct Machine {
    pub alloc: Global,
    pub table: TypeTable,
    pub stack: Items<TypeId>,
    pub members: Items<Member>,
    pub out: String,
}

/// What a line prints.
pub fn answer(alloc: Global, line: &str) -> Result<String, AllocError> {
    let Ok(table) = TypeTable::new(alloc) else {
        return String::from_str(alloc, "no memory");
    };
    let mut words = Vec::new(alloc);
    for word in line.split(' ') {
        words.push(word)?;
    }
    let mut machine = Machine {
        alloc,
        table,
        stack: Items::new(alloc),
        members: Items::new(alloc),
        out: String::new(alloc),
    };
    if let Err(stop) = machine.run(words.as_slice()) {
        machine.say(name_of(stop))?;
    }
    let Machine { out, .. } = machine;
    Ok(out)
}

fn name_of(stop: Stop) -> &'static str {
    match stop {
        Stop::Refused(TypeEnd::TooLarge) => "TooLarge",
        Stop::Refused(TypeEnd::Incomplete) => "Incomplete",
        Stop::Refused(TypeEnd::NoMemory) => "NoMemory",
        Stop::Word => "no such word",
    }
}

/// An argument as a number, or 0.
pub fn number(argument: &str) -> u32 {
    argument.parse::<u32>().unwrap_or(0)
}

impl Machine {
    fn run(&mut self, words: &[&str]) -> Result<(), Stop> {
        let mut from: usize = 0;
        while from < words.len() {
            let next = end_of(words, from);
            let count = times(words[from]);
            if 0 < count && from < next {
                self.repeat(count, &words[from + 1..next])?;
            } else {
                self.word(words[from])?;
            }
            from = next + 1;
        }
        Ok(())
    }

    fn repeat(&mut self, count: u32, words: &[&str]) -> Result<(), Stop> {
        for _ in 0..count {
            for word in words {
                self.word(word)?;
            }
        }
        Ok(())
    }

    fn word(&mut self, word: &str) -> Result<(), Stop> {
        let (name, argument) = word.split_once(':').unwrap_or((word, ""));
        if self.make(name, argument)?
            || self.records(name, argument)?
            || self.ask(name, argument)?
        {
            return Ok(());
        }
        Err(Stop::Word)
    }

    /// Prints a word behind the others.
    pub fn say(&mut self, word: &str) -> Result<(), AllocError> {
        if !self.out.is_empty() {
            self.out.push(' ')?;
        }
        self.out.push_str(word)?;
        Ok(())
    }

    pub fn push(&mut self, id: TypeId) -> Result<(), Stop> {
        self.stack.push(id)?;
        Ok(())
    }

    /// Takes the type on top of the stack.
    pub fn pop(&mut self) -> Result<TypeId, Stop>
        ensures valid { IfOk result (λ id. id.0 < length self.new.table.terms) }
        ensures table { self.new.table ≡ self.old.table }
    {
        match self.stack.pop() {
            None => Err(Stop::Word),
            Some(id) => {
                if self.table.len() <= id.0 {
                    return Err(Stop::Word);
                }
                Ok(id)
            }
        }
    }

    /// The type so far below the top of the stack.
    pub fn at(&self, below: usize) -> Result<TypeId, Stop>
        ensures { IfOk result (λ id. id.0 < length self.now.table.terms) }
    {
        let stack = self.stack.as_slice();
        if stack.len() <= below {
            return Err(Stop::Word);
        }
        let id = stack[stack.len() - 1 - below];
        if self.table.len() <= id.0 {
            return Err(Stop::Word);
        }
        Ok(id)
    }
}

/// How often the words behind it are done, or 0 where it is no `repeat`.
fn times(word: &str) -> u32 {
    match word.split_once(':') {
        Some(("repeat", count)) => number(count),
        _ => 0,
    }
}

/// Where the words that `repeat` takes end, or the word's own place.
fn end_of(words: &[&str], from: usize) -> usize
    requires { from < length words.now }
    ensures least { from ≤ result }
    ensures most { result < length words.now }
{
    if times(words[from]) == 0 {
        return from;
    }
    for i in from..words.len() {
        if words[i] == ";" {
            return i;
        }
    }
    from
}

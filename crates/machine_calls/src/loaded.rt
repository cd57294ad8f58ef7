//! The program that runs.

ghost use Rattle.std.specs.Prelude.{◌≡◌, is_some, Some, None};
ghost use Rattle.c_core.specs.Library.{callee_of};
ghost use Rattle.c_core.specs.View.{func_of, program_of};
ghost use Rattle.c_meaning.specs.Meaning as meaning;
ghost use Rattle.machine_calls.specs.Callees.{AreCallees};
ghost use Rattle.machine_calls.specs.Found.{callee_at};

use c_core::{Core, Func, LibMark, Pointer, Value};
use tok_base::Reason;

/// A program, and which library function each of its functions is, by its name; and the token of what has none.
#[derive(Clone, Copy)]
pub struct Loaded<'a> {
    pub core: &'a Core,
    pub callees: &'a [Option<(u32, LibMark)>],
    pub fallback: u32,
}

/// The library function that a function without a body is.
#[inline]
pub fn callee(callees: &[Option<(u32, LibMark)>], function: u32) -> Option<(u32, LibMark)>
    ensures { result ≡ callee_at callees.now function }
{
    match callees.get(function as usize) {
        Some(Some(callee)) => Some(*callee),
        Some(None) | None => None,
    }
}

/// Whether a function has a body, or is the library's.
#[inline]
fn has_meaning(function: &Func, callee: Option<(u32, LibMark)>) -> bool
    requires { callee ≡ callee_of function.now.name }
    ensures { result ≡ meaning.has_meaning (Some (func_of function.now)) }
{
    function.body.is_some() || callee.is_some()
}

/// The address of a function that has a definition (6.9, paragraph 5).
pub fn function_address(loaded: Loaded<'_>, function: u32) -> Result<Value, Reason>
    requires { AreCallees loaded.callees.now loaded.core.now }
    ensures { result ≡ meaning.function_address (program_of loaded.entry.core.now).funcs function }
{
    match loaded.core.funcs.get(function as usize) {
        Some(found) => {
            if has_meaning(found, callee(loaded.callees, function)) {
                Ok(Value::Ptr(Pointer::Function(function)))
            } else {
                Err(Reason::NoBody)
            }
        }
        None => Err(Reason::NoBody),
    }
}

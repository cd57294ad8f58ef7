//! The library functions of a run (ISO/IEC 9899:2018, 7.21.7, 7.22.3, 7.22.4, 7.24), each with the entries that it
//! makes in the log.
//!
//! Each function's contract is against `c_meaning`'s definition of the same name, for whatever follows the call
//! (`specs/Leads.antt`): a run that has come to the call with the log so far comes to what follows the value, or
//! to its end, with the log behind it. Where there is no memory, the log is still the front of that of a run.
#![tactic(auto)]

mod allocation;
mod calls;
mod heap;
mod requests;
mod streams;

pub use calls::call_library;

//! Calls of the library functions.

ghost use Rattle.std.specs.Prelude.{◌≡◌, ℕ, ◌≤◌, ◌<◌, List, Some, length, slice_get, slice_index_or, IfOk, OnOk};
ghost use Rattle.block_memory.specs.Given.{IsGivenValue};
ghost use Rattle.c_core.specs.Library as library;
ghost use Rattle.c_core.specs.declared.values.Value.{Value};
ghost use Rattle.c_meaning.specs.Meaning as meaning;
ghost use Rattle.c_meaning.specs.Meaning.{Tokens};
ghost use Rattle.c_core.specs.Blocks.{Blocks};
ghost use Rattle.c_meaning.specs.Rules as rules;
ghost use Rattle.c_meaning.specs.Run.{Label, Run};
ghost use Rattle.c_meaning.specs.Storage as storage;
ghost use Rattle.c_meaning.specs.World as world;
ghost use Rattle.c_meaning.specs.World.{State};
ghost use Rattle.tok_base.specs.declared.token.Span.{Span as ASpan};
ghost use Rattle.machine_frames.specs.Held.{AreGivenValues};
ghost use Rattle.machine_library.specs.Leads.{AreTokens, Runs, Called, continued, function_called};
ghost use Rattle.machine_state.specs.State.{IsSound, state_in};

use crate::allocation::{allocate, allocate_zeroed, free, reallocate};
use crate::streams::{get_char, put_byte};
use block_memory::Memory;
use c_core::{End, LibMark, Value};
use c_meaning::pointer_in;
use machine_access::{copied, copy_bytes, set_bytes};
use machine_bytes::{compare_bytes, string_length};
use machine_state::Ledger;
use machine_values::{byte_in, exit_code, natural_in, no_value};
use tok_base::{NoMemory, Reason, Span};

/// The tokens of the allocation sites, by their numbers; one without a token has the fallback token.
fn site_token(sites: &[u64], fallback: u32, site: u32) -> u64
    ensures { result ≡ slice_index_or sites.now site fallback }
{
    match sites.get(site as usize) {
        Some(token) => *token,
        None => u64::from(fallback),
    }
}

/// The last argument.
fn last_of(args: &[Value]) -> Value
    ensures { result ≡ meaning.last_of args.now }
{
    let count = args.len();
    if count == 0 {
        return no_value();
    }
    argument(args, count - 1)
}

/// For which token a call asks.
fn token_for(sites: &[u64], fallback: u32, mark: LibMark, args: &[Value]) -> u64
    ensures { (tok : Tokens) → AreTokens tok sites.now fallback → result ≡ meaning.token_of tok (meaning.label_of mark args.now) }
{
    match mark {
        LibMark::Site(site) => site_token(sites, fallback, site),
        LibMark::Untagged => u64::from(fallback),
        LibMark::Given => natural_in(last_of(args)),
        LibMark::Fixed(token) => u64::from(token),
    }
}

/// An argument.
fn argument(args: &[Value], at: usize) -> Value
    ensures value { result ≡ slice_index_or args.now at rules.no_value }
    ensures given { (sizes : List ℕ) → AreGivenValues sizes args.now → IsGivenValue sizes result }
{
    match args.get(at) {
        Some(v) => copied(v),
        None => no_value(),
    }
}

/// `malloc`, `calloc`, `realloc` and `free`.
fn call_allocator<M: Memory>(
    memory: &mut M,
    ledger: &mut Ledger,
    function: u32,
    span: Span,
    token: u64,
    args: &[Value],
) -> Result<Result<Value, End>, NoMemory>
    requires sound { IsSound (M.blocks memory.old) (M.starts memory.old) (M.top memory.old) ledger.old }
    requires given { AreGivenValues (M.sizes memory.old) args.now }
    requires number { function < 4 }
    ensures run { (tok : Tokens) (label : Label) → token ≡ meaning.token_of tok label → Runs Value tok (function_called function span label args.now) (M.blocks memory.old) ledger.old (M.blocks memory.new) ledger.new result }
    ensures sound { IfOk result (λ r. OnOk r (IsSound (M.blocks memory.new) (M.starts memory.new) (M.top memory.new) ledger.new)) }
    ensures called { IfOk result (λ r. OnOk r (Called (M.sizes memory.old) ledger.old (M.sizes memory.new) ledger.new)) }
    ensures given { IfOk result (λ r. IfOk r (λ v. IsGivenValue (M.sizes memory.new) v)) }
{
    let (a, b) = (argument(args, 0), argument(args, 1));
    match function {
        0 => {
            let value = allocate(memory, ledger, token, u128::from(natural_in(a)))?;
            Ok(Ok(value))
        }
        1 => {
            let size = u128::from(natural_in(a)) * u128::from(natural_in(b));
            allocate_zeroed(memory, ledger, span, token, size)
        }
        2 => reallocate(memory, ledger, span, token, pointer_in(a), natural_in(b)),
        _ => free(memory, ledger, span, pointer_in(a)),
    }
}

/// `getchar` and `putchar`.
fn call_stream(
    ledger: &mut Ledger,
    function: u32,
    args: &[Value],
) -> Result<Result<Value, End>, NoMemory>
    requires low { 4 ≤ function }
    requires high { function < 6 }
    requires read { ledger.old.rest.read ≤ length ledger.old.rest.input.items }
    ensures run { IfOk result (λ r. (bs : Blocks) (span : ASpan) (label : Label) (k : Value → State → Run) → function_called function span label args.now k (state_in bs ledger.old) ≡ continued r k (state_in bs ledger.new)) }
    ensures kept { ledger.new ≡ record ledger.old { rest = record (ledger.old.rest) { read = ledger.new.rest.read; output = ledger.new.rest.output } } }
    ensures within { ledger.new.rest.read ≤ length ledger.new.rest.input.items }
    ensures given { IfOk result (λ r. IfOk r (λ v. (sizes : List ℕ) → IsGivenValue sizes v)) }
{
    match function {
        4 => {
            let value = get_char(&mut ledger.rest)?;
            Ok(Ok(value))
        }
        _ => put_byte(&mut ledger.rest, byte_in(argument(args, 0))),
    }
}

/// `memcpy`, or `memmove` where places may overlap.
fn copy<M: Memory>(
    memory: &mut M,
    ledger: &Ledger,
    span: Span,
    may_overlap: bool,
    args: &[Value],
) -> Result<Value, End>
    requires sound { IsSound (M.blocks memory.old) (M.starts memory.old) (M.top memory.old) ledger.now }
    requires given { AreGivenValues (M.sizes memory.old) args.now }
    ensures run { (k : Value → State → Run) → world.act (storage.copy_bytes span may_overlap (slice_index_or args.now 0 rules.no_value) (slice_index_or args.now 1 rules.no_value) (slice_index_or args.now 2 rules.no_value)) k (state_in (M.blocks memory.old) ledger.now) ≡ continued result k (state_in (M.blocks memory.new) ledger.now) }
    ensures sound { OnOk result (IsSound (M.blocks memory.new) (M.starts memory.new) (M.top memory.new) ledger.now) }
    ensures sizes { M.sizes memory.new ≡ M.sizes memory.old }
    ensures given { IfOk result (λ v. IsGivenValue (M.sizes memory.old) v) }
{
    let to = argument(args, 0);
    let (from, count) = (argument(args, 1), argument(args, 2));
    match copy_bytes(memory, span, may_overlap, &to, from, count) {
        Ok(()) => Ok(to),
        Err(end) => Err(end),
    }
}

/// `memset`.
fn set<M: Memory>(memory: &mut M, ledger: &Ledger, span: Span, args: &[Value]) -> Result<Value, End>
    requires sound { IsSound (M.blocks memory.old) (M.starts memory.old) (M.top memory.old) ledger.now }
    requires given { AreGivenValues (M.sizes memory.old) args.now }
    ensures run { (k : Value → State → Run) → world.act (storage.set_bytes span (slice_index_or args.now 0 rules.no_value) (slice_index_or args.now 1 rules.no_value) (slice_index_or args.now 2 rules.no_value)) k (state_in (M.blocks memory.old) ledger.now) ≡ continued result k (state_in (M.blocks memory.new) ledger.now) }
    ensures sound { OnOk result (IsSound (M.blocks memory.new) (M.starts memory.new) (M.top memory.new) ledger.now) }
    ensures sizes { M.sizes memory.new ≡ M.sizes memory.old }
    ensures given { IfOk result (λ v. IsGivenValue (M.sizes memory.old) v) }
{
    let to = argument(args, 0);
    let (byte, count) = (argument(args, 1), argument(args, 2));
    match set_bytes(memory, span, &to, byte, count) {
        Ok(()) => Ok(to),
        Err(end) => Err(end),
    }
}

/// `memcmp` and `strlen`.
fn read<M: Memory>(
    memory: &M,
    ledger: &Ledger,
    function: u32,
    span: Span,
    args: &[Value],
) -> Result<Value, End>
    requires sound { IsSound (M.blocks memory.now) (M.starts memory.now) (M.top memory.now) ledger.now }
    requires given { AreGivenValues (M.sizes memory.now) args.now }
    requires low { 9 ≤ function }
    requires high { function < 11 }
    ensures run { (label : Label) (k : Value → State → Run) → function_called function span label args.now k (state_in (M.blocks memory.now) ledger.now) ≡ continued result k (state_in (M.blocks memory.now) ledger.now) }
    ensures given { IfOk result (λ v. IsGivenValue (M.sizes memory.now) v) }
{
    let p = argument(args, 0);
    match function {
        9 => compare_bytes(memory, span, p, argument(args, 1), argument(args, 2)),
        _ => string_length(memory, span, p),
    }
}

/// The library functions that only read and write storage.
fn call_quiet<M: Memory>(
    memory: &mut M,
    ledger: &Ledger,
    function: u32,
    span: Span,
    args: &[Value],
) -> Result<Value, End>
    requires sound { IsSound (M.blocks memory.old) (M.starts memory.old) (M.top memory.old) ledger.now }
    requires given { AreGivenValues (M.sizes memory.old) args.now }
    requires low { 6 ≤ function }
    requires high { function < 11 }
    ensures run { (label : Label) (k : Value → State → Run) → function_called function span label args.now k (state_in (M.blocks memory.old) ledger.now) ≡ continued result k (state_in (M.blocks memory.new) ledger.now) }
    ensures sound { OnOk result (IsSound (M.blocks memory.new) (M.starts memory.new) (M.top memory.new) ledger.now) }
    ensures sizes { M.sizes memory.new ≡ M.sizes memory.old }
    ensures given { IfOk result (λ v. IsGivenValue (M.sizes memory.old) v) }
{
    match function {
        6 => copy(memory, ledger, span, false, args),
        7 => copy(memory, ledger, span, true, args),
        8 => set(memory, ledger, span, args),
        _ => read(memory, ledger, function, span, args),
    }
}

/// `exit` and `abort`; there are no others.
fn call_end(function: u32, span: Span, args: &[Value]) -> End
    requires { 11 ≤ function }
    ensures { (label : Label) (k : Value → State → Run) (s : State) → function_called function span label args.now k s ≡ world.over result s }
{
    match function {
        11 => End::Exit(exit_code(argument(args, 0))),
        12 => End::Trap(Reason::Abort, span),
        _ => End::Trap(Reason::NoBody, span),
    }
}

/// The library function with a number is called, once the call's tick is paid: its value, or the end.
pub fn call_library<M: Memory>(
    memory: &mut M,
    ledger: &mut Ledger,
    sites: &[u64],
    function: u32,
    span: Span,
    mark: LibMark,
    args: &[Value],
) -> Result<Result<Value, End>, NoMemory>
    requires sound { IsSound (M.blocks memory.old) (M.starts memory.old) (M.top memory.old) ledger.old }
    requires given { AreGivenValues (M.sizes memory.old) args.now }
    ensures run { (tok : Tokens) → AreTokens tok sites.now ledger.old.fallback → Runs Value tok (meaning.library_call (slice_get library.library_functions function) span mark args.now) (M.blocks memory.old) ledger.old (M.blocks memory.new) ledger.new result }
    ensures sound { IfOk result (λ r. OnOk r (IsSound (M.blocks memory.new) (M.starts memory.new) (M.top memory.new) ledger.new)) }
    ensures called { IfOk result (λ r. OnOk r (Called (M.sizes memory.old) ledger.old (M.sizes memory.new) ledger.new)) }
    ensures given { IfOk result (λ r. IfOk r (λ v. IsGivenValue (M.sizes memory.new) v)) }
{
    if function < 4 {
        let token = token_for(sites, ledger.fallback, mark, args);
        return call_allocator(memory, ledger, function, span, token, args);
    }
    if function < 6 {
        return call_stream(ledger, function, args);
    }
    if function < 11 {
        return Ok(call_quiet(memory, ledger, function, span, args));
    }
    Ok(Err(call_end(function, span, args)))
}

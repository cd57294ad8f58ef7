//! The reader over all tokens.

ghost use Rattle.std.specs.Prelude.{◌≡◌, ℕ, ◌<◌, ◌^◌, [], length, List, All, IfOk, map};
ghost use Rattle.c_lexer.specs.Token.{IsToken};
ghost use Rattle.c_lexer.specs.Lexeme.{lexeme_of};
ghost use Rattle.c_tree.specs.Bare.{bare_unit};
ghost use Rattle.c_tree.specs.Depth.{IsFlat};
ghost use Rattle.c_tree.specs.Places.{IsNumbered, IsPlaced};
ghost use Rattle.c_tree.specs.Reading.{Reads};
ghost use Rattle.c_tree.specs.Tree.{External};
ghost use Rattle.c_tree.specs.View.{view_unit};
ghost use Rattle.c_reader.specs.MarkedInside as inside;
ghost use Rattle.c_reader.specs.Reader as reader;
ghost use Rattle.c_stack.specs.Gives.{Gives, env_after};
ghost use Rattle.c_parser.specs.Parsed.{Answers, Ended, Finished, IsParsed, IsTooDeep, IsWrongAt, Parsed, Reached, Takes, view_state};
ghost use Rattle.c_stack.specs.Views.{view_mode};
ghost use Rattle.c_state.specs.Held.{view_held};

use crate::dispatch::one_token;
use c_held::Externals;
use c_stack::inside::{Mode, Next};
use c_state::HeldMode;
use c_symbol::names::Names;
use c_symbol::step::StepEnd;
use c_tree::Unit;
use std::alloc::{AllocError, Global};
use thiserror::Error;
use tok_base::{Bytes, Items, Token};

/// Why tokens give no unit.
#[derive(Clone, Copy, Debug, PartialEq, Eq, Error)]
pub enum ParseEnd {
    /// The tokens are no unit's; the number of those that were taken before one that cannot follow them.
    #[error("no unit has the token {0} there")]
    Syntax(u32),
    /// The tree would be deeper than 200 nodes.
    #[error("too deep")]
    TooDeep,
    /// There was no memory.
    #[error("out of memory")]
    NoMemory,
}

/// Where the reader is: the number of the next node, the typedef names so far, and the mode.
#[derive(Drop)]
pub struct State {
    pub id: u32,
    pub names: Names,
    pub mode: HeldMode,
}

/// Why a token leads nowhere.
#[derive(Clone, Copy, Debug)]
pub enum Refused {
    Wrong,
    TooDeep,
    NoMemory,
}

/// The names with one that a token made.
fn with_name(mut names: Names, name: Option<Bytes>) -> Result<Names, AllocError>
    ensures { IfOk result (λ n. n ≡ env_after name names) }
{
    match name {
        Some(n) => names.add(n)?,
        None => {}
    }
    Ok(names)
}

/// The next state, if a flat unit may begin so.
fn enter(names: Names, next: Next) -> Result<State, Refused>
    ensures { Takes result (inside.go_on next.id (env_after next.name names) (view_mode next.mode)) }
{
    let Next { id, name, mode } = next;
    let mode = HeldMode::new(mode);
    if mode.is_low() {
        match with_name(names, name) {
            Ok(names) => Ok(State { id, names, mode }),
            Err(_) => Err(Refused::NoMemory),
        }
    } else {
        Err(Refused::TooDeep)
    }
}

fn take_token(alloc: Global, state: State, end: u32, token: &Token) -> Result<State, Refused>
    ensures { Takes result (reader.token_step (view_state state) end token.now) }
{
    let State { id, names, mode } = state;
    match one_token(alloc, &names, id, end, mode, token) {
        Ok(next) => enter(names, next),
        Err(StepEnd::Wrong) => Err(Refused::Wrong),
        Err(StepEnd::NoMemory) => Err(Refused::NoMemory),
    }
}

/// Where the tokens lead, if each can be taken.
fn read_tokens(alloc: Global, tokens: &[Token]) -> Result<State, ParseEnd>
    requires { length tokens.now < 2 ^ 24 }
    ensures { Reached result tokens.now }
{
    let mut end = 0;
    let mut state = State {
        id: 0,
        names: Names::new(alloc),
        mode: HeldMode::new(Mode::WantExternal(0, Externals::new(alloc))),
    };
    for (i, token) in tokens.iter().enumerate() {
        match take_token(alloc, state, end, token) {
            Ok(next) => {
                state = next;
                end = token.span.end;
            }
            Err(Refused::Wrong) => return Err(ParseEnd::Syntax(i as u32)),
            Err(Refused::TooDeep) => return Err(ParseEnd::TooDeep),
            Err(Refused::NoMemory) => return Err(ParseEnd::NoMemory),
        }
    }
    Ok(state)
}

/// The unit, where one may end there.
#[tactic(auto, unfolding(c_symbol::specs::Shown::shown_external))]
fn unit_of(mode: HeldMode, count: u32) -> Result<Unit, ParseEnd>
    ensures { Ended result count (view_held mode) }
{
    match mode.finished() {
        Some(items) => Ok(Unit {
            items: items.open(),
        }),
        None => Err(ParseEnd::Syntax(count)),
    }
}

fn finish(read: Result<State, ParseEnd>, count: u32) -> Result<Unit, ParseEnd>
    ensures { Finished read count result }
{
    match read {
        Ok(state) => unit_of(state.mode, count),
        Err(e) => Err(e),
    }
}

fn read_unit(alloc: Global, tokens: &[Token]) -> Result<Unit, ParseEnd>
    requires { length tokens.now < 2 ^ 24 }
    ensures { Parsed result tokens.now }
{
    finish(read_tokens(alloc, tokens), tokens.len() as u32)
}

/// The unit that the tokens spell, with the place and the number of each node. `Syntax` where they spell
/// none, with the number of those that begin a unit before one that cannot follow them; `TooDeep` where
/// some first ones of them begin no unit of at most 200 nodes' depth.
pub fn parse(alloc: Global, tokens: &Items<Token>) -> Result<Unit, ParseEnd>
    requires short { length tokens.now < 2 ^ 24 }
    requires valid { All (λ t. IsToken t.kind t.text) tokens.now }
    ensures found { IfOk result (λ u. IsParsed (map lexeme_of tokens.now) (bare_unit (view_unit u))) }
    ensures only { (u : List External) → Reads (map lexeme_of tokens.now) u → IsFlat u → Answers u result }
    ensures syntax { (k : ℕ) → result ≡ Err (ParseEnd.Syntax k) → IsWrongAt (map lexeme_of tokens.now) k }
    ensures too_deep { result ≡ Err ParseEnd.TooDeep → IsTooDeep (map lexeme_of tokens.now) }
    ensures numbered { IfOk result (λ u. IsNumbered (view_unit u)) }
    ensures placed { IfOk result (λ u. IsPlaced (map (λ t. t.span) tokens.now) (view_unit u)) }
{
    read_unit(alloc, tokens.as_slice())
}

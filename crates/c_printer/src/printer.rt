//! The lines of a unit.

ghost use Rattle.std.specs.Prelude.{◌≡◌, ◌++◌, [], IfOk, OnOk, map};
ghost use Rattle.c_lexer.specs.Lines.{line_text};
ghost use Rattle.c_tree.specs.Bare.{bare_external, bare_unit};
ghost use Rattle.c_tree.specs.Lexeme.{lexeme};
ghost use Rattle.c_tree.specs.Printed.{unit_text};
ghost use Rattle.c_tree.specs.Put.{put_external};
ghost use Rattle.c_tree.specs.View.{view_external, view_unit};
ghost use Rattle.c_tree.specs.Wf.{WfUnit};
ghost use Rattle.c_printer.specs.Printer.{ReadsAs};

use c_tree::{External, Unit, spell_external};
use std::alloc::{AllocError, Global};
use tok_base::{Bytes, Items, Lexeme, NoMemory};

/// Writes tokens in a line of their own.
fn line(text: &mut Vec<u8>, tokens: &Items<Lexeme>) -> Result<(), AllocError>
    ensures { OnOk result (text.new.items ≡ text.old.items ++ line_text tokens.now) }
{
    if let Some((first, more)) = tokens.as_slice().split_first() {
        text.extend_from_slice(first.text.as_slice())?;
        for token in more {
            text.push(b' ')?;
            text.extend_from_slice(token.text.as_slice())?;
        }
    }
    text.push(b'\n')?;
    Ok(())
}

/// Writes the line of an external declaration.
fn external(alloc: Global, text: &mut Vec<u8>, x: &External) -> Result<(), NoMemory>
    ensures { OnOk result (text.new.items ≡ text.old.items ++ line_text (map lexeme (put_external (bare_external (view_external x.now)) []))) }
{
    let tokens = spell_external(alloc, x)?;
    line(text, &tokens)?;
    Ok(())
}

/// The lines of external declarations.
fn lines(alloc: Global, xs: &Items<External>) -> Result<Bytes, NoMemory>
    ensures { IfOk result (λ t. t ≡ unit_text (map bare_external (map view_external xs.now))) }
{
    let mut text = Vec::new(alloc);
    for x in xs.as_slice() {
        external(alloc, &mut text, x)?;
    }
    Ok(Bytes::from_vec(text))
}

/// The text of the unit.
pub fn print_unit(alloc: Global, u: &Unit) -> Result<Bytes, NoMemory>
    ensures text { IfOk result (λ t. t ≡ unit_text (bare_unit (view_unit u.now))) }
    ensures reads { IfOk result (λ t. WfUnit [] (bare_unit (view_unit u.now)) → ReadsAs t (bare_unit (view_unit u.now))) }
{
    lines(alloc, &u.items)
}

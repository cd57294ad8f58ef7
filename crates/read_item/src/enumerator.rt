//! The end of an enumerator, and of an enumeration.

ghost use Rattle.std.specs.Prelude.{◌≡◌, suc, if◌then◌else◌, None, IfOk, IfErr, map};
ghost use Rattle.c_tree.specs.Wf.{Env};
ghost use Rattle.c_reader.specs.Begin as machine;
ghost use Rattle.c_reader.specs.MarkedSpecs as reader;
ghost use Rattle.c_stack.specs.Gives.{Gives};
ghost use Rattle.c_symbol.specs.Seen.{view_symbol};
ghost use Rattle.c_symbol.specs.Shown.{shown_enumerator, shown_value};
ghost use Rattle.c_stack.specs.Views.{view_in_enum};
ghost use Rattle.c_symbol.specs.Nodes.{view_open};
ghost use Rattle.c_symbol.specs.declared.step.StepEnd.TheVariants.{NoMemory};

use c_held::{Enumerators, ExprBox};
use c_parts::specifier::{enumeration, enumerator, with_enumerator};
use c_stack::inside::{EnumRead, InEnum, Next, SpecsMode};
use c_symbol::node::{Open, ending, mark};
use c_symbol::step::StepEnd;
use c_symbol::symbol::Symbol;
use tok_base::{Bytes, Span};

/// The enumeration with one more enumerator, which ends with the last token; `deep` is the depth of its
/// value.
pub fn add_enumerator(
    id: u32,
    end: u32,
    o: Open,
    deep: u32,
    k: InEnum,
    name: Bytes,
    value: Option<ExprBox>,
) -> Result<InEnum, StepEnd>
    ensures ok { IfOk result (λ q. view_in_enum q ≡ reader.add_enumerator id end (view_open o) deep (view_in_enum k) name (shown_value value)) }
    ensures err { IfErr result (λ e. e ≡ NoMemory) }
{
    let whole = o.whole(deep)?;
    let InEnum { read, place } = k;
    let EnumRead {
        node,
        tag,
        list,
        specs,
    } = read;
    let list = with_enumerator(list, enumerator(mark(o.from, end, id), name, value))?;
    let read = EnumRead {
        node: node.with_part(whole),
        tag,
        list,
        specs,
    };
    Ok(InEnum { read, place })
}

/// Whether an enumeration has no enumerators.
fn lacks_enumerators(list: &Enumerators) -> bool
    ensures { result ≡ machine.is_empty (map shown_enumerator list.now) }
{
    list.is_empty()
}

/// The right brace of an enumeration.
pub fn close_enum(id: u32, k: InEnum, has_comma: bool, span: Span) -> Result<Next, StepEnd>
    ensures { (env : Env) → Gives env result (reader.close_enum id env (view_in_enum k) has_comma span) }
{
    let InEnum { read, place } = k;
    if lacks_enumerators(&read.list) {
        return Err(StepEnd::Wrong);
    }
    let (next, deep) = ending(id, read.node, 0)?;
    let EnumRead {
        node,
        tag,
        list,
        specs,
    } = read;
    let whole = enumeration(mark(node.from, span.end, id), tag, list, has_comma);
    let specs = specs.with_type(deep, whole)?;
    Ok(Next::at_specs(next, SpecsMode::InSpecs(specs, place)))
}

/// The token behind an enumerator.
pub fn enumerator_end(id: u32, k: InEnum, y: Symbol, span: Span) -> Result<Next, StepEnd>
    ensures { (env : Env) → Gives env result (reader.enumerator_end id env (view_in_enum k) (view_symbol y.entry) span) }
{
    match y {
        Symbol::Comma => Ok(Next::at_specs(id, SpecsMode::WantEnumerator(k))),
        Symbol::RightBrace => close_enum(id, k, false, span),
        _ => Err(StepEnd::Wrong),
    }
}

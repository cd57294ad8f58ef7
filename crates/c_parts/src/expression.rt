//! Expressions and their parts, each with what it is seen as.

ghost use Rattle.std.specs.Prelude.{◌≡◌, [], ◌∷◌, ◌++◌, Some, None, IfOk, map};
ghost use Rattle.c_reader.specs.MarkedParts as reader;
ghost use Rattle.c_tree.specs.Marked as marked;
ghost use Rattle.c_tree.specs.View.{view_assign, view_op, view_prefix, view_step};
ghost use Rattle.c_symbol.specs.Shown.{shown, shown_maybe, shown_maybe_declarator, shown_specs, shown_type};

use crate::raw;
use c_held::{DeclaratorBox, Expr, Exprs, Specs, TypeName};
use c_tree::{AssignOp, At, BinaryOp, PrefixOp, Step};
use std::alloc::{AllocError, Global};
use tok_base::{Bytes, Items};

/// A name.
#[tactic(auto, unfolding(c_symbol::specs::Shown::shown))]
pub fn name(alloc: Global, at: At, text: &[u8]) -> Result<Expr, AllocError>
    ensures { IfOk result (λ e. shown e ≡ marked.Name at text.now) }
{
    let text = Items::from_slice(alloc, text)?;
    Ok(Expr::new(c_tree::Expr::Name(at, text)))
}

/// A number.
#[tactic(auto, unfolding(c_symbol::specs::Shown::shown))]
pub fn number(alloc: Global, at: At, text: &[u8]) -> Result<Expr, AllocError>
    ensures { IfOk result (λ e. shown e ≡ marked.Number at text.now) }
{
    let text = Items::from_slice(alloc, text)?;
    Ok(Expr::new(c_tree::Expr::Number(at, text)))
}

/// A character constant.
#[tactic(auto, unfolding(c_symbol::specs::Shown::shown))]
pub fn character(alloc: Global, at: At, text: &[u8]) -> Result<Expr, AllocError>
    ensures { IfOk result (λ e. shown e ≡ marked.Char at text.now) }
{
    let text = Items::from_slice(alloc, text)?;
    Ok(Expr::new(c_tree::Expr::Char(at, text)))
}

/// String literals side by side.
#[tactic(auto, unfolding(c_symbol::specs::Shown::shown))]
pub fn text(at: At, pieces: Items<Bytes>) -> Expr
    ensures { shown result ≡ marked.Text at pieces }
{
    Expr::new(c_tree::Expr::Text(at, pieces))
}

/// `(a)`
#[tactic(auto, unfolding(c_symbol::specs::Shown::shown))]
pub fn paren(alloc: Global, at: At, a: Expr) -> Result<Expr, AllocError>
    ensures { IfOk result (λ e. shown e ≡ marked.Paren at (shown a)) }
{
    let a = a.boxed(alloc)?;
    Ok(Expr::new(c_tree::Expr::Paren(at, a.open())))
}

/// `a[b]`
#[tactic(auto, unfolding(c_symbol::specs::Shown::shown))]
pub fn index(alloc: Global, at: At, a: Expr, b: Expr) -> Result<Expr, AllocError>
    ensures { IfOk result (λ e. shown e ≡ marked.Index at (shown a) (shown b)) }
{
    let a = a.boxed(alloc)?;
    let b = b.boxed(alloc)?;
    Ok(Expr::new(c_tree::Expr::Index(at, a.open(), b.open())))
}

/// `a, b`
#[tactic(auto, unfolding(c_symbol::specs::Shown::shown))]
pub fn comma(alloc: Global, at: At, a: Expr, b: Expr) -> Result<Expr, AllocError>
    ensures { IfOk result (λ e. shown e ≡ marked.Comma at (shown a) (shown b)) }
{
    let a = a.boxed(alloc)?;
    let b = b.boxed(alloc)?;
    Ok(Expr::new(c_tree::Expr::Comma(at, a.open(), b.open())))
}

/// `a op b`
#[tactic(auto, unfolding(c_symbol::specs::Shown::shown))]
pub fn binary(alloc: Global, at: At, a: Expr, op: BinaryOp, b: Expr) -> Result<Expr, AllocError>
    ensures { IfOk result (λ e. shown e ≡ marked.Binary at (shown a) (view_op op) (shown b)) }
{
    let a = a.boxed(alloc)?;
    let b = b.boxed(alloc)?;
    Ok(Expr::new(c_tree::Expr::Binary(at, a.open(), op, b.open())))
}

/// `a op b` of an assignment.
#[tactic(auto, unfolding(c_symbol::specs::Shown::shown))]
pub fn assign(alloc: Global, at: At, a: Expr, op: AssignOp, b: Expr) -> Result<Expr, AllocError>
    ensures { IfOk result (λ e. shown e ≡ marked.Assign at (shown a) (view_assign op) (shown b)) }
{
    let a = a.boxed(alloc)?;
    let b = b.boxed(alloc)?;
    Ok(Expr::new(c_tree::Expr::Assign(at, a.open(), op, b.open())))
}

/// `a ? b : c`
#[tactic(auto, unfolding(c_symbol::specs::Shown::shown))]
pub fn conditional(alloc: Global, at: At, a: Expr, b: Expr, c: Expr) -> Result<Expr, AllocError>
    ensures { IfOk result (λ e. shown e ≡ marked.Cond at (shown a) (shown b) (shown c)) }
{
    let a = a.boxed(alloc)?;
    let b = b.boxed(alloc)?;
    let c = c.boxed(alloc)?;
    Ok(Expr::new(c_tree::Expr::Cond(at, a.open(), b.open(), c.open())))
}

/// `op a`
#[tactic(auto, unfolding(c_symbol::specs::Shown::shown))]
pub fn prefix(alloc: Global, at: At, op: PrefixOp, a: Expr) -> Result<Expr, AllocError>
    ensures { IfOk result (λ e. shown e ≡ marked.Prefix at (view_prefix op) (shown a)) }
{
    let a = a.boxed(alloc)?;
    Ok(Expr::new(c_tree::Expr::Prefix(at, op, a.open())))
}

/// `sizeof a`
#[tactic(auto, unfolding(c_symbol::specs::Shown::shown))]
pub fn sizeof_expr(alloc: Global, at: At, a: Expr) -> Result<Expr, AllocError>
    ensures { IfOk result (λ e. shown e ≡ marked.SizeofExpr at (shown a)) }
{
    let a = a.boxed(alloc)?;
    Ok(Expr::new(c_tree::Expr::SizeofExpr(at, a.open())))
}

/// `a++` or `a--`
#[tactic(auto, unfolding(c_symbol::specs::Shown::shown))]
pub fn post(alloc: Global, at: At, a: Expr, op: Step) -> Result<Expr, AllocError>
    ensures { IfOk result (λ e. shown e ≡ marked.Post at (shown a) (view_step op)) }
{
    let a = a.boxed(alloc)?;
    Ok(Expr::new(c_tree::Expr::Post(at, a.open(), op)))
}

/// `a.name`
#[tactic(auto, unfolding(c_symbol::specs::Shown::shown))]
pub fn dot(alloc: Global, at: At, a: Expr, name: &[u8]) -> Result<Expr, AllocError>
    ensures { IfOk result (λ e. shown e ≡ marked.Dot at (shown a) name.now) }
{
    let name = Items::from_slice(alloc, name)?;
    let a = a.boxed(alloc)?;
    Ok(Expr::new(c_tree::Expr::Dot(at, a.open(), name)))
}

/// `a->name`
#[tactic(auto, unfolding(c_symbol::specs::Shown::shown))]
pub fn arrow(alloc: Global, at: At, a: Expr, name: &[u8]) -> Result<Expr, AllocError>
    ensures { IfOk result (λ e. shown e ≡ marked.Arrow at (shown a) name.now) }
{
    let name = Items::from_slice(alloc, name)?;
    let a = a.boxed(alloc)?;
    Ok(Expr::new(c_tree::Expr::Arrow(at, a.open(), name)))
}

/// The arguments with one more.
pub fn with_argument(args: Exprs, a: Expr) -> Result<Exprs, AllocError>
    ensures { IfOk result (λ xs. map shown xs ≡ map shown args ++ shown a ∷ []) }
{
    args.with(a.open())
}

/// `f(args)`
pub fn call(alloc: Global, at: At, f: Expr, args: Exprs) -> Result<Expr, AllocError>
    ensures { IfOk result (λ e. shown e ≡ marked.Call at (shown f) (reader.exprs_of (map shown args))) }
{
    let f = f.boxed(alloc)?;
    Ok(Expr::new(raw::call(at, f.open(), args.open())))
}

/// `__builtin_infer_alloc_token(args)`
pub fn builtin(at: At, args: Exprs) -> Expr
    ensures { shown result ≡ marked.Builtin at (reader.exprs_of (map shown args)) }
{
    Expr::new(raw::builtin(at, args.open()))
}

/// `(ty) a`
pub fn cast(alloc: Global, at: At, ty: TypeName, a: Expr) -> Result<Expr, AllocError>
    ensures { IfOk result (λ e. shown e ≡ marked.Cast at (shown_type ty) (shown a)) }
{
    let ty = ty.boxed(alloc)?;
    let a = a.boxed(alloc)?;
    Ok(Expr::new(raw::cast(at, ty.open(), a.open())))
}

/// `sizeof (ty)`
pub fn sizeof_type(alloc: Global, at: At, ty: TypeName) -> Result<Expr, AllocError>
    ensures { IfOk result (λ e. shown e ≡ marked.SizeofType at (shown_type ty)) }
{
    let ty = ty.boxed(alloc)?;
    Ok(Expr::new(raw::sizeof_type(at, ty.open())))
}

/// A type name.
#[tactic(auto, unfolding(c_symbol::specs::Shown::shown_type, c_symbol::specs::Shown::shown_specs, c_symbol::specs::Shown::shown_maybe_declarator))]
pub fn type_name(at: At, specs: Specs, declarator: Option<DeclaratorBox>) -> TypeName
    ensures { shown_type result ≡ marked.type_name at (shown_specs specs) (shown_maybe_declarator declarator) }
{
    let declarator = match declarator {
        Some(d) => Some(d.open()),
        None => None,
    };
    TypeName::new(c_tree::TypeName {
        at,
        specs: specs.open(),
        declarator,
    })
}

/// An expression that is absent.
#[tactic(auto, unfolding(c_symbol::specs::Shown::shown_maybe))]
pub fn no_expr() -> Option<Expr>
    ensures { shown_maybe result ≡ marked.no_expr }
{
    None
}

/// An expression that is there.
#[tactic(auto, unfolding(c_symbol::specs::Shown::shown_maybe, c_symbol::specs::Shown::shown))]
pub fn some_expr(a: Expr) -> Option<Expr>
    ensures { shown_maybe result ≡ marked.some_expr (shown a) }
{
    Some(a)
}

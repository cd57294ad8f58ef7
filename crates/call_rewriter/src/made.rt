//! The forms that take memory and own trees, of held parts.

ghost use Rattle.std.specs.Prelude.{◌≡◌, IfOk};
ghost use Rattle.c_tree.specs.Marked as m;
ghost use Rattle.c_tree.specs.View.{exprs_of, params_of, view, view_declarator, view_type_name};

use c_held as held;
use c_tree::{At, make};
use std::alloc::Global;
use tok_base::NoMemory;

/// `f(args)`.
pub fn call(alloc: Global, at: At, f: held::Expr, args: held::Exprs) -> Result<held::Expr, NoMemory>
    ensures { IfOk result (λ e. view e ≡ m.Call at (view f) (exprs_of args)) }
{
    let f = f.boxed(alloc)?;
    Ok(held::Expr::new(make::call(at, f.open(), args.open())))
}

/// `(name)a`.
pub fn cast(
    alloc: Global,
    at: At,
    name: held::TypeName,
    a: held::Expr,
) -> Result<held::Expr, NoMemory>
    ensures { IfOk result (λ e. view e ≡ m.Cast at (view_type_name name) (view a)) }
{
    let name = name.boxed(alloc)?;
    let a = a.boxed(alloc)?;
    Ok(held::Expr::new(make::cast(at, name.open(), a.open())))
}

/// `sizeof(name)`.
pub fn sizeof_type(alloc: Global, at: At, name: held::TypeName) -> Result<held::Expr, NoMemory>
    ensures { IfOk result (λ e. view e ≡ m.SizeofType at (view_type_name name)) }
{
    let name = name.boxed(alloc)?;
    Ok(held::Expr::new(make::sizeof_type(at, name.open())))
}

/// `d(params)`.
pub fn function_of(
    alloc: Global,
    at: At,
    d: held::Declarator,
    params: held::Params,
) -> Result<held::Declarator, NoMemory>
    ensures { IfOk result (λ f. view_declarator f ≡ m.FunctionOf at (view_declarator d) (params_of params)) }
{
    let d = d.boxed(alloc)?;
    Ok(held::Declarator::new(make::function_of(at, d.open(), params.open())))
}

//! The least depth of a unit that has what is open.

ghost use Rattle.std.specs.Prelude.{◌≡◌, nat_le};
ghost use Rattle.c_reader.specs.MarkedInside as reader;
ghost use Rattle.c_stack.specs.Views.{view_declarator_mode, view_expr_mode, view_mode, view_specs_mode, view_stmt_mode};

use c_stack::inside::{DeclaratorMode, ExprMode, Mode, SpecsMode, StmtMode};

fn specs_height(mode: &SpecsMode) -> u64
    ensures { result ≡ reader.specs_height (view_specs_mode mode.now) }
{
    match mode {
        SpecsMode::InSpecs(s, ..) => s.node.reach(),
        SpecsMode::AfterTagged(o, ..) => o.reach(),
        SpecsMode::AfterTag(o, ..) => o.reach(),
        SpecsMode::WantField(f) => f.read.node.reach(),
        SpecsMode::WantEnumerator(k) => k.read.node.reach(),
        SpecsMode::AfterEnumerator(o, ..) => o.reach(),
        SpecsMode::WantParam(p) => p.read.node.reach(),
    }
}

fn declarator_height(mode: &DeclaratorMode) -> u64
    ensures { result ≡ reader.declarator_height (view_declarator_mode mode.now) }
{
    match mode {
        DeclaratorMode::WantDeclarator(k) => k.get().around().reach(),
        DeclaratorMode::AfterStar(o, ..) => o.reach(),
        DeclaratorMode::Opened(o, ..) => o.reach(),
        DeclaratorMode::AfterDeclarator(h, k, _) => k.get().around().above(h.deep),
        DeclaratorMode::ArrayOpened(o, ..) => o.reach(),
        DeclaratorMode::ParamsOpened(o, ..) => o.reach(),
    }
}

fn expr_height(mode: &ExprMode) -> u64
    ensures { result ≡ reader.expr_height (view_expr_mode mode.now) }
{
    match mode {
        ExprMode::WantExpr(k) => k.get().around().reach(),
        ExprMode::AfterExpr(h, k, _) => k.get().around().above(h.deep),
        ExprMode::AfterText(_, k, _) => k.get().around().above(1),
        ExprMode::Opened(o, ..) => o.reach(),
        ExprMode::AfterSizeof(o, ..) => o.reach(),
        ExprMode::SizeofOpened(o, ..) => o.reach(),
        ExprMode::ArgsOpened(o, ..) => o.reach(),
        ExprMode::AfterBuiltin(o, ..) => o.reach(),
        ExprMode::WantMember(o, ..) => o.reach(),
    }
}

fn stmt_height(mode: &StmtMode) -> u64
    ensures { result ≡ reader.stmt_height (view_stmt_mode mode.now) }
{
    match mode {
        StmtMode::WantStmt(k) => k.get().around().reach(),
        StmtMode::AfterStmt(deep, k, _) => k.get().around().above(*deep),
        StmtMode::WantParen(o, ..) => o.reach(),
        StmtMode::AfterFor(o, ..) => o.reach(),
        StmtMode::ForOpened(o, ..) => o.reach(),
        StmtMode::WantCondition(o, ..) => o.reach(),
        StmtMode::WantStep(o, ..) => o.reach(),
        StmtMode::WantSemi(o, ..) => o.reach(),
        StmtMode::AfterReturn(o, ..) => o.reach(),
    }
}

/// No unit that it leads to is less deep.
fn height(mode: &Mode) -> u64
    ensures { result ≡ reader.height (view_mode mode.now) }
{
    match mode {
        Mode::WantExternal(deep, _) => u64::from(*deep),
        Mode::Attribute(o, ..) => o.reach(),
        Mode::Specs(m) => specs_height(m),
        Mode::Declarator(m) => declarator_height(m),
        Mode::AfterAttributes(r) => r.head.node.reach(),
        Mode::WantInit(k) => k.get().around().reach(),
        Mode::AfterInit(deep, k, _) => k.get().around().above(*deep),
        Mode::Expr(m) => expr_height(m),
        Mode::Stmt(m) => stmt_height(m),
    }
}

/// Whether a flat unit may begin so.
pub fn is_low(mode: &Mode) -> bool
    ensures { result ≡ nat_le (reader.height (view_mode mode.now)) 200 }
{
    height(mode) <= 200
}

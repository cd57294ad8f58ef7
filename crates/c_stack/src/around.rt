//! The node that is open around what stands at a place.

ghost use Rattle.std.specs.Prelude.{◌≡◌};
ghost use Rattle.c_reader.specs.MarkedInside as reader;
ghost use Rattle.c_stack.specs.Views.{view_in_declaration, view_in_declarator, view_in_expr, view_in_init, view_in_specs, view_in_stmt};
ghost use Rattle.c_symbol.specs.Nodes.{view_open};

use crate::inside::{InDeclaration, InDeclarator, InExpr, InInit, InSpecs, InStmt};
use c_symbol::node::Open;

impl InStmt {
    /// The node that is open around what stands there.
    pub fn around(&self) -> Open
        ensures { view_open result ≡ reader.around_stmt (view_in_stmt self.now) }
    {
        match self {
            InStmt::Block(o, ..) => *o,
            InStmt::Then(o, ..) => *o,
            InStmt::Else(o, ..) => *o,
            InStmt::While(o, ..) => *o,
            InStmt::Do(o, ..) => *o,
            InStmt::For(o, ..) => *o,
        }
    }
}

impl InInit {
    /// The node that is open around what stands there.
    pub fn around(&self) -> Open
        ensures { view_open result ≡ reader.around_init (view_in_init self.now) }
    {
        match self {
            InInit::Item(r, _) => r.node,
            InInit::Braces(o, ..) => *o,
        }
    }
}

impl InExpr {
    /// The node that is open around what stands there.
    pub fn around(&self) -> Open
        ensures { view_open result ≡ reader.around_expr (view_in_expr self.now) }
    {
        match self {
            InExpr::Operand(o, ..) => *o,
            InExpr::Bracket(o, ..) => *o,
            InExpr::Stmt(o, ..) => *o,
            InExpr::Init(k) => k.around(),
            InExpr::Value(o, ..) => *o,
            InExpr::Array(o, ..) => *o,
        }
    }
}

impl InDeclarator {
    /// The node that is open around what stands there.
    pub fn around(&self) -> Open
        ensures { view_open result ≡ reader.around_declarator (view_in_declarator self.now) }
    {
        match self {
            InDeclarator::Pointer(o, ..) => *o,
            InDeclarator::Group(o, ..) => *o,
            InDeclarator::Item(q, _) => q.node,
            InDeclarator::Field(o, ..) => *o,
            InDeclarator::Param(o, ..) => *o,
            InDeclarator::Type(_, o, ..) => *o,
        }
    }
}

impl InDeclaration {
    /// How many nodes are open where the declaration stands.
    pub fn level(&self) -> u32
        ensures { result ≡ reader.declaration_level (view_in_declaration self.now) }
    {
        match self {
            InDeclaration::External(..) => 0,
            InDeclaration::Block(o, ..) => o.level,
            InDeclaration::For(o, ..) => o.level,
        }
    }
}

impl InSpecs {
    /// How many nodes are open where the specifiers' node stands.
    pub fn level(&self) -> u32
        ensures { result ≡ reader.specs_level (view_in_specs self.now) }
    {
        match self {
            InSpecs::Declaration(q) => q.level(),
            InSpecs::Field(f, _) => f.node.level,
            InSpecs::Param(p, _) => p.node.level,
            InSpecs::Type(o, ..) => o.level,
        }
    }
}

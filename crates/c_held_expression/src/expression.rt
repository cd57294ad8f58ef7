//! Expressions, type names and declarators.

ghost use Rattle.std.specs.Prelude.{◌≡◌, IfOk};

use std::alloc::{AllocError, Global};
use std::marker::Model;

/// An expression.
pub struct Expr {
    tree: c_tree::Expr,
}

impl Model for Expr {
    ghost use Rattle.c_tree.specs.contracts.expression.Expr as e;
    ghost use Rattle.c_tree.specs.declared.expression.Expr.{Expr};
    ghost use Rattle.std.specs.Coded.{codes};

    ghost Value = { Expr };

    ghost coded = { Prim.hlevel (codes, e.the_row.coded) };

    ghost view = { λ x. x.tree };
}

impl Drop for Expr {
    fn drop(self) {
        let Expr { tree: _ } = self;
    }
}

impl Expr {
    /// Of this tree.
    pub fn new(tree: c_tree::Expr) -> Expr
        ensures { result ≡ tree }
    {
        Expr { tree }
    }

    /// The tree.
    pub fn open(self) -> c_tree::Expr
        ensures { result ≡ self }
    {
        let Expr { tree } = self;
        tree
    }

    /// The tree, to look at.
    pub fn get(&self) -> &c_tree::Expr
        ensures { result.now ≡ self.now }
    {
        &self.tree
    }

    /// The tree in memory of its own.
    pub fn boxed(self, alloc: Global) -> Result<ExprBox, AllocError>
        ensures { IfOk result (λ b. b.value ≡ self) }
    {
        let Expr { tree } = self;
        let place = Box::new(alloc, tree)?;
        Ok(ExprBox { place })
    }
}

/// An expression in memory of its own.
pub struct ExprBox {
    place: Box<c_tree::Expr>,
}

impl Model for ExprBox {
    ghost use Rattle.std.specs.Global.{Global};
    ghost use Rattle.std.specs.Prelude.{Box};
    ghost use Rattle.c_tree.specs.contracts.expression.Expr as e;
    ghost use Rattle.c_tree.specs.declared.expression.Expr.{Expr};
    ghost use Rattle.std.specs.Coded.{codes};

    ghost Value = { Box Expr Global };

    ghost coded = { Prim.hlevel (codes, e.the_row.coded) };

    ghost view = { λ x. x.place };
}

impl Drop for ExprBox {
    fn drop(self) {
        let ExprBox { place: _ } = self;
    }
}

impl ExprBox {
    /// The tree.
    pub fn open(self) -> Box<c_tree::Expr>
        ensures { result ≡ self }
    {
        let ExprBox { place } = self;
        place
    }
}

/// A type name.
pub struct TypeName {
    tree: c_tree::TypeName,
}

impl Model for TypeName {
    ghost use Rattle.c_tree.specs.contracts.expression.TypeName as e;
    ghost use Rattle.c_tree.specs.declared.expression.TypeName.{TypeName};
    ghost use Rattle.std.specs.Coded.{codes};

    ghost Value = { TypeName };

    ghost coded = { Prim.hlevel (codes, e.the_row.coded) };

    ghost view = { λ x. x.tree };
}

impl Drop for TypeName {
    fn drop(self) {
        let TypeName { tree: _ } = self;
    }
}

impl TypeName {
    /// Of this tree.
    pub fn new(tree: c_tree::TypeName) -> TypeName
        ensures { result ≡ tree }
    {
        TypeName { tree }
    }

    /// The tree.
    pub fn open(self) -> c_tree::TypeName
        ensures { result ≡ self }
    {
        let TypeName { tree } = self;
        tree
    }

    /// The tree in memory of its own.
    pub fn boxed(self, alloc: Global) -> Result<TypeNameBox, AllocError>
        ensures { IfOk result (λ b. b.value ≡ self) }
    {
        let TypeName { tree } = self;
        let place = Box::new(alloc, tree)?;
        Ok(TypeNameBox { place })
    }
}

/// A type name in memory of its own.
pub struct TypeNameBox {
    place: Box<c_tree::TypeName>,
}

impl Model for TypeNameBox {
    ghost use Rattle.std.specs.Global.{Global};
    ghost use Rattle.std.specs.Prelude.{Box};
    ghost use Rattle.c_tree.specs.contracts.expression.TypeName as e;
    ghost use Rattle.c_tree.specs.declared.expression.TypeName.{TypeName};
    ghost use Rattle.std.specs.Coded.{codes};

    ghost Value = { Box TypeName Global };

    ghost coded = { Prim.hlevel (codes, e.the_row.coded) };

    ghost view = { λ x. x.place };
}

impl Drop for TypeNameBox {
    fn drop(self) {
        let TypeNameBox { place: _ } = self;
    }
}

impl TypeNameBox {
    /// The tree.
    pub fn open(self) -> Box<c_tree::TypeName>
        ensures { result ≡ self }
    {
        let TypeNameBox { place } = self;
        place
    }
}

/// A declarator.
pub struct Declarator {
    tree: c_tree::Declarator,
}

impl Model for Declarator {
    ghost use Rattle.c_tree.specs.contracts.expression.Declarator as e;
    ghost use Rattle.c_tree.specs.declared.expression.Declarator.{Declarator};
    ghost use Rattle.std.specs.Coded.{codes};

    ghost Value = { Declarator };

    ghost coded = { Prim.hlevel (codes, e.the_row.coded) };

    ghost view = { λ x. x.tree };
}

impl Drop for Declarator {
    fn drop(self) {
        let Declarator { tree: _ } = self;
    }
}

impl Declarator {
    /// Of this tree.
    pub fn new(tree: c_tree::Declarator) -> Declarator
        ensures { result ≡ tree }
    {
        Declarator { tree }
    }

    /// The tree.
    pub fn open(self) -> c_tree::Declarator
        ensures { result ≡ self }
    {
        let Declarator { tree } = self;
        tree
    }

    /// The tree, to look at.
    pub fn get(&self) -> &c_tree::Declarator
        ensures { result.now ≡ self.now }
    {
        &self.tree
    }

    /// The tree in memory of its own.
    pub fn boxed(self, alloc: Global) -> Result<DeclaratorBox, AllocError>
        ensures { IfOk result (λ b. b.value ≡ self) }
    {
        let Declarator { tree } = self;
        let place = Box::new(alloc, tree)?;
        Ok(DeclaratorBox { place })
    }
}

/// A declarator in memory of its own.
pub struct DeclaratorBox {
    place: Box<c_tree::Declarator>,
}

impl Model for DeclaratorBox {
    ghost use Rattle.std.specs.Global.{Global};
    ghost use Rattle.std.specs.Prelude.{Box};
    ghost use Rattle.c_tree.specs.contracts.expression.Declarator as e;
    ghost use Rattle.c_tree.specs.declared.expression.Declarator.{Declarator};
    ghost use Rattle.std.specs.Coded.{codes};

    ghost Value = { Box Declarator Global };

    ghost coded = { Prim.hlevel (codes, e.the_row.coded) };

    ghost view = { λ x. x.place };
}

impl Drop for DeclaratorBox {
    fn drop(self) {
        let DeclaratorBox { place: _ } = self;
    }
}

impl DeclaratorBox {
    /// The tree.
    pub fn open(self) -> Box<c_tree::Declarator>
        ensures { result ≡ self }
    {
        let DeclaratorBox { place } = self;
        place
    }
}

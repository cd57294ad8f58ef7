//! Initialisers, the first part of `for`, and statements.

ghost use Rattle.std.specs.Prelude.{◌≡◌, IfOk};

use std::alloc::{AllocError, Global};
use std::marker::Model;

/// An initialiser.
pub struct Init {
    tree: c_tree::Init,
}

impl Model for Init {
    ghost use Rattle.c_tree.specs.contracts.statement.Init as e;
    ghost use Rattle.c_tree.specs.declared.statement.Init.{Init};
    ghost use Rattle.std.specs.Coded.{codes};

    ghost Value = { Init };

    ghost coded = { Prim.hlevel (codes, e.the_row.coded) };

    ghost view = { λ x. x.tree };
}

impl Drop for Init {
    fn drop(self) {
        let Init { tree: _ } = self;
    }
}

impl Init {
    /// Of this tree.
    pub fn new(tree: c_tree::Init) -> Init
        ensures { result ≡ tree }
    {
        Init { tree }
    }

    /// The tree.
    pub fn open(self) -> c_tree::Init
        ensures { result ≡ self }
    {
        let Init { tree } = self;
        tree
    }
}

/// What stands first between the parentheses of a `for`.
pub struct ForFirst {
    tree: c_tree::ForFirst,
}

impl Model for ForFirst {
    ghost use Rattle.c_tree.specs.contracts.statement.ForFirst as e;
    ghost use Rattle.c_tree.specs.declared.statement.ForFirst.{ForFirst};
    ghost use Rattle.std.specs.Coded.{codes};

    ghost Value = { ForFirst };

    ghost coded = { Prim.hlevel (codes, e.the_row.coded) };

    ghost view = { λ x. x.tree };
}

impl Drop for ForFirst {
    fn drop(self) {
        let ForFirst { tree: _ } = self;
    }
}

impl ForFirst {
    /// Of this tree.
    pub fn new(tree: c_tree::ForFirst) -> ForFirst
        ensures { result ≡ tree }
    {
        ForFirst { tree }
    }

    /// The tree.
    pub fn open(self) -> c_tree::ForFirst
        ensures { result ≡ self }
    {
        let ForFirst { tree } = self;
        tree
    }
}

/// A statement.
pub struct Stmt {
    tree: c_tree::Stmt,
}

impl Model for Stmt {
    ghost use Rattle.c_tree.specs.contracts.statement.Stmt as e;
    ghost use Rattle.c_tree.specs.declared.statement.Stmt.{Stmt};
    ghost use Rattle.std.specs.Coded.{codes};

    ghost Value = { Stmt };

    ghost coded = { Prim.hlevel (codes, e.the_row.coded) };

    ghost view = { λ x. x.tree };
}

impl Drop for Stmt {
    fn drop(self) {
        let Stmt { tree: _ } = self;
    }
}

impl Stmt {
    /// Of this tree.
    pub fn new(tree: c_tree::Stmt) -> Stmt
        ensures { result ≡ tree }
    {
        Stmt { tree }
    }

    /// The tree.
    pub fn open(self) -> c_tree::Stmt
        ensures { result ≡ self }
    {
        let Stmt { tree } = self;
        tree
    }

    /// The tree in memory of its own.
    pub fn boxed(self, alloc: Global) -> Result<StmtBox, AllocError>
        ensures { IfOk result (λ b. b.value ≡ self) }
    {
        let Stmt { tree } = self;
        let place = Box::new(alloc, tree)?;
        Ok(StmtBox { place })
    }
}

/// A unit.
pub struct Unit {
    tree: c_tree::Unit,
}

impl Model for Unit {
    ghost use Rattle.c_tree.specs.contracts.statement.Unit as e;
    ghost use Rattle.c_tree.specs.declared.statement.Unit.{Unit};
    ghost use Rattle.std.specs.Coded.{codes};

    ghost Value = { Unit };

    ghost coded = { Prim.hlevel (codes, e.the_row.coded) };

    ghost view = { λ x. x.tree };
}

impl Drop for Unit {
    fn drop(self) {
        let Unit { tree: _ } = self;
    }
}

impl Unit {
    /// Of this tree.
    pub fn new(tree: c_tree::Unit) -> Unit
        ensures { result ≡ tree }
    {
        Unit { tree }
    }

    /// The tree, to look at.
    pub fn get(&self) -> &c_tree::Unit
        ensures { result.now ≡ self.now }
    {
        &self.tree
    }
}

/// A statement in memory of its own.
pub struct StmtBox {
    place: Box<c_tree::Stmt>,
}

impl Model for StmtBox {
    ghost use Rattle.std.specs.Global.{Global};
    ghost use Rattle.std.specs.Prelude.{Box};
    ghost use Rattle.c_tree.specs.contracts.statement.Stmt as e;
    ghost use Rattle.c_tree.specs.declared.statement.Stmt.{Stmt};
    ghost use Rattle.std.specs.Coded.{codes};

    ghost Value = { Box Stmt Global };

    ghost coded = { Prim.hlevel (codes, e.the_row.coded) };

    ghost view = { λ x. x.place };
}

impl Drop for StmtBox {
    fn drop(self) {
        let StmtBox { place: _ } = self;
    }
}

impl StmtBox {
    /// The tree.
    pub fn open(self) -> Box<c_tree::Stmt>
        ensures { result ≡ self }
    {
        let StmtBox { place } = self;
        place
    }
}

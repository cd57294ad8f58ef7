//! Lists of statements, declarations and initialisers.

ghost use Rattle.std.specs.Prelude.{◌≡◌, [], ◌∷◌, ◌++◌, IfOk, OnOk, OnErr, IsTrue, ◌↔◌};

use std::alloc::{AllocError, Global};
use std::marker::Model;
use tok_base::Items;

/// Initialisers.
pub struct Inits {
    list: Items<c_tree::Init>,
}

impl Model for Inits {
    ghost use Rattle.std.specs.Prelude.{List};
    ghost use Rattle.c_tree.specs.contracts.statement.Init as e;
    ghost use Rattle.c_tree.specs.declared.statement.Init.{Init};
    ghost use Rattle.std.specs.Coded.{codes};

    ghost Value = { List Init };

    ghost coded = { Prim.hlevel (codes, e.the_row.coded) };

    ghost view = { λ x. x.list };
}

impl Drop for Inits {
    fn drop(self) {
        let Inits { list: _ } = self;
    }
}

impl Inits {
    /// None yet.
    pub fn new(alloc: Global) -> Inits
        ensures { result ≡ [] }
    {
        Inits {
            list: Items::new(alloc),
        }
    }

    /// The list.
    pub fn open(self) -> Items<c_tree::Init>
        ensures { result ≡ self }
    {
        let Inits { list } = self;
        list
    }

    /// With one more.
    pub fn with(self, one: c_tree::Init) -> Result<Inits, AllocError>
        ensures { IfOk result (λ xs. xs ≡ self ++ one ∷ []) }
    {
        let Inits { mut list } = self;
        list.push(one)?;
        Ok(Inits { list })
    }

    /// Whether there are none.
    pub fn is_empty(&self) -> bool
        ensures { IsTrue result ↔ (self.now ≡ []) }
    {
        self.list.is_empty()
    }

    /// One more at the end.
    pub fn push(&mut self, one: c_tree::Init) -> Result<(), AllocError>
        ensures ok { OnOk result (self.new ≡ self.old ++ one ∷ []) }
        ensures err { OnErr result (self.new ≡ self.old) }
    {
        self.list.push(one)
    }
}

/// Items of a declaration.
pub struct DeclaredItems {
    list: Items<c_tree::Item>,
}

impl Model for DeclaredItems {
    ghost use Rattle.std.specs.Prelude.{List};
    ghost use Rattle.c_tree.specs.contracts.statement.Item as e;
    ghost use Rattle.c_tree.specs.declared.statement.Item.{Item};
    ghost use Rattle.std.specs.Coded.{codes};

    ghost Value = { List Item };

    ghost coded = { Prim.hlevel (codes, e.the_row.coded) };

    ghost view = { λ x. x.list };
}

impl Drop for DeclaredItems {
    fn drop(self) {
        let DeclaredItems { list: _ } = self;
    }
}

impl DeclaredItems {
    /// None yet.
    pub fn new(alloc: Global) -> DeclaredItems
        ensures { result ≡ [] }
    {
        DeclaredItems {
            list: Items::new(alloc),
        }
    }

    /// The list.
    pub fn open(self) -> Items<c_tree::Item>
        ensures { result ≡ self }
    {
        let DeclaredItems { list } = self;
        list
    }

    /// With one more.
    pub fn with(self, one: c_tree::Item) -> Result<DeclaredItems, AllocError>
        ensures { IfOk result (λ xs. xs ≡ self ++ one ∷ []) }
    {
        let DeclaredItems { mut list } = self;
        list.push(one)?;
        Ok(DeclaredItems { list })
    }

    /// Whether there are none.
    pub fn is_empty(&self) -> bool
        ensures { IsTrue result ↔ (self.now ≡ []) }
    {
        self.list.is_empty()
    }

    /// One more at the end.
    pub fn push(&mut self, one: c_tree::Item) -> Result<(), AllocError>
        ensures ok { OnOk result (self.new ≡ self.old ++ one ∷ []) }
        ensures err { OnErr result (self.new ≡ self.old) }
    {
        self.list.push(one)
    }
}

/// Items of a block.
pub struct BlockItems {
    list: Items<c_tree::BlockItem>,
}

impl Model for BlockItems {
    ghost use Rattle.std.specs.Prelude.{List};
    ghost use Rattle.c_tree.specs.contracts.statement.BlockItem as e;
    ghost use Rattle.c_tree.specs.declared.statement.BlockItem.{BlockItem};
    ghost use Rattle.std.specs.Coded.{codes};

    ghost Value = { List BlockItem };

    ghost coded = { Prim.hlevel (codes, e.the_row.coded) };

    ghost view = { λ x. x.list };
}

impl Drop for BlockItems {
    fn drop(self) {
        let BlockItems { list: _ } = self;
    }
}

impl BlockItems {
    /// None yet.
    pub fn new(alloc: Global) -> BlockItems
        ensures { result ≡ [] }
    {
        BlockItems {
            list: Items::new(alloc),
        }
    }

    /// The list.
    pub fn open(self) -> Items<c_tree::BlockItem>
        ensures { result ≡ self }
    {
        let BlockItems { list } = self;
        list
    }

    /// With one more.
    pub fn with(self, one: c_tree::BlockItem) -> Result<BlockItems, AllocError>
        ensures { IfOk result (λ xs. xs ≡ self ++ one ∷ []) }
    {
        let BlockItems { mut list } = self;
        list.push(one)?;
        Ok(BlockItems { list })
    }

    /// One more at the end.
    pub fn push(&mut self, one: c_tree::BlockItem) -> Result<(), AllocError>
        ensures ok { OnOk result (self.new ≡ self.old ++ one ∷ []) }
        ensures err { OnErr result (self.new ≡ self.old) }
    {
        self.list.push(one)
    }
}

/// External declarations.
pub struct Externals {
    list: Items<c_tree::External>,
}

impl Model for Externals {
    ghost use Rattle.std.specs.Prelude.{List};
    ghost use Rattle.c_tree.specs.contracts.statement.External as e;
    ghost use Rattle.c_tree.specs.declared.statement.External.{External};
    ghost use Rattle.std.specs.Coded.{codes};

    ghost Value = { List External };

    ghost coded = { Prim.hlevel (codes, e.the_row.coded) };

    ghost view = { λ x. x.list };
}

impl Drop for Externals {
    fn drop(self) {
        let Externals { list: _ } = self;
    }
}

impl Externals {
    /// None yet.
    pub fn new(alloc: Global) -> Externals
        ensures { result ≡ [] }
    {
        Externals {
            list: Items::new(alloc),
        }
    }

    /// The list.
    pub fn open(self) -> Items<c_tree::External>
        ensures { result ≡ self }
    {
        let Externals { list } = self;
        list
    }

    /// With one more.
    pub fn with(self, one: c_tree::External) -> Result<Externals, AllocError>
        ensures { IfOk result (λ xs. xs ≡ self ++ one ∷ []) }
    {
        let Externals { mut list } = self;
        list.push(one)?;
        Ok(Externals { list })
    }

    /// One more at the end.
    pub fn push(&mut self, one: c_tree::External) -> Result<(), AllocError>
        ensures ok { OnOk result (self.new ≡ self.old ++ one ∷ []) }
        ensures err { OnErr result (self.new ≡ self.old) }
    {
        self.list.push(one)
    }

    /// These behind it.
    pub fn append(&mut self, more: Externals) -> Result<(), AllocError>
        ensures { OnOk result (self.new ≡ self.old ++ more) }
    {
        self.list.append(more.open())
    }
}

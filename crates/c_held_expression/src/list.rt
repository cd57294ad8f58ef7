//! Lists of expressions and of their parts: specifiers, declarators, attributes.

ghost use Rattle.std.specs.Prelude.{◌≡◌, [], ◌∷◌, ◌++◌, IfOk, OnOk, OnErr, IsTrue, ◌↔◌};

use std::alloc::{AllocError, Global};
use std::marker::Model;
use tok_base::Items;

/// Expressions.
pub struct Exprs {
    list: Items<c_tree::Expr>,
}

impl Model for Exprs {
    ghost use Rattle.std.specs.Prelude.{List};
    ghost use Rattle.c_tree.specs.contracts.expression.Expr as e;
    ghost use Rattle.c_tree.specs.declared.expression.Expr.{Expr};
    ghost use Rattle.std.specs.Coded.{codes};

    ghost Value = { List Expr };

    ghost coded = { Prim.hlevel (codes, e.the_row.coded) };

    ghost view = { λ x. x.list };
}

impl Drop for Exprs {
    fn drop(self) {
        let Exprs { list: _ } = self;
    }
}

impl Exprs {
    /// None yet.
    pub fn new(alloc: Global) -> Exprs
        ensures { result ≡ [] }
    {
        Exprs {
            list: Items::new(alloc),
        }
    }

    /// The list.
    pub fn open(self) -> Items<c_tree::Expr>
        ensures { result ≡ self }
    {
        let Exprs { list } = self;
        list
    }

    /// With one more.
    pub fn with(self, one: c_tree::Expr) -> Result<Exprs, AllocError>
        ensures { IfOk result (λ xs. xs ≡ self ++ one ∷ []) }
    {
        let Exprs { mut list } = self;
        list.push(one)?;
        Ok(Exprs { list })
    }

    /// One more at the end.
    pub fn push(&mut self, one: c_tree::Expr) -> Result<(), AllocError>
        ensures ok { OnOk result (self.new ≡ self.old ++ one ∷ []) }
        ensures err { OnErr result (self.new ≡ self.old) }
    {
        self.list.push(one)
    }
}

/// Specifiers.
pub struct Specs {
    list: Items<c_tree::Spec>,
}

impl Model for Specs {
    ghost use Rattle.std.specs.Prelude.{List};
    ghost use Rattle.c_tree.specs.contracts.expression.Spec as e;
    ghost use Rattle.c_tree.specs.declared.expression.Spec.{Spec};
    ghost use Rattle.std.specs.Coded.{codes};

    ghost Value = { List Spec };

    ghost coded = { Prim.hlevel (codes, e.the_row.coded) };

    ghost view = { λ x. x.list };
}

impl Drop for Specs {
    fn drop(self) {
        let Specs { list: _ } = self;
    }
}

impl Specs {
    /// None yet.
    pub fn new(alloc: Global) -> Specs
        ensures { result ≡ [] }
    {
        Specs {
            list: Items::new(alloc),
        }
    }

    /// The list.
    pub fn open(self) -> Items<c_tree::Spec>
        ensures { result ≡ self }
    {
        let Specs { list } = self;
        list
    }

    /// With one more.
    pub fn with(self, one: c_tree::Spec) -> Result<Specs, AllocError>
        ensures { IfOk result (λ xs. xs ≡ self ++ one ∷ []) }
    {
        let Specs { mut list } = self;
        list.push(one)?;
        Ok(Specs { list })
    }

    /// One more at the end.
    pub fn push(&mut self, one: c_tree::Spec) -> Result<(), AllocError>
        ensures ok { OnOk result (self.new ≡ self.old ++ one ∷ []) }
        ensures err { OnErr result (self.new ≡ self.old) }
    {
        self.list.push(one)
    }
}

/// Declarators.
pub struct Declarators {
    list: Items<c_tree::Declarator>,
}

impl Model for Declarators {
    ghost use Rattle.std.specs.Prelude.{List};
    ghost use Rattle.c_tree.specs.contracts.expression.Declarator as e;
    ghost use Rattle.c_tree.specs.declared.expression.Declarator.{Declarator};
    ghost use Rattle.std.specs.Coded.{codes};

    ghost Value = { List Declarator };

    ghost coded = { Prim.hlevel (codes, e.the_row.coded) };

    ghost view = { λ x. x.list };
}

impl Drop for Declarators {
    fn drop(self) {
        let Declarators { list: _ } = self;
    }
}

impl Declarators {
    /// None yet.
    pub fn new(alloc: Global) -> Declarators
        ensures { result ≡ [] }
    {
        Declarators {
            list: Items::new(alloc),
        }
    }

    /// The list.
    pub fn open(self) -> Items<c_tree::Declarator>
        ensures { result ≡ self }
    {
        let Declarators { list } = self;
        list
    }

    /// With one more.
    pub fn with(self, one: c_tree::Declarator) -> Result<Declarators, AllocError>
        ensures { IfOk result (λ xs. xs ≡ self ++ one ∷ []) }
    {
        let Declarators { mut list } = self;
        list.push(one)?;
        Ok(Declarators { list })
    }

    /// One more at the end.
    pub fn push(&mut self, one: c_tree::Declarator) -> Result<(), AllocError>
        ensures ok { OnOk result (self.new ≡ self.old ++ one ∷ []) }
        ensures err { OnErr result (self.new ≡ self.old) }
    {
        self.list.push(one)
    }
}

/// Parameters.
pub struct Params {
    list: Items<c_tree::Param>,
}

impl Model for Params {
    ghost use Rattle.std.specs.Prelude.{List};
    ghost use Rattle.c_tree.specs.contracts.expression.Param as e;
    ghost use Rattle.c_tree.specs.declared.expression.Param.{Param};
    ghost use Rattle.std.specs.Coded.{codes};

    ghost Value = { List Param };

    ghost coded = { Prim.hlevel (codes, e.the_row.coded) };

    ghost view = { λ x. x.list };
}

impl Drop for Params {
    fn drop(self) {
        let Params { list: _ } = self;
    }
}

impl Params {
    /// None yet.
    pub fn new(alloc: Global) -> Params
        ensures { result ≡ [] }
    {
        Params {
            list: Items::new(alloc),
        }
    }

    /// The list.
    pub fn open(self) -> Items<c_tree::Param>
        ensures { result ≡ self }
    {
        let Params { list } = self;
        list
    }

    /// With one more.
    pub fn with(self, one: c_tree::Param) -> Result<Params, AllocError>
        ensures { IfOk result (λ xs. xs ≡ self ++ one ∷ []) }
    {
        let Params { mut list } = self;
        list.push(one)?;
        Ok(Params { list })
    }

    /// One more at the end.
    pub fn push(&mut self, one: c_tree::Param) -> Result<(), AllocError>
        ensures ok { OnOk result (self.new ≡ self.old ++ one ∷ []) }
        ensures err { OnErr result (self.new ≡ self.old) }
    {
        self.list.push(one)
    }
}

/// Fields of a record.
pub struct Fields {
    list: Items<c_tree::Field>,
}

impl Model for Fields {
    ghost use Rattle.std.specs.Prelude.{List};
    ghost use Rattle.c_tree.specs.contracts.expression.Field as e;
    ghost use Rattle.c_tree.specs.declared.expression.Field.{Field};
    ghost use Rattle.std.specs.Coded.{codes};

    ghost Value = { List Field };

    ghost coded = { Prim.hlevel (codes, e.the_row.coded) };

    ghost view = { λ x. x.list };
}

impl Drop for Fields {
    fn drop(self) {
        let Fields { list: _ } = self;
    }
}

impl Fields {
    /// None yet.
    pub fn new(alloc: Global) -> Fields
        ensures { result ≡ [] }
    {
        Fields {
            list: Items::new(alloc),
        }
    }

    /// The list.
    pub fn open(self) -> Items<c_tree::Field>
        ensures { result ≡ self }
    {
        let Fields { list } = self;
        list
    }

    /// With one more.
    pub fn with(self, one: c_tree::Field) -> Result<Fields, AllocError>
        ensures { IfOk result (λ xs. xs ≡ self ++ one ∷ []) }
    {
        let Fields { mut list } = self;
        list.push(one)?;
        Ok(Fields { list })
    }

    /// Whether there are none.
    pub fn is_empty(&self) -> bool
        ensures { IsTrue result ↔ (self.now ≡ []) }
    {
        self.list.is_empty()
    }

    /// One more at the end.
    pub fn push(&mut self, one: c_tree::Field) -> Result<(), AllocError>
        ensures ok { OnOk result (self.new ≡ self.old ++ one ∷ []) }
        ensures err { OnErr result (self.new ≡ self.old) }
    {
        self.list.push(one)
    }
}

/// Enumerators.
pub struct Enumerators {
    list: Items<c_tree::Enumerator>,
}

impl Model for Enumerators {
    ghost use Rattle.std.specs.Prelude.{List};
    ghost use Rattle.c_tree.specs.contracts.expression.Enumerator as e;
    ghost use Rattle.c_tree.specs.declared.expression.Enumerator.{Enumerator};
    ghost use Rattle.std.specs.Coded.{codes};

    ghost Value = { List Enumerator };

    ghost coded = { Prim.hlevel (codes, e.the_row.coded) };

    ghost view = { λ x. x.list };
}

impl Drop for Enumerators {
    fn drop(self) {
        let Enumerators { list: _ } = self;
    }
}

impl Enumerators {
    /// None yet.
    pub fn new(alloc: Global) -> Enumerators
        ensures { result ≡ [] }
    {
        Enumerators {
            list: Items::new(alloc),
        }
    }

    /// The list.
    pub fn open(self) -> Items<c_tree::Enumerator>
        ensures { result ≡ self }
    {
        let Enumerators { list } = self;
        list
    }

    /// With one more.
    pub fn with(self, one: c_tree::Enumerator) -> Result<Enumerators, AllocError>
        ensures { IfOk result (λ xs. xs ≡ self ++ one ∷ []) }
    {
        let Enumerators { mut list } = self;
        list.push(one)?;
        Ok(Enumerators { list })
    }

    /// Whether there are none.
    pub fn is_empty(&self) -> bool
        ensures { IsTrue result ↔ (self.now ≡ []) }
    {
        self.list.is_empty()
    }

    /// One more at the end.
    pub fn push(&mut self, one: c_tree::Enumerator) -> Result<(), AllocError>
        ensures ok { OnOk result (self.new ≡ self.old ++ one ∷ []) }
        ensures err { OnErr result (self.new ≡ self.old) }
    {
        self.list.push(one)
    }
}

/// Attributes.
pub struct Attributes {
    list: Items<c_tree::Attribute>,
}

impl Model for Attributes {
    ghost use Rattle.std.specs.Prelude.{List};
    ghost use Rattle.c_tree.specs.contracts.expression.Attribute as e;
    ghost use Rattle.c_tree.specs.declared.expression.Attribute.{Attribute};
    ghost use Rattle.std.specs.Coded.{codes};

    ghost Value = { List Attribute };

    ghost coded = { Prim.hlevel (codes, e.the_row.coded) };

    ghost view = { λ x. x.list };
}

impl Drop for Attributes {
    fn drop(self) {
        let Attributes { list: _ } = self;
    }
}

impl Attributes {
    /// None yet.
    pub fn new(alloc: Global) -> Attributes
        ensures { result ≡ [] }
    {
        Attributes {
            list: Items::new(alloc),
        }
    }

    /// The list.
    pub fn open(self) -> Items<c_tree::Attribute>
        ensures { result ≡ self }
    {
        let Attributes { list } = self;
        list
    }

    /// With one more.
    pub fn with(self, one: c_tree::Attribute) -> Result<Attributes, AllocError>
        ensures { IfOk result (λ xs. xs ≡ self ++ one ∷ []) }
    {
        let Attributes { mut list } = self;
        list.push(one)?;
        Ok(Attributes { list })
    }

    /// One more at the end.
    pub fn push(&mut self, one: c_tree::Attribute) -> Result<(), AllocError>
        ensures ok { OnOk result (self.new ≡ self.old ++ one ∷ []) }
        ensures err { OnErr result (self.new ≡ self.old) }
    {
        self.list.push(one)
    }
}

/// Entries of an attribute.
pub struct Entries {
    list: Items<c_tree::Entry>,
}

impl Model for Entries {
    ghost use Rattle.std.specs.Prelude.{List};
    ghost use Rattle.c_tree.specs.contracts.expression.Entry as e;
    ghost use Rattle.c_tree.specs.declared.expression.Entry.{Entry};
    ghost use Rattle.std.specs.Coded.{codes};

    ghost Value = { List Entry };

    ghost coded = { Prim.hlevel (codes, e.the_row.coded) };

    ghost view = { λ x. x.list };
}

impl Drop for Entries {
    fn drop(self) {
        let Entries { list: _ } = self;
    }
}

impl Entries {
    /// None yet.
    pub fn new(alloc: Global) -> Entries
        ensures { result ≡ [] }
    {
        Entries {
            list: Items::new(alloc),
        }
    }

    /// The list.
    pub fn open(self) -> Items<c_tree::Entry>
        ensures { result ≡ self }
    {
        let Entries { list } = self;
        list
    }

    /// With one more.
    pub fn with(self, one: c_tree::Entry) -> Result<Entries, AllocError>
        ensures { IfOk result (λ xs. xs ≡ self ++ one ∷ []) }
    {
        let Entries { mut list } = self;
        list.push(one)?;
        Ok(Entries { list })
    }

    /// One more at the end.
    pub fn push(&mut self, one: c_tree::Entry) -> Result<(), AllocError>
        ensures ok { OnOk result (self.new ≡ self.old ++ one ∷ []) }
        ensures err { OnErr result (self.new ≡ self.old) }
    {
        self.list.push(one)
    }
}

/// Arguments of an entry.
pub struct Arguments {
    list: Items<c_tree::AttributeArgument>,
}

impl Model for Arguments {
    ghost use Rattle.std.specs.Prelude.{List};
    ghost use Rattle.c_tree.specs.contracts.expression.AttributeArgument as e;
    ghost use Rattle.c_tree.specs.declared.expression.AttributeArgument.{AttributeArgument};
    ghost use Rattle.std.specs.Coded.{codes};

    ghost Value = { List AttributeArgument };

    ghost coded = { Prim.hlevel (codes, e.the_row.coded) };

    ghost view = { λ x. x.list };
}

impl Drop for Arguments {
    fn drop(self) {
        let Arguments { list: _ } = self;
    }
}

impl Arguments {
    /// None yet.
    pub fn new(alloc: Global) -> Arguments
        ensures { result ≡ [] }
    {
        Arguments {
            list: Items::new(alloc),
        }
    }

    /// The list.
    pub fn open(self) -> Items<c_tree::AttributeArgument>
        ensures { result ≡ self }
    {
        let Arguments { list } = self;
        list
    }

    /// With one more.
    pub fn with(self, one: c_tree::AttributeArgument) -> Result<Arguments, AllocError>
        ensures { IfOk result (λ xs. xs ≡ self ++ one ∷ []) }
    {
        let Arguments { mut list } = self;
        list.push(one)?;
        Ok(Arguments { list })
    }

    /// One more at the end.
    pub fn push(&mut self, one: c_tree::AttributeArgument) -> Result<(), AllocError>
        ensures ok { OnOk result (self.new ≡ self.old ++ one ∷ []) }
        ensures err { OnErr result (self.new ≡ self.old) }
    {
        self.list.push(one)
    }
}

//! Where a part stands, in memory of its own: a value that contracts see as what stands there, and that lets
//! it go by a `Drop` of its own, so that a crate that owns one has no destructor of the stack's types to
//! prove. Opened it is a frame: what stands there first, and the place around it.

ghost use Rattle.std.specs.Prelude.{◌≡◌, IfOk};
ghost use Rattle.c_stack.specs.Views.{view_body_frame, view_body_place, view_declaration_frame, view_declaration_place, view_declarator_frame, view_declarator_place, view_expr_frame, view_expr_place, view_in_body, view_in_declaration, view_in_declarator, view_in_expr, view_in_init, view_in_specs, view_in_stmt, view_init_frame, view_init_place, view_specs_frame, view_specs_place, view_stmt_frame, view_stmt_place};

use crate::inside::{
    Bracket, EnumRead, InBody, InDeclaration, InDeclarator, InExpr, InInit, InSpecs, InStmt,
    ItemHead, ItemsRead, Operand, ParamsRead, Part, RecordRead, TypePlace,
};
use c_held::{BlockItems, Declarator, Declarators, Expr, Externals, ForFirst, Inits, Specs, Stmt};
use c_symbol::node::Open;
use c_tree::Qualifier;
use std::alloc::{AllocError, Global};
use tok_base::{Bytes, Items};

/// The place of a statement.
pub struct StmtPlace {
    place: Box<InStmt>,
}

/// The place of a statement, opened.
#[derive(Drop)]
pub enum StmtFrame {
    Block(Open, BlockItems, BodyPlace),
    Then(Open, Expr, StmtPlace),
    Else(Open, Expr, Stmt, StmtPlace),
    While(Open, Expr, StmtPlace),
    Do(Open, StmtPlace),
    For(Open, ForFirst, Option<Expr>, Option<Expr>, StmtPlace),
}

impl Drop for StmtPlace {
    fn drop(self) {
        let StmtPlace { place: _ } = self;
    }
}

impl StmtPlace {
    /// With this frame.
    pub fn new(alloc: Global, frame: StmtFrame) -> Result<StmtPlace, AllocError>
        ensures { IfOk result (λ p. view_stmt_place p ≡ view_stmt_frame frame) }
    {
        let place = match frame {
            StmtFrame::Block(a, b, c) => InStmt::Block(a, b, c.place_inside()),
            StmtFrame::Then(a, b, c) => InStmt::Then(a, b, c.place_inside()),
            StmtFrame::Else(a, b, c, d) => InStmt::Else(a, b, c, d.place_inside()),
            StmtFrame::While(a, b, c) => InStmt::While(a, b, c.place_inside()),
            StmtFrame::Do(a, b) => InStmt::Do(a, b.place_inside()),
            StmtFrame::For(a, b, c, d, e) => InStmt::For(a, b, c, d, e.place_inside()),
        };
        let place = Box::new(alloc, place)?;
        Ok(StmtPlace { place })
    }

    /// Its frame.
    pub fn open(self) -> StmtFrame
        ensures { view_stmt_frame result ≡ view_stmt_place self }
    {
        let StmtPlace { place } = self;
        match Box::into_inner(place) {
            InStmt::Block(a, b, c) => StmtFrame::Block(a, b, BodyPlace { place: c }),
            InStmt::Then(a, b, c) => StmtFrame::Then(a, b, StmtPlace { place: c }),
            InStmt::Else(a, b, c, d) => StmtFrame::Else(a, b, c, StmtPlace { place: d }),
            InStmt::While(a, b, c) => StmtFrame::While(a, b, StmtPlace { place: c }),
            InStmt::Do(a, b) => StmtFrame::Do(a, StmtPlace { place: b }),
            InStmt::For(a, b, c, d, e) => StmtFrame::For(a, b, c, d, StmtPlace { place: e }),
        }
    }

    /// What stands there, to look at.
    pub fn get(&self) -> &InStmt
        ensures { view_in_stmt result.now ≡ view_stmt_place self.now }
    {
        &self.place
    }

    fn place_inside(self) -> Box<InStmt>
        ensures { view_in_stmt result.value ≡ view_stmt_place self }
    {
        let StmtPlace { place } = self;
        place
    }
}

/// The place of the braces of a block.
pub struct BodyPlace {
    place: Box<InBody>,
}

/// The place of the braces of a block, opened.
#[derive(Drop)]
pub enum BodyFrame {
    Definition(u32, Open, Externals, Specs, Declarator),
    Stmt(StmtPlace),
}

impl Drop for BodyPlace {
    fn drop(self) {
        let BodyPlace { place: _ } = self;
    }
}

impl BodyPlace {
    /// With this frame.
    pub fn new(alloc: Global, frame: BodyFrame) -> Result<BodyPlace, AllocError>
        ensures { IfOk result (λ p. view_body_place p ≡ view_body_frame frame) }
    {
        let place = match frame {
            BodyFrame::Definition(a, b, c, d, e) => InBody::Definition(a, b, c, d, e),
            BodyFrame::Stmt(a) => InBody::Stmt(a.place_inside()),
        };
        let place = Box::new(alloc, place)?;
        Ok(BodyPlace { place })
    }

    /// Its frame.
    pub fn open(self) -> BodyFrame
        ensures { view_body_frame result ≡ view_body_place self }
    {
        let BodyPlace { place } = self;
        match Box::into_inner(place) {
            InBody::Definition(a, b, c, d, e) => BodyFrame::Definition(a, b, c, d, e),
            InBody::Stmt(a) => BodyFrame::Stmt(StmtPlace { place: a }),
            InBody::Never(never, _) => match never {},
        }
    }

    /// What stands there, to look at.
    pub fn get(&self) -> &InBody
        ensures { view_in_body result.now ≡ view_body_place self.now }
    {
        &self.place
    }

    fn place_inside(self) -> Box<InBody>
        ensures { view_in_body result.value ≡ view_body_place self }
    {
        let BodyPlace { place } = self;
        place
    }
}

/// The place of a declaration.
pub struct DeclarationPlace {
    place: Box<InDeclaration>,
}

/// The place of a declaration, opened.
#[derive(Drop)]
pub enum DeclarationFrame {
    External(u32, Externals),
    Block(Open, BlockItems, BodyPlace),
    For(Open, StmtPlace),
}

impl Drop for DeclarationPlace {
    fn drop(self) {
        let DeclarationPlace { place: _ } = self;
    }
}

impl DeclarationPlace {
    /// With this frame.
    pub fn new(alloc: Global, frame: DeclarationFrame) -> Result<DeclarationPlace, AllocError>
        ensures { IfOk result (λ p. view_declaration_place p ≡ view_declaration_frame frame) }
    {
        let place = match frame {
            DeclarationFrame::External(a, b) => InDeclaration::External(a, b),
            DeclarationFrame::Block(a, b, c) => InDeclaration::Block(a, b, c.place_inside()),
            DeclarationFrame::For(a, b) => InDeclaration::For(a, b.place_inside()),
        };
        let place = Box::new(alloc, place)?;
        Ok(DeclarationPlace { place })
    }

    /// Its frame.
    pub fn open(self) -> DeclarationFrame
        ensures { view_declaration_frame result ≡ view_declaration_place self }
    {
        let DeclarationPlace { place } = self;
        match Box::into_inner(place) {
            InDeclaration::External(a, b) => DeclarationFrame::External(a, b),
            InDeclaration::Block(a, b, c) => DeclarationFrame::Block(a, b, BodyPlace { place: c }),
            InDeclaration::For(a, b) => DeclarationFrame::For(a, StmtPlace { place: b }),
        }
    }

    /// What stands there, to look at.
    pub fn get(&self) -> &InDeclaration
        ensures { view_in_declaration result.now ≡ view_declaration_place self.now }
    {
        &self.place
    }

    fn place_inside(self) -> Box<InDeclaration>
        ensures { view_in_declaration result.value ≡ view_declaration_place self }
    {
        let DeclarationPlace { place } = self;
        place
    }
}

/// The place of an initialiser.
pub struct InitPlace {
    place: Box<InInit>,
}

/// The place of an initialiser, opened.
#[derive(Drop)]
pub enum InitFrame {
    Item(ItemHead, DeclarationPlace),
    Braces(Open, Inits, InitPlace),
}

impl Drop for InitPlace {
    fn drop(self) {
        let InitPlace { place: _ } = self;
    }
}

impl InitPlace {
    /// With this frame.
    pub fn new(alloc: Global, frame: InitFrame) -> Result<InitPlace, AllocError>
        ensures { IfOk result (λ p. view_init_place p ≡ view_init_frame frame) }
    {
        let place = match frame {
            InitFrame::Item(a, b) => InInit::Item(a, b.place_inside()),
            InitFrame::Braces(a, b, c) => InInit::Braces(a, b, c.place_inside()),
        };
        let place = Box::new(alloc, place)?;
        Ok(InitPlace { place })
    }

    /// Its frame.
    pub fn open(self) -> InitFrame
        ensures { view_init_frame result ≡ view_init_place self }
    {
        let InitPlace { place } = self;
        match Box::into_inner(place) {
            InInit::Item(a, b) => InitFrame::Item(a, DeclarationPlace { place: b }),
            InInit::Braces(a, b, c) => InitFrame::Braces(a, b, InitPlace { place: c }),
        }
    }

    /// What stands there, to look at.
    pub fn get(&self) -> &InInit
        ensures { view_in_init result.now ≡ view_init_place self.now }
    {
        &self.place
    }

    fn place_inside(self) -> Box<InInit>
        ensures { view_in_init result.value ≡ view_init_place self }
    {
        let InitPlace { place } = self;
        place
    }
}

/// The place of an expression.
pub struct ExprPlace {
    place: Box<InExpr>,
}

/// The place of an expression, opened.
#[derive(Drop)]
pub enum ExprFrame {
    Operand(Open, Operand, ExprPlace),
    Bracket(Open, Bracket, ExprPlace),
    Stmt(Open, Part, StmtPlace),
    Init(InitPlace),
    Value(Open, Bytes, EnumRead, SpecsPlace),
    Array(Open, Declarator, DeclaratorPlace),
}

impl Drop for ExprPlace {
    fn drop(self) {
        let ExprPlace { place: _ } = self;
    }
}

impl ExprPlace {
    /// With this frame.
    pub fn new(alloc: Global, frame: ExprFrame) -> Result<ExprPlace, AllocError>
        ensures { IfOk result (λ p. view_expr_place p ≡ view_expr_frame frame) }
    {
        let place = match frame {
            ExprFrame::Operand(a, b, c) => InExpr::Operand(a, b, c.place_inside()),
            ExprFrame::Bracket(a, b, c) => InExpr::Bracket(a, b, c.place_inside()),
            ExprFrame::Stmt(a, b, c) => InExpr::Stmt(a, b, c.place_inside()),
            ExprFrame::Init(a) => InExpr::Init(a.place_inside()),
            ExprFrame::Value(a, b, c, d) => InExpr::Value(a, b, c, d.place_inside()),
            ExprFrame::Array(a, b, c) => InExpr::Array(a, b, c.place_inside()),
        };
        let place = Box::new(alloc, place)?;
        Ok(ExprPlace { place })
    }

    /// Its frame.
    pub fn open(self) -> ExprFrame
        ensures { view_expr_frame result ≡ view_expr_place self }
    {
        let ExprPlace { place } = self;
        match Box::into_inner(place) {
            InExpr::Operand(a, b, c) => ExprFrame::Operand(a, b, ExprPlace { place: c }),
            InExpr::Bracket(a, b, c) => ExprFrame::Bracket(a, b, ExprPlace { place: c }),
            InExpr::Stmt(a, b, c) => ExprFrame::Stmt(a, b, StmtPlace { place: c }),
            InExpr::Init(a) => ExprFrame::Init(InitPlace { place: a }),
            InExpr::Value(a, b, c, d) => ExprFrame::Value(a, b, c, SpecsPlace { place: d }),
            InExpr::Array(a, b, c) => ExprFrame::Array(a, b, DeclaratorPlace { place: c }),
        }
    }

    /// What stands there, to look at.
    pub fn get(&self) -> &InExpr
        ensures { view_in_expr result.now ≡ view_expr_place self.now }
    {
        &self.place
    }

    fn place_inside(self) -> Box<InExpr>
        ensures { view_in_expr result.value ≡ view_expr_place self }
    {
        let ExprPlace { place } = self;
        place
    }
}

/// The place of a declarator.
pub struct DeclaratorPlace {
    place: Box<InDeclarator>,
}

/// The place of a declarator, opened.
#[derive(Drop)]
pub enum DeclaratorFrame {
    Pointer(Open, Items<Qualifier>, DeclaratorPlace),
    Group(Open, DeclaratorPlace),
    Item(ItemsRead, DeclarationPlace),
    Field(Open, RecordRead, SpecsPlace, Specs, Declarators),
    Param(Open, ParamsRead, DeclaratorPlace, Specs),
    Type(Open, Open, TypePlace, ExprPlace, Specs),
}

impl Drop for DeclaratorPlace {
    fn drop(self) {
        let DeclaratorPlace { place: _ } = self;
    }
}

impl DeclaratorPlace {
    /// With this frame.
    pub fn new(alloc: Global, frame: DeclaratorFrame) -> Result<DeclaratorPlace, AllocError>
        ensures { IfOk result (λ p. view_declarator_place p ≡ view_declarator_frame frame) }
    {
        let place = match frame {
            DeclaratorFrame::Pointer(a, b, c) => InDeclarator::Pointer(a, b, c.place_inside()),
            DeclaratorFrame::Group(a, b) => InDeclarator::Group(a, b.place_inside()),
            DeclaratorFrame::Item(a, b) => InDeclarator::Item(a, b.place_inside()),
            DeclaratorFrame::Field(a, b, c, d, e) => InDeclarator::Field(
                a,
                b,
                c.place_inside(),
                d,
                e,
            ),
            DeclaratorFrame::Param(a, b, c, d) => InDeclarator::Param(a, b, c.place_inside(), d),
            DeclaratorFrame::Type(a, b, c, d, e) => InDeclarator::Type(
                a,
                b,
                c,
                d.place_inside(),
                e,
            ),
        };
        let place = Box::new(alloc, place)?;
        Ok(DeclaratorPlace { place })
    }

    /// Its frame.
    pub fn open(self) -> DeclaratorFrame
        ensures { view_declarator_frame result ≡ view_declarator_place self }
    {
        let DeclaratorPlace { place } = self;
        match Box::into_inner(place) {
            InDeclarator::Pointer(a, b, c) => DeclaratorFrame::Pointer(
                a,
                b,
                DeclaratorPlace { place: c },
            ),
            InDeclarator::Group(a, b) => DeclaratorFrame::Group(a, DeclaratorPlace { place: b }),
            InDeclarator::Item(a, b) => DeclaratorFrame::Item(a, DeclarationPlace { place: b }),
            InDeclarator::Field(a, b, c, d, e) => DeclaratorFrame::Field(
                a,
                b,
                SpecsPlace { place: c },
                d,
                e,
            ),
            InDeclarator::Param(a, b, c, d) => DeclaratorFrame::Param(
                a,
                b,
                DeclaratorPlace { place: c },
                d,
            ),
            InDeclarator::Type(a, b, c, d, e) => DeclaratorFrame::Type(
                a,
                b,
                c,
                ExprPlace { place: d },
                e,
            ),
        }
    }

    /// What stands there, to look at.
    pub fn get(&self) -> &InDeclarator
        ensures { view_in_declarator result.now ≡ view_declarator_place self.now }
    {
        &self.place
    }

    fn place_inside(self) -> Box<InDeclarator>
        ensures { view_in_declarator result.value ≡ view_declarator_place self }
    {
        let DeclaratorPlace { place } = self;
        place
    }
}

/// The place of specifiers.
pub struct SpecsPlace {
    place: Box<InSpecs>,
}

/// The place of specifiers, opened.
#[derive(Drop)]
pub enum SpecsFrame {
    Declaration(DeclarationPlace),
    Field(RecordRead, SpecsPlace),
    Param(ParamsRead, DeclaratorPlace),
    Type(Open, TypePlace, ExprPlace),
}

impl Drop for SpecsPlace {
    fn drop(self) {
        let SpecsPlace { place: _ } = self;
    }
}

impl SpecsPlace {
    /// With this frame.
    pub fn new(alloc: Global, frame: SpecsFrame) -> Result<SpecsPlace, AllocError>
        ensures { IfOk result (λ p. view_specs_place p ≡ view_specs_frame frame) }
    {
        let place = match frame {
            SpecsFrame::Declaration(a) => InSpecs::Declaration(a.place_inside()),
            SpecsFrame::Field(a, b) => InSpecs::Field(a, b.place_inside()),
            SpecsFrame::Param(a, b) => InSpecs::Param(a, b.place_inside()),
            SpecsFrame::Type(a, b, c) => InSpecs::Type(a, b, c.place_inside()),
        };
        let place = Box::new(alloc, place)?;
        Ok(SpecsPlace { place })
    }

    /// Its frame.
    pub fn open(self) -> SpecsFrame
        ensures { view_specs_frame result ≡ view_specs_place self }
    {
        let SpecsPlace { place } = self;
        match Box::into_inner(place) {
            InSpecs::Declaration(a) => SpecsFrame::Declaration(DeclarationPlace { place: a }),
            InSpecs::Field(a, b) => SpecsFrame::Field(a, SpecsPlace { place: b }),
            InSpecs::Param(a, b) => SpecsFrame::Param(a, DeclaratorPlace { place: b }),
            InSpecs::Type(a, b, c) => SpecsFrame::Type(a, b, ExprPlace { place: c }),
        }
    }

    /// What stands there, to look at.
    pub fn get(&self) -> &InSpecs
        ensures { view_in_specs result.now ≡ view_specs_place self.now }
    {
        &self.place
    }

    fn place_inside(self) -> Box<InSpecs>
        ensures { view_in_specs result.value ≡ view_specs_place self }
    {
        let SpecsPlace { place } = self;
        place
    }
}

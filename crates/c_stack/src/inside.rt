//! The stack: where a part stands that is still to come, the innermost node first, and where the reader is.

ghost use Rattle.std.specs.Prelude.{◌≡◌, None};
ghost use Rattle.c_stack.specs.declared.inside.Mode.TheVariants as modes;

use crate::place::{
    DeclarationPlace, DeclaratorPlace, ExprPlace, InitPlace, SpecsPlace, StmtPlace,
};
use c_held::{
    Arguments, Attributes, BlockItems, Declarator, Declarators, DeclaredItems, Entries,
    Enumerators, Expr, Exprs, Externals, Fields, ForFirst, Init, Inits, Params, Specs, Stmt,
    TypeName,
};
use c_symbol::node::{Had, Open};
use c_symbol::symbol::{Member, Tagged};
use c_tree::{AssignOp, BinaryOp, PrefixOp, Qualifier};
use std::convert::Infallible;
use tok_base::{Bytes, Items};

// ---- statements and declarations

/// The items of a declaration so far: its specifiers, and whether they make typedef names.
#[derive(Drop)]
pub struct ItemsRead {
    pub node: Open,
    pub specs: Specs,
    pub typedef: bool,
    pub items: DeclaredItems,
}

/// An item without its initialiser, behind these.
#[derive(Drop)]
pub struct ItemHead {
    pub node: Open,
    pub before: ItemsRead,
    pub declarator: Declarator,
    pub attributes: Attributes,
}

/// Where a statement is still to come.
#[cycle(inside)]
#[derive(Drop)]
pub enum InStmt {
    /// In braces, behind these items.
    Block(Open, BlockItems, Box<InBody>),
    Then(Open, Expr, Box<InStmt>),
    Else(Open, Expr, Stmt, Box<InStmt>),
    While(Open, Expr, Box<InStmt>),
    Do(Open, Box<InStmt>),
    For(Open, ForFirst, Option<Expr>, Option<Expr>, Box<InStmt>),
}

/// Where the braces of a block stand: behind a function's declarator, or as a statement. The number is the
/// greatest depth of the external declarations before.
#[cycle(inside)]
#[derive(Drop)]
pub enum InBody {
    Definition(u32, Open, Externals, Specs, Declarator),
    Stmt(Box<InStmt>),
    /// No value has it: the grammar has no statement in an expression. It makes the types of the stack one
    /// cycle, whose parts the checker then lays out once.
    Never(Infallible, Box<InExpr>),
}

/// Where a declaration is still to come.
#[cycle(inside)]
#[derive(Drop)]
pub enum InDeclaration {
    External(u32, Externals),
    Block(Open, BlockItems, Box<InBody>),
    For(Open, Box<InStmt>),
}

/// Where an initialiser is still to come.
#[cycle(inside)]
#[derive(Drop)]
pub enum InInit {
    Item(ItemHead, Box<InDeclaration>),
    Braces(Open, Inits, Box<InInit>),
}

/// Where an item of a declaration is still to come.
#[derive(Drop)]
pub struct InItems {
    pub read: ItemsRead,
    pub place: DeclarationPlace,
}

/// An item without its initialiser, and where its declaration stands.
#[derive(Drop)]
pub struct ItemRead {
    pub head: ItemHead,
    pub place: DeclarationPlace,
}

/// The condition of a statement.
#[derive(Drop)]
pub enum Condition {
    If,
    While,
    /// Of `do`, whose body was read.
    Do(Stmt),
}

/// The expression of a statement.
#[derive(Drop)]
pub enum Part {
    Plain,
    Returned,
    Condition(Condition),
    ForFirst,
    ForCondition(ForFirst),
    ForStep(ForFirst, Option<Expr>),
}

// ---- expressions, specifiers and declarators

/// An operator whose last operand is still to come.
#[derive(Drop)]
pub enum Operand {
    Prefix(PrefixOp),
    Sizeof,
    Cast(TypeName),
    Binary(Expr, BinaryOp),
    Assign(Expr, AssignOp),
    Comma(Expr),
    /// The condition and the middle of `c ? a : b`.
    Cond(Expr, Expr),
}

/// What is called: an expression, or `__builtin_infer_alloc_token`.
#[derive(Drop)]
pub enum Callee {
    Function(Expr),
    Builtin,
}

/// What a bracket closes, or the colon of `c ? a : b`.
#[derive(Drop)]
pub enum Bracket {
    Paren,
    Index(Expr),
    Args(Callee, Exprs),
    Middle(Expr),
}

/// A type name in parentheses.
#[derive(Clone, Copy, Debug)]
pub enum TypePlace {
    Cast,
    Sizeof,
}

/// Specifiers so far: the node that they begin, whether a type is among them, and whether they make
/// typedef names.
#[derive(Drop)]
pub struct SpecsRead {
    pub node: Open,
    pub specs: Specs,
    pub seen: bool,
    pub typedef: bool,
}

/// A record among specifiers, and its fields so far.
#[derive(Drop)]
pub struct RecordRead {
    pub node: Open,
    pub is_union: bool,
    pub tag: Option<Bytes>,
    pub fields: Fields,
    pub specs: SpecsRead,
}

/// An enumeration among specifiers, and its enumerators so far.
#[derive(Drop)]
pub struct EnumRead {
    pub node: Open,
    pub tag: Option<Bytes>,
    pub list: Enumerators,
    pub specs: SpecsRead,
}

/// A declarator and its parameters so far.
#[derive(Drop)]
pub struct ParamsRead {
    pub node: Open,
    pub declarator: Declarator,
    pub params: Params,
}

/// Where an expression is still to come.
#[cycle(inside)]
#[derive(Drop)]
pub enum InExpr {
    Operand(Open, Operand, Box<InExpr>),
    Bracket(Open, Bracket, Box<InExpr>),
    Stmt(Open, Part, Box<InStmt>),
    Init(Box<InInit>),
    /// The value of an enumerator.
    Value(Open, Bytes, EnumRead, Box<InSpecs>),
    /// The length of an array.
    Array(Open, Declarator, Box<InDeclarator>),
}

/// Where a declarator is still to come.
#[cycle(inside)]
#[derive(Drop)]
pub enum InDeclarator {
    Pointer(Open, Items<Qualifier>, Box<InDeclarator>),
    Group(Open, Box<InDeclarator>),
    Item(ItemsRead, Box<InDeclaration>),
    Field(Open, RecordRead, Box<InSpecs>, Specs, Declarators),
    Param(Open, ParamsRead, Box<InDeclarator>, Specs),
    /// In a type name; the outer node is the cast or the `sizeof`.
    Type(Open, Open, TypePlace, Box<InExpr>, Specs),
}

/// Where specifiers are still to come.
#[cycle(inside)]
#[derive(Drop)]
pub enum InSpecs {
    Declaration(Box<InDeclaration>),
    Field(RecordRead, Box<InSpecs>),
    Param(ParamsRead, Box<InDeclarator>),
    Type(Open, TypePlace, Box<InExpr>),
}

/// Where a field of a record is still to come.
#[derive(Drop)]
pub struct InFields {
    pub read: RecordRead,
    pub place: SpecsPlace,
}

/// Where an enumerator is still to come.
#[derive(Drop)]
pub struct InEnum {
    pub read: EnumRead,
    pub place: SpecsPlace,
}

/// Where a parameter is still to come.
#[derive(Drop)]
pub struct InParams {
    pub read: ParamsRead,
    pub place: DeclaratorPlace,
}

/// Where an attribute stands.
#[derive(Drop)]
pub enum InAttribute {
    Specs(SpecsRead, SpecsPlace),
    Read(ItemRead),
}

// ---- where the reader is

/// An argument of an attribute before it ends.
#[derive(Drop)]
pub enum ArgumentRead {
    Number(Bytes),
    Text(Items<Bytes>),
}

/// Where the reader is in an attribute: its word, its two parentheses, its entries and their arguments.
#[derive(Drop)]
pub enum AttributeMode {
    Word,
    Opened,
    EntriesOpened,
    WantEntry(Entries),
    AfterEntryName(Entries, Bytes),
    ArgumentsOpened(Entries, Bytes),
    WantArgument(Entries, Bytes, Arguments),
    AfterArgument(u32, Entries, Bytes, Arguments, ArgumentRead),
    AfterEntry(Entries),
    Closing(Entries),
}

/// Where the reader is among specifiers, or in a record, an enumeration or a list of parameters that opens there.
#[derive(Drop)]
pub enum SpecsMode {
    InSpecs(SpecsRead, SpecsPlace),
    /// `struct`, `union` or `enum`
    AfterTagged(Open, Tagged, SpecsRead, SpecsPlace),
    AfterTag(Open, Tagged, Bytes, SpecsRead, SpecsPlace),
    WantField(InFields),
    WantEnumerator(InEnum),
    AfterEnumerator(Open, Bytes, InEnum),
    WantParam(InParams),
}

/// Where the reader is in a declarator.
#[derive(Drop)]
pub enum DeclaratorMode {
    WantDeclarator(DeclaratorPlace),
    AfterStar(Open, Items<Qualifier>, DeclaratorPlace),
    /// `(`
    Opened(Open, DeclaratorPlace),
    AfterDeclarator(Had, DeclaratorPlace, Declarator),
    ArrayOpened(Open, Declarator, DeclaratorPlace),
    ParamsOpened(Open, Declarator, DeclaratorPlace),
}

/// Where the reader is in an expression.
#[derive(Drop)]
pub enum ExprMode {
    WantExpr(ExprPlace),
    AfterExpr(Had, ExprPlace, Expr),
    AfterText(u32, ExprPlace, Items<Bytes>),
    /// `(`
    Opened(Open, ExprPlace),
    AfterSizeof(Open, ExprPlace),
    /// `sizeof (`; where the parenthesis stands
    SizeofOpened(Open, u32, ExprPlace),
    ArgsOpened(Open, Expr, ExprPlace),
    AfterBuiltin(Open, ExprPlace),
    WantMember(Open, Expr, Member, ExprPlace),
}

/// A statement that lacks its semicolon.
#[derive(Drop)]
pub enum Unended {
    Broken,
    Continued,
    DoneWhile(Stmt, Expr),
}

/// Where the reader is in a statement.
#[derive(Drop)]
pub enum StmtMode {
    WantStmt(StmtPlace),
    AfterStmt(u32, StmtPlace, Stmt),
    WantParen(Open, Condition, StmtPlace),
    AfterFor(Open, StmtPlace),
    ForOpened(Open, StmtPlace),
    WantCondition(Open, ForFirst, StmtPlace),
    WantStep(Open, ForFirst, Option<Expr>, StmtPlace),
    WantSemi(Open, Unended, StmtPlace),
    AfterReturn(Open, StmtPlace),
}

/// Where the reader is: what the next token may be a part of.
#[derive(Drop)]
pub enum Mode {
    WantExternal(u32, Externals),
    Attribute(Open, AttributeMode, InAttribute),
    Specs(SpecsMode),
    Declarator(DeclaratorMode),
    AfterAttributes(ItemRead),
    WantInit(InitPlace),
    AfterInit(u32, InitPlace, Init),
    Expr(ExprMode),
    Stmt(StmtMode),
}

/// Where the reader is after a token: the number of the next node, a name that the token made a typedef
/// name, and the mode.
#[derive(Drop)]
pub struct Next {
    pub id: u32,
    pub name: Option<Bytes>,
    pub mode: Mode,
}

impl Next {
    /// At a place among specifiers; no name was made.
    pub fn at_specs(id: u32, mode: SpecsMode) -> Next
        ensures { result ≡ record { id = id; name = None; mode = modes.Specs mode } }
    {
        Next {
            id,
            name: None,
            mode: Mode::Specs(mode),
        }
    }

    /// At a place in a declarator.
    pub fn at_declarator(id: u32, mode: DeclaratorMode) -> Next
        ensures { result ≡ record { id = id; name = None; mode = modes.Declarator mode } }
    {
        Next {
            id,
            name: None,
            mode: Mode::Declarator(mode),
        }
    }

    /// At a place in an expression.
    pub fn at_expr(id: u32, mode: ExprMode) -> Next
        ensures { result ≡ record { id = id; name = None; mode = modes.Expr mode } }
    {
        Next {
            id,
            name: None,
            mode: Mode::Expr(mode),
        }
    }

    /// At a place in a statement.
    pub fn at_stmt(id: u32, mode: StmtMode) -> Next
        ensures { result ≡ record { id = id; name = None; mode = modes.Stmt mode } }
    {
        Next {
            id,
            name: None,
            mode: Mode::Stmt(mode),
        }
    }
}

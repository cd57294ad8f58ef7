//! A list of tokens that grows.

ghost use Rattle.std.specs.Prelude.{◌≡◌, ◌∷◌, ◌++◌, [], OnOk};
ghost use Rattle.c_tree.specs.Tok.{name, number, char, text, word, mark};
ghost use Rattle.c_tree.specs.Lexeme.{mark_text, word_text};
ghost use Rattle.c_tree.specs.Marks.{assign_mark, binary_mark, prefix_mark};
ghost use Rattle.c_tree.specs.View.{view_assign, view_keyword, view_op, view_prefix};
ghost use Rattle.c_tree.specs.Spelling.{Adds, mark_of, word_of};

use crate::operator::{AssignOp, BinaryOp, Keyword, PrefixOp, Qualifier, Step};
use std::alloc::Global;
use tok_base::{Bytes, Items, Kind, Lexeme, NoMemory};

/// A punctuator of the grammar.
#[derive(Clone, Copy)]
pub enum Mark {
    Comma,
    Question,
    Colon,
    Semicolon,
    LeftParen,
    RightParen,
    LeftBracket,
    RightBracket,
    LeftBrace,
    RightBrace,
    Point,
    Arrow,
    Star,
    Equals,
    Binary(BinaryOp),
    Assign(AssignOp),
    Prefix(PrefixOp),
    Post(Step),
}

/// A keyword of the grammar.
#[derive(Clone, Copy)]
pub enum Word {
    Keyword(Keyword),
    Qualifier(Qualifier),
    Struct,
    Union,
    Enum,
    Sizeof,
    If,
    Else,
    While,
    Do,
    For,
    Break,
    Continue,
    Return,
    Attribute,
    Builtin,
}

/// The tokens so far.
#[derive(Drop)]
pub struct Tokens {
    pub list: Items<Lexeme>,
    pub alloc: Global,
}

impl Tokens {
    pub fn new(alloc: Global) -> Tokens
        ensures { result.list ≡ [] }
    {
        Tokens {
            list: Items::new(alloc),
            alloc,
        }
    }

    fn push(&mut self, kind: Kind, spelling: &[u8]) -> Result<(), NoMemory>
        ensures { OnOk result (self.new.list ≡ self.old.list ++ record { kind = kind; text = spelling.now } ∷ []) }
    {
        let text = Bytes::from_slice(self.alloc, spelling)?;
        self.list.push(Lexeme { kind, text })?;
        Ok(())
    }

    pub fn name(&mut self, n: &Bytes) -> Result<(), NoMemory>
        ensures { OnOk result (Adds self.old self.new (λ rest. name n.now ∷ rest)) }
    {
        self.push(Kind::Name, n.as_slice())
    }

    pub fn number(&mut self, n: &Bytes) -> Result<(), NoMemory>
        ensures { OnOk result (Adds self.old self.new (λ rest. number n.now ∷ rest)) }
    {
        self.push(Kind::Number, n.as_slice())
    }

    pub fn char(&mut self, c: &Bytes) -> Result<(), NoMemory>
        ensures { OnOk result (Adds self.old self.new (λ rest. char c.now ∷ rest)) }
    {
        self.push(Kind::Char, c.as_slice())
    }

    pub fn text(&mut self, s: &Bytes) -> Result<(), NoMemory>
        ensures { OnOk result (Adds self.old self.new (λ rest. text s.now ∷ rest)) }
    {
        self.push(Kind::Text, s.as_slice())
    }

    pub fn word(&mut self, w: Word) -> Result<(), NoMemory>
        ensures { OnOk result (Adds self.old self.new (λ rest. word (word_of w) ∷ rest)) }
    {
        self.push(Kind::Word, word_spelling(w))
    }

    pub fn mark(&mut self, m: Mark) -> Result<(), NoMemory>
        ensures { OnOk result (Adds self.old self.new (λ rest. mark (mark_of m) ∷ rest)) }
    {
        self.push(Kind::Mark, mark_spelling(m))
    }
}

fn mark_spelling(m: Mark) -> &'static [u8]
    ensures { result.now ≡ mark_text (mark_of m) }
{
    match m {
        Mark::Comma => b",",
        Mark::Question => b"?",
        Mark::Colon => b":",
        Mark::Semicolon => b";",
        Mark::LeftParen => b"(",
        Mark::RightParen => b")",
        Mark::LeftBracket => b"[",
        Mark::RightBracket => b"]",
        Mark::LeftBrace => b"{",
        Mark::RightBrace => b"}",
        Mark::Point => b".",
        Mark::Arrow => b"->",
        Mark::Star => b"*",
        Mark::Equals => b"=",
        Mark::Binary(op) => binary_spelling(op),
        Mark::Assign(op) => assign_spelling(op),
        Mark::Prefix(op) => prefix_spelling(op),
        Mark::Post(Step::Increment) => b"++",
        Mark::Post(Step::Decrement) => b"--",
    }
}

fn binary_spelling(op: BinaryOp) -> &'static [u8]
    ensures { result.now ≡ mark_text (binary_mark (view_op op)) }
{
    match op {
        BinaryOp::Or => b"||",
        BinaryOp::And => b"&&",
        BinaryOp::BitOr => b"|",
        BinaryOp::BitXor => b"^",
        BinaryOp::BitAnd => b"&",
        BinaryOp::Eq => b"==",
        BinaryOp::Ne => b"!=",
        BinaryOp::Lt => b"<",
        BinaryOp::Gt => b">",
        BinaryOp::Le => b"<=",
        BinaryOp::Ge => b">=",
        BinaryOp::Shl => b"<<",
        BinaryOp::Shr => b">>",
        BinaryOp::Add => b"+",
        BinaryOp::Sub => b"-",
        BinaryOp::Mul => b"*",
        BinaryOp::Div => b"/",
        BinaryOp::Rem => b"%",
    }
}

fn assign_spelling(op: AssignOp) -> &'static [u8]
    ensures { result.now ≡ mark_text (assign_mark (view_assign op)) }
{
    match op {
        AssignOp::Set => b"=",
        AssignOp::Mul => b"*=",
        AssignOp::Div => b"/=",
        AssignOp::Rem => b"%=",
        AssignOp::Add => b"+=",
        AssignOp::Sub => b"-=",
        AssignOp::Shl => b"<<=",
        AssignOp::Shr => b">>=",
        AssignOp::BitAnd => b"&=",
        AssignOp::BitXor => b"^=",
        AssignOp::BitOr => b"|=",
    }
}

fn prefix_spelling(op: PrefixOp) -> &'static [u8]
    ensures { result.now ≡ mark_text (prefix_mark (view_prefix op)) }
{
    match op {
        PrefixOp::Increment => b"++",
        PrefixOp::Decrement => b"--",
        PrefixOp::Address => b"&",
        PrefixOp::Deref => b"*",
        PrefixOp::Plus => b"+",
        PrefixOp::Minus => b"-",
        PrefixOp::BitNot => b"~",
        PrefixOp::Not => b"!",
    }
}

fn word_spelling(w: Word) -> &'static [u8]
    ensures { result.now ≡ word_text (word_of w) }
{
    match w {
        Word::Keyword(k) => keyword_spelling(k),
        Word::Qualifier(Qualifier::Const) => b"const",
        Word::Qualifier(Qualifier::Volatile) => b"volatile",
        Word::Qualifier(Qualifier::Restrict) => b"restrict",
        Word::Struct => b"struct",
        Word::Union => b"union",
        Word::Enum => b"enum",
        Word::Sizeof => b"sizeof",
        Word::If => b"if",
        Word::Else => b"else",
        Word::While => b"while",
        Word::Do => b"do",
        Word::For => b"for",
        Word::Break => b"break",
        Word::Continue => b"continue",
        Word::Return => b"return",
        Word::Attribute => b"__attribute__",
        Word::Builtin => b"__builtin_infer_alloc_token",
    }
}

fn keyword_spelling(k: Keyword) -> &'static [u8]
    ensures { result.now ≡ word_text (view_keyword k) }
{
    match k {
        Keyword::Typedef => b"typedef",
        Keyword::Extern => b"extern",
        Keyword::Static => b"static",
        Keyword::Auto => b"auto",
        Keyword::Register => b"register",
        Keyword::Inline => b"inline",
        Keyword::Const => b"const",
        Keyword::Volatile => b"volatile",
        Keyword::Restrict => b"restrict",
        Keyword::Void => b"void",
        Keyword::Bool => b"_Bool",
        Keyword::Char => b"char",
        Keyword::Short => b"short",
        Keyword::Int => b"int",
        Keyword::Long => b"long",
        Keyword::Signed => b"signed",
        Keyword::Unsigned => b"unsigned",
    }
}

//! The tokens of C by their part in the grammar.

ghost use Rattle.std.specs.Prelude.{◌≡◌};
ghost use Rattle.c_reader.specs.Symbol as spec;
ghost use Rattle.c_reader.specs.Declarations as items;
ghost use Rattle.c_symbol.specs.Seen.{seen, view_operator, view_symbol};
ghost use Rattle.c_symbol.specs.Chunks as chunk;

use c_tree::{AssignOp, BinaryOp, Keyword, Step};
use tok_base::{Kind, Token};

/// What a tag names (ISO/IEC 9899:2018, 6.7.2.3): a record, which is a union where true, or an enumeration.
#[derive(Clone, Copy, Debug, PartialEq, Eq)]
pub enum Tagged {
    Record(bool),
    Enum,
}

/// The words of statements (6.8).
#[derive(Clone, Copy, Debug, PartialEq, Eq)]
pub enum Head {
    If,
    Else,
    While,
    Do,
    For,
    Break,
    Continue,
    Return,
}

/// An operator that stands only before its operand: `~` or `!`.
#[derive(Clone, Copy, Debug, PartialEq, Eq)]
pub enum Negation {
    Complement,
    Not,
}

/// `.` or `->`
#[derive(Clone, Copy, Debug, PartialEq, Eq)]
pub enum Member {
    Dot,
    Arrow,
}

/// A mark that is an operator.
#[derive(Clone, Copy, Debug, PartialEq, Eq)]
pub enum Operator {
    /// Also `* & + -` before an operand, and `*` in a declarator.
    Binary(BinaryOp),
    /// Also `=` before an initialiser and a value.
    Assign(AssignOp),
    Step(Step),
    Negation(Negation),
    Question,
    Member(Member),
}

/// A token; the text of a name or a constant is the token's own.
#[derive(Clone, Copy, Debug, Drop)]
pub enum Symbol<'a> {
    Name(&'a [u8]),
    Number(&'a [u8]),
    Char(&'a [u8]),
    Text(&'a [u8]),
    Keyword(Keyword),
    Tagged(Tagged),
    Head(Head),
    Sizeof,
    Attribute,
    Builtin,
    Operator(Operator),
    Colon,
    LeftParen,
    RightParen,
    LeftBracket,
    RightBracket,
    LeftBrace,
    RightBrace,
    Comma,
    Semicolon,
}

/// Whether it is `=`.
pub fn is_equals(o: Operator) -> bool
    ensures { result ≡ items.is_equals (view_operator o) }
{
    match o {
        Operator::Assign(AssignOp::Set) => true,
        _ => false,
    }
}

fn first_words<'a>(text: &[u8]) -> Option<Symbol<'a>>
    ensures { seen result ≡ spec.option_symbol (chunk.first_words text.now) }
{
    if b"auto".as_slice() == text {
        Some(Symbol::Keyword(Keyword::Auto))
    } else if b"break".as_slice() == text {
        Some(Symbol::Head(Head::Break))
    } else if b"case".as_slice() == text {
        None
    } else if b"char".as_slice() == text {
        Some(Symbol::Keyword(Keyword::Char))
    } else if b"const".as_slice() == text {
        Some(Symbol::Keyword(Keyword::Const))
    } else if b"continue".as_slice() == text {
        Some(Symbol::Head(Head::Continue))
    } else if b"default".as_slice() == text {
        None
    } else if b"do".as_slice() == text {
        Some(Symbol::Head(Head::Do))
    } else if b"double".as_slice() == text {
        None
    } else if b"else".as_slice() == text {
        Some(Symbol::Head(Head::Else))
    } else if b"enum".as_slice() == text {
        Some(Symbol::Tagged(Tagged::Enum))
    } else if b"extern".as_slice() == text {
        Some(Symbol::Keyword(Keyword::Extern))
    } else {
        second_words(text)
    }
}

fn second_words<'a>(text: &[u8]) -> Option<Symbol<'a>>
    ensures { seen result ≡ spec.option_symbol (chunk.second_words text.now) }
{
    if b"float".as_slice() == text {
        None
    } else if b"for".as_slice() == text {
        Some(Symbol::Head(Head::For))
    } else if b"goto".as_slice() == text {
        None
    } else if b"if".as_slice() == text {
        Some(Symbol::Head(Head::If))
    } else if b"inline".as_slice() == text {
        Some(Symbol::Keyword(Keyword::Inline))
    } else if b"int".as_slice() == text {
        Some(Symbol::Keyword(Keyword::Int))
    } else if b"long".as_slice() == text {
        Some(Symbol::Keyword(Keyword::Long))
    } else if b"register".as_slice() == text {
        Some(Symbol::Keyword(Keyword::Register))
    } else if b"restrict".as_slice() == text {
        Some(Symbol::Keyword(Keyword::Restrict))
    } else if b"return".as_slice() == text {
        Some(Symbol::Head(Head::Return))
    } else if b"short".as_slice() == text {
        Some(Symbol::Keyword(Keyword::Short))
    } else if b"signed".as_slice() == text {
        Some(Symbol::Keyword(Keyword::Signed))
    } else {
        third_words(text)
    }
}

fn third_words<'a>(text: &[u8]) -> Option<Symbol<'a>>
    ensures { seen result ≡ spec.option_symbol (chunk.third_words text.now) }
{
    if b"sizeof".as_slice() == text {
        Some(Symbol::Sizeof)
    } else if b"static".as_slice() == text {
        Some(Symbol::Keyword(Keyword::Static))
    } else if b"struct".as_slice() == text {
        Some(Symbol::Tagged(Tagged::Record(false)))
    } else if b"switch".as_slice() == text {
        None
    } else if b"typedef".as_slice() == text {
        Some(Symbol::Keyword(Keyword::Typedef))
    } else if b"union".as_slice() == text {
        Some(Symbol::Tagged(Tagged::Record(true)))
    } else if b"unsigned".as_slice() == text {
        Some(Symbol::Keyword(Keyword::Unsigned))
    } else if b"void".as_slice() == text {
        Some(Symbol::Keyword(Keyword::Void))
    } else if b"volatile".as_slice() == text {
        Some(Symbol::Keyword(Keyword::Volatile))
    } else if b"while".as_slice() == text {
        Some(Symbol::Head(Head::While))
    } else if b"_Alignas".as_slice() == text {
        None
    } else if b"_Alignof".as_slice() == text {
        None
    } else {
        fourth_words(text)
    }
}

fn fourth_words<'a>(text: &[u8]) -> Option<Symbol<'a>>
    ensures { seen result ≡ spec.option_symbol (chunk.fourth_words text.now) }
{
    if b"_Atomic".as_slice() == text {
        None
    } else if b"_Bool".as_slice() == text {
        Some(Symbol::Keyword(Keyword::Bool))
    } else if b"_Complex".as_slice() == text {
        None
    } else if b"_Generic".as_slice() == text {
        None
    } else if b"_Imaginary".as_slice() == text {
        None
    } else if b"_Noreturn".as_slice() == text {
        None
    } else if b"_Static_assert".as_slice() == text {
        None
    } else if b"_Thread_local".as_slice() == text {
        None
    } else if b"__attribute__".as_slice() == text {
        Some(Symbol::Attribute)
    } else if b"__builtin_infer_alloc_token".as_slice() == text {
        Some(Symbol::Builtin)
    } else {
        None
    }
}

fn first_marks<'a>(text: &[u8]) -> Option<Symbol<'a>>
    ensures { seen result ≡ spec.option_symbol (chunk.first_marks text.now) }
{
    if b"[".as_slice() == text {
        Some(Symbol::LeftBracket)
    } else if b"]".as_slice() == text {
        Some(Symbol::RightBracket)
    } else if b"(".as_slice() == text {
        Some(Symbol::LeftParen)
    } else if b")".as_slice() == text {
        Some(Symbol::RightParen)
    } else if b"{".as_slice() == text {
        Some(Symbol::LeftBrace)
    } else if b"}".as_slice() == text {
        Some(Symbol::RightBrace)
    } else if b".".as_slice() == text {
        Some(Symbol::Operator(Operator::Member(Member::Dot)))
    } else if b"->".as_slice() == text {
        Some(Symbol::Operator(Operator::Member(Member::Arrow)))
    } else if b"++".as_slice() == text {
        Some(Symbol::Operator(Operator::Step(Step::Increment)))
    } else if b"--".as_slice() == text {
        Some(Symbol::Operator(Operator::Step(Step::Decrement)))
    } else if b"&".as_slice() == text {
        Some(Symbol::Operator(Operator::Binary(BinaryOp::BitAnd)))
    } else if b"*".as_slice() == text {
        Some(Symbol::Operator(Operator::Binary(BinaryOp::Mul)))
    } else {
        second_marks(text)
    }
}

fn second_marks<'a>(text: &[u8]) -> Option<Symbol<'a>>
    ensures { seen result ≡ spec.option_symbol (chunk.second_marks text.now) }
{
    if b"+".as_slice() == text {
        Some(Symbol::Operator(Operator::Binary(BinaryOp::Add)))
    } else if b"-".as_slice() == text {
        Some(Symbol::Operator(Operator::Binary(BinaryOp::Sub)))
    } else if b"~".as_slice() == text {
        Some(Symbol::Operator(Operator::Negation(Negation::Complement)))
    } else if b"!".as_slice() == text {
        Some(Symbol::Operator(Operator::Negation(Negation::Not)))
    } else if b"/".as_slice() == text {
        Some(Symbol::Operator(Operator::Binary(BinaryOp::Div)))
    } else if b"%".as_slice() == text {
        Some(Symbol::Operator(Operator::Binary(BinaryOp::Rem)))
    } else if b"<<".as_slice() == text {
        Some(Symbol::Operator(Operator::Binary(BinaryOp::Shl)))
    } else if b">>".as_slice() == text {
        Some(Symbol::Operator(Operator::Binary(BinaryOp::Shr)))
    } else if b"<".as_slice() == text {
        Some(Symbol::Operator(Operator::Binary(BinaryOp::Lt)))
    } else if b">".as_slice() == text {
        Some(Symbol::Operator(Operator::Binary(BinaryOp::Gt)))
    } else if b"<=".as_slice() == text {
        Some(Symbol::Operator(Operator::Binary(BinaryOp::Le)))
    } else if b">=".as_slice() == text {
        Some(Symbol::Operator(Operator::Binary(BinaryOp::Ge)))
    } else {
        third_marks(text)
    }
}

fn third_marks<'a>(text: &[u8]) -> Option<Symbol<'a>>
    ensures { seen result ≡ spec.option_symbol (chunk.third_marks text.now) }
{
    if b"==".as_slice() == text {
        Some(Symbol::Operator(Operator::Binary(BinaryOp::Eq)))
    } else if b"!=".as_slice() == text {
        Some(Symbol::Operator(Operator::Binary(BinaryOp::Ne)))
    } else if b"^".as_slice() == text {
        Some(Symbol::Operator(Operator::Binary(BinaryOp::BitXor)))
    } else if b"|".as_slice() == text {
        Some(Symbol::Operator(Operator::Binary(BinaryOp::BitOr)))
    } else if b"&&".as_slice() == text {
        Some(Symbol::Operator(Operator::Binary(BinaryOp::And)))
    } else if b"||".as_slice() == text {
        Some(Symbol::Operator(Operator::Binary(BinaryOp::Or)))
    } else if b"?".as_slice() == text {
        Some(Symbol::Operator(Operator::Question))
    } else if b":".as_slice() == text {
        Some(Symbol::Colon)
    } else if b";".as_slice() == text {
        Some(Symbol::Semicolon)
    } else if b"...".as_slice() == text {
        None
    } else if b"=".as_slice() == text {
        Some(Symbol::Operator(Operator::Assign(AssignOp::Set)))
    } else if b"*=".as_slice() == text {
        Some(Symbol::Operator(Operator::Assign(AssignOp::Mul)))
    } else {
        fourth_marks(text)
    }
}

fn fourth_marks<'a>(text: &[u8]) -> Option<Symbol<'a>>
    ensures { seen result ≡ spec.option_symbol (chunk.fourth_marks text.now) }
{
    if b"/=".as_slice() == text {
        Some(Symbol::Operator(Operator::Assign(AssignOp::Div)))
    } else if b"%=".as_slice() == text {
        Some(Symbol::Operator(Operator::Assign(AssignOp::Rem)))
    } else if b"+=".as_slice() == text {
        Some(Symbol::Operator(Operator::Assign(AssignOp::Add)))
    } else if b"-=".as_slice() == text {
        Some(Symbol::Operator(Operator::Assign(AssignOp::Sub)))
    } else if b"<<=".as_slice() == text {
        Some(Symbol::Operator(Operator::Assign(AssignOp::Shl)))
    } else if b">>=".as_slice() == text {
        Some(Symbol::Operator(Operator::Assign(AssignOp::Shr)))
    } else if b"&=".as_slice() == text {
        Some(Symbol::Operator(Operator::Assign(AssignOp::BitAnd)))
    } else if b"^=".as_slice() == text {
        Some(Symbol::Operator(Operator::Assign(AssignOp::BitXor)))
    } else if b"|=".as_slice() == text {
        Some(Symbol::Operator(Operator::Assign(AssignOp::BitOr)))
    } else if b",".as_slice() == text {
        Some(Symbol::Comma)
    } else {
        None
    }
}

/// The symbol that a token is, if the grammar has it.
pub fn symbol_of<'a>(token: &'a Token) -> Option<Symbol<'a>>
    ensures { seen result ≡ spec.symbol (record { kind = token.now.kind; text = token.now.text }) }
{
    let text = token.text.as_slice();
    match token.kind {
        Kind::Name => Some(Symbol::Name(text)),
        Kind::Number => Some(Symbol::Number(text)),
        Kind::Char => Some(Symbol::Char(text)),
        Kind::Text => Some(Symbol::Text(text)),
        Kind::Word => first_words(text),
        Kind::Mark => first_marks(text),
    }
}

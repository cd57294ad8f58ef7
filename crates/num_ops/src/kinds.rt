//! The twelve integer kinds, their widths, signs, ranks and ranges.

ghost use Rattle.std.specs.Prelude.{◌≡◌};
ghost use Rattle.num_ops.specs.Kinds as kinds;

/// A standard integer type (ISO/IEC 9899:2018, 6.2.5), `char` being signed.
#[derive(Clone, Copy, Debug, PartialEq, Eq, Hash)]
pub enum IntKind {
    /// `_Bool`
    Bool,
    /// `char`
    Char,
    /// `signed char`
    SChar,
    /// `unsigned char`
    UChar,
    /// `short`
    Short,
    /// `unsigned short`
    UShort,
    /// `int`
    Int,
    /// `unsigned int`
    UInt,
    /// `long`
    Long,
    /// `unsigned long`
    ULong,
    /// `long long`
    LongLong,
    /// `unsigned long long`
    ULongLong,
}

/// How many bits a kind has, its sign bit counted (6.2.6.2).
pub fn width(kind: IntKind) -> u32
    ensures { result ≡ kinds.width kind }
{
    match kind {
        IntKind::Bool => 1,
        IntKind::Char | IntKind::SChar | IntKind::UChar => 8,
        IntKind::Short | IntKind::UShort => 16,
        IntKind::Int | IntKind::UInt => 32,
        IntKind::Long | IntKind::ULong | IntKind::LongLong | IntKind::ULongLong => 64,
    }
}

/// Whether a kind has negative values.
pub fn is_signed(kind: IntKind) -> bool
    ensures { result ≡ kinds.is_signed kind }
{
    match kind {
        IntKind::Char | IntKind::SChar | IntKind::Short => true,
        IntKind::Int | IntKind::Long | IntKind::LongLong => true,
        IntKind::Bool | IntKind::UChar | IntKind::UShort => false,
        IntKind::UInt | IntKind::ULong | IntKind::ULongLong => false,
    }
}

/// The rank of a kind among all kinds (6.3.1.1).
pub(crate) fn rank(kind: IntKind) -> u8
    ensures { result ≡ kinds.rank kind }
{
    match kind {
        IntKind::Bool => 0,
        IntKind::Char | IntKind::SChar | IntKind::UChar => 1,
        IntKind::Short | IntKind::UShort => 2,
        IntKind::Int | IntKind::UInt => 3,
        IntKind::Long | IntKind::ULong => 4,
        IntKind::LongLong | IntKind::ULongLong => 5,
    }
}

/// The least value of a kind (5.2.4.2.1).
pub fn least(kind: IntKind) -> i128
    ensures { result ≡ kinds.least kind }
{
    match kind {
        IntKind::Char | IntKind::SChar => -0x80,
        IntKind::Short => -0x8000,
        IntKind::Int => -0x8000_0000,
        IntKind::Long | IntKind::LongLong => -0x8000_0000_0000_0000,
        IntKind::Bool | IntKind::UChar | IntKind::UShort => 0,
        IntKind::UInt | IntKind::ULong | IntKind::ULongLong => 0,
    }
}

/// The greatest value of a kind (5.2.4.2.1).
pub fn greatest(kind: IntKind) -> i128
    ensures { result ≡ kinds.greatest kind }
{
    match kind {
        IntKind::Bool => 1,
        IntKind::Char | IntKind::SChar => 0x7f,
        IntKind::UChar => 0xff,
        IntKind::Short => 0x7fff,
        IntKind::UShort => 0xffff,
        IntKind::Int => 0x7fff_ffff,
        IntKind::UInt => 0xffff_ffff,
        IntKind::Long | IntKind::LongLong => 0x7fff_ffff_ffff_ffff,
        IntKind::ULong | IntKind::ULongLong => 0xffff_ffff_ffff_ffff,
    }
}

/// How many values a kind has: 2 to its width.
pub(crate) fn modulus(kind: IntKind) -> i128
    ensures { result ≡ kinds.modulus kind }
{
    match kind {
        IntKind::Bool => 2,
        IntKind::Char | IntKind::SChar | IntKind::UChar => 0x100,
        IntKind::Short | IntKind::UShort => 0x1_0000,
        IntKind::Int | IntKind::UInt => 0x1_0000_0000,
        IntKind::Long | IntKind::ULong => 0x1_0000_0000_0000_0000,
        IntKind::LongLong | IntKind::ULongLong => 0x1_0000_0000_0000_0000,
    }
}

/// Whether a kind has this value.
pub(crate) fn holds(kind: IntKind, value: i128) -> bool
    ensures { result ≡ kinds.holds kind value }
{
    least(kind) <= value && value <= greatest(kind)
}

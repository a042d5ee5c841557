//! Rust's integer types, and the value of an integer literal as a number of one of them.

ghost use Rattle.std.specs.Prelude.{◌≡◌, ◌↔◌, ℤ, pos, IfSome, IfNone, IfOk, IfErr, IsTrue, drop, if◌then◌else◌};
ghost use Rattle.std.specs.Str.{chars, IsCharBoundary};
ghost use Rattle.rl_syntax.specs.Numbers.{NoSign, Minus};
ghost use Rattle.rl_syntax.specs.Words.{type_name};
ghost use Rattle.rl_syntax.specs.declared.integer_type.IntegerType.{IntegerType as AnyType};
ghost use Rattle.rl_syntax.specs.declared.integer_type.IntegerType.TheVariants.{I8, I16, I32, I64, I128, Isize, U8, U16, U32, U64, U128, Usize};
ghost use Rattle.rl_lenient.specs.NumberShapes.{HasMagnitude};
ghost use Rattle.rl_lenient.specs.Values.{HasIntegerValue, signed};
ghost use Rattle.rl_lenient.specs.Ranges.{AllowsSignOf, FitsSuffix, IsOutOfRange, RejectsInteger, is_signed};

use crate::digit_runs::is_negative;
use rl_syntax::IntegerType;

/// One of Rust's integer types. `usize` and `isize` have 64 bits.
pub trait Integer: Sized {
    ghost is: { Self → ℤ };

    ghost TYPE: { AnyType };

    /// The type.
    const TYPE: IntegerType;

    /// Returns the number with this sign and magnitude, or `None` if the type doesn't contain it.
    fn of_magnitude(is_negative: bool, magnitude: u128) -> Option<Self>
        ensures some { IfSome result (λ n. is n ≡ signed (if is_negative then Minus else NoSign) magnitude) }
        ensures none { IfNone result (IsOutOfRange TYPE (if is_negative then Minus else NoSign) magnitude) };
}

impl Integer for u8 {
    ghost is = { λ n. pos n };

    ghost TYPE = { U8 };

    const TYPE: IntegerType = IntegerType::U8;

    #[inline]
    fn of_magnitude(is_negative: bool, magnitude: u128) -> Option<u8> {
        if is_negative && magnitude != 0 {
            None
        } else if magnitude <= u8::MAX as u128 {
            Some(magnitude as u8)
        } else {
            None
        }
    }
}

impl Integer for u16 {
    ghost is = { λ n. pos n };

    ghost TYPE = { U16 };

    const TYPE: IntegerType = IntegerType::U16;

    #[inline]
    fn of_magnitude(is_negative: bool, magnitude: u128) -> Option<u16> {
        if is_negative && magnitude != 0 {
            None
        } else if magnitude <= u16::MAX as u128 {
            Some(magnitude as u16)
        } else {
            None
        }
    }
}

impl Integer for u32 {
    ghost is = { λ n. pos n };

    ghost TYPE = { U32 };

    const TYPE: IntegerType = IntegerType::U32;

    #[inline]
    fn of_magnitude(is_negative: bool, magnitude: u128) -> Option<u32> {
        if is_negative && magnitude != 0 {
            None
        } else if magnitude <= u32::MAX as u128 {
            Some(magnitude as u32)
        } else {
            None
        }
    }
}

impl Integer for u64 {
    ghost is = { λ n. pos n };

    ghost TYPE = { U64 };

    const TYPE: IntegerType = IntegerType::U64;

    #[inline]
    fn of_magnitude(is_negative: bool, magnitude: u128) -> Option<u64> {
        if is_negative && magnitude != 0 {
            None
        } else if magnitude <= u64::MAX as u128 {
            Some(magnitude as u64)
        } else {
            None
        }
    }
}

impl Integer for u128 {
    ghost is = { λ n. pos n };

    ghost TYPE = { U128 };

    const TYPE: IntegerType = IntegerType::U128;

    #[inline]
    fn of_magnitude(is_negative: bool, magnitude: u128) -> Option<u128> {
        if is_negative && magnitude != 0 {
            None
        } else if magnitude <= u128::MAX as u128 {
            Some(magnitude as u128)
        } else {
            None
        }
    }
}

impl Integer for usize {
    ghost is = { λ n. pos n };

    ghost TYPE = { Usize };

    const TYPE: IntegerType = IntegerType::Usize;

    #[inline]
    fn of_magnitude(is_negative: bool, magnitude: u128) -> Option<usize> {
        if is_negative && magnitude != 0 {
            None
        } else if magnitude <= usize::MAX as u128 {
            Some(magnitude as usize)
        } else {
            None
        }
    }
}

impl Integer for i8 {
    ghost is = { λ n. n };

    ghost TYPE = { I8 };

    const TYPE: IntegerType = IntegerType::I8;

    #[inline]
    fn of_magnitude(is_negative: bool, magnitude: u128) -> Option<i8> {
        if magnitude <= i8::MAX as u128 {
            let number = magnitude as i8;
            Some(if is_negative { 0 - number } else { number })
        } else if is_negative && magnitude == i8::MAX as u128 + 1 {
            Some(i8::MIN)
        } else {
            None
        }
    }
}

impl Integer for i16 {
    ghost is = { λ n. n };

    ghost TYPE = { I16 };

    const TYPE: IntegerType = IntegerType::I16;

    #[inline]
    fn of_magnitude(is_negative: bool, magnitude: u128) -> Option<i16> {
        if magnitude <= i16::MAX as u128 {
            let number = magnitude as i16;
            Some(if is_negative { 0 - number } else { number })
        } else if is_negative && magnitude == i16::MAX as u128 + 1 {
            Some(i16::MIN)
        } else {
            None
        }
    }
}

impl Integer for i32 {
    ghost is = { λ n. n };

    ghost TYPE = { I32 };

    const TYPE: IntegerType = IntegerType::I32;

    #[inline]
    fn of_magnitude(is_negative: bool, magnitude: u128) -> Option<i32> {
        if magnitude <= i32::MAX as u128 {
            let number = magnitude as i32;
            Some(if is_negative { 0 - number } else { number })
        } else if is_negative && magnitude == i32::MAX as u128 + 1 {
            Some(i32::MIN)
        } else {
            None
        }
    }
}

impl Integer for i64 {
    ghost is = { λ n. n };

    ghost TYPE = { I64 };

    const TYPE: IntegerType = IntegerType::I64;

    #[inline]
    fn of_magnitude(is_negative: bool, magnitude: u128) -> Option<i64> {
        if magnitude <= i64::MAX as u128 {
            let number = magnitude as i64;
            Some(if is_negative { 0 - number } else { number })
        } else if is_negative && magnitude == i64::MAX as u128 + 1 {
            Some(i64::MIN)
        } else {
            None
        }
    }
}

impl Integer for i128 {
    ghost is = { λ n. n };

    ghost TYPE = { I128 };

    const TYPE: IntegerType = IntegerType::I128;

    #[inline]
    fn of_magnitude(is_negative: bool, magnitude: u128) -> Option<i128> {
        if magnitude <= i128::MAX as u128 {
            let number = magnitude as i128;
            Some(if is_negative { 0 - number } else { number })
        } else if is_negative && magnitude == i128::MAX as u128 + 1 {
            Some(i128::MIN)
        } else {
            None
        }
    }
}

impl Integer for isize {
    ghost is = { λ n. n };

    ghost TYPE = { Isize };

    const TYPE: IntegerType = IntegerType::Isize;

    #[inline]
    fn of_magnitude(is_negative: bool, magnitude: u128) -> Option<isize> {
        if magnitude <= isize::MAX as u128 {
            let number = magnitude as isize;
            Some(if is_negative { 0 - number } else { number })
        } else if is_negative && magnitude == isize::MAX as u128 + 1 {
            Some(isize::MIN)
        } else {
            None
        }
    }
}

/// The reason why an integer literal isn't a value of an integer type.
#[derive(Clone, Copy)]
pub enum ValueFlaw {
    /// The literal has a suffix that isn't the type's name.
    Suffix,
    /// The literal has a minus, and the type has no negative numbers.
    Minus,
    /// The number is out of the type's range.
    OutOfRange,
}

/// Whether the type has negative numbers.
pub fn is_signed(ty: IntegerType) -> bool
    ensures { result ≡ is_signed ty }
{
    match ty {
        IntegerType::U8
        | IntegerType::U16
        | IntegerType::U32
        | IntegerType::U64
        | IntegerType::U128
        | IntegerType::Usize => false,
        _ => true,
    }
}

/// Whether a literal with the suffix `suffix` may be of the type with the name `name`.
fn allows_suffix(suffix: &str, name: &str) -> bool
    ensures { IsTrue result ↔ FitsSuffix name.now suffix.now }
{
    suffix == "" || suffix == name
}

/// Returns the value of the integer literal `text` as a number of the type `N`. Its suffix begins at the byte offset
/// `suffix_at`, and `magnitude` is its value without its sign. No decimal text is made.
///
/// # Errors
///
/// Returns the reason if the literal has a suffix that isn't the type's name, if it has a minus and the type has no
/// negative numbers, or if the number is out of the type's range.
#[inline]
pub fn integer_value<N: Integer>(
    text: &str,
    suffix_at: usize,
    magnitude: u128,
) -> Result<N, ValueFlaw>
    requires boundary { IsCharBoundary text.now suffix_at }
    requires magnitude { HasMagnitude (chars text.now) magnitude (chars (drop suffix_at text.now)) }
    ensures value { IfOk result (λ n. HasIntegerValue (chars text.now) (chars (drop suffix_at text.now)) (N.is n)) }
    ensures suffix { IfOk result (λ n. FitsSuffix (type_name N.TYPE) (drop suffix_at text.now)) }
    ensures sign { IfOk result (λ n. AllowsSignOf N.TYPE (chars text.now) (chars (drop suffix_at text.now))) }
    ensures err { IfErr result (RejectsInteger N.TYPE text.now (drop suffix_at text.now)) }
{
    if !allows_suffix(&text[suffix_at..], N::TYPE.name()) {
        return Err(ValueFlaw::Suffix);
    }
    let is_negative = is_negative(text);
    if is_negative && !is_signed(N::TYPE) {
        return Err(ValueFlaw::Minus);
    }
    match N::of_magnitude(is_negative, magnitude) {
        Some(number) => Ok(number),
        None => Err(ValueFlaw::OutOfRange),
    }
}

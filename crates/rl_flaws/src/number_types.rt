//! The number types of Rust, and the greatest integer of each.

ghost use Rattle.std.specs.Prelude.{◌≡◌, ◌≢◌, IfNone, IfSome};
ghost use Rattle.rl_flaws.specs.NumberTypes.{greatest_integer, greatest_of, number_name};
ghost use Rattle.rl_flaws.specs.declared.number_types.NumberType.{NumberType as AnyType};

use rl_syntax::IntegerType;

/// A number type of Rust: an integer type, `f32` or `f64`.
#[derive(Clone, Copy, PartialEq, Eq, Debug)]
pub enum NumberType {
    Integer(IntegerType),
    F32,
    F64,
}

/// Returns the number type that the suffix names, or `None` if the suffix isn't the name of a number type.
pub fn type_named(suffix: &str) -> Option<NumberType>
    ensures some { IfSome result (λ t. suffix.now ≡ number_name t) }
    ensures none { IfNone result ((t : AnyType) → suffix.now ≢ number_name t) }
{
    match suffix {
        "f32" => Some(NumberType::F32),
        "f64" => Some(NumberType::F64),
        _ => match IntegerType::named(suffix) {
            Some(ty) => Some(NumberType::Integer(ty)),
            None => None,
        },
    }
}

/// Returns the greatest integer that a literal of the integer type `ty` may be. `usize` and `isize` have 64 bits.
///
/// If a minus precedes the literal (`negated`), a signed type allows an integer that is greater by one.
fn greatest_integer(ty: IntegerType, negated: bool) -> u128
    ensures { result ≡ greatest_integer ty negated }
{
    let more = if negated { 1 } else { 0 };
    match ty {
        IntegerType::U8 => 0xFF,
        IntegerType::U16 => 0xFFFF,
        IntegerType::U32 => 0xFFFF_FFFF,
        IntegerType::U64 | IntegerType::Usize => 0xFFFF_FFFF_FFFF_FFFF,
        IntegerType::U128 => 0xFFFF_FFFF_FFFF_FFFF_FFFF_FFFF_FFFF_FFFF,
        IntegerType::I8 => 0x7F + more,
        IntegerType::I16 => 0x7FFF + more,
        IntegerType::I32 => 0x7FFF_FFFF + more,
        IntegerType::I64 | IntegerType::Isize => 0x7FFF_FFFF_FFFF_FFFF + more,
        IntegerType::I128 => 0x7FFF_FFFF_FFFF_FFFF_FFFF_FFFF_FFFF_FFFF + more,
    }
}

/// Returns the greatest integer that a literal of the type `ty` may be, or `None` for a float type.
///
/// If a minus precedes the literal (`negated`), a signed type allows an integer that is greater by one.
pub fn max_integer(ty: NumberType, negated: bool) -> Option<u128>
    ensures { result ≡ greatest_of ty negated }
{
    match ty {
        NumberType::Integer(ty) => Some(greatest_integer(ty, negated)),
        NumberType::F32 | NumberType::F64 => None,
    }
}

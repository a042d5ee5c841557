//! Checks whether Rust has a type for a literal: its suffix, and its range.

ghost use Rattle.std.specs.Prelude.{◌≡◌, ◌≢◌, ◌==◌, ◌++◌, [], None, IfNone, IfSome};
ghost use Rattle.std.specs.Str.{chars};
ghost use Rattle.rl_syntax.specs.Texts.{IsTail, code, first_passes};
ghost use Rattle.rl_syntax.specs.Numbers.{begins_base as is_of_base};
ghost use Rattle.rl_syntax.specs.declared.kind.Kind.TheVariants.{Int, Float};
ghost use Rattle.rl_lenient.specs.Founds.{IsFound, suffix_in};
ghost use Rattle.rl_flaws.specs.NumberTypes.{greatest_of};
ghost use Rattle.rl_flaws.specs.declared.type_errors.TypeError.TheVariants.{OutOfRange};
ghost use Rattle.rl_flaws.specs.TypeErrors.{HasTypeError, HasType, IsInRange, IsPastRange, IsTypeOfFloat, NamesNone};

use crate::float_range::is_infinite;
use crate::number_types::{NumberType, max_integer, type_named};
use rl_lenient::Found;
use rl_syntax::Kind;
use rl_syntax::text::{before, begins};

/// The reason why Rust has no type for a literal.
#[derive(Clone, Copy, PartialEq, Eq, Debug)]
#[non_exhaustive]
pub enum TypeError {
    /// A string, a character or a byte has a suffix. Rust allows suffixes only for numbers.
    QuotedSuffix,
    /// The suffix of a number isn't the name of a number type.
    UnknownSuffix,
    /// The suffix of a float is the name of an integer type.
    FloatSuffix,
    /// A binary, octal or hexadecimal integer has a suffix that begins with `f`, as a float's suffix does.
    BasedFloat,
    /// The integer is out of its type's range, or the float rounds to infinity.
    OutOfRange,
}

impl TypeError {
    ghost use Rattle.rl_flaws.specs.ErrorWords.{type_error_id, type_error_message};

    /// Returns the error message, for example `unknown suffix`.
    pub fn message(self) -> &'static str
        ensures { result.now ≡ type_error_message self }
    {
        match self {
            TypeError::QuotedSuffix => "only numbers have suffixes",
            TypeError::UnknownSuffix => "unknown suffix",
            TypeError::FloatSuffix => "a float's suffix is f32 or f64",
            TypeError::BasedFloat => "a float must be decimal",
            TypeError::OutOfRange => "out of its type's range",
        }
    }

    /// Returns the identifier of the error, for example `unknown-suffix`. It never changes.
    pub fn id(self) -> &'static str
        ensures { result.now ≡ type_error_id self }
    {
        match self {
            TypeError::QuotedSuffix => "quoted-suffix",
            TypeError::UnknownSuffix => "unknown-suffix",
            TypeError::FloatSuffix => "float-suffix",
            TypeError::BasedFloat => "based-float",
            TypeError::OutOfRange => "out-of-range",
        }
    }
}

/// Whether the number's text begins with the prefix of a base: `0b`, `0o` or `0x`.
fn is_of_base(text: &str) -> bool
    ensures { result ≡ is_of_base (chars text.now) }
{
    begins(text, "0b") || begins(text, "0o") || begins(text, "0x")
}

/// Whether the suffix begins with `f`, as a float's suffix does.
fn begins_float(suffix: &str) -> bool
    ensures { result ≡ first_passes (λ b. b == code "f") suffix.now }
{
    matches!(suffix.as_bytes(), [b'f', ..])
}

/// The number 2^128 - 2^103, the smallest that rounds to infinity as an `f32`.
const F32_INFINITE: u128 = 0xFFFF_FF80_0000_0000_0000_0000_0000_0000;

/// Returns the error of a decimal integer whose suffix is the float type `ty` and that rounds to infinity in this type.
fn infinite_error(ty: NumberType, magnitude: u128, negated: bool) -> Option<TypeError>
    requires { greatest_of ty negated ≡ None }
    ensures some { IfSome result (λ error. (error ≡ OutOfRange) × IsPastRange ty magnitude negated) }
    ensures none { IfNone result (IsInRange ty magnitude negated) }
{
    match ty {
        NumberType::F32 => {
            if magnitude >= F32_INFINITE {
                return Some(TypeError::OutOfRange);
            }
            None
        }
        _ => None,
    }
}

/// Returns the error of an integer that the number type `ty` can't represent.
fn range_error(ty: NumberType, magnitude: u128, negated: bool) -> Option<TypeError>
    ensures some { IfSome result (λ error. (error ≡ OutOfRange) × IsPastRange ty magnitude negated) }
    ensures none { IfNone result (IsInRange ty magnitude negated) }
{
    match max_integer(ty, negated) {
        Some(most) if magnitude > most => Some(TypeError::OutOfRange),
        Some(_) => None,
        None => infinite_error(ty, magnitude, negated),
    }
}

/// Returns the error of an integer with the suffix `suffix` that Rust has no type for.
fn integer_error(text: &str, suffix: &str, magnitude: u128, negated: bool) -> Option<TypeError>
    requires { suffix.now ≢ [] }
    ensures some { IfSome result (λ error. HasTypeError error Int (chars text.now) magnitude negated suffix.now) }
    ensures none { IfNone result (HasType Int (chars text.now) magnitude negated suffix.now) }
{
    if is_of_base(text) && begins_float(suffix) {
        return Some(TypeError::BasedFloat);
    }
    match type_named(suffix) {
        Some(ty) => range_error(ty, magnitude, negated),
        None => Some(TypeError::UnknownSuffix),
    }
}

/// Returns the type of a float with the suffix `suffix`: `f64` without a suffix, or `None` if the suffix is unknown.
fn type_of_float(suffix: &str) -> Option<NumberType>
    ensures some { IfSome result (λ t. IsTypeOfFloat suffix.now t) }
    ensures none { IfNone result ((suffix.now ≢ []) × NamesNone suffix.now) }
{
    if suffix.is_empty() {
        return Some(NumberType::F64);
    }
    type_named(suffix)
}

/// Returns the error of a float that rounds to infinity as the float type `ty`. `numeral` is its text without the suffix.
fn decimal_error(
    ty: NumberType,
    text: &str,
    numeral: &str,
    suffix: &str,
    negated: bool,
) -> Option<TypeError>
    requires cut { text.now ≡ numeral.now ++ suffix.now }
    requires typed { IsTypeOfFloat suffix.now ty }
    requires float { greatest_of ty negated ≡ None }
    ensures some { IfSome result (λ error. HasTypeError error Float (chars text.now) 0 negated suffix.now) }
    ensures none { IfNone result (HasType Float (chars text.now) 0 negated suffix.now) }
{
    if is_infinite(ty, numeral) {
        return Some(TypeError::OutOfRange);
    }
    None
}

/// Returns the error of a float that Rust has no type for. `numeral` is its text without the suffix.
fn float_error(text: &str, numeral: &str, suffix: &str, negated: bool) -> Option<TypeError>
    requires { text.now ≡ numeral.now ++ suffix.now }
    ensures some { IfSome result (λ error. HasTypeError error Float (chars text.now) 0 negated suffix.now) }
    ensures none { IfNone result (HasType Float (chars text.now) 0 negated suffix.now) }
{
    let Some(ty) = type_of_float(suffix) else {
        return Some(TypeError::UnknownSuffix);
    };
    match max_integer(ty, negated) {
        Some(_) => Some(TypeError::FloatSuffix),
        None => decimal_error(ty, text, numeral, suffix, negated),
    }
}

/// Returns the reason why Rust has no type for a literal of the kind `kind`, or `None` if Rust has a type for it.
///
/// [`type_error`] says which reasons there are. `text` is the text of the literal, and `suffix` is its suffix. `magnitude` is the
/// number that an integer represents. Other literals have none, and any number may be passed. `negated` is true if a minus may
/// precede the literal. Nothing is allocated.
pub fn type_error_of(
    kind: Kind,
    text: &str,
    magnitude: u128,
    suffix: &str,
    negated: bool,
) -> Option<TypeError>
    requires { IsTail text.now suffix.now }
    ensures some { IfSome result (λ error. HasTypeError error kind (chars text.now) magnitude negated suffix.now) }
    ensures none { IfNone result (HasType kind (chars text.now) magnitude negated suffix.now) }
{
    if matches!(kind, Kind::Float) {
        return float_error(text, before(text, suffix), suffix, negated);
    }
    if suffix.is_empty() {
        return None;
    }
    match kind {
        Kind::Int => integer_error(text, suffix, magnitude, negated),
        Kind::Bool => None,
        _ => Some(TypeError::QuotedSuffix),
    }
}

/// Returns the reason why Rust has no type for a literal, or `None` if Rust has a type for it.
///
/// The reason is a suffix that isn't the name of a fitting type, or a number that is out of its type's range. An integer
/// without a suffix has no error: Rust infers its type. A float is out of range if it rounds to infinity in its type, which is
/// `f64` without a suffix.
///
/// `text` is the text of the literal, and `found` its parse result. `negated` is true if a minus may precede the literal. Then
/// `128i8` is in range. Nothing is allocated.
pub fn type_error(text: &str, found: &Found, negated: bool) -> Option<TypeError>
    requires { IsFound text.now found.now }
    ensures some { IfSome result (λ error. HasTypeError error found.now.kind (chars text.now) found.now.magnitude negated
        (suffix_in text.now found.now.body)) }
    ensures none { IfNone result (HasType found.now.kind (chars text.now) found.now.magnitude negated
        (suffix_in text.now found.now.body)) }
{
    type_error_of(
        found.kind,
        text,
        found.magnitude,
        found.suffix_in(text),
        negated,
    )
}

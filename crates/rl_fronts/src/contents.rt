//! Functions that return the decoded values of string, byte string and C string literals as new strings or vectors.

ghost use Rattle.std.specs.Prelude.{◌≡◌, ◌⊎◌, ℕ, List, IsTrue, IfOk, IfErr, string_bytes};
ghost use Rattle.std.specs.Str.{chars};
ghost use Rattle.rl_tokens.specs.Errors.{memory_at};
ghost use Rattle.rl_syntax.specs.Spans.{nowhere};
ghost use Rattle.rl_syntax.specs.Quoted.{is_string};
ghost use Rattle.rl_syntax.specs.Reading.{Characters, Bytes, ReadsAs, HasContents};
ghost use Rattle.rl_lenient.specs.Bodies.{HasBody, IsStringBody, Represents};
ghost use Rattle.rl_lenient.specs.Decoded.{HoldsBytes};
ghost use Rattle.rl_lenient.specs.Mirrors.Decodes.{Decodes};

use rl_lenient::contents::decode_string_content_into;
use rl_lenient::found::parse_known_literal;
use rl_tokens::{Error, Kind};
use std::alloc::{AllocError, Allocator};

/// Returns the bytes to which the characters and escapes at the start of `text` decode, in one allocation. The result
/// is never longer than the text.
fn decode<A: Allocator>(alloc: A, kind: Kind, text: &str) -> Result<Vec<u8, A>, AllocError>
    requires { IsTrue (is_string kind) }
    ensures { IfOk result (λ bytes. Decodes kind (chars text.now) bytes.items) }
{
    let mut bytes = vec![in alloc; 0; text.len()]?;
    let len = decode_string_content_into(kind, text, bytes.as_mut_slice());
    bytes.truncate(len);
    Ok(bytes)
}

/// Returns the bytes to which `body`, the text between a string's quotes, decodes. Characters become UTF-8. If `plain`
/// is `true`, the decoded value equals the body, which is copied.
fn body_bytes<A: Allocator>(
    alloc: A,
    kind: Kind,
    body: &str,
    plain: bool,
) -> Result<Vec<u8, A>, AllocError>
    requires { IsStringBody kind body.now plain }
    ensures { IfOk result (λ bytes. (text : List ℕ) → HasBody kind text body.now plain
        → HoldsBytes text bytes.items) }
{
    if plain {
        Vec::from_slice(alloc, body.as_bytes())
    } else {
        decode(alloc, kind, body)
    }
}

/// Returns the decoded value of the string literal `text`. The text must be a literal of the kind `Str`, which
/// [`shape`](crate::shape) checks.
///
/// # Errors
///
/// Returns `Memory` at `Span::call_site` if an allocation fails.
///
/// # Example
///
/// ```
/// use rl_grammar::{Kind, shape, str_of};
/// use std::alloc::Global;
///
/// pub fn decoded_string(alloc: Global, text: &str) -> Option<String> {
///     match shape(text)?.kind {
///         Kind::Str => str_of(alloc, text).ok(),
///         _ => None,
///     }
/// }
/// // decoded_string(alloc, "\"a\\x41\"") == Some("aA")
/// ```
pub fn str_of<A: Allocator>(alloc: A, text: &str) -> Result<String<A>, Error<A>>
    requires { ReadsAs Kind.Str (chars text.now) }
    ensures reads { IfOk result
        (λ s. HasContents Kind.Str (chars text.now) (Characters (chars (string_bytes s)))) }
    ensures memory { IfErr result (λ e. e ≡ memory_at nowhere) }
{
    let found = parse_known_literal(text);
    str_of_body(alloc, found.body_in(text), found.body.plain)
}

/// Returns the decoded bytes of the byte string or C string literal `text`. No zero is added at the end. The text must
/// be a literal of the kind `ByteStr` or `CStr`, which [`shape`](crate::shape) checks.
///
/// # Errors
///
/// Returns `Memory` at `Span::call_site` if an allocation fails.
pub fn bytes_of<A: Allocator>(alloc: A, text: &str) -> Result<Vec<u8, A>, Error<A>>
    requires { ReadsAs Kind.ByteStr (chars text.now) ⊎ ReadsAs Kind.CStr (chars text.now) }
    ensures reads { IfOk result
        (λ bytes. HasContents Kind.ByteStr (chars text.now) (Bytes bytes.items)
        ⊎ HasContents Kind.CStr (chars text.now) (Bytes bytes.items)) }
    ensures memory { IfErr result (λ e. e ≡ memory_at nowhere) }
{
    let found = parse_known_literal(text);
    bytes_of_body(alloc, found.kind, found.body_in(text), found.body.plain)
}

/// Returns the decoded value of a string literal from `body`, the text between its quotes. `plain` tells whether the
/// decoded value equals the body. [`parse_literal`](crate::parse_literal) returns both.
///
/// # Errors
///
/// Returns `Memory` at `Span::call_site` if an allocation fails.
pub fn str_of_body<A: Allocator>(alloc: A, body: &str, plain: bool) -> Result<String<A>, Error<A>>
    requires { IsStringBody Kind.Str body.now plain }
    ensures value { IfOk result
        (λ s. Represents Kind.Str body.now plain (Characters (chars (string_bytes s)))) }
    ensures memory { IfErr result (λ e. e ≡ memory_at nowhere) }
{
    let value = body_bytes(alloc, Kind::Str, body, plain)?;
    // SAFETY: it is proved that the bytes are UTF-8.
    Ok(unsafe { String::from_utf8_unchecked(value) })
}

/// Returns the decoded bytes of a byte string or C string literal from `body`, the text between its quotes. `plain`
/// tells whether the decoded value equals the body. No zero is added at the end.
///
/// # Errors
///
/// Returns `Memory` at `Span::call_site` if an allocation fails.
pub fn bytes_of_body<A: Allocator>(
    alloc: A,
    kind: Kind,
    body: &str,
    plain: bool,
) -> Result<Vec<u8, A>, Error<A>>
    requires kind { kind ≡ Kind.ByteStr ⊎ kind ≡ Kind.CStr }
    requires body { IsStringBody kind body.now plain }
    ensures value { IfOk result (λ bytes. Represents kind body.now plain (Bytes bytes.items)) }
    ensures memory { IfErr result (λ e. e ≡ memory_at nowhere) }
{
    Ok(body_bytes(alloc, kind, body, plain)?)
}

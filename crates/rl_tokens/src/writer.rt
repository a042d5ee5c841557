//! Functions that write a value as a literal: a string, bytes, or a character.

ghost use Rattle.std.specs.Prelude.{◌≡◌, ◌⊎◌, ◌<◌, ◌≤◌, ◌+◌, ◌++◌, ◌∷◌, [], length, take, is_ok, IsOk, IsTrue, if◌then◌else◌, OnOk, OnErr, IfOk, IfErr, MatchResult, string_bytes, string_capacity, string_len, encode_utf8_all};
ghost use Rattle.std.specs.Str.{chars};
ghost use Rattle.rl_syntax.specs.Quoted.{decodes_to_chars, unit_text};
ghost use Rattle.rl_syntax.specs.Written.{closer, written_text, written_unit, IsWrittenForm};
ghost use Rattle.rl_syntax.specs.Agreeing.{AreBytesOf, IsQuotedValue};
ghost use Rattle.rl_tokens.specs.Errors.{memory_at};
ghost use Rattle.rl_tokens.specs.WrittenLists.{characters_of, str_list_text};
ghost use Rattle.rl_syntax.specs.Texts.{byte_len, code};
ghost use Rattle.rl_syntax.specs.Spans.{nowhere};

use crate::c_string::CString;
use crate::error::Error;
use crate::literal::Literal;
use rl_syntax::written_unit::escape;
use rl_syntax::{Kind, Span};
use std::alloc::{AllocError, Allocator};

/// Appends the character or byte `c` to `out`, in the form in which a literal of the kind `kind` contains it: as an
/// escape, or unchanged. If an allocation fails, nothing is appended.
fn push_written<A: Allocator>(out: &mut String<A>, kind: Kind, c: char) -> Result<(), AllocError>
    requires { IsTrue (decodes_to_chars kind) ⊎ (c < 256) }
    ensures bytes { string_bytes out.new ≡ (if is_ok result
        then string_bytes out.old ++ encode_utf8_all (unit_text (written_unit kind c))
        else string_bytes out.old) }
    ensures len { OnOk result (string_len out.new ≡ string_len out.old + byte_len (unit_text (written_unit kind c))) }
    ensures capacity { string_capacity out.old ≤ string_capacity out.new }
    ensures full { OnErr result (string_capacity out.old < string_len out.old + byte_len (unit_text (written_unit kind c))) }
{
    match escape(kind, c, &mut [0; 4]) {
        Some(text) => out.push_str(text),
        None => out.push(c),
    }
}

/// Appends to `out` a literal of the kind `kind` that represents the text `value`. The value of a literal of this kind
/// must consist of characters. If an allocation fails, a beginning of the literal may have been appended.
fn push_characters<A: Allocator>(
    out: &mut String<A>,
    kind: Kind,
    value: &str,
) -> Result<(), AllocError>
    requires { IsTrue (decodes_to_chars kind) }
    ensures text { OnOk result (chars (string_bytes out.new)
        ≡ chars (string_bytes out.old) ++ written_text kind (chars value.now)) }
    ensures front { OnErr result (take (length (string_bytes out.old)) (string_bytes out.new)
        ≡ string_bytes out.old) }
    ensures full { OnErr result (string_capacity out.old < string_len out.old + byte_len (written_text kind (chars value.now))) }
{
    out.push_str(kind.opener())?;
    for c in value.chars() {
        push_written(out, kind, c)?;
    }
    out.push(kind.quote())?;
    Ok(())
}

/// Appends to `out` the string literal that represents the text `value`, in the form that docs/GRAMMAR.md describes.
/// [`Literal::string`] creates a token with the same text.
///
/// # Errors
///
/// Returns an error if an allocation fails. `out` is unchanged then. If `out` has the capacity for the literal, there is no error.
pub fn push_str_literal<A: Allocator>(out: &mut String<A>, value: &str) -> Result<(), AllocError>
    ensures text { OnOk result (chars (string_bytes out.new)
        ≡ chars (string_bytes out.old) ++ written_text Kind.Str (chars value.now)) }
    ensures bytes { OnOk result (string_bytes out.new
        ≡ string_bytes out.old ++ encode_utf8_all (written_text Kind.Str (chars value.now))) }
    ensures form { OnOk result (IsWrittenForm Kind.Str (chars value.now)
        (written_text Kind.Str (chars value.now))) }
    ensures same { OnErr result (string_bytes out.new ≡ string_bytes out.old) }
    ensures room { string_len out.old + byte_len (written_text Kind.Str (chars value.now)) ≤ string_capacity out.old → IsOk result }
{
    let len = out.as_str().len();
    match push_characters(out, Kind::Str, value) {
        Ok(()) => Ok(()),
        Err(error) => {
            out.truncate(len);
            Err(error)
        }
    }
}

/// Appends to `out` the string literal that represents the text `value`, and an LF.
fn push_str_line<A: Allocator>(out: &mut String<A>, value: &str) -> Result<(), AllocError>
    ensures { OnOk result (string_bytes out.new ≡ string_bytes out.old
        ++ encode_utf8_all (written_text Kind.Str (chars value.now) ++ (code "\n" ∷ []))) }
{
    push_str_literal(out, value)?;
    out.push('\n')?;
    Ok(())
}

/// Returns the text of a list of strings: the string literal that represents each string, and an LF after it. The text is
/// a list of literals, which `read_all` of `rust_literals` reads back as the same strings.
///
/// # Errors
///
/// Returns an error if an allocation fails.
///
/// # Example
///
/// ```
/// use rl_tokens::write_str_list;
/// use std::alloc::Global;
///
/// pub fn list_of_one_name(alloc: Global, name: &str) -> Option<String> {
///     let mut names = Vec::new(alloc);
///     names.push(String::from_str(alloc, name).ok()?).ok()?;
///     write_str_list(alloc, names.as_slice()).ok()
/// }
/// // list_of_one_name(alloc, "a\"b") == Some("\"a\\\"b\"\n")
/// ```
pub fn write_str_list<A: Allocator, B: Allocator>(
    alloc: A,
    values: &[String<B>],
) -> Result<String<A>, AllocError>
    ensures { IfOk result (λ text.
        chars (string_bytes text) ≡ str_list_text (characters_of values.now)) }
{
    let mut text = String::new(alloc);
    for value in values {
        push_str_line(&mut text, value.as_str())?;
    }
    Ok(text)
}

/// Returns the text of a literal of the kind `kind` that represents the characters `value`.
fn text_of_characters<A: Allocator>(
    alloc: A,
    kind: Kind,
    value: &str,
) -> Result<String<A>, AllocError>
    requires kind { IsTrue (decodes_to_chars kind) }
    requires value { IsQuotedValue kind (chars value.now) }
    ensures { IfOk result (λ s. IsWrittenForm kind (chars value.now) (chars (string_bytes s))) }
{
    let mut text = String::new(alloc);
    push_characters(&mut text, kind, value)?;
    Ok(text)
}

/// Returns the text of a literal of the kind `kind` that represents the bytes `value`.
fn text_of_bytes<A: Allocator>(alloc: A, kind: Kind, value: &[u8]) -> Result<String<A>, AllocError>
    requires { AreBytesOf kind value.now }
    ensures { IfOk result (λ s. IsWrittenForm kind value.now (chars (string_bytes s))) }
{
    let mut text = String::from_str(alloc, kind.opener())?;
    for byte in value {
        push_written(&mut text, kind, char::from(*byte))?;
    }
    text.push(kind.quote())?;
    Ok(text)
}

/// Creates a literal token of `text`, the result of a writer, at [`Span::call_site`]. If `text` is an allocation
/// failure, the result is `Memory` at [`Span::call_site`].
fn token<A: Allocator>(text: Result<String<A>, AllocError>) -> Result<Literal<A>, Error<A>>
    ensures value { MatchResult text
        (λ s. result ≡ Ok (record { text = string_bytes s; span = nowhere }))
        (λ _. result ≡ Err (memory_at nowhere)) }
{
    match text {
        Ok(text) => Ok(Literal::of_string(text, Span::call_site())),
        Err(_) => Err(Error::out_of_memory(Span::call_site())),
    }
}

/// Functions that create the literal token that represents a value. The token's span is [`Span::call_site`], and so is
/// the span of an allocation failure.
impl<A: Allocator> Literal<A> {
    /// Creates the token of the string literal that represents the text `value`, at [`Span::call_site`].
    /// docs/GRAMMAR.md describes the form in which the literal is written.
    ///
    /// # Errors
    ///
    /// Returns `Memory` at [`Span::call_site`] if an allocation fails.
    pub fn string(alloc: A, value: &str) -> Result<Literal<A>, Error<A>>
        ensures text { IfOk result (λ l. IsWrittenForm Kind.Str (chars value.now) (chars l.text)) }
        ensures span { IfOk result (λ l. l.span ≡ nowhere) }
        ensures memory { IfErr result (λ e. e ≡ memory_at nowhere) }
    {
        token(text_of_characters(alloc, Kind::Str, value))
    }

    /// Creates the token of the byte string literal that represents the bytes `value`, at [`Span::call_site`].
    /// docs/GRAMMAR.md describes the form in which the literal is written.
    ///
    /// # Errors
    ///
    /// Returns `Memory` at [`Span::call_site`] if an allocation fails.
    pub fn byte_string(alloc: A, value: &[u8]) -> Result<Literal<A>, Error<A>>
        ensures text { IfOk result (λ l. IsWrittenForm Kind.ByteStr value.now (chars l.text)) }
        ensures span { IfOk result (λ l. l.span ≡ nowhere) }
        ensures memory { IfErr result (λ e. e ≡ memory_at nowhere) }
    {
        token(text_of_bytes(alloc, Kind::ByteStr, value))
    }

    /// Creates the token of the C string literal that represents the bytes of `value`, at [`Span::call_site`].
    /// docs/GRAMMAR.md describes the form in which the literal is written.
    ///
    /// # Errors
    ///
    /// Returns `Memory` at [`Span::call_site`] if an allocation fails.
    pub fn c_string<B: Allocator>(alloc: A, value: &CString<B>) -> Result<Literal<A>, Error<A>>
        ensures text { IfOk result (λ l. IsWrittenForm Kind.CStr value.now (chars l.text)) }
        ensures span { IfOk result (λ l. l.span ≡ nowhere) }
        ensures memory { IfErr result (λ e. e ≡ memory_at nowhere) }
    {
        token(text_of_bytes(alloc, Kind::CStr, value.as_bytes()))
    }

    /// Creates the token of the byte literal that represents the byte `value`, at [`Span::call_site`]. docs/GRAMMAR.md
    /// describes the form in which the literal is written.
    ///
    /// # Errors
    ///
    /// Returns `Memory` at [`Span::call_site`] if an allocation fails.
    pub fn byte_character(alloc: A, value: u8) -> Result<Literal<A>, Error<A>>
        ensures text { IfOk result (λ l. IsWrittenForm Kind.Byte (value ∷ []) (chars l.text)) }
        ensures span { IfOk result (λ l. l.span ≡ nowhere) }
        ensures memory { IfErr result (λ e. e ≡ memory_at nowhere) }
    {
        token(text_of_bytes(alloc, Kind::Byte, &[value]))
    }

    /// Creates the token of the character literal that represents the character `value`, at [`Span::call_site`].
    /// docs/GRAMMAR.md describes the form in which the literal is written.
    ///
    /// # Errors
    ///
    /// Returns `Memory` at [`Span::call_site`] if an allocation fails.
    pub fn character(alloc: A, value: char) -> Result<Literal<A>, Error<A>>
        ensures text { IfOk result (λ l. IsWrittenForm Kind.Char (value ∷ []) (chars l.text)) }
        ensures span { IfOk result (λ l. l.span ≡ nowhere) }
        ensures memory { IfErr result (λ e. e ≡ memory_at nowhere) }
    {
        let mut room = [0; 4];
        token(text_of_characters(alloc, Kind::Char, value.encode_utf8(&mut room)))
    }
}

//! The type `Quoted`, which the five types of quoted literals are instances of: a token, its kind, and the byte offsets
//! of the parts of its text.

ghost use Rattle.std.specs.Fmt.{padded};
ghost use Rattle.std.specs.Prelude.{◌≡◌, ◌≢◌, ◌↔◌, IsTrue, MatchBool, IfOk, IfErr, ◌==◌, ◌≤◌, ◌+◌, ◌++◌, ◌∷◌, [], length, OnOk, OnErr, Some, codes};
ghost use Rattle.std.specs.Cmp.{partial_equiv_from_equiv, on_equiv};
ghost use Rattle.std.specs.Cmp.Lexicographic.{pointwise, nat_list_eq_equiv};
ghost use Rattle.std.specs.Cmp.Rules.{hashing};
ghost use Rattle.std.specs.Hash as fed;
ghost use Rattle.std.specs.Ordering.{on};
ghost use Rattle.std.proofs.Common.{rules};
ghost use Rattle.std.specs.Str.{chars, IsUtf8};
ghost use Rattle.rl_syntax.specs.declared.kind.Kind.{Kind};
ghost use Rattle.rl_tokens.specs.Errors.{memory_at};
ghost use Rattle.rl_syntax.specs.Reading.{HasSuffix, ReadsAs};
ghost use Rattle.rl_tokens.specs.Trees.{LiteralTree, stream_view};
ghost use Rattle.rl_syntax.specs.Quoted.{is_single, is_string};
ghost use Rattle.rl_lenient.specs.Bodies.{HasBody, HasSingleBody};
ghost use Rattle.rl_lenient.specs.Founds.{IsFound, is_quoted};
ghost use Rattle.rl_cursors.specs.Segments.{IsByteEnd, IsBytePlace, IsSegmentsOf};
ghost use Rattle.rl_lenient.specs.WholeShapes.{IsPlain};
ghost use Rattle.rl_quoted.specs.Places.{IsSpanOf, IsWrittenAs, HasPartsAt};
ghost use Rattle.rl_cursors.specs.Ranges.{IsRangeOf};
ghost use Rattle.rl_quoted.specs.Suffixes.{HasSomeSuffix};
ghost use Rattle.rl_syntax.specs.Words.{kind_name};

use crate::written::written_body;
use rl_cursors::{Segments, text_range};
use rl_fronts::{begins_with_kind, take_literal_of_kind};
use rl_lenient::{Body, Found, byte_of_body, char_of_body, parse_literal};
use rl_syntax::Kind;
use rl_tokens::{
    Error, Literal, Parse, ParseBuffer, Span, ToTokens, Token, TokenStream, append_literal,
};
use std::alloc::{Allocator, Global};
use std::fmt;
use std::hash::{Hash, Hasher};
use std::marker::{Model, PhantomData};

/// Whether `text` isn't empty.
fn holds_some(text: &str) -> bool
    ensures { MatchBool result (chars text.now ≢ []) (chars text.now ≡ []) }
{
    !text.is_empty()
}

/// A type that represents a kind of quoted literals. The five implementations are `StrKind`, `ByteStrKind`, `CStrKind`,
/// `ByteKind` and `CharKind`. Callers need no others.
pub trait QuotedKind {
    ghost KIND: { Kind };

    /// The kind of literals that the type represents.
    const KIND: Kind;
}

/// A quoted literal of the kind `K`. Programs use it under five names: [`LitStr`](crate::LitStr), `LitByteStr`,
/// `LitCStr`, `LitByte` and `LitChar`.
#[derive(Drop)]
pub struct Quoted<K: QuotedKind, A: Allocator = Global> {
    pub(crate) token: Literal<A>,
    body: Body,
    of: PhantomData<K>,
}

/// The value of a [`Quoted`] in contracts is its token. The invariant: the token's text is a literal of the kind `K`,
/// and its parts are at the stored byte offsets.
impl<K: QuotedKind, A: Allocator> Model for Quoted<K, A> {
    ghost use Rattle.rl_syntax.specs.Texts.{SpannedText};
    ghost use Rattle.rl_quoted.specs.Places.{HasPartsAt};

    ghost Value = { SpannedText };

    ghost view = { λ l. l.token };

    ghost invariant = { λ l. HasPartsAt K.KIND l.token.text l.body };
}

impl<K: QuotedKind, A: Allocator> Quoted<K, A> {
    /// Creates the quoted literal of the literal token `token`. The token's text must be a literal of the kind `K`,
    /// which `shape` of `rl_grammar` checks. `Lit::new` of `rust_literals` accepts any token.
    pub fn of_token(token: Literal<A>) -> Quoted<K, A>
        requires { ReadsAs K.KIND (chars token.text) }
        ensures { result ≡ token }
    {
        let found = parse_literal(token.text()).unwrap();
        Quoted::of_found(token, found)
    }

    /// Creates the quoted literal of the literal token `token` from the parse result of the token's text. [`parse_literal`]
    /// returned the parse result `found`. The text must be a literal of the kind `K`.
    #[inline(always)]
    pub fn of_found(token: Literal<A>, found: Found) -> Quoted<K, A>
        requires found { IsFound token.text found }
        requires kind { found.kind ≡ K.KIND }
        ensures { result ≡ token }
    {
        Quoted {
            token,
            body: found.body,
            of: PhantomData,
        }
    }

    /// Creates the quoted literal of the literal token `token`, with the span `span`. The token's text must be the
    /// literal that the crate's writer writes for the value with the bytes `value`.
    pub(crate) fn written(mut token: Literal<A>, value: &[u8], span: Span) -> Quoted<K, A>
        requires quoted { IsTrue (is_quoted K.KIND) }
        requires written { IsWrittenAs K.KIND value.now (chars token.text) }
        ensures { result ≡ record token { span = span } }
    {
        token.set_span(span);
        let body = written_body(K::KIND, token.text(), value);
        Quoted {
            token,
            body,
            of: PhantomData,
        }
    }

    /// Returns the text between the quotes of a string literal, and whether that text equals the literal's decoded
    /// value, byte for byte.
    pub(crate) fn body(&self) -> (&str, bool)
        requires { IsTrue (is_string K.KIND) }
        ensures stands { HasBody K.KIND (chars self.now.text) result.0.now result.1 }
        ensures text { IsUtf8 self.now.text }
        ensures plain { IsTrue result.1 ↔ IsPlain K.KIND self.now.text }
    {
        let body = self.body;
        (&self.token.text()[body.lo..body.hi], body.plain)
    }

    /// Returns the text between the literal's quotes.
    fn between(&self) -> &str
        ensures single { IsTrue (is_single K.KIND) → HasSingleBody K.KIND (chars self.now.text) result.now }
        ensures text { IsUtf8 self.now.text }
    {
        let body = self.body;
        &self.token.text()[body.lo..body.hi]
    }

    /// Returns the text between the quotes of a character or byte literal.
    pub(crate) fn single_body(&self) -> &str
        requires { IsTrue (is_single K.KIND) }
        ensures { HasSingleBody K.KIND (chars self.now.text) result.now }
    {
        self.between()
    }

    /// Returns the parse result of the literal's text, as [`parse_literal`] does. It is built from the stored byte offsets, and
    /// the text isn't parsed again.
    pub fn found(&self) -> Found
        requires { IsTrue (is_quoted K.KIND) }
        ensures found { IsFound self.now.text result }
        ensures kind { result.kind ≡ K.KIND }
    {
        let between = self.between();
        let unit = match K::KIND {
            Kind::Byte => byte_of_body(between) as u32,
            Kind::Char => char_of_body(between) as u32,
            _ => 0,
        };
        Found {
            magnitude: 0,
            body: self.body,
            kind: K::KIND,
            truth: false,
            unit,
        }
    }

    /// Returns an iterator over the segments of the text between the literal's quotes. A segment is a sequence of plain
    /// characters, one escape, one escaped line end, or one line end of two characters. It has a position in the
    /// literal's text, and a decoded value. Nothing is allocated.
    pub fn segments(&self) -> Segments<'_>
        requires { IsTrue (is_quoted K.KIND) }
        ensures segments { IsSegmentsOf K.KIND (chars self.now.text) result }
        ensures within { result.at + length result.rest ≤ length self.now.text }
    {
        Segments::of_body(K::KIND, self.token.text(), &self.body)
    }

    /// Returns the byte offset in the literal's text from which the byte at the offset `at` of the decoded value comes:
    /// the offset of the byte itself, or of the start of its escape. If `at` is the length of the decoded value or
    /// more, the result is the closing quote's offset. Nothing is allocated.
    ///
    /// # Example
    ///
    /// ```
    /// use rl_quoted::LitStr;
    /// use rl_tokens::parse_all;
    /// use std::alloc::Global;
    ///
    /// pub fn brace_offset_in_file(alloc: Global, text: &str) -> Option<usize> {
    ///     let literal = parse_all::<LitStr, Global>(alloc, text, 0).ok()?;
    ///     let value = literal.value(alloc).ok()?;
    ///     let at = value.as_str().find('{')?;
    ///     Some(literal.span_of(at, at + 1).lo())
    /// }
    /// // brace_offset_in_file(alloc, "  \"\\u{e4}\\n{x}\"") == Some(11)
    /// ```
    pub fn text_offset(&self, at: usize) -> usize
        requires { IsTrue (is_quoted K.KIND) }
        ensures { IsBytePlace K.KIND (chars self.now.text) at result }
    {
        self.segments().text_offset(at)
    }

    /// Returns the byte offset in the literal's text where the text of the byte at the offset `at` of the decoded value
    /// ends: after the byte itself, or after its escape. An escaped line end that follows isn't included.
    pub fn text_offset_after(&self, at: usize) -> usize
        requires { IsTrue (is_quoted K.KIND) }
        ensures { IsByteEnd K.KIND (chars self.now.text) at result }
    {
        self.segments().text_offset_after(at)
    }

    /// Returns the byte range of the literal's text from which the bytes `lo` up to `hi` of the decoded value come.
    fn text_range(&self, lo: usize, hi: usize) -> (usize, usize)
        requires { IsTrue (is_quoted K.KIND) }
        ensures { IsRangeOf K.KIND (chars self.now.text) lo hi result.0 result.1 }
    {
        text_range(K::KIND, self.token.text(), &self.body, lo, hi)
    }

    /// Returns the span in the file from which the bytes `lo` up to `hi` of the literal's decoded value come.
    ///
    /// The span is from the start of the first byte's text ([`text_offset`](Quoted::text_offset)) to the end of the last byte's
    /// text ([`text_offset_after`](Quoted::text_offset_after)). For an empty range the span is empty, where the next byte
    /// begins. If the literal's span isn't as long as its text, the text isn't at that place in the file, and the result is the
    /// literal's span. Nothing is allocated.
    ///
    /// See the example of [`text_offset`](Quoted::text_offset).
    pub fn span_of(&self, lo: usize, hi: usize) -> Span
        requires { IsTrue (is_quoted K.KIND) }
        ensures { IsSpanOf K.KIND self.now lo hi result }
    {
        let span = self.span();
        if !self.spans_text() {
            return span;
        }
        let (first, last) = self.text_range(lo, hi);
        Span {
            file: span.file,
            lo: span.lo + first,
            hi: span.lo + last,
        }
    }

    /// Whether the literal's span is as long as its text. The span of a literal that was lexed from a file is.
    pub(crate) fn spans_text(&self) -> bool
        ensures long { MatchBool result
            (self.now.span.lo + length self.now.text ≡ self.now.span.hi)
            (self.now.span.lo + length self.now.text ≢ self.now.span.hi) }
        ensures text { IsUtf8 self.now.text }
    {
        let len = self.token.text().len();
        let span = self.token.span();
        span.lo <= span.hi && span.hi - span.lo == len
    }

    /// Returns the literal's suffix, borrowed: the text after the closing quote, or an empty string.
    pub fn suffix(&self) -> &str
        ensures { HasSuffix K.KIND (chars self.now.text) (chars result.now) }
    {
        &self.token.text()[self.body.suffix_at..]
    }

    /// Returns `true` if the literal has a suffix.
    pub fn has_suffix(&self) -> bool
        ensures { MatchBool result (HasSomeSuffix K.KIND (chars self.now.text))
            (HasSuffix K.KIND (chars self.now.text) []) }
    {
        holds_some(self.suffix())
    }

    /// Returns the literal's text as written, from its first quote or letter to the end of its suffix.
    pub fn text(&self) -> &str
        ensures { result.now ≡ self.now.text }
    {
        self.token.text()
    }

    /// Returns the literal's span: a file, and a range of bytes in that file.
    pub fn span(&self) -> Span
        ensures { result ≡ self.now.span }
    {
        self.token.span()
    }

    /// Sets the literal's span to `span`. The literal's text is unchanged.
    pub fn set_span(&mut self, span: Span)
        ensures { self.new ≡ record self.old { span = span } }
    {
        self.token.set_span(span);
    }

    /// Returns a new literal token with the literal's text and span.
    ///
    /// # Errors
    ///
    /// Returns `Memory` at the literal's span if an allocation fails.
    pub fn token<B: Allocator>(&self, alloc: B) -> Result<Literal<B>, Error<B>>
        ensures ok { IfOk result (λ l. l ≡ self.now) }
        ensures memory { IfErr result (λ e. e ≡ memory_at self.now.span) }
    {
        Literal::from_text(alloc, self.token.text(), self.token.span())
    }

    /// Returns a copy of the literal, in memory from `alloc`.
    ///
    /// # Errors
    ///
    /// Returns `Memory` at the literal's span if an allocation fails.
    pub fn clone<B: Allocator>(&self, alloc: B) -> Result<Quoted<K, B>, Error<B>>
        ensures ok { IfOk result (λ l. l ≡ self.now) }
        ensures memory { IfErr result (λ e. e ≡ memory_at self.now.span) }
    {
        match self.token.clone(alloc) {
            Ok(token) => Ok(Quoted {
                token,
                body: self.body,
                of: PhantomData,
            }),
            Err(error) => Err(error),
        }
    }
}

/// Parses the literal at the start of a buffer, which must be of the type's kind. The errors are those of
/// [`take_literal_of_kind`].
impl<K: QuotedKind, A: Allocator> Parse<A> for Quoted<K, A> {
    ghost use Rattle.rl_fronts.specs.Fronts.{RunsAs};
    ghost use Rattle.rl_syntax.specs.Words.{kind_word};

    ghost runs = { RunsAs K.KIND (kind_word K.KIND) };

    fn parse(alloc: A, input: &mut ParseBuffer<'_, A>) -> Result<Quoted<K, A>, Error<A>> {
        match take_literal_of_kind(alloc, input, K::KIND, K::KIND.description()) {
            Ok((token, found)) => Ok(Quoted::of_found(token, found)),
            Err(error) => Err(error),
        }
    }
}

/// `peek` returns `true` exactly if the type's parser would succeed, provided that no allocation fails.
impl<K: QuotedKind, A: Allocator> Token for Quoted<K, A> {
    ghost use Rattle.rl_fronts.specs.Fronts.{HasFrontOf};
    ghost use Rattle.rl_syntax.specs.Words.{kind_shown};

    ghost peeks = { HasFrontOf K.KIND };

    ghost shown = { kind_shown K.KIND };

    fn peek<B: Allocator>(input: &ParseBuffer<'_, B>) -> bool {
        begins_with_kind(input, K::KIND)
    }

    fn display() -> &'static str {
        K::KIND.display_name()
    }
}

/// Two quoted literals are equal if their texts are equal. Spans are ignored.
impl<K: QuotedKind, A: Allocator> PartialEq for Quoted<K, A> {
    ghost eq = { on (λ l. l.text) (pointwise ◌==◌) };

    ghost laws = { partial_equiv_from_equiv (on_equiv (λ l. l.text) nat_list_eq_equiv) };

    fn eq(&self, other: &Self) -> bool {
        self.token.text() == other.token.text()
    }
}

impl<K: QuotedKind, A: Allocator> Eq for Quoted<K, A> {
    ghost laws = { on_equiv (λ l. l.text) nat_list_eq_equiv };
}

/// The hash of a quoted literal depends on its text only.
impl<K: QuotedKind, A: Allocator> Hash for Quoted<K, A> {
    ghost hash_input = { λ l. fed.str l.text };

    ghost respects_eq = { Prim.search (hashing, rules) };

    fn hash<H: Hasher>(&self, state: &mut H) {
        self.token.text().hash(state);
    }
}

/// Writes the literal's text as written. A width in the format pads the text, as it pads a `str`.
impl<K: QuotedKind, A: Allocator> fmt::Display for Quoted<K, A> {
    ghost output = { λ l. Some l.text };

    ghost styled_output = { λ l spec. Some (padded spec l.text) };

    fn fmt<W: fmt::Write>(&self, f: &mut fmt::Formatter<W>) -> fmt::Result {
        f.pad(self.token.text())
    }
}

/// Writes the type's name, and the literal's text in braces, as in `LitStr { token: "a" }`.
impl<K: QuotedKind, A: Allocator> fmt::Debug for Quoted<K, A> {
    ghost debug_output = { λ l. Some (kind_name K.KIND ++ codes " { token: " ++ l.text
        ++ codes " }") };

    fn fmt<W: fmt::Write>(&self, f: &mut fmt::Formatter<W>) -> fmt::Result {
        let name = K::KIND.struct_name();
        let text = self.token.text();
        write!(f, "{name} {{ token: {text} }}")
    }
}

/// Appends the literal's token to a token stream.
impl<K: QuotedKind, A: Allocator> ToTokens for Quoted<K, A> {
    ghost appends = { λ l. LiteralTree l ∷ [] };

    fn to_tokens<B: Allocator>(&self, alloc: B, tokens: &mut TokenStream<B>) -> Result<(), Error<B>>
        ensures ok { OnOk result
            (stream_view tokens.new ≡ stream_view tokens.old ++ LiteralTree self.now ∷ []) }
        ensures unchanged { OnErr result (stream_view tokens.new ≡ stream_view tokens.old) }
        ensures memory { IfErr result (λ e. e ≡ memory_at self.now.span) }
    {
        append_literal(alloc, &self.token, tokens)
    }
}

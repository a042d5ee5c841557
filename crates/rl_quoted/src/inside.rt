//! Methods that parse the decoded value of a string literal.

ghost use Rattle.std.specs.Prelude.{◌≡◌, ◌≢◌, ◌⊎◌, [], OnOk, IfOk, IfErr, Ok};
ghost use Rattle.std.specs.Str.{chars};
ghost use Rattle.rl_syntax.specs.declared.kind.Kind.TheVariants.{Str};
ghost use Rattle.rl_tokens.specs.Buffers.{trees_in};
ghost use Rattle.rl_tokens.specs.Errors.{memory_at};
ghost use Rattle.rl_syntax.specs.Reading.{HasSuffix};
ghost use Rattle.rl_tokens.specs.Trees.{stream_view};
ghost use Rattle.rl_quoted.specs.declared.inside.Placing.TheVariants.{InFile};
ghost use Rattle.rl_quoted.specs.Inside.{
  AreInside,
  AreMoved,
  IsLeftoverAt,
  IsParsed,
  IsParsedInFile,
  IsParsedInside,
  IsReportedAt,
  IsSuffixed,
  RejectsInFile,
  RejectsInside,
  RejectsLexingInside,
  RejectsInsideAt,
  Runs,
};

use crate::lit_str::LitStr;
use rl_fronts::value_byte_spans;
use rl_tokens::{
    ByParse, Error, ErrorKind, Parse, ParseBuffer, Parser, Span, TokenStream, lex_for_parsing,
};
use std::alloc::Allocator;

/// The choice of the spans for the tokens of a string literal's decoded value.
#[derive(Clone, Copy)]
enum Placing {
    /// Each token gets the span of the whole literal.
    AtLiteral,
    /// Each token gets the span in the file from which it comes.
    InFile,
}

impl<A: Allocator> LitStr<A> {
    /// Returns the span in the file for `span`, a range of the literal's decoded value, according to `placing`: the
    /// literal's span, or the span from which the range comes.
    fn reported_at(&self, placing: Placing, span: Span) -> Span
        ensures { IsReportedAt placing self.now span result }
    {
        match placing {
            Placing::AtLiteral => self.span(),
            Placing::InFile => self.span_of(span.lo, span.hi),
        }
    }

    /// Returns the span of the error `Unexpected` for the token trees of `left`, which a parser left over, according to
    /// `placing`: the literal's span, or the span of the first of the token trees.
    fn leftover_span<B: Allocator>(&self, placing: Placing, left: &ParseBuffer<'_, B>) -> Span
        requires { trees_in left.now ≢ [] }
        ensures { IsLeftoverAt placing self.now (trees_in left.now) result }
    {
        match placing {
            Placing::AtLiteral => self.span(),
            Placing::InFile => left.span(),
        }
    }

    /// Sets the span of each token tree of `stream`, which was lexed from the literal's decoded value, to the span in
    /// the file from which the token tree comes. If the literal's span isn't as long as its text, each token tree gets
    /// the literal's span.
    fn move_trees<B: Allocator>(
        &self,
        alloc: B,
        stream: &mut TokenStream<B>,
    ) -> Result<(), Error<B>>
        ensures moved { OnOk result (AreMoved (IsReportedAt InFile self.now)
            (stream_view stream.old) (stream_view stream.new)) }
        ensures memory { IfErr result (λ e. e ≡ memory_at self.now.span) }
    {
        let span = self.span();
        if !self.spans_text() {
            stream.respan(span);
            return Ok(());
        }
        match value_byte_spans(alloc, self.segments(), span) {
            Ok(table) => {
                stream.map_by_byte_spans(table.as_slice());
                Ok(())
            }
            Err(_) => Err(Error::out_of_memory(span)),
        }
    }

    /// Sets the span of each token tree of `stream`, which was lexed from the literal's decoded value, according to
    /// `placing`: to the literal's span, or to the span in the file from which the token tree comes.
    fn place_trees<B: Allocator>(
        &self,
        placing: Placing,
        alloc: B,
        stream: &mut TokenStream<B>,
    ) -> Result<(), Error<B>>
        ensures moved { OnOk result (AreMoved (IsReportedAt placing self.now)
            (stream_view stream.old) (stream_view stream.new)) }
        ensures memory { IfErr result (λ e. e ≡ memory_at self.now.span) }
    {
        match placing {
            Placing::AtLiteral => {
                stream.respan(self.span());
                Ok(())
            }
            Placing::InFile => self.move_trees(alloc, stream),
        }
    }

    /// Lexes the literal's decoded value into token trees, and returns these with their spans set according to
    /// `placing`.
    fn trees_inside<B: Allocator + Copy>(
        &self,
        placing: Placing,
        alloc: B,
    ) -> Result<TokenStream<B>, Error<B>>
        ensures ok { IfOk result (λ s. AreInside placing self.now (stream_view s)) }
        ensures rejected { IfErr result
            (λ e. RejectsLexingInside placing self.now e ⊎ (e ≡ memory_at self.now.span)) }
    {
        let value = self.value(alloc)?;
        match lex_for_parsing(alloc, value.as_str(), self.span().file()) {
            Ok(mut stream) => {
                self.place_trees(placing, alloc, &mut stream)?;
                Ok(stream)
            }
            Err(error) => Err(Error {
                span: self.reported_at(placing, error.span),
                kind: error.kind,
            }),
        }
    }

    /// Returns the error `Suffix` at the literal's span if the literal has a suffix.
    fn reject_suffix<B: Allocator>(&self, alloc: B) -> Result<(), Error<B>>
        ensures ok { OnOk result (HasSuffix Str (chars self.now.text) []) }
        ensures rejected { IfErr result
            (λ e. IsSuffixed self.now e ⊎ (e ≡ memory_at self.now.span)) }
    {
        let suffix = self.suffix();
        if suffix.is_empty() {
            return Ok(());
        }
        let span = self.span();
        match String::from_str(alloc, suffix) {
            Ok(suffix) => Err(Error {
                span,
                kind: ErrorKind::Suffix(suffix),
            }),
            Err(_) => Err(Error::out_of_memory(span)),
        }
    }

    /// Runs `parser` on the token trees of the literal's decoded value, and returns its result. A token tree that the
    /// parser leaves over is an error. The literal's suffix isn't checked.
    fn parse_whole<P: Parser<B>, B: Allocator + Copy>(
        &self,
        placing: Placing,
        alloc: B,
        parser: P,
    ) -> Result<P::Output, Error<B>>
    where
        P: Drop,
        P::Output: Drop,
        ensures ran { IfOk result (λ x. Runs placing (P.runs parser) self.now (Ok x) []) }
        ensures rejected { IfErr result (RejectsInsideAt placing (P.runs parser) self.now) }
    {
        let stream = self.trees_inside(placing, alloc)?;
        let mut inside = ParseBuffer::new(stream.trees(), self.span());
        let parsed = parser.parse(alloc, &mut inside)?;
        if !inside.is_empty() {
            return Err(Error {
                span: self.leftover_span(placing, &inside),
                kind: ErrorKind::Unexpected,
            });
        }
        Ok(parsed)
    }

    /// Runs `parser` on the token trees of the literal's decoded value, and returns its result. A token tree that the
    /// parser leaves over is an error, and so is a suffix of the literal.
    fn parse_placed<P: Parser<B>, B: Allocator + Copy>(
        &self,
        placing: Placing,
        alloc: B,
        parser: P,
    ) -> Result<P::Output, Error<B>>
    where
        P: Drop,
        P::Output: Drop,
        ensures parsed { IfOk result (IsParsed placing (P.runs parser) self.now) }
        ensures rejected { IfErr result (RejectsInsideAt placing (P.runs parser) self.now) }
    {
        let parsed = self.parse_whole(placing, alloc, parser)?;
        self.reject_suffix(alloc)?;
        Ok(parsed)
    }

    /// Parses the literal's decoded value with `parser`.
    ///
    /// The decoded value is lexed into tokens. Each token gets the literal's span, also inside groups, and the parser
    /// runs on the tokens with that span as scope.
    ///
    /// See the example of [`Parser`]. [`parse_in_file`](LitStr::parse_in_file) gives each token its span in the file.
    ///
    /// # Errors
    ///
    /// Returns the lexer's error as `Lex`. Otherwise returns the parser's own error. Otherwise returns `Unexpected` if
    /// the parser leaves token trees over. Otherwise returns `Suffix` if the literal has a suffix. The parser
    /// determines the span of its own error. All others, and an allocation failure, are at the literal's span.
    pub fn parse_with<P: Parser<B>, B: Allocator + Copy>(
        &self,
        alloc: B,
        parser: P,
    ) -> Result<P::Output, Error<B>>
    where
        P: Drop,
        P::Output: Drop,
        ensures parsed { IfOk result (IsParsedInside (P.runs parser) self.now) }
        ensures rejected { IfErr result (RejectsInside (P.runs parser) self.now) }
    {
        self.parse_placed(Placing::AtLiteral, alloc, parser)
    }

    /// Parses the literal's decoded value with `parser`, and gives each token its span in the file. The spans take
    /// account of escapes, line ends of two characters and escaped line ends before a token.
    ///
    /// The decoded value is lexed into tokens. Each token, also inside groups, gets the span of the bytes of the file
    /// from which it comes ([`span_of`](LitStr::span_of)). The parser runs on the tokens with the literal's span as
    /// scope. If the literal's span isn't as long as its text, the text isn't at that place in the file, and each token
    /// gets the literal's span, as by [`parse_with`](LitStr::parse_with).
    ///
    /// # Errors
    ///
    /// Returns the lexer's error as `Lex`, at the position in the file from which the rejected text comes. Otherwise
    /// returns the parser's own error. Otherwise returns `Unexpected` at the first token tree that the parser leaves
    /// over. Otherwise returns `Suffix` at the literal's span if the literal has a suffix. An allocation failure is at
    /// the literal's span. If memory is needed for a token while the decoded value is lexed, the failure is at the
    /// position in the file from which the token comes.
    ///
    /// # Example
    ///
    /// ```
    /// use rl_quoted::LitStr;
    /// use rl_tokens::{ByParse, Span, parse_all};
    /// use rust_literals::Lit;
    /// use std::alloc::Global;
    ///
    /// pub fn inner_literal_span(alloc: Global, text: &str) -> Option<Span> {
    ///     let literal = parse_all::<LitStr, Global>(alloc, text, 0).ok()?;
    ///     match literal.parse_in_file(alloc, ByParse::<Lit>::new()) {
    ///         Ok(inner) => Some(inner.span()),
    ///         Err(error) => Some(error.span),
    ///     }
    /// }
    /// // inner_literal_span(alloc, "\"\\x20\\\"a\\\"\"") == Some(Span { file: 0, lo: 5, hi: 10 })
    /// // inner_literal_span(alloc, "\"\\u{31}, 2\"") == Some(Span { file: 0, lo: 7, hi: 8 })
    /// ```
    pub fn parse_in_file<P: Parser<B>, B: Allocator + Copy>(
        &self,
        alloc: B,
        parser: P,
    ) -> Result<P::Output, Error<B>>
    where
        P: Drop,
        P::Output: Drop,
        ensures parsed { IfOk result (IsParsedInFile (P.runs parser) self.now) }
        ensures rejected { IfErr result (RejectsInFile (P.runs parser) self.now) }
    {
        self.parse_placed(Placing::InFile, alloc, parser)
    }

    /// Parses the literal's decoded value as a value of the type `T`, which implements [`Parse`].
    ///
    /// See the example of [`Parser`].
    ///
    /// # Errors
    ///
    /// Returns the errors of [`parse_with`](LitStr::parse_with).
    pub fn parse<T: Parse<B> + Drop, B: Allocator + Copy>(&self, alloc: B) -> Result<T, Error<B>>
        ensures parsed { IfOk result (IsParsedInside T.runs self.now) }
        ensures rejected { IfErr result (RejectsInside T.runs self.now) }
    {
        self.parse_with(alloc, ByParse::<T>::new())
    }
}

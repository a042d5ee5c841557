//! Functions that lex a whole text, or parse it as one value.

ghost use Rattle.std.specs.Prelude.{◌≡◌, ◌⊎◌, List, [], length, IfOk, IfErr, MatchResult, Ok};
ghost use Rattle.std.specs.Str.{chars};
ghost use Rattle.rl_tokens.specs.Lexing.{Lexes};
ghost use Rattle.rl_tokens.specs.Trees.{Tree, stream_view};
ghost use Rattle.rl_tokens.specs.declared.error.ErrorKind.TheVariants.{Memory};
ghost use Rattle.rl_tokens.specs.Whole.{place_at, RejectsLexing, RejectsParse, ParsesAll, RejectsAll};

use crate::buffer::ParseBuffer;
use crate::error::{Error, ErrorKind};
use crate::lexer::lex;
use crate::parse::Parse;
use crate::token::TokenStream;
use rl_syntax::Span;
use std::alloc::Allocator;

/// Lexes a text into token trees, as [`lex`] does, and returns the lexer's error as an [`Error`]. The span of a token
/// is `file` and the token's byte range in the text.
///
/// # Errors
///
/// Returns the lexer's error as `Lex`, with an empty span at the error's byte offset. If an allocation fails, returns
/// `Memory` with an empty span at the start of the token for which memory was needed.
pub fn lex_for_parsing<A: Allocator + Copy>(
    alloc: A,
    text: &str,
    file: u32,
) -> Result<TokenStream<A>, Error<A>>
    ensures ok { IfOk result (λ s. Lexes (chars text.now) file (stream_view s)) }
    ensures rejected { IfErr result (RejectsLexing (chars text.now) file) }
{
    match lex(alloc, text, file) {
        Ok(stream) => Ok(stream),
        Err(error) => {
            let at = Span::new(file, error.at, error.at);
            Err(Error::of_lexer(error.kind, at))
        }
    }
}

/// Parses the token trees of `stream` as one value of type `T`. An error at the end of the token trees has the span
/// `scope`, and a token tree after the value is an error.
fn parse_trees<T: Parse<A> + Drop, A: Allocator>(
    alloc: A,
    stream: &TokenStream<A>,
    scope: Span,
) -> Result<T, Error<A>>
    ensures parsed { IfOk result (λ x. T.runs (stream_view stream.now) scope (Ok x) []) }
    ensures rejected { IfErr result (RejectsParse T.runs (stream_view stream.now) scope) }
{
    let mut input = ParseBuffer::new(stream.trees(), scope);
    let value = T::parse(alloc, &mut input)?;
    if !input.is_empty() {
        return Err(Error::new(input.span(), ErrorKind::Unexpected));
    }
    Ok(value)
}

/// Parses a whole text as one value of the type `T`, which implements [`Parse`]. Spans are `file` and byte ranges of
/// the text.
///
/// # Errors
///
/// Returns the lexer's error as `Lex`, with an empty span at the error's byte offset. If an allocation fails while the
/// text is lexed, returns `Memory` with an empty span at the start of the token for which memory was needed. Otherwise
/// returns the error of `T::parse`, which runs with the empty span at the text's end as scope. Otherwise returns
/// `Unexpected` at the first token tree that follows the value.
///
/// # Example
///
/// ```
/// use rl_tokens::{Error, parse_all};
/// use rust_literals::LitInt;
/// use std::alloc::Global;
///
/// pub fn parse_port(alloc: Global, text: &str) -> Result<u16, Error> {
///     parse_all::<LitInt, Global>(alloc, text, 0)?.base10_parse(alloc)
/// }
/// // parse_port(alloc, "8_080") == Ok(8080)
/// // parse_port(alloc, "1 'a'") == Err(Error { span: Span { file: 0, lo: 2, hi: 5 }, kind: Unexpected })
/// ```
pub fn parse_all<T: Parse<A> + Drop, A: Allocator + Copy>(
    alloc: A,
    text: &str,
    file: u32,
) -> Result<T, Error<A>>
    ensures parsed { IfOk result (ParsesAll T.runs text.now file) }
    ensures rejected { IfErr result (RejectsAll T.runs text.now file) }
    // If the text is lexed into token trees, the result is the parser's result for these, or an allocation failed.
    ensures exactly { (trees : List Tree) → Lexes (chars text.now) file trees
        → MatchResult result (λ x. T.runs trees (place_at file (length text.now)) (Ok x) [])
        (λ e. (e.kind ≡ Memory) ⊎ RejectsParse T.runs trees (place_at file (length text.now)) e) }
{
    let end = Span::new(file, text.len(), text.len());
    match lex_for_parsing(alloc, text, file) {
        Ok(stream) => parse_trees(alloc, &stream, end),
        Err(error) => Err(error),
    }
}

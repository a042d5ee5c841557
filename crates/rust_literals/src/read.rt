//! The function that returns all literals of a text.

ghost use Rattle.std.specs.Prelude.{◌≡◌, ◌⊎◌, ℕ, List, [], ◌++◌, length, IfOk, IfErr};
ghost use Rattle.std.specs.Str.{chars, IsUtf8};
ghost use Rattle.rl_tokens.specs.Buffers.{trees_in, scope_of};
ghost use Rattle.rl_tokens.specs.Trees.{Tree};
ghost use Rattle.rl_syntax.specs.Printed.{Entry, Printed};
ghost use Rattle.rust_literals.specs.declared.lit.Lit.{Lit};
ghost use Rattle.rust_literals.specs.Parsing.{ReadsLiterals, RejectsNextLiteral, LacksMemory, AreRead, RejectsText};
ghost use Rattle.rust_literals.specs.Flat.{AreFirst};
ghost use Rattle.rust_literals.specs.ReadBack.{HoldsOrMemory, AreItems};
ghost use Rattle.rust_literals.specs.Reprints.{Spaced, lits_of, IsReprint, SameButSpans};

use crate::flat::read_flat;
use crate::lit::Lit;
use rl_fronts::Front;
use rl_tokens::{Error, ParseBuffer, Span, lex_for_parsing};
use std::alloc::{Allocator, Global};

/// Consumes the first `count` literals of `input`.
fn pass<A: Allocator>(input: &mut ParseBuffer<'_, A>, count: usize)
    ensures passed { (passed : List (Lit A)) (rest : List Tree) → length passed ≡ count
        → ReadsLiterals (trees_in input.old) passed rest → trees_in input.new ≡ rest }
    ensures scope { scope_of input.new ≡ scope_of input.old }
{
    for _ in 0..count {
        let _ = Front::take(input);
    }
}

/// Parses all remaining token trees of `input` as literals, and returns `list` with these appended.
fn read_on<A: Allocator + Copy>(
    alloc: A,
    input: &mut ParseBuffer<'_, A>,
    mut list: Vec<Lit<A>, A>,
) -> Result<Vec<Lit<A>, A>, Error<A>>
    // The contract also covers literals `gone` that were before `list` and were dropped: the sequence `all` of token
    // trees consists of the literals `gone`, the literals of `list`, and the remaining token trees.
    ensures read { (all : List Tree) (gone : List (Lit A))
        → ReadsLiterals all (gone ++ list.items) (trees_in input.old)
        → IfOk result (λ found. ReadsLiterals all (gone ++ found.items) []) }
    ensures rejected { (all : List Tree) (gone : List (Lit A))
        → ReadsLiterals all (gone ++ list.items) (trees_in input.old)
        → IfErr result (λ e. RejectsNextLiteral all (scope_of input.old) e
        ⊎ LacksMemory all (scope_of input.old) e) }
{
    while !input.is_empty() {
        let literal = input.parse::<Lit<A>>(alloc)?;
        if let Err(failed) = list.push(literal) {
            // The literal is dropped by a function call, because dropping it in place would double the number of steps
            // to prove.
            drop(failed);
            return Err(Error::out_of_memory(Span::call_site()));
        }
    }
    Ok(list)
}

/// Appends to `list` all literals of `text` except the first `count`, and returns `list`. Before the call, `list`
/// contains the last of the first `count` literals. The literals before these may have been dropped.
fn read_from<A: Allocator + Copy>(
    alloc: A,
    text: &str,
    file: u32,
    count: usize,
    list: Vec<Lit<A>, A>,
) -> Result<Vec<Lit<A>, A>, Error<A>>
    ensures read { (gone : List (Lit A)) → AreFirst (chars text.now) file count (gone ++ list.items)
        → IfOk result (λ found. AreRead (chars text.now) file (gone ++ found.items)) }
    ensures rejected { (gone : List (Lit A))
        → AreFirst (chars text.now) file count (gone ++ list.items)
        → IfErr result (RejectsText (chars text.now) file (length text.now)) }
{
    let stream = lex_for_parsing(alloc, text, file)?;
    let end = Span::new(file, text.len(), text.len());
    let mut input = ParseBuffer::new(stream.trees(), end);
    pass(&mut input, count);
    read_on(alloc, &mut input, list)
}

/// Returns the literals of `text` after its first `count` literals.
pub(crate) fn read_after<A: Allocator + Copy>(
    alloc: A,
    text: &str,
    file: u32,
    count: usize,
) -> Result<Vec<Lit<A>, A>, Error<A>>
    // The text consists of its first `count` literals and the returned ones after them.
    ensures read { (first : List (Lit A)) → AreFirst (chars text.now) file count first
        → IfOk result (λ more. AreRead (chars text.now) file (first ++ more.items)) }
    ensures rejected { (first : List (Lit A)) → AreFirst (chars text.now) file count first
        → IfErr result (RejectsText (chars text.now) file (length text.now)) }
{
    read_from(alloc, text, file, count, Vec::new(alloc))
}

/// Returns the literals of `text`, which may contain only literals, white space and plain comments.
///
/// The text is lexed into token trees, and each literal is parsed from these as [`Lit::parse`] does. The result may
/// contain `Verbatim` literals. A literal's span is `file` and the byte range of its text. The span of a number after a
/// minus is from the minus to the number's last byte.
///
/// On an error the literals before the error aren't returned. A caller that needs them, or each error of a list, can
/// call [`push_leading_literal`](crate::push_leading_literal) with [`Tokens`](rl_tokens::Tokens).
///
/// # Errors
///
/// Returns the lexer's first error as `Lex`, with an empty span at its byte offset. Otherwise returns `Expected` at the
/// first token tree that isn't a literal. Returns `Memory` if an allocation fails, at the literal or the position in
/// the text for which memory was needed. If the list can't grow, `Memory` is at `Span::call_site`.
///
/// # Example
///
/// ```
/// use rl_grammar::{LineEnds, explain_missing_value};
/// use rust_literals::read_all;
/// use std::alloc::Global;
///
/// pub fn first_value_flaw(alloc: Global, text: &str) -> Option<(&'static str, usize)> {
///     let literals = read_all(alloc, text, 0).ok()?;
///     let literal = literals.as_slice().first()?;
///     let flaw = explain_missing_value(literal.text(), LineEnds::Text, true)?;
///     Some((flaw.kind.message(), flaw.in_span(literal.span()).lo))
/// }
/// // first_value_flaw(alloc, "\"a\\q\" 1") == Some(("unknown escape", 3))
/// ```
pub fn read_all<A: Allocator + Copy>(
    alloc: A,
    text: &str,
    file: u32,
) -> Result<Vec<Lit<A>, A>, Error<A>>
    // The whole text is lexed into the token trees of the returned literals.
    ensures read { IfOk result (λ list. AreRead (chars text.now) file list.items) }
    // The returned error is the text's first error, the error for the first token tree that isn't a literal, or an
    // allocation failure.
    ensures rejected { IfErr result (RejectsText (chars text.now) file (length text.now)) }
    // If the text consists of literals, the result is a list of these, or an allocation failed.
    ensures exactly { (list : List (Lit A)) → AreRead (chars text.now) file list
        → HoldsOrMemory (λ found. found ≡ list) result }
    // If the text is a printed list (literals that Rust's grammar accepts, with separators between them), the result is
    // the list's items, each with its byte range, or an allocation failed.
    ensures printed { (entries : List Entry) (last : List ℕ) → Printed (chars text.now) entries last
        → HoldsOrMemory (AreItems file 0 entries) result }
    // If the text consists of the texts of literals that were read from a text `source`, with white space or comments
    // between them, the result is the same literals, or an allocation failed. The literals needn't be valid by Rust's
    // grammar.
    ensures again { (source : List ℕ) (origin : ℕ) (spaced : List (Spaced A)) (last : List ℕ)
        → IsUtf8 source → AreRead (chars source) origin (lits_of spaced)
        → IsReprint (chars text.now) spaced last
        → HoldsOrMemory (SameButSpans (lits_of spaced)) result }
{
    match read_flat(alloc, text, file) {
        Ok(literals) => Ok(literals),
        Err(begun) => read_from(alloc, text, file, begun.len(), begun),
    }
}

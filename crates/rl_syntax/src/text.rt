//! Functions that split the first characters off a text, and tests of a text's start.

ghost use Rattle.std.specs.Prelude.{◌≡◌, ◌<◌, ◌≤◌, ◌==◌, ◌++◌, ◌∷◌, ◌≢◌, ℕ, List, [], length, drop, encode_utf8, MatchOption, nat_lt, IfSome, IfNone, IsFalse, IsTrue};
ghost use Rattle.std.specs.Char.{is_ascii};
ghost use Rattle.std.specs.List.{list_all};
ghost use Rattle.std.specs.Str.{chars, IsCharBoundary};
ghost use Rattle.rl_syntax.specs.Texts.{first_passes, IsTail, begins, begins_char};

/// Returns the text's first character and the text after it, or `None` if the text is empty.
pub fn split_char(text: &str) -> Option<(char, &str)>
    ensures chars { MatchOption result
        (chars text.now ≡ []) (λ p. chars text.now ≡ p.0 ∷ chars p.1.now) }
    ensures bytes { MatchOption result
        (text.now ≡ []) (λ p. text.now ≡ encode_utf8 p.0 ++ p.1.now) }
    ensures following { IfSome result (λ p. IsTail text.now p.1.now) }
    ensures shorter { MatchOption result
        (length text.now ≡ 0) (λ p. length p.1.now < length text.now) }
{
    let mut chars = text.chars();
    let first = chars.next()?;
    Some((first, chars.as_str()))
}

/// Returns the text's first character as a byte and the text after it, or `None` if the text doesn't begin with an
/// ASCII character.
#[inline(always)]
pub fn split_ascii(text: &str) -> Option<(u8, &str)>
    ensures some { IfSome result (λ p. chars text.now ≡ p.0 ∷ chars p.1.now) }
    ensures ascii { IfSome result (λ p. p.0 < 128) }
    ensures none { IfNone result (IsFalse (first_passes is_ascii (chars text.now))) }
    ensures following { IfSome result (λ p. IsTail text.now p.1.now) }
    ensures shorter { IfSome result (λ p. length p.1.now < length text.now) }
{
    let bytes = text.as_bytes();
    if bytes.is_empty() || bytes[0] >= 128 {
        return None;
    }
    Some((bytes[0], &text[1..]))
}

/// Returns the character at the byte offset `at` as a byte, and the offset after it. Returns `None` if no ASCII
/// character begins there.
///
/// A loop that passes offsets makes no slices of the text. For each slice of a `str`, Rust tests whether it begins at
/// a character boundary.
#[inline(always)]
pub fn ascii_at(text: &str, at: usize) -> Option<(u8, usize)>
    requires { IsCharBoundary text.now at }
    ensures some { IfSome result (λ p. chars (drop at text.now) ≡ p.0 ∷ chars (drop p.1 text.now)) }
    ensures ascii { IfSome result (λ p. p.0 < 128) }
    ensures none { IfNone result (IsFalse (first_passes is_ascii (chars (drop at text.now)))) }
    ensures place { IfSome result (λ p. IsCharBoundary text.now p.1) }
    ensures after { IfSome result (λ p. (at < p.1) × (p.1 ≤ length text.now)) }
{
    let bytes = text.as_bytes();
    if at >= bytes.len() || bytes[at] >= 128 {
        return None;
    }
    Some((bytes[at], at + 1))
}

/// Returns `true` if the text begins with the character `c`.
pub fn begins_with_char(text: &str, c: char) -> bool
    ensures { result ≡ begins_char c (chars text.now) }
{
    match split_char(text) {
        Some((first, _)) => first == c,
        None => false,
    }
}

/// Returns `true` if the text begins with `word`, which must be ASCII.
pub fn begins(text: &str, word: &str) -> bool
    requires { IsTrue (list_all (λ c. nat_lt c 128) word.now) }
    ensures { result ≡ begins word.now (chars text.now) }
{
    text.starts_with(word)
}

/// Returns the text after its first character. For an empty text the result is empty.
pub fn without_first_char(text: &str) -> &str
    ensures rest { chars result.now ≡ drop 1 (chars text.now) }
    ensures following { IsTail text.now result.now }
{
    match split_char(text) {
        Some((_, rest)) => rest,
        None => text,
    }
}

/// Returns the text after the ASCII byte `byte` at its start, or `None` if the text doesn't begin with `byte`.
#[inline(always)]
pub fn strip_byte(text: &str, byte: u8) -> Option<&str>
    requires { byte < 128 }
    ensures rest { MatchOption result
        (IsFalse (first_passes (λ c. c == byte) (chars text.now)))
        (λ rest. chars text.now ≡ byte ∷ chars rest.now) }
    ensures following { IfSome result (λ rest. IsTail text.now rest.now) }
    ensures shorter { IfSome result (λ rest. length rest.now < length text.now) }
{
    match split_ascii(text) {
        Some((first, following)) if first == byte => Some(following),
        _ => None,
    }
}

/// Returns the part of `text` before `rest`, where `rest` is the end of `text`.
#[tactic(auto, using(crate::proofs::TailLemmas::cut_boundary, crate::proofs::TailLemmas::cut_chars))]
pub fn before<'t>(text: &'t str, rest: &str) -> &'t str
    requires { IsTail text.now rest.now }
    ensures cut { text.now ≡ result.now ++ rest.now }
    ensures chars { chars text.now ≡ chars result.now ++ chars rest.now }
{
    &text[..text.len() - rest.len()]
}

/// Returns the text after `prefix`, or `None` if the text doesn't begin with `prefix`.
#[tactic(auto, using(crate::proofs::BeginsLemmas::strip_prefix_some, crate::proofs::BeginsLemmas::strip_prefix_none, crate::proofs::BeginsLemmas::strip_prefix_tail))]
pub fn after_prefix<'t>(prefix: &str, text: &'t str) -> Option<&'t str>
    ensures some { IfSome result (λ rest. chars text.now ≡ chars prefix.now ++ chars rest.now) }
    ensures none { IfNone result ((x : List ℕ) → chars text.now ≢ chars prefix.now ++ x) }
    ensures following { IfSome result (λ rest. IsTail text.now rest.now) }
{
    text.strip_prefix(prefix)
}

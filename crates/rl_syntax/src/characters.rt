//! Tests of characters: identifier characters and white space.

ghost use Rattle.std.specs.Prelude.{◌≡◌};
ghost use Rattle.unicode_ident.specs.Ident.{is_xid_start, is_xid_continue};
ghost use Rattle.rl_syntax.specs.Texts.{is_white};
ghost use Rattle.rl_syntax.specs.Texts.{is_start, is_continue};

/// Whether the character `c` is white space between tokens: it has Unicode's property White_Space, or is the direction
/// mark U+200E or U+200F.
pub(crate) fn is_white(c: char) -> bool
    ensures { result ≡ is_white c }
{
    c.is_whitespace() || c == '\u{200e}' || c == '\u{200f}'
}

/// Returns `true` if the character may begin an identifier token. For an ASCII character, no Unicode table is read.
pub fn is_id_start(c: char) -> bool
    ensures { result ≡ is_start c }
{
    c == '_' || (is_xid_start(c) && (c.is_ascii() || !is_white(c)))
}

/// Returns `true` if the character may continue an identifier token. For an ASCII character, no Unicode table is read.
pub fn is_id_continue(c: char) -> bool
    ensures { result ≡ is_continue c }
{
    is_xid_continue(c) && (c.is_ascii() || !is_white(c))
}

/// Returns `true` if the character has Unicode's property XID_Start. For an ASCII character, no Unicode table is read.
#[inline(always)]
#[tactic(auto, using(crate::proofs::AsciiLemmas::ascii_xid_start))]
pub fn is_xid_start(c: char) -> bool
    ensures { result ≡ is_xid_start c }
{
    if c.is_ascii() {
        c.is_ascii_alphabetic()
    } else {
        unicode_ident::is_xid_start(c)
    }
}

/// Returns `true` if the character has Unicode's property XID_Continue. For an ASCII character, no Unicode table is
/// read.
#[tactic(auto, using(crate::proofs::AsciiLemmas::ascii_xid_continue))]
pub fn is_xid_continue(c: char) -> bool
    ensures { result ≡ is_xid_continue c }
{
    if c.is_ascii() {
        c.is_ascii_alphanumeric() || c == '_'
    } else {
        unicode_ident::is_xid_continue(c)
    }
}

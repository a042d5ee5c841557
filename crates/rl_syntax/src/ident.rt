//! A test of whether a text is an identifier.

ghost use Rattle.std.specs.Prelude.{◌≡◌};
ghost use Rattle.std.specs.Str.{chars};
ghost use Rattle.unicode_ident.specs.Ident.{is_xid_start, is_xid_continue};
ghost use Rattle.std.specs.List.{list_all};
ghost use Rattle.rl_syntax.specs.Texts.{xid_ok};

use crate::characters::{is_xid_continue, is_xid_start};
use crate::text::split_char;

/// Returns `true` if the text is an identifier: its first character is `_` or has Unicode's property XID_Start, and
/// every later character has XID_Continue. The empty text isn't an identifier. The text `_` is an identifier.
///
/// # Example
///
/// ```
/// use rl_tokens::ident::xid_ok;
///
/// pub fn is_identifier(text: &str) -> bool {
///     xid_ok(text)
/// }
/// // is_identifier("port") == true
/// ```
#[inline(always)]
pub fn xid_ok(text: &str) -> bool
    ensures { result ≡ xid_ok (chars text.now) }
{
    match split_char(text) {
        Some((first, rest)) => { (first == '_' || is_xid_start(first)) && all_continue(rest) }
        None => false,
    }
}

/// Whether every character of the text may continue an identifier.
fn all_continue(text: &str) -> bool
    ensures { result ≡ list_all is_xid_continue (chars text.now) }
{
    text.chars().all(|c| is_xid_continue(c))
}

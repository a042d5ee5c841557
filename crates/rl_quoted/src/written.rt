//! The byte offsets of the parts of a literal that was written from its value.

ghost use Rattle.std.specs.Prelude.{◌≡◌, ◌↔◌, IsTrue, length};
ghost use Rattle.std.specs.Str.{chars};
ghost use Rattle.rl_syntax.specs.Quoted.{is_string};
ghost use Rattle.rl_lenient.specs.Founds.{is_quoted};
ghost use Rattle.rl_quoted.specs.Places.{IsWrittenAs, HasPartsAt};

use rl_lenient::Body;
use rl_syntax::Kind;

/// Whether `kind` is a kind of strings, and the text between the quotes, `body`, equals the literal's decoded value,
/// `value`.
fn is_whole(kind: Kind, body: &[u8], value: &[u8]) -> bool
    ensures { IsTrue result ↔ (IsTrue (is_string kind) × (body.now ≡ value.now)) }
{
    kind.is_string() && body == value
}

/// Returns the byte offsets of the parts of `text`, a literal of the kind `kind` that was written from the value with
/// the bytes `value`. The literal has no suffix. The result's `plain` is `true` if the literal is a string without
/// escapes.
pub(crate) fn written_body(kind: Kind, text: &str, value: &[u8]) -> Body
    requires quoted { IsTrue (is_quoted kind) }
    requires written { IsWrittenAs kind value.now (chars text.now) }
    ensures { HasPartsAt kind text.now result }
{
    let bytes = text.as_bytes();
    let lo = kind.opener().len();
    let hi = bytes.len() - 1;
    Body {
        lo,
        hi,
        suffix_at: bytes.len(),
        plain: is_whole(kind, &bytes[lo..hi], value),
    }
}

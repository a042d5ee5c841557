//! The flaws of quoted literals: invalid characters and escapes, and invalid text after the closing quote.

ghost use Rattle.std.specs.Prelude.{◌≡◌, ◌==◌, ◌&&◌, ◌||◌, not, ◌<◌, ◌≤◌, ◌++◌, ◌∷◌, ℕ, IsTrue, IsFalse, replicate, length};
ghost use Rattle.std.specs.Str.{chars};
ghost use Rattle.rl_syntax.specs.Texts.{IsTail, begins, code, first_passes};
ghost use Rattle.rl_syntax.specs.Quoted.{is_single, is_string};
ghost use Rattle.rl_syntax.specs.Classes.{is_hash};
ghost use Rattle.rl_strict.specs.Flaws.{StopsBefore};
ghost use Rattle.rl_lenient.specs.Forms.{has_form};
ghost use Rattle.rl_strict.specs.StrictFlawKinds.{StrictQuotedFlaw, form_quote, suffix_piece};
ghost use Rattle.rl_strict.specs.StrictShapes.{ClosesForm};
ghost use Rattle.rl_strict.specs.Mirrors.StrictAt.{is_raw_character};
ghost use Rattle.rl_strict.specs.Mirrors.StrictFlawAt.{suffix_rest, suffix_end_flaw_at, begins_hash, raw_character_flaw_of, strict_unit_flaw_at};
ghost use Rattle.rl_strict.specs.Mirrors.UnitFlawAt.{found_flaw};

use crate::flaws::{FlawAt, FlawKind, make_flaw};
use crate::quoted_flaws::{character_flaw, escape_flaw};
use rl_lenient::quoted_forms::QuotedForm;
use rl_syntax::Kind;
use rl_syntax::text::split_char;

/// Returns the closing quote of a literal of the form `form`: `'` or `"`.
pub(crate) fn quote_of(form: QuotedForm) -> char
    ensures { result ≡ form_quote form }
{
    match form {
        QuotedForm::Single => '\'',
        _ => '"',
    }
}

/// Whether the text after a raw string's closing delimiter begins with one more hash.
pub(crate) fn begins_hash(form: QuotedForm, text: &str) -> bool
    ensures { result ≡ begins_hash form (chars text.now) }
{
    match form {
        QuotedForm::Raw => matches!(split_char(text), Some(('#', _))),
        _ => false,
    }
}

/// Returns the flaw of a text that begins with neither a character nor an escape that a literal of the kind `kind` may contain.
#[tactic(auto, unfolding(crate::specs::Mirrors::StrictFlawAt::strict_unit_flaw_at, crate::specs::Mirrors::StrictFlawAt::strict_escape_flaw_at))]
pub fn unit_flaw(kind: Kind, text: &str) -> FlawAt<'_>
    ensures { found_flaw result.kind (chars result.rest.now) ≡ strict_unit_flaw_at kind (chars text.now) }
{
    match split_char(text) {
        None => make_flaw(FlawKind::Unclosed, text),
        Some(('\\', rest)) => match split_char(rest) {
            Some(('\r', _)) if kind.is_string() => make_flaw(FlawKind::CarriageReturn, rest),
            _ => escape_flaw(kind, rest),
        },
        Some(('\r', _)) if kind.is_string() => make_flaw(FlawKind::CarriageReturn, text),
        Some((first, _)) => make_flaw(character_flaw(first), text),
    }
}

/// Returns the flaw of a character that a raw string of the kind `kind` can't contain.
pub fn raw_character_flaw(kind: Kind, c: char) -> FlawKind
    ensures { result ≡ raw_character_flaw_of kind c }
{
    match c {
        '\r' => FlawKind::CarriageReturn,
        _ => match kind {
            Kind::CStr => FlawKind::Nul,
            _ => FlawKind::NotAscii,
        },
    }
}

//! Parses the content of a quoted literal up to its first flaw or its end, from any position inside the literal.

ghost use Rattle.std.specs.Prelude.{◌≡◌, ◌≢◌, ◌++◌, ◌⊎◌, [], IfErr, IfNone, IfOk, IfSome, IsTrue};
ghost use Rattle.std.specs.Str.{chars};
ghost use Rattle.rl_syntax.specs.Texts.{IsTail};
ghost use Rattle.rl_syntax.specs.declared.kind.Kind.{Kind as AnyKind};
ghost use Rattle.rl_syntax.specs.Quoted.{is_single};
ghost use Rattle.rl_lenient.specs.declared.quoted_forms.QuotedForm.TheVariants.{Raw as RawForm, Single as SingleForm};
ghost use Rattle.rl_strict.specs.LineEnds.{IsGoodUnit, IsOfStretch, IsRestOf, StopsAsRead, read_of};
ghost use Rattle.rl_strict.specs.StrictRead.{IsFlawAt};
ghost use Rattle.rl_strict.specs.StrictShapes.{ClosesForm, IsToken};
ghost use Rattle.rl_flaws.specs.BadPieces.{is_flaw_of_unit};
ghost use Rattle.rl_flaws.specs.Inside.{IsInsideUpTo};
ghost use Rattle.rl_flaws.specs.Looks.{OpensSingle, OpensString};
ghost use Rattle.rl_flaws.specs.Opened.{IsOpened, opened_front};

use rl_lenient::quoted_forms::{QuotedForm, split_opener};
use rl_strict::LineEnds;
use rl_strict::walk::{
    QuotedContent, parse_cooked_content, parse_raw_content, parse_single_unit, split_raw_opening,
};
use rl_syntax::Kind;

/// The opening delimiter of a quoted literal: the literal's form and kind, and a raw string's hashes.
#[derive(Clone, Copy)]
pub struct Opened<'t> {
    pub form: QuotedForm,
    pub kind: Kind,
    /// The hashes of a raw string, or an empty text for other forms.
    pub hashes: &'t str,
}

/// Returns the opening delimiter of the quoted literal that `text` begins with, and the text after it.
pub fn split_opening_delimiter(text: &str) -> Option<(Opened<'_>, &str)>
    ensures some { IfSome result (λ p. IsOpened p.0) }
    ensures hashes { IfSome result (λ p. (p.0.form ≡ RawForm) ⊎ (p.0.hashes.now ≡ [])) }
    ensures cut { IfSome result (λ p. chars text.now ≡ opened_front p.0 ++ chars p.1.now) }
    ensures none { IfNone result ((k : AnyKind) → OpensString k (chars text.now) ⊎ OpensSingle k (chars text.now) → ⊥) }
{
    match split_opener(text) {
        Some((form, kind, inside)) => match form {
            QuotedForm::Raw => match split_raw_opening(kind, inside) {
                Ok((hashes, rest)) => Some((Opened { form, kind, hashes }, rest)),
                Err(_) => None,
            },
            _ => {
                let hashes = "";
                Some((Opened { form, kind, hashes }, inside))
            }
        },
        None => None,
    }
}

/// Parses the text after the opening quote of a character or byte literal.
fn walk_unit(ends: LineEnds, kind: Kind, text: &str) -> QuotedContent<'_>
    requires { IsTrue (is_single kind) }
    ensures rest { IsRestOf ends (chars text.now) (chars result.closing.now) }
    ensures good { IsGoodUnit kind (chars text.now) (chars result.closing.now) }
    ensures at { IfErr result.end (IsOfStretch SingleForm result.closing.now) }
    ensures closes { IfOk result.end (λ suffix. ClosesForm SingleForm kind (read_of ends (chars text.now))) }
    ensures stops { IfErr result.end (λ f. StopsAsRead ends SingleForm kind f.kind (read_of ends (chars text.now))
        (chars text.now) (chars f.piece.now) (chars f.rest.now)) }
{
    let stretch = parse_single_unit(ends, kind, text);
    let closing = stretch.closing;
    let plain = false;
    match stretch.end {
        Ok((_, suffix)) => QuotedContent {
            closing,
            plain,
            end: Ok(suffix),
        },
        Err(flaw) => QuotedContent {
            closing,
            plain,
            end: Err(flaw),
        },
    }
}

/// Parses a quoted literal whose opening delimiter is `opened`. `text` begins after that delimiter, or at a later character or
/// escape inside the literal.
pub fn parse_quoted_content<'t>(
    ends: LineEnds,
    opened: Opened<'t>,
    text: &'t str,
) -> QuotedContent<'t>
    requires { IsOpened opened }
    ensures good { IsInsideUpTo opened.entry.form opened.entry.kind (chars opened.entry.hashes.now)
        (read_of ends (chars text.now)) (read_of ends (chars result.closing.now)) }
    ensures rest { IsRestOf ends (chars text.now) (chars result.closing.now) }
    ensures following { IsTail text.now result.closing.now }
    ensures some { IfErr result.end (λ f. IsTrue (is_flaw_of_unit f.kind) → chars f.piece.now ≢ []) }
    ensures piece { IfErr result.end (λ f. IsRestOf ends (chars text.now) (chars f.piece.now)) }
    ensures stop { IfErr result.end (λ f. IsRestOf ends (chars text.now) (chars f.rest.now)) }
    ensures token { IfOk result.end (λ suffix. IsToken (opened_front opened.entry ++ read_of ends (chars text.now))) }
    ensures flaw { IfErr result.end (λ f. IsFlawAt (opened_front opened.entry ++ read_of ends (chars text.now)) f.kind
        (read_of ends (chars f.piece.now)) (read_of ends (chars f.rest.now))) }
{
    match opened.form {
        QuotedForm::Cooked => parse_cooked_content(ends, opened.kind, text),
        QuotedForm::Single => walk_unit(ends, opened.kind, text),
        QuotedForm::Raw => parse_raw_content(ends, opened.kind, opened.hashes, text),
    }
}

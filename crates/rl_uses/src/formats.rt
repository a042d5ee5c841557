//! A formatter that writes the digits of the hexadecimal integers of a Rust source in lower case, as `0xff` for `0xFF`.

ghost use Rattle.std.specs.Prelude.{IfOk, IfErr, string_bytes};
ghost use Rattle.std.specs.Str.{chars};
ghost use Rattle.rl_restyle.specs.SameTokens.{HasSameTokens};
ghost use Rattle.rl_uses.specs.Formats.{FailsToFormat, IsLowered};

use rl_restyle::{Choice, Macros, RestyleError, rewrite_source};
use rl_style::{Case, Style};
use std::alloc::Allocator;

/// The reason why a source isn't formatted.
#[derive(Clone, Copy)]
pub enum FormatError {
    /// The source can't be rewritten, or an allocation failed.
    Source(RestyleError),
    /// A token of the source has an error, as `0b102`.
    Token,
}

/// Returns the source with hexadecimal digits in lower case. The literals in macro calls stay as they are.
///
/// # Errors
///
/// Returns `Source` with the error of [`rewrite_source`], and `Token` if a token of the source has an error. In these cases no
/// text is returned.
pub fn lower_hex<A: Allocator + Copy>(alloc: A, source: &str) -> Result<String<A>, FormatError>
    // The new source has the old tokens, in their order. Each token is the old one, or the same literal.
    ensures same { IfOk result (λ text. HasSameTokens (chars source.now) (chars (string_bytes text))) }
    // Each literal has its text in the style.
    ensures lowered { IfOk result (λ text. IsLowered (chars source.now) (chars (string_bytes text))) }
    // The error tells why the source isn't formatted.
    ensures failed { IfErr result (FailsToFormat (chars source.now)) }
{
    let style = Style {
        hex_digits: Some(Case::Lower),
        ..Style::KEEP
    };
    let choice = Choice {
        macros: Macros::Skip,
        kinds: None,
    };
    match rewrite_source(alloc, style, choice, source) {
        Ok(restyled) => {
            if restyled.is_clean {
                Ok(restyled.text)
            } else {
                Err(FormatError::Token)
            }
        }
        Err(error) => Err(FormatError::Source(error)),
    }
}

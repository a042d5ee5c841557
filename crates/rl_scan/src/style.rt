//! The style of a call, and the kinds of literals that it rewrites. Suggests names for misspelled words.

use crate::args::Args;
use crate::checks::list_contains;
use crate::failure::Failure;
use crate::position::Position;
use rl_files::{PathError, Tree, push_visible, visible_text};
use rl_lenient::parse_literal;
use rl_lexer::{Sources, without_byte_order_mark};
use rl_program::label_of;
use rl_restyle::{
    Expected, StyleError, StyleErrorKind, default_style, parse_style, settable_rules,
};
use rl_style::Style;
use rl_syntax::Kind;
use std::alloc::{AllocError, Allocator};

#[rattlefmt::skip]
const KINDS: [Option<Kind>; 9] = [
    Some(Kind::Str), Some(Kind::ByteStr), Some(Kind::CStr), Some(Kind::Byte), Some(Kind::Char), Some(Kind::Int),
    Some(Kind::Float), Some(Kind::Bool), None,
];

/// Returns the kinds that a list names.
pub(crate) fn kinds_of<A: Allocator>(
    alloc: A,
    list: &str,
) -> Result<Vec<Option<Kind>, A>, AllocError> {
    let mut kinds = Vec::new(alloc);
    for kind in KINDS.iter() {
        if list_contains(list, label_of(*kind)) {
            kinds.push(*kind)?;
        }
    }
    Ok(kinds)
}

/// Whether two words that begin with different bytes differ only by one typing error at their start: a byte too many, a byte too
/// few, another byte, or two exchanged bytes.
fn slips_here(said: &[u8], meant: &[u8]) -> bool {
    let less_said = said.get(1..).unwrap_or(said);
    let less_meant = meant.get(1..).unwrap_or(meant);
    let is_swapped = match (said, meant) {
        ([a, b, said @ ..], [c, d, meant @ ..]) => *a == *d && *b == *c && said == meant,
        _ => false,
    };
    less_said == meant || said == less_meant || less_said == less_meant || is_swapped
}

/// Whether `word` is similar to `meant`: they differ at most by one typing error, or `word` is the start of `meant`.
pub(crate) fn is_near(word: &str, meant: &str) -> bool {
    let (said, meant) = (word.as_bytes(), meant.as_bytes());
    for at in 0..said.len() {
        if said.get(at) != meant.get(at) {
            let said_left = said.get(at..).unwrap_or(said);
            let meant_left = meant.get(at..).unwrap_or(meant);
            return slips_here(said_left, meant_left);
        }
    }
    true
}

/// Whether a value of `--rule` is a string without quotes: it consists of ASCII letters and `_`, and isn't `true` or `false`.
fn is_bare_string(value: &str) -> bool {
    let bytes = value.as_bytes();
    bytes.iter().all(|b| b.is_ascii_alphabetic() || *b == b'_')
        && value != "true"
        && value != "false"
}

/// Returns the text of the style file that the values of `--rule` represent. It has a line for each value.
fn settings_text<A: Allocator>(alloc: A, settings: &[&str]) -> Result<String<A>, AllocError> {
    let mut text = String::new(alloc);
    for setting in settings {
        match setting.split_once('=') {
            None => writeln!(text, "{setting} = true")?,
            Some((name, value)) if is_bare_string(value) => writeln!(text, "{name} = \"{value}\"")?,
            Some((name, value)) => writeln!(text, "{name} = {value}")?,
        }
    }
    Ok(text)
}

/// Returns the error that a file can't be read.
pub(crate) fn unread_file<A: Allocator + Copy>(
    alloc: A,
    file: &str,
    why: PathError,
) -> Result<Failure<A>, AllocError> {
    let shown = visible_text(alloc, file)?;
    Ok(Failure::Said(format!(in alloc; "{shown}: {why}")?))
}

/// Returns the message of an error in the rules of a style.
fn message_of(kind: StyleErrorKind) -> &'static str {
    match kind {
        StyleErrorKind::Syntax(kind) => kind.message(),
        StyleErrorKind::Unknown => "no rule has this name",
        StyleErrorKind::Repeated => "repeated name",
        StyleErrorKind::Expected(Expected::Truth) => "expected `true` or `false`",
        StyleErrorKind::Expected(Expected::Size) => "expected a number of digits, from 1 to 128",
        StyleErrorKind::Expected(Expected::Case) => "expected `\"lower\"` or `\"upper\"`",
        StyleErrorKind::Expected(Expected::Separator) => "expected `\"\"` or `\"_\"`",
    }
}

/// Returns the error in the rules of a style. `name` is the path of their file, or `--rule`.
fn style_failure<A: Allocator + Copy>(
    alloc: A,
    name: &str,
    text: &str,
    error: &StyleError<'_>,
) -> Result<Failure<A>, AllocError> {
    let line = Position::first(text).moved(text, error.lo).line;
    let mut words = visible_text(alloc, name)?;
    write!(words, ":{line}: ")?;
    if let Some(entry) = error.name {
        push_visible(&mut words, entry)?;
        words.push_str(": ")?;
    }
    words.push_str(message_of(error.kind))?;
    if let (StyleErrorKind::Unknown, Some(entry)) = (error.kind, error.name) {
        for rule in settable_rules() {
            if is_near(entry, rule.name()) {
                write!(words, "; did you mean '{}'?", rule.name())?;
                return Ok(Failure::Said(words));
            }
        }
        words.push_str(": rl_scan --rules lists all rules")?;
    }
    Ok(Failure::Said(words))
}

/// Returns the error of the first number of digits without an effect: 0, or more digits than an integer of 128 bits has.
fn size_error(text: &str) -> Option<StyleError<'_>> {
    let mut tokens = Sources::new(text);
    let mut names = (0_usize, 0_usize);
    for _ in 0..u64::MAX {
        let token = tokens.next()?;
        if let Some(found) = parse_literal(token.text) {
            let is_number = matches!(found.kind, Kind::Int);
            if is_number && (found.magnitude == 0 || found.magnitude > 128) {
                return Some(StyleError {
                    kind: StyleErrorKind::Expected(Expected::Size),
                    name: text.get(names.0..names.1),
                    lo: token.lo,
                    hi: token.hi,
                });
            }
        } else if token.text != "=" {
            names = (token.lo, token.hi);
        }
    }
    None
}

/// Whether a style has the rule `min_digits`, but no rule for digit groups.
fn lacks_groups(style: &Style) -> bool {
    let Some(groups) = style.digit_groups else {
        return false;
    };
    groups.binary == 0 && groups.octal == 0 && groups.decimal == 0 && groups.hexadecimal == 0
}

/// Parses the rules of a style. Each rule must have an effect.
fn parsed_style<A: Allocator + Copy>(
    alloc: A,
    name: &str,
    text: &str,
) -> Result<Style, Failure<A>> {
    let style = match parse_style(text) {
        Ok(style) => style,
        Err(error) => return Err(style_failure(alloc, name, text, &error)?),
    };
    if let Some(error) = size_error(text) {
        return Err(style_failure(alloc, name, text, &error)?);
    }
    if lacks_groups(&style) {
        let shown = visible_text(alloc, name)?;
        return Err(Failure::Said(format!(in alloc;
            "{shown}: min_digits has no effect without binary_groups, octal_groups, decimal_groups or hexadecimal_groups"
        )?));
    }
    Ok(style)
}

pub(crate) fn style_of<A: Allocator + Copy, T: Tree>(
    alloc: A,
    args: &Args<'_, A>,
    tree: &T,
) -> Result<Style, Failure<A>> {
    if let Some(file) = args.last("--style") {
        let bytes = match tree.bytes(alloc, file) {
            Ok(bytes) => bytes,
            Err(why) => return Err(unread_file(alloc, file, why)?),
        };
        return match std::str::from_utf8(bytes.as_slice()) {
            Ok(text) => parsed_style(alloc, file, without_byte_order_mark(text)),
            Err(error) => Err(unread_file(alloc, file, PathError::NotUtf8(error.valid_up_to()))?),
        };
    }
    let rules = args.all(alloc, "--rule")?;
    if rules.is_empty() {
        return Ok(default_style());
    }
    let text = settings_text(alloc, rules.as_slice())?;
    parsed_style(alloc, "--rule", text.as_str())
}

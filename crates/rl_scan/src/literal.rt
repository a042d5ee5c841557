//! A literal of a source with its parse result: its printed line, and its value.

ghost use Rattle.rl_lenient.specs.Founds.{IsFound};

use crate::failure::Appended;
use rl_fronts::{bytes_of_body, str_of_body};
use rl_lenient::{Found, parse_literal};
use rl_program::push_found_line;
use rl_syntax::Kind;
use std::alloc::{AllocError, Allocator};
use std::marker::Model;

/// A literal of a source, or a literal token without a value.
#[derive(Drop)]
pub(crate) struct Literal<'t> {
    text: &'t str,
    found: Option<Found>,
}

impl<'t> Model for Literal<'t> {
    ghost use Rattle.std.specs.Prelude.{List, Option, ℕ, IfNone, IfSome};
    ghost use Rattle.std.specs.Str.{chars};
    ghost use Rattle.rl_lenient.specs.Founds.{IsFound};
    ghost use Rattle.rl_lenient.specs.declared.found.Found.{Found};
    ghost use Rattle.rl_syntax.specs.Reading.{HasNoReading};

    ghost Value = { List ℕ × Option Found };

    ghost view = { λ l. (l.text.now, l.found) };

    ghost invariant = { λ l. IfNone l.found (HasNoReading (chars l.text.now)) × IfSome l.found (IsFound l.text.now) };
}

/// Returns the bytes of a literal's value. They are empty if the literal isn't quoted.
fn value_of<A: Allocator + Copy>(
    alloc: A,
    text: &str,
    found: &Found,
) -> Result<Vec<u8, A>, AllocError>
    requires { IsFound text.now found.now }
{
    match found.kind {
        Kind::Str => match str_of_body(alloc, found.body_in(text), found.body.plain) {
            Ok(value) => Ok(value.into_bytes()),
            Err(_) => Err(AllocError),
        },
        Kind::ByteStr | Kind::CStr => {
            match bytes_of_body(alloc, found.kind, found.body_in(text), found.body.plain) {
                Ok(value) => Ok(value),
                Err(_) => Err(AllocError),
            }
        }
        Kind::Char => {
            let mut value = String::new(alloc);
            value.push(char::from_u32(found.unit).unwrap_or('\0'))?;
            Ok(value.into_bytes())
        }
        Kind::Byte => {
            let mut bytes = Vec::new(alloc);
            bytes.push(u8::try_from(found.unit).unwrap_or(0))?;
            Ok(bytes)
        }
        Kind::Int | Kind::Float | Kind::Bool => Ok(Vec::new(alloc)),
    }
}

impl<'t> Literal<'t> {
    pub(crate) fn parse(text: &'t str) -> Literal<'t> {
        Literal {
            text,
            found: parse_literal(text),
        }
    }

    pub(crate) fn text(&self) -> &'t str {
        self.text
    }

    /// Returns the literal's kind, or `None` if the literal has no value.
    pub(crate) fn kind(&self) -> Option<Kind> {
        self.found.map(|found| found.kind)
    }

    /// Returns the number that an integer represents.
    pub(crate) fn integer(&self) -> Option<u128> {
        match self.found {
            Some(found) if matches!(found.kind, Kind::Int) => Some(found.magnitude),
            _ => None,
        }
    }

    /// Returns the number if the literal is an integer without a suffix.
    pub(crate) fn bare_integer(&self) -> Option<u128> {
        match self.found {
            Some(found) if found.body.suffix_at == self.text.len() => self.integer(),
            _ => None,
        }
    }

    /// Returns the text between the quotes, and its byte offset, if it is the literal's value as written.
    pub(crate) fn plain_value(&self) -> Option<(usize, &'t str)> {
        match self.found {
            Some(found)
                if found.body.plain
                    && matches!(found.kind, Kind::Str | Kind::ByteStr | Kind::CStr) => {
                Some((found.body.lo, found.body_in(self.text)))
            }
            _ => None,
        }
    }

    /// Returns the bytes of the literal's value. They are empty if the literal isn't quoted or has no value.
    pub(crate) fn value<A: Allocator + Copy>(&self, alloc: A) -> Result<Vec<u8, A>, AllocError> {
        match self.found {
            Some(found) => value_of(alloc, self.text, &found),
            None => Ok(Vec::new(alloc)),
        }
    }

    /// Appends the line of the literal: its kind, its value and its suffix.
    pub(crate) fn push_line<A: Allocator + Copy>(&self, alloc: A, out: &mut String<A>) -> Appended {
        push_found_line(alloc, out, self.text, self.found)
    }

    /// Returns the literal's suffix, or an empty text.
    pub(crate) fn suffix(&self) -> &'t str {
        match self.found {
            Some(found) => self.text.get(found.body.suffix_at..).unwrap_or(""),
            None => "",
        }
    }
}

/// Returns the integers that texts represent. A text that isn't an integer without a suffix is left out.
pub(crate) fn integers_of<A: Allocator + Copy>(
    alloc: A,
    texts: &[&str],
) -> Result<Vec<u128, A>, AllocError> {
    let mut integers = Vec::new(alloc);
    for text in texts {
        if let Some(integer) = Literal::parse(text).bare_integer() {
            integers.push(integer)?;
        }
    }
    Ok(integers)
}

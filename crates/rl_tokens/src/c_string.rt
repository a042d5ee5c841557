//! C strings: sequences of bytes without a zero byte.

ghost use Rattle.std.specs.Prelude.{◌≡◌, ◌==◌, IsTrue, IfOk, IfErr, Some, position};
ghost use Rattle.std.proofs.Common.{rules};
ghost use Rattle.std.specs.Cmp.{partial_equiv_from_equiv, and_equiv, on_equiv};
ghost use Rattle.std.specs.Cmp.Rules.{comparing};
ghost use Rattle.std.specs.Ordering.{on, eq_of_both};
ghost use Rattle.std.specs.Cmp.Lexicographic.{pointwise, nat_list_eq_equiv};
ghost use Rattle.rl_syntax.specs.Agreeing.{is_zero, has_no_zero};

use std::alloc::{Allocator, Global};
use std::fmt;
use std::marker::Model;

/// An owned C string: a sequence of bytes that contains no zero byte, also not at the end. Two C strings are equal if
/// their bytes are equal.
///
/// See the example of [`LitCStr`].
#[derive(Drop)]
pub struct CString<A: Allocator = Global> {
    bytes: Vec<u8, A>,
}

impl<A: Allocator> Model for CString<A> {
    ghost use Rattle.std.specs.Prelude.{List, ℕ, IsTrue};
    ghost use Rattle.rl_syntax.specs.Agreeing.{has_no_zero};

    ghost Value = { List ℕ };

    ghost view = { λ c. c.bytes.items };

    ghost invariant = { λ c. IsTrue (has_no_zero c.bytes.items) };
}

/// The error of [`CString::new`] for bytes that contain a zero, with the bytes and the offset of the first zero.
///
/// See the example of [`CString`].
#[derive(Drop)]
pub struct NulError<A: Allocator = Global> {
    bytes: Vec<u8, A>,
    place: usize,
}

impl<A: Allocator> Model for NulError<A> {
    ghost use Rattle.std.specs.Prelude.{◌≡◌, Some, position};
    ghost use Rattle.rl_syntax.specs.Agreeing.{is_zero};
    ghost use Rattle.rl_tokens.specs.CStrings.{ZeroInside};

    ghost Value = { ZeroInside };

    ghost view = { λ e. record { bytes = e.bytes.items; place = e.place } };

    ghost invariant = { λ e. position is_zero e.bytes.items ≡ Some e.place };
}

impl<A: Allocator> CString<A> {
    /// Creates a C string from `bytes`, or returns an error if `bytes` contains a zero.
    ///
    /// # Errors
    ///
    /// Returns a [`NulError`] if `bytes` contains a zero. The error contains the bytes and the offset of the first
    /// zero.
    pub fn new(bytes: Vec<u8, A>) -> Result<CString<A>, NulError<A>>
        ensures ok { IfOk result (λ c. c ≡ bytes.items) }
        ensures none_is_zero { IfOk result (λ c. IsTrue (has_no_zero bytes.items)) }
        ensures rejected { IfErr result (λ e. e.bytes ≡ bytes.items) }
        ensures first { IfErr result (λ e. position is_zero bytes.items ≡ Some e.place) }
    {
        match first_zero(bytes.as_slice()) {
            Some(place) => Err(NulError { bytes, place }),
            None => Ok(CString { bytes }),
        }
    }

    /// Returns the C string's bytes, borrowed. There is no zero at the end.
    pub fn as_bytes(&self) -> &[u8]
        ensures bytes { result.now ≡ self.now }
        ensures none_is_zero { IsTrue (has_no_zero result.now) }
    {
        self.bytes.as_slice()
    }
}

/// Returns the offset of the first zero in `bytes`, or `None` if there is none.
fn first_zero(bytes: &[u8]) -> Option<usize>
    ensures { result ≡ position is_zero bytes.now }
{
    bytes.iter().position(|b| *b == 0)
}

impl<A: Allocator> NulError<A> {
    /// Returns the byte offset of the first zero in the rejected bytes.
    pub fn nul_position(&self) -> usize
        ensures place { result ≡ self.now.place }
        ensures first { position is_zero self.now.bytes ≡ Some result }
    {
        self.place
    }

    /// Returns the rejected bytes, which were passed to [`CString::new`].
    pub fn into_vec(self) -> Vec<u8, A>
        ensures { result.items ≡ self.bytes }
    {
        let NulError { bytes, place: _ } = self;
        bytes
    }
}

impl<A: Allocator> PartialEq for CString<A> {
    ghost eq = { λ a b. pointwise ◌==◌ a b };

    ghost laws = { partial_equiv_from_equiv nat_list_eq_equiv };

    fn eq(&self, other: &Self) -> bool {
        self.as_bytes() == other.as_bytes()
    }
}

impl<A: Allocator> Eq for CString<A> {
    ghost laws = { nat_list_eq_equiv };
}

impl<A: Allocator> PartialEq for NulError<A> {
    ghost eq = { eq_of_both (on (λ e. e.bytes) (pointwise ◌==◌)) (on (λ e. e.place) ◌==◌) };

    ghost laws = { partial_equiv_from_equiv (and_equiv (on_equiv (λ e. e.bytes) nat_list_eq_equiv)
        (on_equiv (λ e. e.place) (Prim.search (comparing, rules)))) };

    fn eq(&self, other: &Self) -> bool {
        self.bytes == other.bytes && self.place == other.place
    }
}

impl<A: Allocator> Eq for NulError<A> {
    ghost laws = { and_equiv (on_equiv (λ e. e.bytes) nat_list_eq_equiv)
        (on_equiv (λ e. e.place) (Prim.search (comparing, rules))) };
}

impl<A: Allocator> fmt::Debug for CString<A> {
    fn fmt<W: fmt::Write>(&self, f: &mut fmt::Formatter<W>) -> fmt::Result {
        let bytes = &self.bytes;
        write!(f, "CString({bytes:?})")
    }
}

impl<A: Allocator> fmt::Debug for NulError<A> {
    fn fmt<W: fmt::Write>(&self, f: &mut fmt::Formatter<W>) -> fmt::Result {
        let bytes = &self.bytes;
        let place = self.place;
        write!(f, "NulError({place}, {bytes:?})")
    }
}

//! The types of attributes, which are settings `name = literal`, and of lists of them.

ghost use Rattle.std.proofs.Props.{props};
ghost use Rattle.rl_attributes.specs.Entries.{AreReadValues, EntriesDiffer};

mod name;
mod take;
mod whole;

use rl_tokens::Span;
use rust_literals::Lit;
use std::alloc::{Allocator, Global};
pub use whole::read;

/// An attribute, `name = literal`: a name, and the literal that the name is set to.
#[derive(Drop)]
pub struct Entry<A: Allocator = Global> {
    /// The attribute's name.
    pub name: String<A>,
    /// The span of the attribute's name.
    pub span: Span,
    /// The literal that the name is set to. The value is `Verbatim` if the text isn't a valid literal or is an integer
    /// above 128 bits.
    pub value: Lit<A>,
}

/// A list of attributes `name = literal`, in the order of their text. No two attributes have the same name, and each
/// value is parsed from the text of its literal.
///
/// See the example of [`Attrs::get`].
#[derive(Drop)]
pub struct Attrs<A: Allocator = Global> {
    entries: Vec<Entry<A>, A>,
    end: Span,
    ghost differ: { EntriesDiffer entries.items } by { Prim.hlevel props },
    ghost read: { AreReadValues entries.items } by { Prim.hlevel props },
}

impl<A: Allocator> Attrs<A> {
    ghost use Rattle.std.specs.Prelude.{◌≡◌, All, Any, IfSome};
    ghost use Rattle.std.specs.Option.{IsSomeAnd};
    ghost use Rattle.rl_attributes.specs.Entries.{HasName};
    ghost use Rattle.rl_attributes.specs.AttributeParsing.{entries_of, attrs_end};

    /// Returns the list's attributes, in the order of their text, borrowed.
    pub fn entries(&self) -> &[Entry<A>]
        ensures entries { result.now ≡ entries_of self.now }
        ensures differ { EntriesDiffer result.now }
        ensures read { AreReadValues result.now }
    {
        self.entries.as_slice()
    }

    /// Returns the span of the error for a missing name. For attributes that [`read`] parsed, the span is the empty
    /// span at the text's end. For attributes that were parsed from a parse buffer, the span is the buffer's scope.
    pub fn end_span(&self) -> Span
        ensures { result ≡ attrs_end self.now }
    {
        self.end
    }

    /// Returns the value of the attribute with the name `name`, or `None` if no attribute has that name. The search is
    /// linear.
    ///
    /// # Example
    ///
    /// ```
    /// use rl_attributes::read;
    /// use rust_literals::Lit;
    /// use std::alloc::Global;
    ///
    /// pub fn string_setting(alloc: Global, text: &str, name: &str) -> Option<String> {
    ///     let attrs = read(alloc, text, 0).ok()?;
    ///     match attrs.get(name)? {
    ///         Lit::Str(literal) => literal.value(alloc).ok(),
    ///         _ => None,
    ///     }
    /// }
    /// // string_setting(alloc, "host = \"a\", port = 80", "host") == Some("a")
    /// ```
    pub fn get(&self, name: &str) -> Option<&Lit<A>>
        // If the result is a value, each attribute with the name has that value. At most one attribute has the name.
        ensures borrowed { All (λ entry. HasName name.now entry
            → IsSomeAnd result (λ value. value.now ≡ entry.value)) (entries_of self.now) }
        // If the result isn't `None`, an attribute has the name.
        ensures named { IfSome result
            (λ value. Any (λ entry. HasName name.now entry) (entries_of self.now)) }
    {
        for entry in self.entries() {
            if entry.name.as_str() == name {
                return Some(&entry.value);
            }
        }
        None
    }
}

//! A text for output that is built from parts.

use std::alloc::{AllocError, Global};
use std::fmt::{Debug, Display};

/// A text for output that records failed allocations, so that its callers don't have to check each part.
#[derive(Drop)]
pub struct Page {
    /// The allocator of the text.
    pub(crate) alloc: Global,
    /// The text.
    pub(crate) text: String,
    /// Whether an allocation failed, or another error made the text invalid.
    pub(crate) is_short: bool,
}

impl Page {
    /// Creates an empty text.
    pub fn new(alloc: Global) -> Page {
        Page {
            alloc,
            text: String::new(alloc),
            is_short: false,
        }
    }

    /// Returns the text, or an error if it is invalid.
    pub(crate) fn finish(self) -> Result<String, AllocError> {
        if self.is_short {
            Err(AllocError)
        } else {
            Ok(self.text)
        }
    }

    /// Appends a text.
    pub fn put(&mut self, text: &str) {
        if self.text.push_str(text).is_err() {
            self.is_short = true;
        }
    }

    /// Appends two texts, one after the other.
    pub fn put_with_ending(&mut self, text: &str, ending: &str) {
        self.put(text);
        self.put(ending);
    }

    /// Appends a number in base ten, and a text.
    pub fn put_number(&mut self, number: usize, ending: &str) {
        self.put_display(&number, ending)
    }

    /// Appends `true` or `false`, and a text.
    pub fn put_bool(&mut self, value: bool, ending: &str) {
        self.put_display(&value, ending)
    }

    /// Appends the `Debug` output of a value, and a text.
    pub fn put_debug<T: Debug>(&mut self, value: &T, ending: &str) {
        if write!(self.text, "{value:?}{ending}").is_err() {
            self.is_short = true;
        }
    }

    /// Appends the `Display` output of a value, and a text.
    pub fn put_display<T: Display>(&mut self, value: &T, ending: &str) {
        if write!(self.text, "{value}{ending}").is_err() {
            self.is_short = true;
        }
    }
}

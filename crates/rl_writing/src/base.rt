//! The bases in which integers can be written.

ghost use Rattle.std.specs.Prelude.{◌≡◌};
ghost use Rattle.rl_syntax.specs.Numbers.{prefix, radix};
ghost use Rattle.rl_writing.specs.Integers.{base_view};

/// The base of an integer literal's digits.
#[derive(Clone, Copy)]
pub enum Base {
    /// Base two, as in `0b1`.
    Binary,
    /// Base eight, as in `0o7`.
    Octal,
    /// Base ten, as in `9`.
    Decimal,
    /// Base sixteen, as in `0xf`.
    Hexadecimal,
}

impl Base {
    /// Returns the base as a number: 2, 8, 10 or 16.
    pub fn radix(self) -> u8
        ensures { result ≡ radix (base_view self) }
    {
        match self {
            Base::Binary => 2,
            Base::Octal => 8,
            Base::Decimal => 10,
            Base::Hexadecimal => 16,
        }
    }

    /// Returns the prefix of an integer literal in the base: `0b`, `0o`, `0x`, or an empty string for base ten.
    pub fn prefix(self) -> &'static str
        ensures { result.now ≡ prefix (base_view self) }
    {
        match self {
            Base::Binary => "0b",
            Base::Octal => "0o",
            Base::Decimal => "",
            Base::Hexadecimal => "0x",
        }
    }
}

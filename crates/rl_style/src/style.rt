//! Styles: the rules by which literals are rewritten.

/// The case of letters in rewritten literals.
#[derive(Clone, Copy)]
pub enum Case {
    Lower,
    Upper,
}

/// The separator between a number and its suffix: nothing, or an underscore.
#[derive(Clone, Copy)]
pub enum Separator {
    Nothing,
    Underscore,
}

/// The sizes of the groups into which a number's digits are divided, with an underscore between two groups.
///
/// Each base has its size: the number of digits in a group. With size 0, the numbers of the base aren't divided into groups.
#[derive(Clone, Copy)]
pub struct DigitGroups {
    /// The group size of binary numbers (`0b`): 4 in `0b1_0000`.
    pub binary: usize,
    /// The group size of octal numbers (`0o`).
    pub octal: usize,
    /// The group size of decimal numbers, including floats: 3 in `1_000`.
    pub decimal: usize,
    /// The group size of hexadecimal numbers (`0x`).
    pub hexadecimal: usize,
    /// The smallest number of digits that is divided into groups. With 5 and groups of 3, `1000` has no underscore, and
    /// `10_000` has one.
    pub least: usize,
}

/// A style: the rules by which literals are rewritten. Each field is a separate rule. A rule with the value `None` or `false`,
/// as in [`Style::KEEP`], changes nothing.
///
/// No rule changes a number whose suffix may be mistyped, since `2_32` may be meant as `2_i32`. Such a number has no suffix, and
/// ends with `_8`, `_16`, `_32` or `_64`. It is an integer, or a float with an exponent.
#[derive(Clone, Copy)]
pub struct Style {
    /// The case of the digits of hexadecimal integers.
    pub hex_digits: Option<Case>,
    /// Whether underscores in numbers are dropped: `1_000_u8` becomes `1000u8`. A number whose suffix begins with `b`, `o` or
    /// `x` keeps them, since `0_b1` without its underscore would be a binary number.
    pub underscores: bool,
    /// Whether leading zeros of decimal integers are dropped: `089` becomes `89`. An integer whose suffix begins with `b`, `o`
    /// or `x` keeps them. An integer whose digits are all octal keeps them too, since `0123` may be meant as an octal number.
    pub leading_zeros: bool,
    /// The separator between a number and its suffix: `1u8` or `1_u8`. A number without a suffix loses the underscores at its
    /// end. With `Nothing`, a number whose suffix begins with `b`, `o` or `x` keeps the underscores.
    pub suffix_separator: Option<Separator>,
    /// The sizes of a number's digit groups. Groups are counted from the last digit, and in a float's fraction from the first.
    /// The digits of an exponent aren't divided into groups.
    ///
    /// If the style drops leading zeros, it drops them before it groups the digits. If it drops underscores, only those
    /// between groups remain. Otherwise underscores at the end of a sequence of digits remain too. A number whose suffix
    /// begins with `b`, `o` or `x` is unchanged.
    pub digit_groups: Option<DigitGroups>,
    /// Whether a float that ends with its dot gets a zero: `1.` becomes `1.0`. The number is equal, but `concat!` makes a
    /// different text from it.
    pub float_zero: bool,
    /// The case of the letter before a float's exponent: `1e5` or `1E5`.
    pub exponent_letter: Option<Case>,
    /// Whether the `+` of a float's exponent is dropped: `1e+5` becomes `1e5`.
    pub exponent_plus: bool,
    /// The case of the hexadecimal digits in `\x` and `\u{..}` escapes.
    pub escape_digits: Option<Case>,
    /// Whether underscores and leading zeros in `\u{..}` escapes are dropped: `\u{00_e9}` becomes `\u{e9}`.
    pub code_digits: bool,
    /// Whether a numeric escape of a visible ASCII character is replaced by the character: `"\x41"` becomes `"A"`. The
    /// literal's closing quote and a backslash get a backslash before them.
    pub ascii_escapes: bool,
    /// Whether numeric escapes of LF, CR, TAB and NUL are replaced by `\n`, `\r`, `\t` and `\0`. The escape of a NUL is kept
    /// before a digit, since `\01` is octal in other languages.
    pub named_escapes: bool,
    /// Whether the backslash before a quote that doesn't close the literal is dropped: `"\'"` becomes `"'"`.
    pub quote_escapes: bool,
    /// Whether a raw string gets the fewest hashes that its content allows.
    pub raw_hashes: bool,
    /// Whether a raw string that contains neither a backslash nor a double quote becomes a string with escapes: `r"a"` becomes
    /// `"a"`. After a hash or a dot, a raw string without `b` or `c` stays raw: `1.r"a"` is three tokens, and `1."a"` is two.
    pub raw: bool,
    /// Whether invisible and bidirectional characters are replaced by numeric escapes: a control character except LF, CR and
    /// TAB, as `\x1b`, and a character that changes the direction of text or has no width, as `\u{202e}`. A raw string that
    /// contains one becomes a string with escapes. But after a hash or a dot, a raw string without `b` or `c` stays raw.
    pub hidden: bool,
}

impl Style {
    /// The style in which no rule is set. It changes nothing.
    pub const KEEP: Style = Style {
        hex_digits: None,
        underscores: false,
        leading_zeros: false,
        suffix_separator: None,
        digit_groups: None,
        float_zero: false,
        exponent_letter: None,
        exponent_plus: false,
        escape_digits: None,
        code_digits: false,
        ascii_escapes: false,
        named_escapes: false,
        quote_escapes: false,
        raw_hashes: false,
        raw: false,
        hidden: false,
    };
}

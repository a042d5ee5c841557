//! An example of a function that calls `rl_writing`.

ghost use Rattle.std.specs.Prelude.{◌≤◌, ◌+◌, ◌*◌, [], length, take};
ghost use Rattle.std.specs.Str.{chars};
ghost use Rattle.rl_syntax.specs.declared.kind.Kind.TheVariants.{Str};
ghost use Rattle.rl_syntax.specs.Reading.{Characters, Reads};

use rl_writing::write_str_ascii_into;

/// Writes `text` to `out` as a string literal in ASCII, and returns the literal's length in bytes.
pub fn write_ascii_string_literal(text: &str, out: &mut [u8]) -> usize
    requires { 4 * length text.now + 2 ≤ length out.old }
    ensures reads { Reads (chars (take result out.new)) Str (Characters (chars text.now)) [] }
{
    write_str_ascii_into(text, out)
}

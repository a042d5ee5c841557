//! Writers of bytes into a slice that the caller passes.
//!
//! Each function's parameter `at` is the number of bytes that the slice `out` already holds. The result is the number
//! of bytes that it holds afterwards. Nothing is allocated.

ghost use Rattle.std.specs.Prelude.{◌≡◌, ◌+◌, ◌≤◌, ◌++◌, ◌∷◌, [], length, take, encode_utf8};
ghost use Rattle.std.specs.Str.{IsUtf8};

/// Writes `bytes` after the first `at` bytes of the slice `out`, and returns the offset after the written bytes.
#[inline(always)]
pub fn put(out: &mut [u8], at: usize, bytes: &[u8]) -> usize
    requires { at + length bytes.now ≤ length out.old }
    ensures end { result ≡ at + length bytes.now }
    ensures bytes { take result out.new ≡ take at out.old ++ bytes.now }
    ensures len { length out.new ≡ length out.old }
{
    let end = at + bytes.len();
    out[at..end].copy_from_slice(bytes);
    end
}

/// Writes one byte after the first `at` bytes of the slice `out`, and returns the offset after the written byte.
#[inline(always)]
pub fn put_byte(out: &mut [u8], at: usize, byte: u8) -> usize
    requires { at + 1 ≤ length out.old }
    ensures end { result ≡ at + 1 }
    ensures bytes { take result out.new ≡ take at out.old ++ byte ∷ [] }
    ensures len { length out.new ≡ length out.old }
{
    out[at] = byte;
    at + 1
}

/// Writes a text after the first `at` bytes of the slice `out`, and returns the offset after the written bytes. All
/// bytes before that offset are UTF-8 if the first `at` bytes were.
#[inline(always)]
pub fn put_text(out: &mut [u8], at: usize, text: &str) -> usize
    requires { at + length text.now ≤ length out.old }
    ensures end { result ≡ at + length text.now }
    ensures bytes { take result out.new ≡ take at out.old ++ text.now }
    ensures utf8 { IsUtf8 (take at out.old) → IsUtf8 (take result out.new) }
    ensures len { length out.new ≡ length out.old }
{
    put(out, at, text.as_bytes())
}

/// Writes a character's UTF-8 bytes after the first `at` bytes of the slice `out`, and returns the offset after the
/// written bytes. All bytes before that offset are UTF-8 if the first `at` bytes were.
#[inline(always)]
pub fn put_char(out: &mut [u8], at: usize, c: char) -> usize
    requires { at + length (encode_utf8 c) ≤ length out.old }
    ensures end { result ≡ at + length (encode_utf8 c) }
    ensures bytes { take result out.new ≡ take at out.old ++ encode_utf8 c }
    ensures utf8 { IsUtf8 (take at out.old) → IsUtf8 (take result out.new) }
    ensures len { length out.new ≡ length out.old }
{
    put_text(out, at, c.encode_utf8(&mut [0; 4]))
}

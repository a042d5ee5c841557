//! Returns slices of texts by byte offsets.

ghost use Rattle.std.specs.Prelude.{◌≡◌, ℕ, List};
ghost use Rattle.std.specs.Str.{chars};
ghost use Rattle.rl_restyle.specs.Places.{IsTextBetween};

/// Returns the part of the text between the byte offsets `lo` and `hi`.
pub fn between(text: &str, lo: usize, hi: usize) -> &str
    requires { (middle : List ℕ) × IsTextBetween (chars text.now) lo hi middle }
    ensures { (middle : List ℕ) → IsTextBetween (chars text.now) lo hi middle → chars result.now ≡ middle }
{
    &text[lo..hi]
}

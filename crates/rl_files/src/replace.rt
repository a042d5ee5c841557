//! A trait for types that replace files.

use crate::tree::PathError;
use std::alloc::Allocator;

/// A type that replaces files. A file has either its old or its new bytes, and no mixture of both.
pub trait Replace {
    ghost use Rattle.std.specs.Prelude.{List, None, Option, MatchResult, IfSome, ◌≡◌, ◌⊎◌, ℕ, Some};
    ghost use Rattle.rl_files.specs.declared.tree.PathError.{PathError as WhyNot};
    ghost use Rattle.rl_files.specs.declared.tree.PathError.TheVariants.{OutOfMemory};
    ghost use Rattle.rl_files.specs.Replacements.{Replacement, replacing, handed_too};

    ghost handed: { Self → Option (List Replacement) };

    ghost rejects: { Self → Option (List ℕ → Option WhyNot) };

    /// Replaces the file at `path` with the bytes `new`. `old` are the bytes of the file when it was read.
    ///
    /// # Errors
    ///
    /// Returns the reason why the file can't be replaced, or `OutOfMemory` if an allocation fails. The file is unchanged then.
    fn replace<A: Allocator + Copy>(
        &mut self,
        alloc: A,
        path: &str,
        old: &[u8],
        new: &[u8],
    ) -> Result<(), PathError>
        ensures handed { MatchResult result
            (λ _. handed self.new ≡ handed_too (replacing path.now old.now new.now) (handed self.old))
            (λ _. handed self.new ≡ handed self.old) }
        ensures rejected { MatchResult result
            (λ _. IfSome (rejects self.old) (λ why. why path.now ≡ None))
            (λ error. (error ≡ OutOfMemory) ⊎ IfSome (rejects self.old) (λ why. why path.now ≡ Some error)) }
        ensures rejects_as_before { rejects self.new ≡ rejects self.old };
}

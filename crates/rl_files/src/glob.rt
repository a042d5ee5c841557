//! Matches paths against patterns in the syntax of gitignore files, without allocations. The time grows with the product of the
//! lengths of pattern and path.

ghost use Rattle.std.specs.Prelude.{◌≡◌, [], ◌∷◌, false, MatchBool, MatchOption};
ghost use Rattle.rl_files.specs.declared.glob.Stop.TheVariants.{Decided};
ghost use Rattle.rl_files.specs.Globs.{after_slash as slash_passed, ends_in_slash as slash_ends, excludes as excluded_by, glob_matches, has_slash as slash_in, is_byte_match as byte_matches, is_double_star as double_star, is_excluded as excluded, is_star, name_matches, parts_left, path_matches, path_parts, pattern_left, pattern_parts, borrowed_texts, without_slash as slash_cut};
ghost use Rattle.rl_files.specs.GlobStops.{borrowed_bytes, says, StopsAs, StopsAfter};

/// The result of matching a pattern up to its first star. `Decided` has the final result. `Star` has the pattern after the star,
/// and the unmatched part of the name or path.
#[derive(Clone, Copy)]
enum Stop<P, T> {
    Decided(bool),
    Star(P, T),
}

/// Whether matching a pattern failed before its first star was reached.
fn is_failed<P: Copy, T: Copy>(stop: Stop<P, T>) -> bool
    ensures { MatchBool result (stop ≡ Decided false) (stop ≡ Decided false → ⊥) }
{
    matches!(stop, Stop::Decided(false))
}

/// Returns the first byte and the bytes after it, or `None` for an empty list.
fn first_byte(bytes: &[u8]) -> Option<(u8, &[u8])>
    ensures { MatchOption result (bytes.now ≡ []) (λ r. bytes.now ≡ r.0 ∷ r.1.now) }
{
    match bytes {
        [byte, rest @ ..] => Some((*byte, rest)),
        [] => None,
    }
}

/// Whether `p`, a byte of a pattern other than `*`, matches `byte`. A `?` matches any byte.
fn is_byte_match(p: u8, byte: u8) -> bool
    ensures { result ≡ byte_matches p byte }
{
    p == b'?' || p == byte
}

/// Matches a name against a pattern, up to the pattern's first `*`.
fn name_stop<'p, 'n>(pattern: &'p [u8], name: &'n [u8]) -> Stop<&'p [u8], &'n [u8]>
    ensures { StopsAs is_star byte_matches borrowed_bytes borrowed_bytes pattern.now name.now result }
{
    let mut left = pattern;
    let mut bytes = name;
    while let Some((p, after)) = first_byte(left) {
        if p == b'*' {
            return Stop::Star(after, bytes);
        }
        let Some((byte, rest)) = first_byte(bytes) else {
            return Stop::Decided(false);
        };
        if !is_byte_match(p, byte) {
            return Stop::Decided(false);
        }
        left = after;
        bytes = rest;
    }
    Stop::Decided(bytes.is_empty())
}

/// Matches a pattern that follows a `*` against each end of `name`, up to the pattern's next `*`. Returns the first result that
/// didn't fail.
fn name_stop_after<'p, 'n>(pattern: &'p [u8], name: &'n [u8]) -> Stop<&'p [u8], &'n [u8]>
    ensures { StopsAfter is_star byte_matches borrowed_bytes borrowed_bytes pattern.now name.now result }
{
    let mut left = name;
    loop {
        let stop = name_stop(pattern, left);
        if !is_failed(stop) {
            return stop;
        }
        match first_byte(left) {
            Some((_, rest)) => left = rest,
            None => return Stop::Decided(false),
        }
    }
}

/// Whether the pattern of a name matches the whole name. Its `*` matches any number of bytes.
fn is_name_match(pattern: &[u8], name: &[u8]) -> bool
    ensures { result ≡ name_matches pattern.now name.now }
{
    let mut stop = name_stop(pattern, name);
    while let Stop::Star(pattern, name) = stop {
        stop = name_stop_after(pattern, name);
    }
    matches!(stop, Stop::Decided(true))
}

/// Returns the first name in a path, and the path after its slash, or `None` if it has no slash.
fn first_part(path: &[u8]) -> (&[u8], Option<&[u8]>)
    ensures { path_parts path.now ≡ result.0.now ∷ parts_left result.1 }
{
    for at in 0..path.len() {
        if path[at] == b'/' {
            return (&path[..at], Some(&path[at + 1..]));
        }
    }
    (path, None)
}

/// Whether a part of a pattern is `**`, which matches any number of names.
fn is_double_star(part: &[u8]) -> bool
    ensures { result ≡ double_star part.now }
{
    part == b"**".as_slice()
}

/// Returns the first part of a pattern, and the pattern after its slash. After `**` at the pattern's end a part `*` follows, so
/// that at least one name must match.
fn first_of_pattern(pattern: &[u8]) -> (&[u8], Option<&[u8]>)
    ensures { pattern_parts pattern.now ≡ result.0.now ∷ pattern_left result.1 }
{
    match first_part(pattern) {
        (part, Some(after)) => (part, Some(after)),
        (part, None) if is_double_star(part) => (part, Some(b"*".as_slice())),
        (part, None) => (part, None),
    }
}

/// Matches a path against a pattern, name by name, up to the pattern's first `**`. `None` is an empty pattern or path.
fn path_stop<'p, 'n>(
    pattern: Option<&'p [u8]>,
    path: Option<&'n [u8]>,
) -> Stop<Option<&'p [u8]>, Option<&'n [u8]>>
    ensures { StopsAs double_star name_matches pattern_left parts_left
        (pattern_left pattern.entry) (parts_left path.entry) result }
{
    let mut left = pattern;
    let mut names = path;
    while let Some(parts) = left {
        let (part, after) = first_of_pattern(parts);
        if is_double_star(part) {
            return Stop::Star(after, names);
        }
        let Some(some) = names else {
            return Stop::Decided(false);
        };
        let (name, rest) = first_part(some);
        if !is_name_match(part, name) {
            return Stop::Decided(false);
        }
        left = after;
        names = rest;
    }
    Stop::Decided(names.is_none())
}

/// Matches a pattern that follows `**` against each end of a path, up to the pattern's next `**`. Returns the first result that
/// didn't fail. `None` is an empty pattern or path.
fn path_stop_after<'p, 'n>(
    pattern: Option<&'p [u8]>,
    path: Option<&'n [u8]>,
) -> Stop<Option<&'p [u8]>, Option<&'n [u8]>>
    ensures { StopsAfter double_star name_matches pattern_left parts_left
        (pattern_left pattern.entry) (parts_left path.entry) result }
{
    let mut left = path;
    loop {
        let stop = path_stop(pattern, left);
        if !is_failed(stop) {
            return stop;
        }
        match left {
            Some(names) => left = first_part(names).1,
            None => return Stop::Decided(false),
        }
    }
}

/// Whether a pattern matches a path, where `first` is the result up to the pattern's first `**`.
fn is_path_match(first: Stop<Option<&[u8]>, Option<&[u8]>>) -> bool
    ensures { result ≡ says double_star name_matches pattern_left parts_left first.entry }
{
    let mut stop = first;
    while let Stop::Star(pattern, path) = stop {
        stop = path_stop_after(pattern, path);
    }
    matches!(stop, Stop::Decided(true))
}

/// Whether a path ends with a slash, as the path of a directory does.
pub fn ends_in_slash(path: &[u8]) -> bool
    ensures { result ≡ slash_ends path.now }
{
    path.ends_with(b"/".as_slice())
}

/// Returns a path without the slash at its end.
fn without_slash(path: &[u8]) -> &[u8]
    ensures { result.now ≡ slash_cut path.now }
{
    if ends_in_slash(path) {
        &path[..path.len() - 1]
    } else {
        path
    }
}

/// Whether a path contains a slash.
fn has_slash(path: &[u8]) -> bool
    ensures { result ≡ slash_in path.now }
{
    path.contains(&b'/')
}

/// Returns a path without the slash at its start.
fn after_slash(path: &[u8]) -> &[u8]
    ensures { result.now ≡ slash_passed path.now }
{
    match path {
        [b'/', rest @ ..] => rest,
        _ => path,
    }
}

/// Whether a pattern matches a path. Neither ends with a slash.
///
/// A pattern with a slash matches the whole path. A pattern without one matches the last name of the path.
fn is_glob_match(pattern: &[u8], path: &[u8]) -> bool
    ensures { result ≡ glob_matches pattern.now path.now }
{
    if has_slash(pattern) {
        is_path_match(path_stop(Some(after_slash(pattern)), Some(path)))
    } else {
        is_path_match(Stop::Star(Some(pattern), Some(path)))
    }
}

/// Whether a pattern matches a path. The path of a directory ends with a slash, and a pattern that ends with a slash matches only
/// directories.
fn excludes(pattern: &[u8], path: &[u8]) -> bool
    ensures { result ≡ excluded_by pattern.now path.now }
{
    (!ends_in_slash(pattern) || ends_in_slash(path))
        && is_glob_match(without_slash(pattern), without_slash(path))
}

/// Returns `true` if at least one pattern matches a path. The path of a directory ends with a slash.
pub fn is_excluded(patterns: &[&str], path: &[u8]) -> bool
    ensures { result ≡ excluded (borrowed_texts patterns.now) path.now }
{
    let mut rest = patterns;
    while let [pattern, after @ ..] = rest {
        if excludes(pattern.as_bytes(), path) {
            return true;
        }
        rest = after;
    }
    false
}

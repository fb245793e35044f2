//! A path's last segment, its folder, and a name without the ending of a packed file.
ghost use Rattle.std.specs.Prelude.{◌≡◌, ◌+◌, ℕ};
ghost use Rattle.acng_base.specs.Names.{base_name, folder_of, from_last, packings, without_ending};

/// What stands before the last slash, nothing where there is none, and the last segment.
pub fn cut_last(path: &[u8]) -> (&[u8], &[u8])
    ensures last { result.1.now ≡ from_last 0 path.now }
    ensures before { (n : ℕ) → from_last n result.0.now ≡ from_last (n + 1) path.now }
    ensures folder { result.0.now ≡ folder_of path.now }
{
    match path.iter().rposition(|b| *b == b'/') {
        Some(at) => (&path[..at], &path[at + 1..]),
        None => (b"", path),
    }
}

/// The last segment.
pub fn last_segment(path: &[u8]) -> &[u8]
    ensures { result.now ≡ from_last 0 path.now }
{
    let (_, last) = cut_last(path);
    last
}

/// The last segment without one ending of a packed file: `Packages` for `main/Packages.xz`.
pub fn base_name(path: &[u8]) -> &[u8]
    ensures { result.now ≡ base_name path.now }
{
    unpacked(last_segment(path))
}

/// The name without one ending of a packed file.
pub fn unpacked(name: &[u8]) -> &[u8]
    ensures { result.now ≡ without_ending packings name.now }
{
    if let Some(base) = name.strip_suffix(b".gz") {
        return base;
    }
    if let Some(base) = name.strip_suffix(b".xz") {
        return base;
    }
    if let Some(base) = name.strip_suffix(b".bz2") {
        return base;
    }
    if let Some(base) = name.strip_suffix(b".lzma") {
        return base;
    }
    if let Some(base) = name.strip_suffix(b".zst") {
        return base;
    }
    name
}

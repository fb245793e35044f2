//! What a segment's bytes tell.
ghost use Rattle.std.specs.Prelude.{◌≡◌, bytes_eq};
ghost use Rattle.std.specs.List.{list_any, list_all};
ghost use Rattle.acng_base.specs.Names.{begins_with, has_ending};
ghost use Rattle.acng_class.specs.Classes.{hash_names, index_fronts, index_names, is_hex_digit, solid_endings};

pub(crate) fn is_hex(text: &[u8]) -> bool
    ensures { result ≡ list_all is_hex_digit text.now }
{
    text.iter().all(|b| b.is_ascii_hexdigit())
}

pub(crate) fn is_hash_name(text: &[u8]) -> bool
    ensures { result ≡ list_any (bytes_eq text.now) hash_names }
{
    text == b"MD5Sum".as_slice()
        || text == b"SHA1".as_slice()
        || text == b"SHA256".as_slice()
        || text == b"SHA512".as_slice()
}

pub(crate) fn is_index_name(base: &[u8]) -> bool
    ensures { result ≡ list_any (bytes_eq base.now) index_names }
{
    base == b"Release".as_slice()
        || base == b"InRelease".as_slice()
        || base == b"Release.gpg".as_slice()
        || base == b"Packages".as_slice()
        || base == b"Sources".as_slice()
        || base == b"Index".as_slice()
        || base == b"ls-lR".as_slice()
        || base == b"MD5SUMS".as_slice()
        || base == b"SHA256SUMS".as_slice()
}

pub(crate) fn has_index_front(base: &[u8]) -> bool
    ensures { result ≡ list_any (begins_with base.now) index_fronts }
{
    base.starts_with(b"Contents-")
        || base.starts_with(b"Translation-")
        || base.starts_with(b"Components-")
        || base.starts_with(b"Commands-")
        || base.starts_with(b"icons-")
}

pub(crate) fn ends_solid(name: &[u8]) -> bool
    ensures { result ≡ list_any (has_ending name.now) solid_endings }
{
    name.ends_with(b".deb")
        || name.ends_with(b".udeb")
        || name.ends_with(b".ddeb")
        || name.ends_with(b".dsc")
        || name.ends_with(b".gz")
        || name.ends_with(b".xz")
        || name.ends_with(b".bz2")
        || name.ends_with(b".lzma")
        || name.ends_with(b".zst")
        || name.ends_with(b".asc")
        || name.ends_with(b".changes")
        || name.ends_with(b".buildinfo")
}

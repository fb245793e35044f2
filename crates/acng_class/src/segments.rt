//! What the segments of a path tell together.
ghost use Rattle.std.specs.Prelude.{◌≡◌};
ghost use Rattle.acng_class.specs.Classes.{has_installer};

/// Whether a segment begins as an installer's folder does.
pub(crate) fn has_installer(path: &[u8]) -> bool
    ensures { result ≡ has_installer path.now }
{
    path.split(|b| *b == b'/')
        .any(|segment| segment.starts_with(b"installer-"))
}

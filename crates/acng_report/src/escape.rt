//! Text within HTML: `&`, `<` and `>` are written as `&amp;`, `&lt;` and `&gt;`, so that no path is read as a tag.
ghost use Rattle.std.specs.Prelude.{◌≡◌, ◌++◌, true, OnOk, position};
ghost use Rattle.acng_report.specs.Pages.{is_escaped, escaped_byte, escaped};

use acng_base::NoMemory;

/// Appends the text as it stands within HTML. What needs no escape is copied in whole pieces.
pub fn push_escaped(page: &mut Vec<u8>, text: &[u8]) -> Result<(), NoMemory>
    ensures { OnOk result (page.new.items ≡ page.old.items ++ escaped text.now) }
{
    let mut start = 0;
    while let Some(len) = next_escaped(&text[start..]) {
        page.extend_from_slice(&text[start..start + len])?;
        page.extend_from_slice(entity(text[start + len]))?;
        start += len + 1;
    }
    page.extend_from_slice(&text[start..])?;
    Ok(())
}

// The offset of the next byte that isn't written as it is.
fn next_escaped(text: &[u8]) -> Option<usize>
    ensures { result ≡ position is_escaped text.now }
{
    text.iter()
        .position(|b| *b == b'&' || *b == b'<' || *b == b'>')
}

// What is written in its place.
fn entity(byte: u8) -> &'static [u8]
    requires { is_escaped byte ≡ true }
    ensures { result.now ≡ escaped_byte byte }
{
    match byte {
        b'&' => b"&amp;",
        b'<' => b"&lt;",
        b'>' => b"&gt;",
        _ => unreachable!(),
    }
}

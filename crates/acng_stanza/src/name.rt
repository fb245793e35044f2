//! The name of a field: printed characters but the colon, of which the first is neither `-` nor `#` (Debian Policy,
//! section 5.1).
ghost use Rattle.std.specs.Prelude.{◌≡◌};
ghost use Rattle.std.specs.List.{list_all};
ghost use Rattle.acng_stanza.specs.Stanzas.{is_name, is_name_byte};

pub fn is_name(text: &[u8]) -> bool
    ensures { result ≡ is_name text.now }
{
    !text.is_empty() && !(text[0] == b'-') && !(text[0] == b'#') && are_name_bytes(text)
}

fn are_name_bytes(text: &[u8]) -> bool
    ensures { result ≡ list_all is_name_byte text.now }
{
    text.iter().all(|b| is_name_byte(*b))
}

fn is_name_byte(b: u8) -> bool
    ensures { result ≡ is_name_byte b }
{
    0x21 <= b && b <= 0x7E && !(b == b':')
}

//! The names of a cache folder's files: `b-` for a body and `h-` for a head, and the id in 16 lower-case hexadecimal
//! digits. All other names are foreign, and so are ids of 2^63 and above.
ghost use Rattle.std.specs.Prelude.{◌≡◌, ◌↔◌, ◌++◌, ◌^◌, ◌<◌, ◌∷◌, [], ℕ, IfOk, IfSome, IsTrue, Some, string_bytes};
ghost use Rattle.acng_keeper.specs.Names.{digits_of, name_of, prefix_of};

use acng_base::NoMemory;
use hex::FromHex;
use std::alloc::Global;

/// What a file of the folder holds.
#[derive(Clone, Copy, Debug, PartialEq, Eq)]
pub enum Kind {
    Body,
    Head,
}

impl Kind {
    fn prefix(self) -> &'static str
        ensures { result.now ≡ prefix_of self }
    {
        match self {
            Kind::Body => "b-",
            Kind::Head => "h-",
        }
    }
}

/// The path of a file in the folder.
pub fn path_in(alloc: Global, folder: &str, kind: Kind, id: u64) -> Result<String, NoMemory>
    ensures { IfOk result (λ path. string_bytes path ≡ (folder.now ++ 47 ∷ []) ++ name_of kind id) }
{
    let digits = hex::encode(alloc, id.to_be_bytes())?;
    let mut path = String::from_str(alloc, folder)?;
    path.push_str("/")?;
    path.push_str(kind.prefix())?;
    path.push_str(digits.as_str())?;
    Ok(path)
}

/// The id of a name of this kind. None where the name is foreign.
pub fn id_of(kind: Kind, name: &[u8]) -> Option<u64>
    ensures reads { IfSome result (λ id. (id < 2 ^ 63) × (name.now ≡ name_of kind id)) }
    ensures all { (id : ℕ) → id < 2 ^ 63 → name.now ≡ name_of kind id → result ≡ Some id }
{
    let Some(digits) = name.strip_prefix(kind.prefix().as_bytes()) else {
        return None;
    };
    id_of_digits(digits)
}

fn id_of_digits(digits: &[u8]) -> Option<u64>
    ensures reads { IfSome result (λ id. (id < 2 ^ 63) × (digits.now ≡ digits_of id)) }
    ensures all { (id : ℕ) → id < 2 ^ 63 → digits.now ≡ digits_of id → result ≡ Some id }
{
    let Ok(bytes) = <[u8; 8] as FromHex>::from_hex(digits) else {
        return None;
    };
    let id = u64::from_be_bytes(bytes);
    if id >= 1 << 63 {
        return None;
    }
    if !is_spelled(id, digits) {
        return None;
    }
    Some(id)
}

// Whether the id is written so: there is one spelling.
fn is_spelled(id: u64, digits: &[u8]) -> bool
    ensures { IsTrue result ↔ (digits.now ≡ digits_of id) }
{
    let mut spelled = [0u8; 16];
    match hex::encode_to_slice(id.to_be_bytes(), &mut spelled) {
        Ok(()) => spelled.as_slice() == digits,
        Err(_) => false,
    }
}

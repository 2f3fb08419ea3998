// Names of the things in files.
ghost use Rattle.aeth_base.specs.Limits.{max_name_bytes};
ghost use Rattle.aeth_base.specs.Name.{is_name, is_name_byte, name_of};
ghost use Rattle.std.specs.List.{list_all};
ghost use Rattle.std.specs.Prelude.{◌≡◌, ◌≤◌, ◌∷◌, [], true, length};

use crate::MAX_NAME_BYTES;
use std::hash::{Hash, Hasher};
use std::marker::Model;

/// A name: 1 to 32 bytes of `a-z`, `0-9` and `_`. It is seen as the list of its bytes.
#[derive(Clone, Copy, Debug)]
pub struct Name {
    bytes: [u8; MAX_NAME_BYTES],
    len: u8,
}

impl Model for Name {
    ghost use Rattle.std.specs.Prelude.{List, ℕ, take};
    ghost use Rattle.std.specs.Coded.{coded_list, coded_ℕ};

    ghost Value = { List ℕ };

    ghost coded = { coded_list coded_ℕ };

    ghost use Rattle.aeth_base.specs.NameBytes.{IsPadded, inside_of, inside_of-view};

    ghost view = { λ name. take name.len name.bytes };

    ghost invariant = { λ name. IsPadded name.bytes name.len };

    ghost inverse = { inside_of };

    ghost inverse_ok = { inside_of-view };
}

// Names are equal where their bytes are.
impl PartialEq for Name {
    ghost use Rattle.std.specs.Str.{bytes_eq};
    ghost use Rattle.std.specs.Cmp.Rules.{comparing};
    ghost use Rattle.std.proofs.Common.{rules};

    ghost eq = { bytes_eq };

    ghost laws = { Prim.search (comparing, rules) };

    fn eq(&self, other: &Name) -> bool {
        self.as_bytes() == other.as_bytes()
    }
}

impl Eq for Name {
    ghost use Rattle.std.specs.Cmp.Rules.{comparing};
    ghost use Rattle.std.proofs.Common.{rules};

    ghost laws = { Prim.search (comparing, rules) };
}

// One write a name, where a derived impl would make one for each byte.
impl Hash for Name {
    ghost use Rattle.std.specs.Cmp.Rules.{hashing};
    ghost use Rattle.std.proofs.Common.{rules};

    ghost hash_input = { λ name. name ∷ [] };

    ghost respects_eq = { Prim.search (hashing, rules) };

    fn hash<H: Hasher>(&self, state: &mut H) {
        state.write(self.as_bytes());
    }
}

impl Name {
    /// The name of these bytes; `None` exactly where they are no name.
    pub fn new(bytes: &[u8]) -> Option<Name>
        ensures { result ≡ name_of bytes.now }
    {
        if !is_name(bytes) {
            return None;
        }
        let mut padded = [0; MAX_NAME_BYTES];
        padded[..bytes.len()].copy_from_slice(bytes);
        Some(Name {
            bytes: padded,
            len: bytes.len() as u8,
        })
    }

    /// The bytes of the name.
    pub fn as_bytes(&self) -> &[u8]
        ensures bytes { result.now ≡ self.now }
        ensures named { is_name self.now ≡ true }
    {
        &self.bytes[..self.len as usize]
    }
}

fn is_name(bytes: &[u8]) -> bool
    ensures exact { result ≡ is_name bytes.now }
    ensures short { result ≡ true → length bytes.now ≤ max_name_bytes }
{
    1 <= bytes.len() && bytes.len() <= MAX_NAME_BYTES && has_name_bytes(bytes)
}

fn has_name_bytes(bytes: &[u8]) -> bool
    ensures { result ≡ list_all is_name_byte bytes.now }
{
    bytes.iter().all(|byte| is_name_byte(*byte))
}

fn is_name_byte(byte: u8) -> bool
    ensures { result ≡ is_name_byte byte }
{
    (b'a' <= byte && byte <= b'z') || (b'0' <= byte && byte <= b'9') || byte == b'_'
}

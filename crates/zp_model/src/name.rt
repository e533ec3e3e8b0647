//! Names of zones and labels of blocks.
ghost use Rattle.std.specs.Prelude.{◌≡◌, ◌≤◌, ◌↔◌, ℕ, List, length, IsTrue, IsSome, IfSome};
ghost use Rattle.zp_model.specs.Naming.{IsName};

use crate::constants::LONGEST_NAME;
use std::marker::Model;
use std::str;

/// A zone's name or a block's label: 1 to 8 ASCII letters or digits. Contracts see its bytes.
#[derive(Clone, Copy, PartialEq, Eq, Debug, Drop)]
pub struct Name {
    len: usize,
    bytes: [u8; LONGEST_NAME],
}

impl Model for Name {
    ghost use Rattle.std.specs.Prelude.{◌≡◌, List, ℕ, length, take};
    ghost use Rattle.std.proofs.Common.{sym};

    ghost Value = { List ℕ };

    ghost use Rattle.zp_model.specs.Naming.{IsName, padded};

    ghost view = { λ n. take n.len n.bytes };

    ghost invariant = { λ n. IsName (take n.len n.bytes) × (n.len ≡ length (take n.len n.bytes)) × (n.bytes ≡ padded (take n.len n.bytes)) };

    ghost inverse = { λ l. record { len = length l; bytes = padded l } };

    ghost inverse_ok = { λ n h i. record { len = sym h.1 i; bytes = sym h.2 i } };
}

/// Whether a word may be a name.
fn is_name(word: &[u8]) -> bool
    ensures { IsTrue result ↔ IsName word.now }
{
    !word.is_empty() && word.len() <= LONGEST_NAME && word.iter().all(|b| b.is_ascii_alphanumeric())
}

impl Name {
    /// The name of these bytes, where they are one.
    pub fn new(word: &[u8]) -> Option<Name>
        ensures some { IfSome result (λ n. n ≡ word.now) }
        ensures when { IsSome result ↔ IsName word.now }
    {
        if !is_name(word) {
            return None;
        }
        let len = word.len();
        let mut bytes = [0; LONGEST_NAME];
        bytes[..len].copy_from_slice(word);
        Some(Name { len, bytes })
    }

    pub fn as_str(&self) -> &str
        ensures { result.now ≡ self.now }
    {
        str::from_utf8(self.as_bytes()).unwrap()
    }

    pub fn as_bytes(&self) -> &[u8]
        ensures same { result.now ≡ self.now }
        ensures name { IsName result.now }
    {
        &self.bytes[..self.len]
    }
}

ghost use Rattle.std.specs.Prelude.{◌≡◌, ℕ, ◌≤◌, ◌<◌, IfSome, IsNone, ◌↔◌, length, nat_eq, Some, refl};
ghost use Rattle.std.specs.Ordering.{nat_cmp};
ghost use Rattle.std.specs.Cmp.{partial_equiv_from_equiv};
ghost use Rattle.std.specs.Cmp.Rules.{hashing};
ghost use Rattle.std.specs.Hash as fed;
ghost use Rattle.std.proofs.Common.{rules};
ghost use Rattle.std.specs.Cmp.Lexicographic.{pointwise, slice_cmp, nat_list_eq_equiv, nat_list_cmp_total, texts_po, texts_ties};

use std::cmp::Ordering;
use std::hash::{Hash, Hasher};
use std::marker::Model;

/// A text of at most 32 bytes. Contracts see it as the list of its bytes.
#[derive(Clone, Copy)]
pub struct Text {
    cells: [u8; 32],
    len: u8,
}

impl Model for Text {
    ghost use Rattle.std.specs.Prelude.{◌≡◌, ℕ, ◌≤◌, ◌-◌, List, length, take, drop, replicate};
    ghost use Rattle.iso_types.specs.Text.{padded, padded-take, length-take-cells};

    ghost Value = { List ℕ };

    ghost view = { λ t. take t.len t.cells };

    ghost invariant = { λ t. (t.len ≤ 32) × (drop t.len t.cells ≡ replicate (32 - t.len) 0) × (length t.cells ≡ 32) };

    ghost inverse = { λ b. record { cells = padded b; len = length b } };

    ghost inverse_ok = { λ t h i. record {
      cells = padded-take t.len t.cells h.0 h.1 h.2 i;
      len = length-take-cells t.len t.cells h.0 h.2 i;
    } };
}

impl Text {
    /// The text of these bytes, or None exactly where there are more than 32.
    pub fn new(bytes: &[u8]) -> Option<Text>
        ensures none { IsNone result ↔ (32 < length bytes.now) }
        ensures bytes { IfSome result (λ t. t ≡ bytes.now) }
    {
        let len = bytes.len();
        if len > 32 {
            return None;
        }
        let mut cells = [0; 32];
        cells[..len].copy_from_slice(bytes);
        Some(Text {
            cells,
            len: len as u8,
        })
    }

    pub fn as_bytes(&self) -> &[u8]
        ensures bytes { result.now ≡ self.now }
        ensures short { length self.now ≤ 32 }
    {
        &self.cells[..self.len as usize]
    }
}

impl PartialEq for Text {
    ghost eq = { λ s t. pointwise nat_eq s t };

    ghost laws = { partial_equiv_from_equiv nat_list_eq_equiv };

    fn eq(&self, other: &Self) -> bool {
        self.as_bytes() == other.as_bytes()
    }
}

impl Eq for Text {
    ghost laws = { nat_list_eq_equiv };
}

impl PartialOrd for Text {
    ghost partial_cmp = { λ s t. Some (slice_cmp nat_cmp s t) };

    ghost laws = { texts_po };

    fn partial_cmp(&self, other: &Self) -> Option<Ordering> {
        Some(self.cmp(other))
    }
}

impl Ord for Text {
    ghost cmp = { λ s t. slice_cmp nat_cmp s t };

    ghost total = { nat_list_cmp_total };

    ghost matches_partial_cmp = { λ s t. refl };

    ghost matches_eq = { λ s t. texts_ties s t };

    fn cmp(&self, other: &Self) -> Ordering {
        self.as_bytes().cmp(other.as_bytes())
    }
}

impl Hash for Text {
    ghost hash_input = { λ s. fed.slice fed.u8 s };

    ghost respects_eq = { Prim.search (hashing, rules) };

    fn hash<H: Hasher>(&self, state: &mut H) {
        self.as_bytes().hash(state);
    }
}

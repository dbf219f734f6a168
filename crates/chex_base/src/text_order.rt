//! Equality and order of texts, and how a failed assertion shows one.
ghost use Rattle.std.specs.Prelude.{bytes_eq};
ghost use Rattle.std.specs.Cmp.{partial_equiv_from_equiv};
ghost use Rattle.std.specs.Cmp.Lexicographic.{nat_list_cmp_total, nat_list_eq_equiv, texts_po, texts_ties};
ghost use Rattle.std.specs.Ordering.{as_partial_cmp};
ghost use Rattle.std.proofs.Common.{refl};
ghost use Rattle.chex_base.specs.TextOrder.{text_cmp};

use crate::Text;
use std::cmp::Ordering;
use std::fmt::{Debug, Error, Formatter, Write};

/// Two texts are equal where their code points are.
impl PartialEq for Text {
    ghost eq = { bytes_eq };

    ghost laws = { partial_equiv_from_equiv nat_list_eq_equiv };

    fn eq(&self, other: &Text) -> bool {
        self.as_str() == other.as_str()
    }
}

impl Eq for Text {
    ghost laws = { nat_list_eq_equiv };
}

impl PartialOrd for Text {
    ghost partial_cmp = { as_partial_cmp text_cmp };

    ghost laws = { texts_po };

    fn partial_cmp(&self, other: &Text) -> Option<Ordering> {
        Some(self.cmp(other))
    }
}

/// The first code point that differs decides, and a text stands before those that it begins. This
/// is also the order of the bytes of their UTF-8.
impl Ord for Text {
    ghost cmp = { text_cmp };

    ghost total = { nat_list_cmp_total };

    ghost matches_partial_cmp = { λ _ _. refl };

    ghost matches_eq = { texts_ties };

    fn cmp(&self, other: &Text) -> Ordering {
        self.as_str().cmp(other.as_str())
    }
}

/// As Rust's own text, between quotes.
impl Debug for Text {
    fn fmt<W: Write>(&self, f: &mut Formatter<W>) -> Result<(), Error> {
        self.as_str().fmt(f)
    }
}

//! Sets of texts.
ghost use Rattle.std.specs.Prelude.{◌≡◌, IfOk, OnOk};
ghost use Rattle.std.specs.List.Sorted.{IsStrictlySortedBy};
ghost use Rattle.std.specs.FinSet as set;
ghost use Rattle.chex_base.specs.TextOrder.{text_cmp};

use chex_base::{NoMemory, Text};
use star_syntax::Names;
use std::alloc::Global;
use std::collections::BTreeSet;
use std::marker::Model;

/// A set of texts.
#[derive(Drop)]
pub struct Texts {
    texts: BTreeSet<Text>,
}

impl Model for Texts {
    ghost use Rattle.std.specs.FinSet as set;
    ghost use Rattle.std.specs.Coded.{coded_ℕ, coded_list};
    ghost use Rattle.chex_base.specs.TextOrder.{text_cmp};

    ghost Value = { set.FinSet text_cmp };

    ghost coded = { set.code (coded_list coded_ℕ) };

    ghost view = { λ a. set.from_list a.texts.keys };
}

impl Texts {
    /// The empty set, which takes no memory.
    pub fn new(alloc: Global) -> Texts
        ensures { result ≡ set.empty }
    {
        Texts {
            texts: BTreeSet::new(alloc),
        }
    }

    /// Whether the set has a text.
    pub fn contains(&self, text: &Text) -> bool
        ensures { result ≡ set.contains self.now text.now }
    {
        self.texts.contains(text)
    }

    /// Adds a text, if the set lacks it.
    pub fn insert(&mut self, text: Text) -> Result<(), NoMemory>
        ensures { OnOk result (self.new ≡ set.insert self.old text) }
    {
        self.texts.insert(text)?;
        Ok(())
    }

    /// The texts in rising byte order.
    pub fn into_names(self, alloc: Global) -> Result<Names, NoMemory>
        ensures rising { IfOk result (λ names. IsStrictlySortedBy text_cmp names) }
        ensures same { IfOk result (λ names. set.from_list names ≡ self) }
    {
        let mut names = Vec::new(alloc);
        for text in self.texts {
            names.push(text)?;
        }
        Ok(Names::from_vec(names))
    }
}

//! Lists of tokens.
ghost use Rattle.std.specs.Prelude.{◌≡◌};

use crate::token::Spanned;
use std::marker::Model;

/// The tokens of a source in text order, each with its line. Contracts see the list.
#[derive(Drop)]
pub struct SpannedTokens {
    items: Vec<Spanned>,
}

impl Model for SpannedTokens {
    ghost use Rattle.std.specs.Prelude.{List};
    ghost use Rattle.star_syntax.specs.declared.token.Spanned.{Spanned};

    ghost Value = { List Spanned };

    ghost view = { λ t. t.items.items };
}

impl SpannedTokens {
    /// These tokens, in their order. Takes no memory.
    pub fn from_vec(items: Vec<Spanned>) -> SpannedTokens
        ensures { result ≡ items.items }
    {
        SpannedTokens { items }
    }

    /// The tokens, in their order.
    pub fn as_slice(&self) -> &[Spanned]
        ensures { result.now ≡ self.now }
    {
        self.items.as_slice()
    }

    /// The tokens, in their order. Takes no memory.
    pub fn into_vec(self) -> Vec<Spanned>
        ensures { result.items ≡ self }
    {
        let SpannedTokens { items } = self;
        items
    }
}

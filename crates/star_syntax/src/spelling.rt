//! The tokens that a tree is spelled with.

mod expressions;
mod pieces;
mod statements;

ghost use Rattle.std.specs.Prelude.{◌≡◌, ◌++◌, IfOk, OnOk};
ghost use Rattle.std.specs.List.{flat_map};
ghost use Rattle.star_syntax.specs.Spelling.{spelling, statement_spelling};

use crate::statement::Module;
use crate::token::Token;
use chex_base::NoMemory;
use std::alloc::Global;
use std::marker::Model;

/// Tokens without their lines, in order.
#[derive(Drop)]
pub struct Tokens {
    items: Vec<Token>,
}

impl Model for Tokens {
    ghost use Rattle.std.specs.Prelude.{List};
    ghost use Rattle.star_syntax.specs.declared.token.Token.{Token};

    ghost Value = { List Token };

    ghost view = { λ tokens. tokens.items.items };
}

impl Tokens {
    /// The tokens of a vector; takes no memory.
    pub fn from_vec(items: Vec<Token>) -> Tokens
        ensures { result ≡ items.items }
    {
        Tokens { items }
    }

    /// The tokens as a vector; takes no memory.
    pub fn into_vec(self) -> Vec<Token>
        ensures { result.items ≡ self }
    {
        let Tokens { items } = self;
        items
    }

    /// The tokens as a slice.
    pub fn as_slice(&self) -> &[Token]
        ensures { result.now ≡ self.now }
    {
        self.items.as_slice()
    }
}

/// The tokens that the tree of a cell is spelled with, by the grammar of docs/LANGUAGE.md; the last
/// one is `End`. The lines of statements are no part of them.
#[tactic(auto, unfolding(crate::specs::Spelling::spelling))]
pub fn spell(alloc: Global, module: &Module) -> Result<Tokens, NoMemory>
    ensures { IfOk result (λ tokens. tokens ≡ spelling «module».now) }
{
    let mut out = Vec::new(alloc);
    statements::statements(alloc, &mut out, module.statements.as_slice())?;
    out.push(Token::End)?;
    Ok(Tokens::from_vec(out))
}

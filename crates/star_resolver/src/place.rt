//! Where statements stand.
ghost use Rattle.std.specs.Prelude.{◌≡◌};
ghost use Rattle.star_syntax.specs.Placement.{in_cell, in_branch, in_turn, in_body};
ghost use Rattle.star_resolver.specs.Outcomes.{stands};

/// Where a statement stands.
#[derive(Clone, Copy, Debug, PartialEq, Eq)]
pub struct Place {
    /// Directly in the cell.
    pub is_direct: bool,
    /// In a `def`.
    pub in_function: bool,
    /// In a `for` of the same function or cell.
    pub in_loop: bool,
}

impl Place {
    /// The place of the cell's own statements.
    pub fn cell() -> Place
        ensures { stands result ≡ in_cell }
    {
        Place {
            is_direct: true,
            in_function: false,
            in_loop: false,
        }
    }

    /// The place of the body of a `def`.
    pub fn body() -> Place
        ensures { stands result ≡ in_body }
    {
        Place {
            is_direct: false,
            in_function: true,
            in_loop: false,
        }
    }

    /// The place of the blocks of an `if` that stands here.
    pub fn branch(self) -> Place
        ensures { stands result ≡ in_branch (stands self) }
    {
        Place {
            is_direct: false,
            in_function: self.in_function,
            in_loop: self.in_loop,
        }
    }

    /// The place of the body of a `for` that stands here.
    pub fn turn(self) -> Place
        ensures { stands result ≡ in_turn (stands self) }
    {
        Place {
            is_direct: false,
            in_loop: true,
            ..self
        }
    }
}

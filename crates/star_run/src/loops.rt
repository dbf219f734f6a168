//! The loops of a comprehension that are under way.
ghost use Rattle.std.specs.Prelude.{◌≡◌, ◌<◌, ◌+◌, ◌++◌, Some, None, length, option_map, IfOk, OnOk};
ghost use Rattle.star_builtins.specs.Reached.{Fits};
ghost use Rattle.star_meaning.specs.Values.{items_in};
ghost use Rattle.star_meaning.specs.World.{lock_of};
ghost use Rattle.star_value.specs.declared.failure.Failure.TheVariants as failure;
ghost use Rattle.star_run.specs.Loops.{IfFailed};
ghost use Rattle.star_run.specs.Running.{Goes};

use crate::running::Run;
use star_value::{Failure, Stop, Value};

/// A `for` clause that is reached, with the value of its operand.
#[derive(Drop)]
pub struct Reached {
    /// The place of the clause among all clauses.
    pub clause: usize,
    pub of: Value,
}

/// A loop of a `for` clause over a value.
#[derive(Drop)]
pub struct Loop {
    /// The place of the clause among all clauses.
    pub clause: usize,
    /// What is iterated over. It is locked.
    pub of: Value,
    /// How many items it gives.
    pub count: u128,
    /// The place of the item of the next turn.
    pub place: u128,
}

/// The loop of a clause that is reached begins: its value is counted, and locked.
pub fn begun(run: &mut Run, reached: Reached) -> Result<Loop, Stop>
    requires { Fits run.old.machine reached.of }
    ensures begins { IfOk result (λ at. at ≡ record { clause = reached.clause; of = reached.of; count = at.count; place = 0 }) }
    ensures counted { IfOk result (λ at. option_map length (items_in run.old.machine.state reached.of) ≡ Some at.count) }
    ensures locked { OnOk result (run.new ≡ record run.old { frame = record run.old.frame { locked = run.old.frame.locked ++ lock_of reached.of } }) }
    ensures failed { IfFailed result (λ e. (e ≡ failure.WrongType) × (items_in run.old.machine.state reached.of ≡ None) × (run.new ≡ run.old)) }
    ensures goes { Goes run.old run.new }
{
    let Reached { clause, of } = reached;
    let Some(count) = run.count(&of) else {
        return Err(Stop::Failure(Failure::WrongType));
    };
    run.lock(&of)?;
    Ok(Loop {
        clause,
        of,
        count,
        place: 0,
    })
}

/// The place after one that is below a count.
pub fn place_after(place: u128, count: u128) -> u128
    requires { place < count }
    ensures { result ≡ place + 1 }
{
    prove!(place < count);
    place + 1
}

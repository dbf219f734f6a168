//! What is to be written, made whole before the first write.
ghost use Rattle.std.specs.Prelude.{◌≡◌, ◌⊎◌, []};
ghost use Rattle.std.specs.Str.{encode_utf8_all};
ghost use Rattle.chex_top.specs.Ends.{HasNoPlan, IsNothing, IsRefusal};

use crate::refusal::Refusal;
use crate::saying::Said;
use chex_base::{NoMemory, Status, Text};
use plan_type::Plan;
use sqlite_items::Items;
use std::alloc::Global;

/// A status, the plan that is left, and what is written with them.
#[derive(Drop)]
pub struct Decision {
    pub status: Status,
    pub plan: Plan,
    pub text: Said,
}

/// The plan of no nodes. It takes no memory.
pub fn no_plan(alloc: Global) -> Plan
    ensures { HasNoPlan result }
{
    Plan::of(Items::new(alloc))
}

/// Memory was wanting, which takes none.
pub fn no_memory(alloc: Global) -> Decision
    ensures { IsNothing result.status result.plan (encode_utf8_all result.text) }
{
    Decision {
        status: Status::NoMemory,
        plan: no_plan(alloc),
        text: Said::of(alloc, Text::new(alloc)),
    }
}

/// A status and a plan with one line, or want of memory.
pub fn with_line(alloc: Global, status: Status, plan: Plan, line: &str) -> Decision
    ensures { ((result.status ≡ status) × (result.plan ≡ plan) × (encode_utf8_all result.text ≡ line.now)) ⊎ IsNothing result.status result.plan (encode_utf8_all result.text) }
{
    match Text::from_str(alloc, line) {
        Ok(text) => Decision {
            status,
            plan,
            text: Said::of(alloc, text),
        },
        Err(NoMemory) => no_memory(alloc),
    }
}

/// What is said of a refusal.
pub fn refused(alloc: Global, refusal: &Refusal) -> Decision
    ensures { IsRefusal refusal.now result.status result.plan (encode_utf8_all result.text) }
{
    match refusal.line(alloc) {
        Ok(line) => with_line(alloc, refusal.status(), no_plan(alloc), line.as_str()),
        Err(NoMemory) => no_memory(alloc),
    }
}

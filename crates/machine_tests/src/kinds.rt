//! What is asked of a machine before a call that needs it.
ghost use Rattle.std.specs.Prelude.{◌<◌, ◌*◌, IsTrue, OnOk, length, slice_get};
ghost use Rattle.star_meaning.specs.Validity.{is_list, is_dict, is_function};

use crate::fault::Fault;
use chex_base::ObjectId;
use heap_store::{Kind, Machine};

/// One more object may be made.
pub fn check_room(machine: &Machine) -> Result<(), Fault>
    ensures { OnOk result (length machine.now.state.objects < 1000000 * length machine.now.ran) }
{
    if machine.ran().len() == 1 && machine.objects() < 1_000_000 {
        Ok(())
    } else {
        Err(Fault::Unread)
    }
}

/// The object is a list.
#[tactic(auto, using(crate::proofs::Fitting::kind_list))]
pub fn check_list(machine: &Machine, id: ObjectId) -> Result<(), Fault>
    ensures { OnOk result (IsTrue (is_list (slice_get machine.now.state.objects id))) }
{
    if id.0 < machine.objects() && matches!(machine.kind(id), Kind::List) {
        Ok(())
    } else {
        Err(Fault::Unread)
    }
}

/// The object is a dict.
#[tactic(auto, using(crate::proofs::Fitting::kind_dict))]
pub fn check_dict(machine: &Machine, id: ObjectId) -> Result<(), Fault>
    ensures { OnOk result (IsTrue (is_dict (slice_get machine.now.state.objects id))) }
{
    if id.0 < machine.objects() && matches!(machine.kind(id), Kind::Dict) {
        Ok(())
    } else {
        Err(Fault::Unread)
    }
}

/// The object is a function.
#[tactic(auto, using(crate::proofs::Fitting::kind_function))]
pub fn check_function(machine: &Machine, id: ObjectId) -> Result<(), Fault>
    ensures { OnOk result (IsTrue (is_function (slice_get machine.now.state.objects id))) }
{
    if id.0 < machine.objects() && matches!(machine.kind(id), Kind::Function) {
        Ok(())
    } else {
        Err(Fault::Unread)
    }
}

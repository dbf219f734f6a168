//! How values are written.
ghost use Rattle.std.specs.Prelude.{◌≡◌, map, IsTrue, slice_get, if◌then◌else◌};
ghost use Rattle.std.specs.List.{list_all};
ghost use Rattle.std.specs.Option.{option_copied};
ghost use Rattle.std.specs.Str.{chars};
ghost use Rattle.star_builtins.specs.Pieces as pieces;
ghost use Rattle.star_builtins.specs.Pieces.{Keeps};
ghost use Rattle.star_builtins.specs.Reached.{Fits, names, store};
ghost use Rattle.star_builtins.specs.Shows.{Begins, Shows, onto};
ghost use Rattle.star_meaning.specs.Showing as spec;
ghost use Rattle.star_meaning.specs.Showing.{made};
ghost use Rattle.star_meaning.specs.State as state;
ghost use Rattle.star_meaning.specs.Validity.{fits, is_dict, is_function, function_at};

use crate::parts::text_of;
use crate::pieces::{tuple_end, write_separator, write_text, write_word};
use crate::plain::{write_builtin, write_function, write_int, write_quoted, write_range};
use chex_base::{NodeId, ObjectId, Text};
use heap_store::Machine;
use star_syntax::{Def, Program};
use star_value::{Failure, Key, Meter, Stop, Value};
use std::alloc::Global;

/// How many containers may nest in one another.
const DEEPEST: u32 = 64;

/// Writes a value at the end of `out`: in its quoted form, or in its shown form, in which a text is
/// itself and everything else is quoted. `docs/LANGUAGE.md` says how each value is written.
///
/// Each code point takes a step, before it is written. The call fails with StepLimit where too few
/// are left, and with TooDeep where a container stands inside 64 others; `out` then holds what it
/// held and a part of the value. It takes memory for one number, text, name or key at a time beside
/// what it writes.
#[tactic(auto, using(crate::proofs::Quoted::whole))]
pub fn show(
    alloc: Global,
    value: &Value,
    program: &Program,
    machine: &Machine,
    quoted: bool,
    meter: &mut Meter,
    out: &mut Text,
) -> Result<(), Stop>
    requires { Fits machine.now value.now }
    ensures gives { Shows (onto out.old (if quoted then spec.quoted (names program.now) value.now else spec.shown (names program.now) value.now) (store machine.now meter.old.left)) result (store machine.now meter.new.left) out.new }
    ensures begins { Begins out.old out.new }
{
    let writer = Writer {
        alloc,
        program,
        machine,
    };
    if quoted {
        writer.quoted(value, DEEPEST, meter, out)
    } else {
        writer.shown(value, meter, out)
    }
}

/// What values are written over.
#[derive(Clone, Copy)]
struct Writer<'a> {
    alloc: Global,
    program: &'a Program,
    machine: &'a Machine,
}

impl<'a> Writer<'a> {
    /// Writes the shown form of a value.
    #[tactic(auto, using(crate::proofs::Quoted::whole))]
    fn shown(&self, value: &Value, meter: &mut Meter, out: &mut Text) -> Result<(), Stop>
        requires { IsTrue (fits self.now.machine.now.state.objects value.now) }
        ensures gives { Shows (onto out.old (spec.shown (names self.now.program.now) value.now) (store self.now.machine.now meter.old.left)) result (store self.now.machine.now meter.new.left) out.new }
        ensures keeps { Keeps out.old out.new }
    {
        match text_of(value) {
            Some(text) => write_text(text, meter, out),
            None => self.quoted(value, DEEPEST, meter, out),
        }
    }

    /// Writes the quoted form of a value, in which so many more containers may nest.
    #[cycle(quoted)]
    #[tactic(auto, using(crate::proofs::Quoted::forms, crate::proofs::Words::words, crate::proofs::Held::references))]
    fn quoted(
        &self,
        value: &Value,
        deeper: u32,
        meter: &mut Meter,
        out: &mut Text,
    ) -> Result<(), Stop>
        requires { IsTrue (fits self.now.machine.now.state.objects value.now) }
        ensures gives { Shows (onto out.old (spec.quoted_in (names self.now.program.now) deeper value.now) (store self.now.machine.now meter.old.left)) result (store self.now.machine.now meter.new.left) out.new }
        ensures keeps { Keeps out.old out.new }
    {
        match value {
            Value::None => write_word("None", meter, out),
            Value::Bool(true) => write_word("True", meter, out),
            Value::Bool(false) => write_word("False", meter, out),
            Value::Int(number) => write_int(self.alloc, *number, meter, out),
            Value::Text(text) => write_quoted(self.alloc, text, meter, out),
            Value::Tuple(items) => {
                let end = tuple_end(items.len());
                self.sequence("(", end, items.as_slice(), deeper, meter, out)
            }
            Value::Range(range) => write_range(self.alloc, range, meter, out),
            Value::List(id) => {
                let items = self.machine.list(*id);
                self.sequence("[", "]", items, deeper, meter, out)
            }
            Value::Dict(id) => self.table(*id, deeper, meter, out),
            Value::Function(id) => self.function(*id, meter, out),
            Value::Builtin(which) => write_builtin(self.alloc, *which, meter, out),
        }
    }

    /// Writes values between two marks.
    #[cycle(quoted)]
    #[tactic(auto, using(crate::proofs::Quoted::forms, crate::proofs::Words::words, crate::proofs::Held::references))]
    fn sequence(
        &self,
        before: &str,
        after: &str,
        items: &[Value],
        deeper: u32,
        meter: &mut Meter,
        out: &mut Text,
    ) -> Result<(), Stop>
        requires { IsTrue (list_all (fits self.now.machine.now.state.objects) items.now) }
        ensures gives { Shows (onto out.old (pieces.sequence (names self.now.program.now) deeper (chars before.now) (chars after.now) items.now) (store self.now.machine.now meter.old.left)) result (store self.now.machine.now meter.new.left) out.new }
        ensures keeps { Keeps out.old out.new }
    {
        if deeper == 0 {
            return Err(Stop::Failure(Failure::TooDeep));
        }
        write_word(before, meter, out)?;
        self.items(items, deeper - 1, meter, out)?;
        write_word(after, meter, out)
    }

    /// Writes values with a separator between them.
    #[cycle(quoted)]
    #[tactic(auto, using(crate::proofs::Quoted::forms, crate::proofs::Words::words, crate::proofs::Held::references))]
    fn items(
        &self,
        items: &[Value],
        inner: u32,
        meter: &mut Meter,
        out: &mut Text,
    ) -> Result<(), Stop>
        requires { IsTrue (list_all (fits self.now.machine.now.state.objects) items.now) }
        ensures gives { Shows (onto out.old (pieces.pieces 0 (map (spec.quoted_in (names self.now.program.now) inner) items.now)) (store self.now.machine.now meter.old.left)) result (store self.now.machine.now meter.new.left) out.new }
        ensures keeps { Keeps out.old out.new }
    {
        for (place, item) in items.iter().enumerate() {
            write_separator(place, meter, out)?;
            self.quoted(item, inner, meter, out)?;
        }
        Ok(())
    }

    /// Writes a dict.
    #[cycle(quoted)]
    #[tactic(auto, using(crate::proofs::Quoted::forms, crate::proofs::Words::words, crate::proofs::Held::references))]
    fn table(
        &self,
        id: ObjectId,
        deeper: u32,
        meter: &mut Meter,
        out: &mut Text,
    ) -> Result<(), Stop>
        requires { IsTrue (is_dict (slice_get self.now.machine.now.state.objects id)) }
        ensures gives { Shows (onto out.old (pieces.table (names self.now.program.now) deeper (state.dict self.now.machine.now.state id)) (store self.now.machine.now meter.old.left)) result (store self.now.machine.now meter.new.left) out.new }
        ensures keeps { Keeps out.old out.new }
    {
        if deeper == 0 {
            return Err(Stop::Failure(Failure::TooDeep));
        }
        write_word("{", meter, out)?;
        self.pairs(id, deeper - 1, meter, out)?;
        write_word("}", meter, out)
    }

    /// Writes the pairs of a dict with a separator between them.
    #[cycle(quoted)]
    #[tactic(auto, using(crate::proofs::Quoted::forms, crate::proofs::Words::words, crate::proofs::Held::references))]
    fn pairs(&self, id: ObjectId, inner: u32, meter: &mut Meter, out: &mut Text) -> Result<(), Stop>
        requires { IsTrue (is_dict (slice_get self.now.machine.now.state.objects id)) }
        ensures gives { Shows (onto out.old (pieces.pieces 0 (map (pieces.pair_piece (names self.now.program.now) inner) (state.dict self.now.machine.now.state id))) (store self.now.machine.now meter.old.left)) result (store self.now.machine.now meter.new.left) out.new }
        ensures keeps { Keeps out.old out.new }
    {
        for place in 0..self.machine.dict_len(id) {
            let (key, value) = self.machine.dict_at(id, place);
            write_separator(place, meter, out)?;
            self.pair(key, value, inner, meter, out)?;
        }
        Ok(())
    }

    /// Writes a pair of a dict. It copies the key, which is written as the value that it is.
    #[cycle(quoted)]
    #[tactic(auto, using(crate::proofs::Quoted::forms, crate::proofs::Words::words, crate::proofs::Held::references))]
    fn pair(
        &self,
        key: &Key,
        value: &Value,
        inner: u32,
        meter: &mut Meter,
        out: &mut Text,
    ) -> Result<(), Stop>
        requires { IsTrue (fits self.now.machine.now.state.objects value.now) }
        ensures gives { Shows (onto out.old (pieces.pair_piece (names self.now.program.now) inner (key.now, value.now)) (store self.now.machine.now meter.old.left)) result (store self.now.machine.now meter.new.left) out.new }
        ensures keeps { Keeps out.old out.new }
    {
        let key = key.value(self.alloc)?;
        self.quoted(&key, inner, meter, out)?;
        write_word(": ", meter, out)?;
        self.quoted(value, inner, meter, out)
    }

    /// Writes a function by its name. A program over which the machine is valid has each of its
    /// functions.
    fn function(&self, id: ObjectId, meter: &mut Meter, out: &mut Text) -> Result<(), Stop>
        requires { IsTrue (is_function (slice_get self.now.machine.now.state.objects id)) }
        ensures gives { Shows (onto out.old (made (spec.function_text (spec.function_name (names self.now.program.now) (state.function self.now.machine.now.state id)))) (store self.now.machine.now meter.old.left)) result (store self.now.machine.now meter.new.left) out.new }
        ensures keeps { Keeps out.old out.new }
    {
        let (cell, number, _) = self.machine.function(id);
        match function_at(self.program, cell, number) {
            Some(def) => write_function(self.alloc, &def.name, meter, out),
            None => write_function(self.alloc, &Text::new(self.alloc), meter, out),
        }
    }
}

/// The function of this number in the cell of a node, if the program has it.
#[tactic(auto, unfolding(star_meaning::specs::Validity::function_at))]
fn function_at(program: &Program, node: NodeId, number: u32) -> Option<&Def>
    ensures { option_copied result ≡ function_at program.now node number }
{
    program.cell(node)?.function(number)
}

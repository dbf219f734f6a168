//! The table of least costs, filled from the greatest node down.
ghost use Rattle.std.specs.Prelude.{◌≡◌, ◌≤◌, ◌<◌, ◌+◌, ◌++◌, [], length, OnOk, IfOk};
ghost use Rattle.plan_type.specs.Costs.{IsSound};
ghost use Rattle.plan_optimum.specs.Sites.{site_at, way_at};
ghost use Rattle.plan_optimum.specs.Entries.{IsReady, column_of, row_of};

use crate::planner::{Planner, Row};
use crate::standing::Standing;
use chex_base::{NoMemory, NodeId};
use plan_type::{Costs, Offer};
use sqlite_items::Items;
use std::alloc::Global;

impl Planner {
    /// Computes all rows. The memory for them is taken before the first entry is computed. The
    /// time grows with the entries and with the children that are looked at for each.
    pub fn fill(&mut self, alloc: Global, costs: &Costs) -> Result<(), NoMemory>
        requires sound { IsSound costs.now }
        requires ready { IsReady costs.now (length costs.now.rows + 1) self.old }
        requires empty { self.old.table ≡ [] }
        ensures budget { self.new.budget ≡ self.old.budget }
        ensures ready { OnOk result (IsReady costs.now 0 self.new) }
    {
        let mut rooms = self.rooms(alloc)?;
        let mut offers = Vec::with_capacity(alloc, costs.rows.len())?;
        let nodes = costs.rows.len();
        for done in 0..nodes + 1 {
            let room = taken(alloc, &mut rooms);
            let row = self.row(costs, NodeId((nodes - done) as u32), room, &mut offers)?;
            self.table.push(row)?;
        }
        Ok(())
    }

    /// Room for the rows of all nodes, in rising order.
    fn rooms(&self, alloc: Global) -> Result<Vec<Vec<u64>>, NoMemory> {
        let mut rooms = Vec::with_capacity(alloc, self.sites.len())?;
        let width = self.budget.most as usize + 1;
        for site in self.sites.as_slice() {
            let entries = site.ways.len().saturating_mul(width);
            rooms.push(Vec::with_capacity(alloc, entries)?)?;
        }
        Ok(rooms)
    }

    /// The row of a node, over the rows of the nodes past it, in this room.
    fn row(
        &self,
        costs: &Costs,
        node: NodeId,
        room: Vec<u64>,
        offers: &mut Vec<Offer>,
    ) -> Result<Row, NoMemory>
        requires sound { IsSound costs.now }
        requires ready { IsReady costs.now (node + 1) self.now }
        requires node { node ≤ length costs.now.rows }
        ensures { IfOk result (λ row. row ≡ row_of costs.now self.now.budget node (site_at self.now.sites node).ways) }
    {
        let mut row = room;
        row.clear();
        for level in 0..self.levels(node) {
            self.column(costs, node, level, &mut row, offers)?;
        }
        Ok(Items::from_vec(row))
    }

    /// Adds the entries of a node for one of its ways.
    fn column(
        &self,
        costs: &Costs,
        node: NodeId,
        level: usize,
        row: &mut Vec<u64>,
        offers: &mut Vec<Offer>,
    ) -> Result<(), NoMemory>
        requires sound { IsSound costs.now }
        requires ready { IsReady costs.now (node + 1) self.now }
        requires node { node ≤ length costs.now.rows }
        requires level { level < length (site_at self.now.sites node).ways }
        ensures { OnOk result (row.new.items ≡ row.old.items ++ column_of costs.now self.now.budget node (way_at self.now.sites node level)) }
    {
        for used in 0..self.budget.most + 1 {
            let at = Standing {
                node,
                level,
                used: u64::from(used),
            };
            row.push(self.value(costs, &at, offers)?)?;
        }
        Ok(())
    }
}

/// The last of the rooms, or new room where there is none.
fn taken(alloc: Global, rooms: &mut Vec<Vec<u64>>) -> Vec<u64> {
    match rooms.pop() {
        Some(room) => room,
        None => Vec::new(alloc),
    }
}

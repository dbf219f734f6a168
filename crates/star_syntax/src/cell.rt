//! Cells, and the program that their nodes make.

ghost use Rattle.std.specs.Prelude.{◌≡◌, IfOk};
ghost use Rattle.std.specs.List.{slice_get};
ghost use Rattle.std.specs.Option.{option_copied};
ghost use Rattle.star_syntax.specs.Cells.{def_of, functions_of, numbered};
ghost use Rattle.star_syntax.specs.Placement.{IsPlaced, AreInputNames};

use crate::names::Names;
use crate::statement::{Def, Module, Statement};
use chex_base::{NoMemory, NodeId, Text};
use std::alloc::Global;
use std::marker::Model;

/// A cell: its source, the tree of its statements, which breaks no rule of placement, and the names
/// of its `input` literals, in rising byte order and each once. The rules stand in docs/LANGUAGE.md.
#[derive(Drop)]
pub struct Cell {
    source: Text,
    module: Module,
    inputs: Names,
}

impl Model for Cell {
    ghost use Rattle.std.specs.Prelude.{ℕ, List, refl};
    ghost use Rattle.std.specs.Coded.{code_by, coded×, coded_ℕ, coded_list};
    ghost use Rattle.star_syntax.specs.Placement.{IsPlaced, AreInputNames};
    ghost use Rattle.star_syntax.specs.CellParts.{CellParts};
    ghost use Rattle.star_syntax.specs.declared.statement.Module.{Module};
    ghost use Rattle.star_syntax.specs.contracts.statement.Module as tree;

    ghost Value = { CellParts };

    ghost coded = { code_by (List ℕ × (Module × List (List ℕ))) (coded× (coded_list coded_ℕ) (coded× tree.the_row.coded (coded_list (coded_list coded_ℕ)))) (λ c. (c.source, (c.«module», c.inputs))) (λ t. record { source = t.0; «module» = t.1.0; inputs = t.1.1 }) (λ _. refl) };

    ghost view = { λ cell. record { source = cell.source; «module» = cell.«module»; inputs = cell.inputs } };

    ghost invariant = { λ cell. IsPlaced cell.«module» × AreInputNames cell.«module» cell.inputs };
}

impl Cell {
    /// The cell of a module that breaks no rule of placement, with its source and the names of its
    /// `input` literals. Takes no memory.
    pub fn new(source: Text, module: Module, inputs: Names) -> Cell
        requires placed { IsPlaced «module» }
        requires names { AreInputNames «module» inputs }
        ensures { result ≡ record { source = source; «module» = «module»; inputs = inputs } }
    {
        Cell {
            source,
            module,
            inputs,
        }
    }

    /// The text that the cell was read from.
    pub fn source(&self) -> &Text
        ensures { result.now ≡ self.now.source }
    {
        &self.source
    }

    /// The names of the inputs that the cell reads, in rising byte order and each once.
    pub fn inputs(&self) -> &Names
        ensures { result.now ≡ self.now.inputs }
    {
        &self.inputs
    }

    /// The tree of the cell's statements.
    pub fn module(&self) -> &Module
        ensures { result.now ≡ self.now.module }
    {
        &self.module
    }

    /// The function of this number: the cell's `def` statements are numbered from 0 in text order.
    pub fn function(&self, number: u32) -> Option<&Def>
        ensures { option_copied result ≡ slice_get (functions_of self.now.module.statements) number }
    {
        let mut left = number;
        for statement in self.module.statements.as_slice() {
            if let Some(def) = def_of(statement) {
                if left == 0 {
                    return Some(def);
                }
                left -= 1;
            }
        }
        None
    }

    /// An equal cell, which shares the tree.
    pub fn copy(&self, alloc: Global) -> Result<Cell, NoMemory>
        ensures { IfOk result (λ copy. copy ≡ self.now) }
    {
        Ok(Cell {
            source: self.source.copy(alloc)?,
            module: Module {
                statements: self.module.statements.share()?,
            },
            inputs: self.inputs.copy(alloc)?,
        })
    }
}

/// The function that a statement defines.
#[tactic(auto, unfolding(crate::specs::Cells::def_of))]
fn def_of(statement: &Statement) -> Option<&Def>
    ensures { option_copied result ≡ def_of statement.now }
{
    match statement {
        Statement::Line(_) => None,
        Statement::If(_, _, _, _) => None,
        Statement::For(_, _, _, _) => None,
        Statement::Def(_, def) => Some(def),
    }
}

/// Cells in order. Contracts see the list.
#[derive(Drop)]
pub struct Cells {
    items: Vec<Cell>,
}

impl Model for Cells {
    ghost use Rattle.std.specs.Prelude.{List};
    ghost use Rattle.star_syntax.specs.declared.cell.Cell.{Cell};
    ghost use Rattle.star_syntax.specs.contracts.cell.Cell as one;
    ghost use Rattle.std.specs.Coded.{coded_list};

    ghost Value = { List Cell };

    ghost coded = { coded_list one.the_row.coded };

    ghost view = { λ cells. cells.items.items };
}

impl Cells {
    /// These cells, in their order. Takes no memory.
    pub fn from_vec(items: Vec<Cell>) -> Cells
        ensures { result ≡ items.items }
    {
        Cells { items }
    }

    /// The cells, in their order. Takes no memory.
    pub fn into_vec(self) -> Vec<Cell>
        ensures { result.items ≡ self }
    {
        let Cells { items } = self;
        items
    }

    /// The cells, in their order.
    pub fn as_slice(&self) -> &[Cell]
        ensures { result.now ≡ self.now }
    {
        self.items.as_slice()
    }
}

/// The cells of the nodes of a tree: the cell of node n is at place n - 1.
#[derive(Drop)]
pub struct Program {
    pub cells: Cells,
}

impl Program {
    /// The cell of a node, if the program has that node. Node 0 is no cell's.
    pub fn cell(&self, node: NodeId) -> Option<&Cell>
        ensures { option_copied result ≡ numbered self.now.cells node }
    {
        if node.0 == 0 {
            return None;
        }
        self.cells.as_slice().get(node.0 as usize - 1)
    }
}

// The actions and gotos of all cores.
ghost use Rattle.std.specs.Prelude.{◌≡◌, ◌≤◌, ◌<◌, ℕ, length, IfOk};
ghost use Rattle.cfg_model.specs.Cfg.{IsGrammar};
ghost use Rattle.cfg_model.specs.Cores.{IsCores};
ghost use Rattle.lalr_look.specs.Promise.{AreLookaheads, sets_of};
ghost use Rattle.lalr_tables.specs.within.Rows.{AreActions, AreGotoRows};

use crate::clash::lesser_of;
use crate::rows::{Cells, action_row, goto_row};
use cfg_model::Grammar;
use ck_base::{Bits, NoMemory};
use lalr_look::Cores;
use std::alloc::Global;

/// The actions of all cores, core by core, and the least clash.
pub(crate) fn all_actions(
    alloc: Global,
    g: &Grammar,
    cores: &Cores,
    looks: &[Vec<Bits>],
) -> Result<Cells, NoMemory>
    requires grammar { IsGrammar g.now }
    requires cores { IsCores g.now cores.now }
    requires few { length cores.now.items ≤ 4096 }
    requires looks { AreLookaheads g.now cores.now (sets_of looks.now) }
    ensures { IfOk result (λ made. AreActions g.now cores.now (sets_of looks.now)
        (length cores.now.items) made.cells.items made.found) }
{
    let mut cells = Vec::new(alloc);
    let mut found = None;
    for core in 0..cores.len() {
        let sets = looks[core as usize].as_slice();
        let row = action_row(alloc, g, cores.items(core), cores.moves(core), sets)?;
        cells.extend_from_slice(&row.cells)?;
        found = lesser_of(found, row.found);
    }
    Ok(Cells { cells, found })
}

/// The gotos of all cores, core by core.
pub(crate) fn all_gotos(alloc: Global, g: &Grammar, cores: &Cores) -> Result<Vec<u16>, NoMemory>
    requires grammar { IsGrammar g.now }
    requires cores { IsCores g.now cores.now }
    requires few { length cores.now.items ≤ 4096 }
    ensures { IfOk result (λ cells. AreGotoRows g.now cores.now (length cores.now.items)
        cells.items) }
{
    let mut cells = Vec::new(alloc);
    for core in 0..cores.len() {
        let row = goto_row(alloc, g, cores.moves(core))?;
        cells.extend_from_slice(&row)?;
    }
    Ok(cells)
}

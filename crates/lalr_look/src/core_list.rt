// The cores of a grammar: their items and moves.
ghost use Rattle.std.specs.Prelude.{◌≡◌, ◌<◌, ◌^◌, length};
ghost use Rattle.cfg_model.specs.Cores.{items_at, moves_at};

use cfg_model::Sym;
use std::marker::Model;

/// The cores of a grammar, by number.
#[derive(Drop)]
pub struct Cores {
    /// The items of each core, as rule and place of the dot. Rules count from 1; rule 0 is
    /// `S' = S` for the start symbol S.
    pub items: Vec<Vec<(u32, u32)>>,
    /// The moves of each core: a symbol behind a dot, and the number of the core behind it.
    pub moves: Vec<Vec<(Sym, u32)>>,
}

impl Model for Cores {
    ghost use Rattle.std.specs.Prelude.{map};
    ghost use Rattle.cfg_model.specs.Cores.{CoreList};

    ghost Value = { CoreList };

    ghost view = { λ made. record {
      items = map (λ row. row.items) made.items.items;
      moves = map
          (λ row. row.items) made.moves.items;
    } };
}

impl Cores {
    /// How many cores there are.
    pub fn len(&self) -> u32
        requires { length self.now.items < 2 ^ 32 }
        ensures { result ≡ length self.now.items }
    {
        self.items.len() as u32
    }

    /// The items of a core, as rule and place of the dot.
    pub fn items(&self, core: u32) -> &[(u32, u32)]
        requires { core < length self.now.items }
        ensures { result.now ≡ items_at self.now core }
    {
        self.items[core as usize].as_slice()
    }

    /// The moves of a core, by symbol: terminals before nonterminals, each by number.
    pub fn moves(&self, core: u32) -> &[(Sym, u32)]
        requires { core < length self.now.moves }
        ensures { result.now ≡ moves_at self.now core }
    {
        self.moves[core as usize].as_slice()
    }
}

// Visitors that count and trace.
ghost use Rattle.std.specs.Prelude.{⊤};

use ck_base::NoMemory;
use std::alloc::Global;
use tree_store::{Tree, Visit};

/// Counts the calls of a walk, and how deep it goes.
#[derive(Drop)]
pub(crate) struct Counter {
    pub entered: u64,
    pub left: u64,
    pub depth: u64,
    pub deepest: u64,
}

impl Counter {
    /// No call yet.
    pub(crate) fn new() -> Counter {
        Counter {
            entered: 0,
            left: 0,
            depth: 0,
            deepest: 0,
        }
    }
}

impl Visit for Counter {
    ghost enters = { λ _ _ _ _ _. ⊤ };

    ghost leaves = { λ _ _ _ _ _. ⊤ };

    ghost ready = { λ _ _. ⊤ };

    fn enter(&mut self, tree: &Tree, node: u32) -> bool {
        self.entered = self.entered.saturating_add(1);
        self.depth = self.depth.saturating_add(1);
        self.deepest = self.deepest.max(self.depth);
        true
    }

    fn leave(&mut self, tree: &Tree, node: u32) -> bool {
        self.left = self.left.saturating_add(1);
        self.depth = self.depth.saturating_sub(1);
        true
    }
}

/// Writes the calls of a walk: `+` and the node where it is entered, `-` and the node where it is
/// left.
#[derive(Drop)]
pub(crate) struct Trace {
    alloc: Global,
    pub text: String,
    /// Where entering stops the walk.
    last: Option<u32>,
}

impl Trace {
    /// No call yet.
    pub(crate) fn new(alloc: Global) -> Trace {
        Trace {
            alloc,
            text: String::new(alloc),
            last: None,
        }
    }

    /// No call yet; the walk is to stop where this node is entered.
    pub(crate) fn until(alloc: Global, node: u32) -> Trace {
        Trace {
            alloc,
            text: String::new(alloc),
            last: Some(node),
        }
    }

    /// Writes a call; whether memory sufficed.
    fn write(&mut self, sign: char, node: u32) -> bool {
        let Ok(text) = text_of(self.alloc, sign, node) else {
            return false;
        };
        self.text.push_str(text.as_str()).is_ok()
    }
}

/// The text of a call.
fn text_of(alloc: Global, sign: char, node: u32) -> Result<String, NoMemory> {
    Ok(format!(in alloc; "{sign}{node}")?)
}

impl Visit for Trace {
    ghost enters = { λ _ _ _ _ _. ⊤ };

    ghost leaves = { λ _ _ _ _ _. ⊤ };

    ghost ready = { λ _ _. ⊤ };

    fn enter(&mut self, tree: &Tree, node: u32) -> bool {
        self.write('+', node) && self.last != Some(node)
    }

    fn leave(&mut self, tree: &Tree, node: u32) -> bool {
        self.write('-', node)
    }
}

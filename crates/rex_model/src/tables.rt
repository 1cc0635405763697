/// An automaton over bytes. Its states are numbered from 0; in state s byte b leads to state
/// `moves[256 * s + b]`, where 65,535 stands for no state, and `accepts[s]` is accepted.
#[derive(Drop)]
pub struct Dfa {
    pub moves: Vec<u16>,
    pub accepts: Vec<Option<u32>>,
}

/// How the text of a rule's token is cut from its context: `forward` accepts the words of the body,
/// and `backward` those of the context, read from their end. Both begin in state 0.
#[derive(Drop)]
pub struct Split {
    pub rule: u32,
    pub forward: Dfa,
    pub backward: Dfa,
}

/// What is done with the text of a rule.
#[derive(Clone, Copy)]
pub struct ScanAction {
    /// The token; `None` where the text is skipped.
    pub token: Option<u32>,
    /// The start state afterwards; `None` where it stays.
    pub next: Option<u32>,
}

/// The tables of a scanner.
#[derive(Drop)]
pub struct ScanTables {
    /// For each start state the state of `main` in which it begins; 65,535 for none.
    pub starts: Vec<u16>,
    /// Accepts, for a word of body and context, the least rule that has it and is active.
    pub main: Dfa,
    /// One for each rule with a context.
    pub splits: Vec<Split>,
    /// One for each rule, in the order written.
    pub actions: Vec<ScanAction>,
}

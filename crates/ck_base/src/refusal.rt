// Everything that a run can refuse, with its exit status.
ghost use Rattle.std.specs.Prelude.{◌≡◌};
ghost use Rattle.ck_base.specs.Lines.{status_of};

use crate::fault::Kind;
use crate::status::Status;
use value_store::Name;

/// Why a run is refused. A definition sees a name as its bytes, so equal refusals are equal values.
#[derive(Debug, Drop)]
pub enum Refusal {
    /// The words of the command line aren't right.
    Usage,
    /// The specification has more than 1,048,576 bytes.
    SpecTooLong,
    /// This line of the specification has a fault of this kind; lines are numbered from 1.
    BadSpec {
        line: u32,
        kind: Kind,
    },
    /// The body of this scan rule matches the empty word; rules are numbered from 1.
    NullableRule {
        rule: u32,
    },
    /// A table of this kind has more than 4,096 states.
    TooManyStates {
        kind: StateKind,
    },
    /// This nonterminal derives no word.
    Unproductive {
        name: Name,
    },
    /// This nonterminal derives itself, in one step or more.
    Cyclic {
        name: Name,
    },
    /// This nonterminal is left recursive behind symbols that derive the empty word.
    HiddenLeft {
        name: Name,
    },
    /// This nonterminal is left recursive, in a grammar under ELL.
    LeftRecursive {
        name: Name,
    },
    /// On the terminal the rule is to be reduced, and also the other one, or a shift is due where
    /// there is no other.
    LalrConflict {
        terminal: Name,
        rule: Name,
        other: Option<Name>,
    },
    /// On the terminal two rules of this nonterminal are to be taken.
    LlConflict {
        name: Name,
        rule: Name,
        other: Name,
        terminal: Name,
    },
    /// The start symbol's family inherits this attribute.
    RootInherits {
        attribute: Name,
    },
    /// The type or family has two equations for the target: `attribute`, or `child.attribute`.
    TwoEquations {
        holder: Name,
        target: Name,
    },
    /// The type or family has no equation for the target.
    NoEquation {
        holder: Name,
        target: Name,
    },
    /// No order of evaluation serves the target of the type or family.
    NotOrdered {
        holder: Name,
        target: Name,
    },
    /// Chain rules lead from this nonterminal to itself and cost nothing.
    ZeroCycle {
        name: Name,
    },
    /// The command needs this section, which isn't there; LALR for a grammar.
    MissingSection {
        section: Name,
    },
    /// The source has more than 4,194,304 bytes.
    SourceTooLong,
    /// No token begins at this line and column of the source; both count from 1, columns in bytes.
    BadToken {
        line: u32,
        col: u32,
    },
    /// No sentence goes on with the token at this line and column; both count from 1, columns in
    /// bytes.
    SyntaxError {
        line: u32,
        col: u32,
    },
    /// The source's tree has more than 1,048,576 nodes.
    SourceTooLarge,
    /// No rule of this routine fits its arguments.
    NoRule {
        routine: Name,
    },
    /// Rewriting makes more calls than this budget.
    SpentBudget {
        budget: u64,
    },
    /// The target's tree has more than 1,048,576 nodes.
    TargetTooLarge,
    /// No rules cover the target's tree.
    NoCover,
    /// So many registers of the class are needed at once, and it has fewer.
    UsedUp {
        class: Name,
        need: u32,
        have: u32,
    },
}

/// A kind of table whose states are counted.
#[derive(Clone, Copy, Debug, PartialEq, Eq)]
pub enum StateKind {
    /// The scanner's table of token bodies.
    Scanner,
    /// The table that splits a token's body from the context behind it.
    Split,
    /// The parser's table.
    Parser,
}

impl Refusal {
    /// The status of a run that ends in the refusal.
    pub fn status(&self) -> Status
        ensures { result ≡ status_of self.now }
    {
        match self {
            Refusal::Usage => Status::Usage,
            Refusal::SpecTooLong
            | Refusal::BadSpec { .. }
            | Refusal::NullableRule { .. }
            | Refusal::TooManyStates { .. }
            | Refusal::Unproductive { .. }
            | Refusal::Cyclic { .. }
            | Refusal::HiddenLeft { .. }
            | Refusal::LeftRecursive { .. }
            | Refusal::LalrConflict { .. }
            | Refusal::LlConflict { .. }
            | Refusal::RootInherits { .. }
            | Refusal::TwoEquations { .. }
            | Refusal::NoEquation { .. }
            | Refusal::NotOrdered { .. }
            | Refusal::ZeroCycle { .. }
            | Refusal::MissingSection { .. } => Status::Spec,
            Refusal::SourceTooLong
            | Refusal::BadToken { .. }
            | Refusal::SyntaxError { .. }
            | Refusal::SourceTooLarge => Status::Source,
            Refusal::NoRule { .. } | Refusal::SpentBudget { .. } => Status::Rewrite,
            Refusal::TargetTooLarge | Refusal::NoCover | Refusal::UsedUp { .. } => Status::Code,
        }
    }
}

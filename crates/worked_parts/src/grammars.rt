// Grammars that the layers are called with.
use crate::written::Written;

/// Assignments with pointers: LALR(1), and not SLR(1).
pub(crate) const POINTERS: Written = Written {
    terminals: "=*i",
    nonterminals: "SLR",
    rules: "S:L=R S:R L:*R L:i R:L",
};

/// LR(1), and not LALR(1): in the core behind `c` both rules have `d` and `e`.
pub(crate) const CROSSED: Written = Written {
    terminals: "abcde",
    nonterminals: "SXY",
    rules: "S:aXd S:bYd S:aYe S:bXe X:c Y:c",
};

/// Sums of products: LL(1).
pub(crate) const SUMS: Written = Written {
    terminals: "i+*()",
    nonterminals: "EPTQF",
    rules: "E:TP P:+TP P: T:FQ Q:*FQ Q: F:(E) F:i",
};

/// The same, left recursive.
pub(crate) const LEFT_SUMS: Written = Written {
    terminals: "+*()i",
    nonterminals: "ETF",
    rules: "E:E+T E:T T:T*F T:F F:(E) F:i",
};

/// An `else` that two conditions could have.
pub(crate) const DANGLING: Written = Written {
    terminals: "iea",
    nonterminals: "S",
    rules: "S:iSeS S:iS S:a",
};

/// What stands behind `a` may vanish.
pub(crate) const TAIL: Written = Written {
    terminals: "ab",
    nonterminals: "SAB",
    rules: "S:AB A:a B:b B:",
};

/// The empty rule of A is for `a`, which follows A.
pub(crate) const FOLLOWED: Written = Written {
    terminals: "a",
    nonterminals: "SA",
    rules: "S:Aa A:a A:",
};

/// U can't be reached.
pub(crate) const APART: Written = Written {
    terminals: "ab",
    nonterminals: "SU",
    rules: "S:a U:Sb",
};

/// S derives itself.
pub(crate) const LOOPED: Written = Written {
    terminals: "a",
    nonterminals: "SA",
    rules: "S:A A:S A:a",
};

/// S stands behind what vanishes.
pub(crate) const HIDDEN: Written = Written {
    terminals: "abc",
    nonterminals: "SA",
    rules: "S:ASb S:c A: A:a",
};

/// A derives no word.
pub(crate) const WORDLESS: Written = Written {
    terminals: "a",
    nonterminals: "SA",
    rules: "S:a S:A A:Aa",
};

/// All of them.
pub(crate) const ALL: [Written; 11] = [
    POINTERS, CROSSED, SUMS, LEFT_SUMS, DANGLING, TAIL, FOLLOWED, APART, LOOPED, HIDDEN, WORDLESS,
];

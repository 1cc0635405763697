// Scanner rules: start states, expression, context, token or skip, next state.
use crate::regex::Regex;
use ck_base::{Bits, Names};

/// A scan rule. States and tokens are numbered as in the `ScanRules` that have the rule.
#[derive(Drop)]
pub struct ScanRule<'a> {
    /// The start states in which the rule is active.
    pub states: Bits,
    /// What the token's text is a word of.
    pub body: &'a Regex<'a>,
    /// What must follow the text; `None` where anything may.
    pub context: Option<&'a Regex<'a>>,
    /// The token; `None` where the text is skipped.
    pub token: Option<u32>,
    /// The state afterwards; `None` where it stays.
    pub next: Option<u32>,
}

/// The rules of a scanner in the order written, with the names of its start states and tokens.
/// State 0 is STD.
#[derive(Drop)]
pub struct ScanRules<'a> {
    pub states: Names,
    pub tokens: Names,
    pub rules: Vec<ScanRule<'a>>,
}

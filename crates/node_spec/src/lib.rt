//! The section AST: families and types of nodes, and what each grammar rule builds.
//!
//! | what | file |
//! |---|---|
//! | the names `$1`, `$2`, .. | `src/dollar_names.rt` |
//! | AST's lines | `src/ast_line.rt`, `src/line_shapes.rt`, `src/line_items.rt`; `specs/AstShapes.antt` |
//! | types, families, their table | `src/rows.rt`, `src/families.rt`, `src/table.rt`; `specs/AstTables.antt` |
//! | what rules build | `src/build.rt`, `src/builds.rt`; `specs/AstBuilds.antt` |
//! | the one nonterminal of a rule without a BUILD line | `src/only_nonterminal.rt` |
//! | faults of AST | `specs/AstFaults.antt` |
//! | kind twice | `src/twice.rt`, `src/declared_again.rt`, `src/reserved.rt`, `src/item_twice.rt`, `src/used_twice.rt` |
//! | kind unknown | `src/undeclared.rt`, `src/unknown_lines.rt`; at the head's line `src/unknown_head.rt` |
//! | the earlier one of two lines | `src/earlier.rt` |
//! | what lines name, gathered | `src/names_of_lines.rt`, `src/node_lines.rt` |
//! | kinds type and limit | `src/wrong_sides.rt`, `src/limits.rt` |
//! | names first, then nodes | `src/ast_names.rt`, `src/ast_nodes.rt` |
//! | what `read_ast` gives | `src/ast.rt`; `specs/AstPromise.antt` |
//! | laws | `src/ast_laws.rt` |
#![tactic(auto)]

mod ast;
mod ast_laws;
mod ast_line;
mod ast_names;
mod ast_nodes;
mod build;
mod builds;
mod declared_again;
mod dollar_names;
mod earlier;
mod families;
mod item_twice;
mod limits;
mod line_items;
mod line_shapes;
mod names_of_lines;
mod node_lines;
mod only_nonterminal;
mod reserved;
mod rows;
mod table;
mod twice;
mod undeclared;
mod unknown_head;
mod unknown_lines;
mod used_twice;
mod wrong_sides;

pub use ast::read_ast;
pub use ast_laws::{at_most_one_ast_line, one_ast};
pub use expr_read::{ExprFault, NameScope, at_most_one_expression, read_expr};
pub use node_model::NodeSpec;

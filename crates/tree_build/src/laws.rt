// Laws, on empty functions: what a rule builds is of its nonterminal's family; the nodes of a value
// are one tree, and the same in each tree that shows it.
ghost use Rattle.std.specs.Prelude.{◌≡◌, ℕ, ◌+◌, ◌<◌, List, Bool, false, length, map, slice_index};
ghost use Rattle.value_store.specs.declared.value.ValType.TheVariants as ty;
ghost use Rattle.expr_lang.specs.PureTypes.{PureIsOf, PureAreOf};
ghost use Rattle.value_store.specs.MadeTrees.{MadeTree, type_of};
ghost use Rattle.ast_types.specs.TypeTable.{TypeTable, type_at};
ghost use Rattle.expr_lang.specs.PureOf.{pure_tree};
ghost use Rattle.expr_lang.specs.PureValues.{PureValue};
ghost use Rattle.expr_lang.specs.ValueOf.{Tokens};
ghost use Rattle.expr_lang.specs.declared.expr.Maker.{Maker};
ghost use Rattle.cfg_model.specs.Cfg.{Cfg};
ghost use Rattle.cfg_model.specs.Derivation.{Forest, Derive, Derivation};
ghost use Rattle.cfg_model.specs.declared.symbol.Sym.{Sym};
ghost use Rattle.node_model.specs.Nodes.{Nodes, FitGrammar, AreSourceMakers, symbol_type};
ghost use Rattle.parse_driver.specs.Stream.{terminal_of};
ghost use Rattle.parse_driver.specs.declared.tokens.TokenRef.{TokenRef};
ghost use Rattle.tree_store.specs.Forest.{Node, IsChild, IsForest};
ghost use Rattle.tree_build.specs.Built.{built, built_value};
ghost use Rattle.tree_store.specs.Fitting.{TreeFits};
ghost use Rattle.node_model.specs.Makers.{AreMakers};
ghost use Rattle.tree_build.specs.Shown.{pure_count, nodes_of_value, pure_node, linked, IsTreeOf};

/// Law: what derivations build is of the types of their symbols: a token, or a node of the
/// nonterminal's family. So the value of a derivation is of the start symbol's family.
pub fn built_of_its_family()
    ensures each { (g : Cfg) (nodes : Nodes) (tokens : Tokens) (makers : List Maker)
        (symbols : List Sym) (forest : Forest TokenRef) (k : ℕ)
        → FitGrammar g nodes → AreSourceMakers nodes.table makers
        → Derive terminal_of g symbols forest
        → PureAreOf makers (λ node family. false) (built nodes tokens k forest)
        (map (symbol_type nodes.families) symbols) }
    ensures whole { (g : Cfg) (nodes : Nodes) (tokens : Tokens) (makers : List Maker)
        (found : List TokenRef) (forest : Forest TokenRef)
        → FitGrammar g nodes → AreSourceMakers nodes.table makers
        → Derivation terminal_of g found forest
        → PureIsOf makers (λ node family. false) (built_value nodes tokens forest)
        (ty.Node (slice_index nodes.families g.start)) }
{}

/// Law: a made node whose pure value is of a family, by makers that are of types of the table,
/// conforms to the table and is of that family. The types may be of the source side, of the target
/// side, or of both, and nodes of a source tree may be of any families.
pub fn made_of_a_family_fits()
    ensures { (table : TypeTable) (makers : List Maker) (sources : ℕ → ℕ → Bool) (s l : List ℕ)
        (t : MadeTree) (f : ℕ) → AreMakers table makers
        → PureIsOf makers sources (pure_tree s l t) (ty.Node f)
        → TreeFits table t × ((type_at table.types (type_of t)).family ≡ f) }
{}

/// Law: the nodes of a value are as many as are counted, and one tree: a child has a lower number
/// than its parent, each node but the last is a child, at one place, and the last is none.
pub fn nodes_make_a_tree()
    ensures many { (v : PureValue) → length (nodes_of_value v) ≡ pure_count v }
    ensures forest { (v : PureValue) → IsForest (map linked (nodes_of_value v)) }
    ensures each { (v : PureValue) (c : ℕ) → c + 1 < length (nodes_of_value v)
        → (p : ℕ) × (i : ℕ) × IsChild (map linked (nodes_of_value v)) p i c }
    ensures last { (v : PureValue) (p i c : ℕ)
        → IsChild (map linked (nodes_of_value v)) p i c → c + 1 < length (nodes_of_value v) }
{}

/// Law: trees of one value have the same nodes with the same numbers, wherever their texts lie.
pub fn one_tree_of_a_value()
    ensures { (s l t m : List ℕ) (types others : TypeTable) (a b : List Node) (v : PureValue)
        → IsTreeOf s l types a v → IsTreeOf t m others b v
        → map (pure_node s l) a ≡ map (pure_node t m) b }
{}

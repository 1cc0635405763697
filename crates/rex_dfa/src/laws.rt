// Laws on marks, on empty functions: a mark follows exactly the words of its rule.
ghost use Rattle.std.specs.Prelude.{ℕ, ◌↔◌, List, reverse};
ghost use Rattle.rex_model.specs.Language.{Re, Language};
ghost use Rattle.rex_model.specs.Positions.{Takes, First, Follow, position_count};
ghost use Rattle.rex_model.specs.Sets.{ComesNext, FirstBackwards, FollowBackwards, marked};

/// Law: the end mark of an expression can come next exactly after its words.
pub fn mark_follows_words()
    ensures { (r : Re) (w : List ℕ) → Language r w
        ↔ ComesNext (Takes (marked r) 0) (Follow (marked r) 0) (First (marked r) 0) w
        (position_count r) }
{}

/// Law: read from the end of a text, the end mark of an expression can come next exactly after the
/// reversed words. No reversed expression is made.
pub fn mark_follows_reversed_words()
    ensures { (r : Re) (w : List ℕ) → Language r (reverse w)
        ↔ ComesNext (Takes r 0) (FollowBackwards r) (FirstBackwards r) w (position_count r) }
{}

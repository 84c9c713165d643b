// Where edges lead sets of states.
ghost use Rattle.std.specs.Prelude.{◌≡◌, ◌↔◌, ◌⊎◌, ℕ};
ghost use Rattle.std.specs.List.{Contains};
ghost use Rattle.tc_auto.specs.Arrows.{AreWithin};
ghost use Rattle.tc_sets.specs.Numbers.{Has};

use tc_auto::Arrow;
use tc_sets::Set;

/// Adds the states to which arrows lead from states.
pub(crate) fn add_ends(arrows: &[Arrow], states: &Set, ends: &mut Set)
    requires within { AreWithin states.now.size arrows.now }
    requires size { ends.old.size ≡ states.now.size }
    ensures size { ends.new.size ≡ ends.old.size }
    ensures numbers { (j : ℕ) → Has ends.new j
        ↔ (Has ends.old j
        ⊎ ((i : ℕ) × Has states.now i × Contains arrows.now (record { from = i; to = j }))) }
{
    for arrow in arrows {
        if states.has(arrow.from) {
            ends.add(arrow.to);
        }
    }
}

/// Leaves the numbers of another set.
pub(crate) fn replace(states: &mut Set, others: &Set)
    requires { others.now.size ≡ states.old.size }
    ensures size { states.new.size ≡ states.old.size }
    ensures numbers { (j : ℕ) → Has states.new j ↔ Has others.now j }
{
    states.clear();
    states.add_all(others);
}

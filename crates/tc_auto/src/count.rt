// How many states patterns have, told before anything is built. The numbers saturate.
ghost use Rattle.std.specs.Prelude.{◌≡◌, ◌-◌, ◌^◌, ◌≤◌, length, min};
ghost use Rattle.tc_model.specs.Grammars as g;
ghost use Rattle.tc_model.specs.Views.{pattern, patterns};
ghost use Rattle.tc_model.specs.States.{automaton};

use tc_model::Pat;

/// The number of states of a pattern, or the greatest `u64` where it is no less than that.
#[cycle(count)]
#[tactic(auto, using(tc_model::proofs::ViewsGrammar::see_pattern))]
pub fn state_count(pat: &Pat<'_>) -> u64
    ensures { result ≡ min (automaton (pattern pat.now)).count (2 ^ 64 - 1) }
{
    match pat {
        Pat::Empty | Pat::NotAllowed => 1,
        Pat::Text | Pat::Ref(_) => 2,
        Pat::Group(members) | Pat::Choice(members) => count_of_sum(members),
        Pat::Interleave(members) => count_of_product(members),
        Pat::OneOrMore(member) => state_count(member),
    }
}

/// The states of a group or of a choice: the starts but the first are none.
#[cycle(count)]
fn count_of_sum(members: &[Pat<'_>]) -> u64
    ensures group { result ≡ min (automaton (g.group (patterns members.now))).count (2 ^ 64 - 1) }
    ensures choice { result ≡ min (automaton (g.choice (patterns members.now))).count (2 ^ 64 - 1) }
{
    let mut count: u64 = 1;
    for member in members {
        count = count.saturating_add(state_count(member) - 1);
    }
    count
}

/// The states of an interleave: their pairs.
#[cycle(count)]
fn count_of_product(members: &[Pat<'_>]) -> u64
    ensures { result ≡ min (automaton (g.interleave (patterns members.now))).count (2 ^ 64 - 1) }
{
    let mut count: u64 = 1;
    for member in members {
        count = count.saturating_mul(state_count(member));
    }
    count
}

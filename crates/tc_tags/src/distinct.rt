// Whether names of two parts differ from one another.
ghost use Rattle.std.specs.Prelude.{MatchBool};
ghost use Rattle.std.specs.List.{IsDistinct, AllByRecursion};
ghost use Rattle.tc_tags.specs.Pairs.{Differs, AreApart, same_pair};

/// How many names are compared with one another; more of them are put in order.
const FEW: usize = 8;

/// Whether this name is among these.
fn occurs(names: &[(&[u8], &[u8])], name: &(&[u8], &[u8])) -> bool
    ensures { MatchBool result (AllByRecursion (Differs name.now) names.now → ⊥)
        (AllByRecursion (Differs name.now) names.now) }
{
    for other in names {
        if *name == *other {
            return true;
        }
    }
    false
}

/// Whether no two of a few names are the same.
fn few_differ(names: &[(&[u8], &[u8])]) -> bool
    ensures { MatchBool result (IsDistinct same_pair names.now)
        (IsDistinct same_pair names.now → ⊥) }
{
    for at in 0..names.len() {
        if occurs(&names[at + 1..], &names[at]) {
            return false;
        }
    }
    true
}

/// Whether no name is the same as the one after it.
fn neighbours_differ(names: &[(&[u8], &[u8])]) -> bool
    ensures { MatchBool result (AreApart names.now) (AreApart names.now → ⊥) }
{
    for at in 0..names.len().saturating_sub(1) {
        if names[at] == names[at + 1] {
            return false;
        }
    }
    true
}

/// Whether no two names are the same. It may put them in order, in which nobody who writes names can make many of them
/// meet, as in a table by hashes.
pub fn all_differ(names: &mut [(&[u8], &[u8])]) -> bool
    ensures { MatchBool result (IsDistinct same_pair names.old)
        (IsDistinct same_pair names.old → ⊥) }
{
    if names.len() <= FEW {
        return few_differ(names);
    }
    names.sort_unstable();
    neighbours_differ(names)
}

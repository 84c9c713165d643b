// The first rule that rows break.
ghost use Rattle.std.specs.Prelude.{MatchResult};
ghost use Rattle.tc_verify.specs.Checkers.{AreChecked, StaysChecked, view_of};
ghost use Rattle.tc_verify.specs.Firsts.{ListsHold, RowsHold, WrapsToo, AllHold, IsFirstOf};

use crate::checker::Checker;

/// A rule that is broken, by the places of rows and the numbers of symbols.
#[derive(Clone, Copy)]
pub(crate) enum Broken {
    /// The row of no tree isn't listed.
    Empty,
    /// The row of a text isn't listed.
    Text,
    /// What a tree behind a list of trees makes isn't listed.
    Append(u32, u32),
    /// What a symbol around a list of trees makes isn't listed.
    Wrap(u32, u32),
    /// A tree fails at the root.
    Root(u32),
}

/// Whether what trees make behind lists of trees is listed.
fn try_appends(checker: &mut Checker<'_, '_>) -> Result<(), Broken>
    requires checked { AreChecked checker.old }
    requires before { ListsHold (view_of checker.old) }
    ensures stays { StaysChecked checker.old checker.new }
    ensures first { MatchResult result (λ _. RowsHold (view_of checker.old))
        (λ b. IsFirstOf (view_of checker.old) b) }
{
    for hedge in 0..checker.hedge_count() {
        for tree in 0..checker.tree_count() {
            if !checker.append_is_listed(hedge, tree) {
                return Err(Broken::Append(hedge, tree));
            }
        }
    }
    Ok(())
}

/// Whether what symbols make around lists of trees is listed.
fn try_wraps(checker: &mut Checker<'_, '_>) -> Result<(), Broken>
    requires checked { AreChecked checker.old }
    requires before { RowsHold (view_of checker.old) }
    ensures stays { StaysChecked checker.old checker.new }
    ensures first { MatchResult result (λ _. WrapsToo (view_of checker.old))
        (λ b. IsFirstOf (view_of checker.old) b) }
{
    for hedge in 0..checker.hedge_count() {
        for symbol in 0..checker.symbol_count() {
            if !checker.wrap_is_listed(hedge, symbol) {
                return Err(Broken::Wrap(hedge, symbol));
            }
        }
    }
    Ok(())
}

/// Whether trees pass at the root.
fn try_roots(checker: &mut Checker<'_, '_>) -> Result<(), Broken>
    requires checked { AreChecked checker.old }
    requires before { WrapsToo (view_of checker.old) }
    ensures stays { StaysChecked checker.old checker.new }
    ensures first { MatchResult result (λ _. AllHold (view_of checker.old))
        (λ b. IsFirstOf (view_of checker.old) b) }
{
    for tree in 0..checker.tree_count() {
        if !checker.root_is_good(tree) {
            return Err(Broken::Root(tree));
        }
    }
    Ok(())
}

/// Tries the rules in their order, each over all places in theirs. Tells the first that is broken.
pub(crate) fn try_rules(checker: &mut Checker<'_, '_>) -> Result<(), Broken>
    requires checked { AreChecked checker.old }
    ensures stays { StaysChecked checker.old checker.new }
    ensures first { MatchResult result (λ _. AllHold (view_of checker.old))
        (λ b. IsFirstOf (view_of checker.old) b) }
{
    if !checker.empty_is_listed() {
        return Err(Broken::Empty);
    }
    if !checker.text_is_listed() {
        return Err(Broken::Text);
    }
    try_appends(checker)?;
    try_wraps(checker)?;
    try_roots(checker)
}

ghost use Rattle.std.specs.Prelude.{◌≡◌, ◌∷◌, [], IfOk};

use std::alloc::Global;
use std::test::Fail;
use tc_base::NoMemory;
use tc_model::{HedgeLine, HedgeLines, Numbers, PairLists, Pairs, TreeLine, TreeLines};

fn numbers(alloc: Global, first: u32, second: u32) -> Result<Numbers, NoMemory>
    ensures { IfOk result (λ n. n ≡ first ∷ second ∷ []) }
{
    let mut numbers = Numbers::new(alloc);
    numbers.push(first)?;
    numbers.push(second)?;
    Ok(numbers)
}

fn pairs(alloc: Global) -> Result<Pairs, NoMemory> {
    let mut pairs = Pairs::new(alloc);
    pairs.push((2, 3))?;
    pairs.push((3, 3))?;
    Ok(pairs)
}

/// No pair, and two pairs.
fn outputs(alloc: Global) -> Result<PairLists, NoMemory> {
    let two = pairs(alloc)?;
    let mut outputs = PairLists::new(alloc);
    outputs.push(Pairs::new(alloc))?;
    outputs.push(two)?;
    Ok(outputs)
}

#[test]
fn numbers_are_kept(rt: HostRuntime) -> Result<(), Fail> {
    let numbers = numbers(rt.alloc(), 7, 4294967295)?;
    assert!(rt; numbers.len() == 2);
    assert!(rt; *numbers.get(0) == 7);
    assert!(rt; *numbers.get(1) == 4294967295);
    Ok(())
}

#[test]
fn pairs_are_kept(rt: HostRuntime) -> Result<(), Fail> {
    let outputs = outputs(rt.alloc())?;
    assert!(rt; outputs.len() == 2);
    assert!(rt; outputs.get(0).len() == 0);
    let pairs = outputs.get(1);
    assert!(rt; pairs.len() == 2);
    assert!(rt; *pairs.get(0) == (2, 3));
    Ok(())
}

/// The row of a tree.
fn trees(alloc: Global) -> Result<TreeLines, NoMemory> {
    let outs = numbers(alloc, 1, 0)?;
    let mut trees = TreeLines::new(alloc);
    trees.push(TreeLine {
        text: false,
        bears: true,
        patterns: Numbers::new(alloc),
        outs,
        looks: Numbers::new(alloc),
    })?;
    Ok(trees)
}

#[test]
fn rows_of_trees_are_kept(rt: HostRuntime) -> Result<(), Fail> {
    let trees = trees(rt.alloc())?;
    assert!(rt; trees.len() == 1);
    let tree = trees.get(0);
    assert!(rt; tree.bears && tree.outs.len() == 2);
    Ok(())
}

/// The row of a list of trees.
fn hedges(alloc: Global) -> Result<HedgeLines, NoMemory> {
    let states = numbers(alloc, 0, 2)?;
    let mut hedges = HedgeLines::new(alloc);
    hedges.push(HedgeLine {
        ends: true,
        bears: false,
        states,
        outs: Numbers::new(alloc),
        looks: Numbers::new(alloc),
    })?;
    Ok(hedges)
}

#[test]
fn rows_of_lists_of_trees_are_kept(rt: HostRuntime) -> Result<(), Fail> {
    let hedges = hedges(rt.alloc())?;
    assert!(rt; hedges.len() == 1);
    let hedge = hedges.get(0);
    assert!(rt; hedge.ends && hedge.states.len() == 2);
    Ok(())
}

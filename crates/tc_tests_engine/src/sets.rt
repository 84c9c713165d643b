//! Sets of numbers, each call once.

use std::test::Fail;
use tc_sets::Set;

/// What two sets tell, into which numbers at both ends of words are put, and taken out again.
fn told_of(set: &mut Set, other: &mut Set) -> [bool; 10] {
    if set.size() != 130 || other.size() != 130 {
        return [false; 10];
    }
    let is_new = set.is_empty();
    set.add(0);
    set.add(63);
    set.add(129);
    let (has_63, has_64) = (set.has(63), set.has(64));
    let are_apart = set.is_apart(other);
    other.add(64);
    other.add(129);
    let are_still_apart = set.is_apart(other);
    set.keep_all(other);
    let (has_129, has_0) = (set.has(129), set.has(0));
    set.add_all(other);
    let are_equal = *set == *other;
    set.clear();
    let is_cleared = set.is_empty();
    [
        true,
        is_new,
        has_63,
        has_64,
        are_apart,
        are_still_apart,
        has_129,
        has_0,
        are_equal,
        is_cleared,
    ]
}

/// That both sets have that size, and what is told of them then.
static TOLD: [bool; 10] = [
    true, true, true, false, true, false, true, false, true, true,
];

#[test]
fn puts_and_takes_numbers(rt: HostRuntime) -> Result<(), Fail> {
    let mut set = Set::empty(rt.alloc(), 130)?;
    let mut other = Set::empty(rt.alloc(), 130)?;
    let told = told_of(&mut set, &mut other);
    assert_eq!(rt; told, TOLD);
    Ok(())
}

// Numbers that equal moves share, and by which they are found among many.
ghost use Rattle.std.specs.Prelude.{◌≡◌, ◌<◌, ◌^◌, ℕ, if◌then◌else◌};
ghost use Rattle.tc_model.specs.Views as see;
ghost use Rattle.tc_rules.specs.Mixed as m;
ghost use Rattle.tc_rules.specs.Views.{predicates, move as see_move};

use crate::once::{mode_number, number_of_test};
use crate::walk::Move;
use tc_model::{NodeTest, Step, Test};

/// Where mixing begins.
pub(crate) const START: u64 = 0xcbf2_9ce4_8422_2325;

/// Mixes one more number in (FNV-1a).
pub(crate) fn mixed(hash: u64, number: u64) -> u64
    ensures { result ≡ m.mixed hash number }
{
    (hash ^ number).wrapping_mul(0x0000_0100_0000_01b3)
}

pub(crate) fn mixed_bytes(start: u64, bytes: &[u8]) -> u64
    ensures { result ≡ m.mixed_bytes start bytes.now }
{
    let mut hash = start;
    for byte in bytes {
        hash = mixed(hash, u64::from(*byte));
    }
    hash
}

/// The last bytes of a namespace name: that of a long one isn't gone through at each name.
fn ending(uri: &str) -> &[u8]
    ensures { result.now ≡ m.ending uri.now }
{
    let bytes = uri.as_bytes();
    &bytes[bytes.len().saturating_sub(64)..]
}

fn mixed_name(start: u64, uri: &str, local: &str) -> u64
    ensures { result ≡ m.mixed_name start uri.now local.now }
{
    let hash = mixed_bytes(mixed(start, 1), ending(uri));
    mixed_bytes(hash, local.as_bytes())
}

fn mixed_node_test(start: u64, test: &NodeTest<'_>) -> u64
    ensures { result ≡ m.mixed_node_test start (see.node_test test.now) }
{
    match test {
        NodeTest::Name(name) => mixed_name(start, name.uri, name.local),
        NodeTest::Ns(uri) => mixed_bytes(mixed(start, 2), ending(uri)),
        NodeTest::Any => mixed(start, 3),
        NodeTest::Text => mixed(start, 4),
        NodeTest::Node => mixed(start, 5),
    }
}

/// One for a truth, and zero for none.
fn as_number(value: bool) -> u64
    ensures { result ≡ (if value then 1 else 0) }
{
    if value { 1 } else { 0 }
}

/// A step's predicate goes in by its number.
fn mixed_step(numbered: &[&Test<'_>], start: u64, step: &Step<'_>) -> u64
    ensures { result ≡ m.mixed_step (predicates numbered.now) start step.now.deep
        (see.node_test step.now.test) (see.test step.now.when) }
{
    let hash = mixed_node_test(mixed(start, as_number(step.deep)), &step.test);
    mixed(hash, number_of_test(numbered, &step.when) as u64)
}

fn mixed_steps(numbered: &[&Test<'_>], start: u64, steps: &[Step<'_>]) -> u64
    ensures { result ≡ m.mixed_steps (predicates numbered.now) start (see.steps steps.now) }
{
    let mut hash = start;
    for step in steps {
        hash = mixed_step(numbered, hash, step);
    }
    hash
}

fn mixed_path(numbered: &[&Test<'_>], start: u64, path: &[&[Step<'_>]]) -> u64
    ensures { result ≡ m.mixed_path (predicates numbered.now) start (see.alternatives path.now) }
{
    let mut hash = start;
    for steps in path {
        hash = mixed_steps(numbered, mixed(hash, 6), steps);
    }
    hash
}

/// A number that moves share that are equal.
pub(crate) fn mixed_move(numbered: &[&Test<'_>], modes: u32, sought: &Move<'_>) -> u64
    ensures number { result ≡ m.mixed_move (predicates numbered.now) (see_move modes sought.now) }
    ensures bound { result < 2 ^ 64 }
{
    let hash = mixed(START, mode_number(modes, sought.job));
    mixed_path(numbered, hash, sought.path.alts)
}

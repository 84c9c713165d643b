// Which triples rows stand for.
// The public call speaks of every triple that the machine stands for. Inside, rows stand for a set of
// triples, which a ghost member of a type parameter names and the call chooses.
use std::marker::Brand;

/// Which triples rows stand for: a proof picks them where it knows the machine.
pub(crate) trait Over: Drop {
    ghost use Rattle.tc_rows.specs.Triples.{Triple};

    ghost is_of: { Triple → Type 0 };
}

impl Over for Brand {
    ghost is_of = { λ x. ⊥ };
}

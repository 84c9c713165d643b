// Which schemas rows stand for.
use std::marker::Brand;

/// Which schemas rows stand for: a proof picks them where it knows the automata.
pub(crate) trait Over: Drop {
    ghost use Rattle.tc_incl.specs.Schemas.{Schemas};

    ghost is_of: { Schemas → Type 0 };
}

impl Over for Brand {
    ghost is_of = { λ x. ⊥ };
}

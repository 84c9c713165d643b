// The schema and the stylesheet that mention nothing.
ghost use Rattle.std.specs.Prelude.{◌≡◌};
ghost use Rattle.tc_model.specs.Views as see;
ghost use Rattle.tc_decide.specs.Nothing as nothing;

use tc_model::{Grammar, Pat, Sheet};

/// The schema that has no document.
pub(crate) fn no_schema<'b>() -> Grammar<'b>
    ensures { see.grammar result ≡ nothing.no_schema }
{
    Grammar {
        start: Pat::NotAllowed,
        elements: &[],
    }
}

/// The stylesheet without rules.
pub(crate) fn no_rules<'b>() -> Sheet<'b>
    ensures { see.sheet result ≡ nothing.no_rules }
{
    Sheet {
        modes: 1,
        eaches: 0,
        rules: &[],
        named: &[],
    }
}

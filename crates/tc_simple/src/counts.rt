// How large the grammar will be, before it is made.
// Sizes are worked out once a definition, after those to which it refers, and stay at the greatest number of
// 64 bits. Nothing is expanded before they are known to be within the limits.
ghost use Rattle.std.specs.Prelude.{◌≡◌, length, slice_set};
ghost use Rattle.tc_rnc.specs.Views as see;
ghost use Rattle.tc_simple.specs.Nodes.{HasNumbersBelow};

use crate::groups::Table;
use tc_rnc::SPat;

/// How many nodes a pattern has, and how deep it nests.
#[derive(Clone, Copy)]
pub struct Size {
    pub nodes: u64,
    pub depth: u64,
}

impl Size {
    ghost use Rattle.tc_simple.specs.Sizes.{above, leaf, two};

    fn leaf() -> Size
        ensures { result ≡ leaf }
    {
        Size { nodes: 1, depth: 1 }
    }

    /// With one node above.
    fn under(self) -> Size
        ensures { result ≡ above self }
    {
        Size {
            nodes: self.nodes.saturating_add(1),
            depth: self.depth.saturating_add(1),
        }
    }

    /// Two side by side.
    pub fn beside(self, other: Size) -> Size
        ensures { result ≡ two self other }
    {
        Size {
            nodes: self.nodes.saturating_add(other.nodes),
            depth: self.depth.max(other.depth),
        }
    }
}

ghost use Rattle.tc_simple.specs.Sizes.{above, size_of, sizes_of, size_in};

/// The size of a pattern, where those of the definitions to which it refers are known.
#[cycle(sizes)]
#[tactic(auto, using(tc_rnc::proofs::Views::see_pattern))]
pub fn measure<'b>(table: &Table<'b>, sizes: &[Size], pattern: &SPat<'b>) -> Size
    requires { HasNumbersBelow table.now (length sizes.now) }
    ensures { result ≡ size_of (size_in table.now sizes.now) (see.pattern pattern.now) }
{
    match pattern {
        SPat::Ref(name, _) => match table.number(name) {
            Some(number) => sizes[number],
            None => Size::leaf(),
        },
        SPat::Mixed(p) => Size::leaf().beside(measure(table, sizes, p)).under(),
        SPat::Optional(p) => measure(table, sizes, p).beside(Size::leaf()).under(),
        SPat::ZeroOrMore(p) => measure(table, sizes, p)
            .under()
            .beside(Size::leaf())
            .under(),
        SPat::OneOrMore(p) => measure(table, sizes, p).under(),
        SPat::Group(ps) | SPat::Choice(ps) | SPat::Interleave(ps) => measure_all(table, sizes, ps),
        SPat::Empty | SPat::NotAllowed | SPat::Text | SPat::Attribute | SPat::Element(_, _, _) =>
            Size::leaf(),
    }
}

#[cycle(sizes)]
fn measure_all<'b>(table: &Table<'b>, sizes: &[Size], patterns: &[SPat<'b>]) -> Size
    requires { HasNumbersBelow table.now (length sizes.now) }
    ensures { result ≡ above (sizes_of (size_in table.now sizes.now) (see.patterns patterns.now)) }
{
    let mut all = Size { nodes: 0, depth: 0 };
    for pattern in patterns {
        all = all.beside(measure(table, sizes, pattern));
    }
    all.under()
}

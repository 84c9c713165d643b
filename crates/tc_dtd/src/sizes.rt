// How large the grammar will be, before it is made.
ghost use Rattle.std.specs.Prelude.{◌≡◌, map, length};
ghost use Rattle.tc_dtd.specs.Views as see;

use crate::declarations::{Content, Decl, Particle};

/// How many nodes a pattern has, and how deep it nests. Beyond 64 bits a number stays at the greatest.
#[derive(Clone, Copy)]
pub(crate) struct Size {
    pub(crate) nodes: u64,
    pub(crate) depth: u64,
}

impl Size {
    ghost use Rattle.tc_dtd.specs.Sizes.{above, leaf, two};

    /// A pattern without parts.
    pub(crate) fn leaf() -> Size
        ensures { result ≡ leaf }
    {
        Size { nodes: 1, depth: 1 }
    }

    /// With one node above.
    fn under(self) -> Size
        ensures { result ≡ above self }
    {
        Size {
            nodes: self.nodes.saturating_add(1),
            depth: self.depth.saturating_add(1),
        }
    }

    /// Two side by side.
    fn beside(self, other: Size) -> Size
        ensures { result ≡ two self other }
    {
        Size {
            nodes: self.nodes.saturating_add(other.nodes),
            depth: self.depth.max(other.depth),
        }
    }
}

ghost use Rattle.tc_dtd.specs.Sizes.{above, content_size, many_leaves, size_of, sizes_of, total_of};

/// The size of what a particle becomes.
#[cycle(sizes)]
#[tactic(auto, using(crate::proofs::ViewsLaws::see_particle))]
fn measure(particle: &Particle<'_>) -> Size
    ensures { result ≡ size_of (see.particle particle.now) }
{
    match particle {
        Particle::Name(_) => Size::leaf(),
        Particle::Seq(ps) | Particle::Choice(ps) => measure_all(ps),
        Particle::Optional(p) => measure(p).beside(Size::leaf()).under(),
        Particle::Star(p) => measure(p).under().beside(Size::leaf()).under(),
        Particle::Plus(p) => measure(p).under(),
    }
}

#[cycle(sizes)]
fn measure_all(particles: &[Particle<'_>]) -> Size
    ensures { result ≡ above (sizes_of (see.particles particles.now)) }
{
    let mut all = Size { nodes: 0, depth: 0 };
    for particle in particles {
        all = all.beside(measure(particle));
    }
    all.under()
}

/// The size of any number of texts and of so many elements.
fn with_texts(count: usize) -> Size
    ensures { result ≡ many_leaves count }
{
    let inner = Size {
        nodes: (count as u64).saturating_add(1),
        depth: 1,
    };
    inner.under().under().beside(Size::leaf()).under()
}

/// The size of what a content becomes, where so many elements are reached.
fn measure_content(content: &Content<'_>, count: usize) -> Size
    ensures { result ≡ content_size count (see.content content.now) }
{
    match content {
        Content::Nothing => Size::leaf(),
        Content::Any => with_texts(count),
        Content::Mixed(names) => {
            if names.is_empty() {
                Size::leaf()
            } else {
                with_texts(names.len())
            }
        }
        Content::Children(p) => measure(p),
    }
}

/// The size of the start and of the contents of these elements.
pub(crate) fn total(decls: &[Decl<'_>]) -> Size
    ensures { result ≡ total_of (length decls.now) (map see.declaration decls.now) }
{
    let mut all = Size::leaf();
    for decl in decls {
        all = all.beside(measure_content(&decl.content, decls.len()));
    }
    all
}

// Declarations of elements (XML 1.0, 3.2).

/// A content particle: a name, or particles in parentheses, with a suffix or none (XML 1.0, 3.2.1, [47] to [50]). No
/// slice of an answer of [`read_dtd`](crate::read_dtd) is empty.
#[derive(Clone, Copy)]
pub enum Particle<'b> {
    Name(&'b str),
    Seq(&'b [Particle<'b>]),
    Choice(&'b [Particle<'b>]),
    Optional(&'b Particle<'b>),
    Star(&'b Particle<'b>),
    Plus(&'b Particle<'b>),
}

/// What an element may hold (XML 1.0, 3.2, [46]).
#[derive(Clone, Copy)]
pub enum Content<'b> {
    /// `EMPTY`.
    Nothing,
    /// `ANY`.
    Any,
    /// Texts, and elements of these names (XML 1.0, 3.2.2, [51]).
    Mixed(&'b [&'b str]),
    Children(Particle<'b>),
}

/// The declaration of an element (XML 1.0, 3.2, [45]).
#[derive(Clone, Copy)]
pub struct Decl<'b> {
    pub name: &'b str,
    pub content: Content<'b>,
}

/// The declarations of elements of a document type definition, in the order of the text.
#[derive(Clone, Copy)]
pub struct Dtd<'b> {
    pub decls: &'b [Decl<'b>],
}

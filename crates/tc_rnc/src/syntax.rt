// Schemas as they are written, before simplification.
use tc_base::Place;
use tc_model::Name;

/// A name class. The slice of `Ns` and of `Any` holds the one class that is excepted, or nothing; their
/// place is that of their first byte.
#[derive(Clone, Copy)]
pub enum SClass<'b> {
    Name(Name<'b>),
    Ns(Place, &'b str, &'b [SClass<'b>]),
    Any(Place, &'b [SClass<'b>]),
    Choice(&'b [SClass<'b>]),
}

/// A pattern. A reference has the place of its first byte, an element that of its word `element`. Of an
/// attribute nothing is kept.
#[derive(Clone, Copy)]
pub enum SPat<'b> {
    Empty,
    NotAllowed,
    Text,
    Attribute,
    Ref(&'b str, Place),
    Element(Place, SClass<'b>, &'b SPat<'b>),
    Mixed(&'b SPat<'b>),
    Optional(&'b SPat<'b>),
    ZeroOrMore(&'b SPat<'b>),
    OneOrMore(&'b SPat<'b>),
    Group(&'b [SPat<'b>]),
    Choice(&'b [SPat<'b>]),
    Interleave(&'b [SPat<'b>]),
}

/// The operator of a definition: `=`, `|=` or `&=`.
#[derive(Clone, Copy, PartialEq, Eq)]
pub enum Joins {
    Plain,
    Choice,
    Interleave,
}

/// A definition, with the place of its first byte. That of `start` has the empty name, which no
/// reference has.
#[derive(Clone, Copy)]
pub struct Def<'b> {
    pub name: &'b str,
    pub joins: Joins,
    pub body: SPat<'b>,
    pub place: Place,
}

/// The definitions in the order of the text, and the number of its bytes.
#[derive(Clone, Copy)]
pub struct Syntax<'b> {
    pub defs: &'b [Def<'b>],
    pub end: Place,
}

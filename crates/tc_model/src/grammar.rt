// Schemas after simplification (RELAX NG Specification, OASIS 2001, 5 and 6).
use crate::tree::Name;

/// A set of names (RELAX NG, 6.1). The slice of `Ns` and of `Any` holds the one class that is excepted,
/// or nothing.
#[derive(Clone, Copy)]
pub enum NameClass<'b> {
    Name(Name<'b>),
    Ns(&'b str, &'b [NameClass<'b>]),
    Any(&'b [NameClass<'b>]),
    Choice(&'b [NameClass<'b>]),
}

/// A pattern (RELAX NG, 6.2). `Ref` counts the grammar's element patterns from 1.
#[derive(Clone, Copy)]
pub enum Pat<'b> {
    Empty,
    NotAllowed,
    Text,
    Ref(u32),
    Group(&'b [Pat<'b>]),
    Choice(&'b [Pat<'b>]),
    Interleave(&'b [Pat<'b>]),
    OneOrMore(&'b Pat<'b>),
}

/// An element pattern: the names that it allows, and the pattern of its children.
#[derive(Clone, Copy)]
pub struct ElemPat<'b> {
    pub names: NameClass<'b>,
    pub content: Pat<'b>,
}

/// A schema: the pattern of the whole document, and its element patterns.
#[derive(Clone, Copy)]
pub struct Grammar<'b> {
    pub start: Pat<'b>,
    pub elements: &'b [ElemPat<'b>],
}

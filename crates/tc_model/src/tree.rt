// Names, trees, and trees as they are read.
use tc_base::Place;

/// An expanded name: a namespace name, empty where there is none, and a local name (Namespaces in
/// XML 1.0, 2.1).
#[derive(Clone, Copy, Debug, PartialEq, Eq, PartialOrd, Ord, Hash)]
pub struct Name<'b> {
    pub uri: &'b str,
    pub local: &'b str,
}

/// A tree: an element with its children, or a text.
#[derive(Clone, Copy)]
pub enum Node<'b> {
    Elem(Name<'b>, &'b [Node<'b>]),
    Text(&'b str),
}

/// A prefix in scope with the namespace name to which it is bound; the empty prefix stands for the
/// default namespace.
#[derive(Clone, Copy)]
pub struct Binding<'b> {
    pub prefix: &'b str,
    pub uri: &'b str,
}

/// An attribute that is no namespace declaration, with the place of its name's first byte.
#[derive(Clone, Copy)]
pub struct RawAttr<'b> {
    pub name: Name<'b>,
    pub value: &'b str,
    pub place: Place,
}

/// An element as it was read: its attributes, the prefixes in scope, the place of its `<`, its children.
#[derive(Clone, Copy)]
#[cycle(raw)]
pub struct RawElem<'b> {
    pub name: Name<'b>,
    pub attrs: &'b [RawAttr<'b>],
    pub scope: &'b [Binding<'b>],
    pub place: Place,
    pub kids: &'b [Raw<'b>],
}

/// A tree as it was read: an element, or a text with the place of its first byte.
#[derive(Clone, Copy)]
#[cycle(raw)]
pub enum Raw<'b> {
    Elem(RawElem<'b>),
    Text(&'b str, Place),
}

// Stylesheets (XSLT 1.0, 2 to 9).
use crate::tree::Name;

/// A node test (XPath 1.0, 2.3). `Ns` is `p:*`, `Any` is `*`, `Text` is `text()`, `Node` is `node()`.
#[derive(Clone, Copy)]
pub enum NodeTest<'b> {
    Name(Name<'b>),
    Ns(&'b str),
    Any,
    Text,
    Node,
}

/// A step of a location path: whether `//` stands before it, its node test, and its predicates as one
/// test, which is `True` where it has none.
#[derive(Clone, Copy)]
#[cycle(path)]
pub struct Step<'b> {
    pub deep: bool,
    pub test: NodeTest<'b>,
    pub when: Test<'b>,
}

/// The alternatives of a select or of a path in a test.
#[derive(Clone, Copy)]
#[cycle(path)]
pub struct Path<'b> {
    pub alts: &'b [&'b [Step<'b>]],
}

/// One alternative of a match pattern (XSLT 1.0, 5.2): `/`, or steps.
#[derive(Clone, Copy)]
pub enum Pattern<'b> {
    Root,
    Steps(&'b [Step<'b>]),
}

/// An alternative of a match pattern with its default priority in ten-thousandths (XSLT 1.0, 5.5).
#[derive(Clone, Copy)]
pub struct Alt<'b> {
    pub pattern: Pattern<'b>,
    pub priority: i64,
}

/// A boolean expression of a test or a predicate. `Has` holds where its path selects something.
#[derive(Clone, Copy)]
#[cycle(path)]
pub enum Test<'b> {
    True,
    False,
    Has(Path<'b>),
    Not(&'b Test<'b>),
    And(&'b [Test<'b>]),
    Or(&'b [Test<'b>]),
}

/// A branch of `xsl:choose`, or an `xsl:if`: its test and its body.
#[derive(Clone, Copy)]
#[cycle(body)]
pub struct Branch<'b> {
    pub test: Test<'b>,
    pub body: &'b [Instr<'b>],
}

/// An instruction of a template. Modes, named bodies and for-eaches go by number.
#[derive(Clone, Copy)]
#[cycle(body)]
pub enum Instr<'b> {
    Text(&'b str),
    Elem(Name<'b>, &'b [Instr<'b>]),
    Copy(&'b [Instr<'b>]),
    Apply(Path<'b>, u32),
    Call(u32),
    ValueOf(Path<'b>),
    ValueOfSelf,
    Choose(&'b [Branch<'b>], &'b [Instr<'b>]),
    ForEach(u32, Path<'b>, &'b [Instr<'b>]),
}

/// A template rule: one alternative of its pattern, with its priority in ten-thousandths.
#[derive(Clone, Copy)]
pub struct Rule<'b> {
    pub mode: u32,
    pub pattern: Pattern<'b>,
    pub priority: i64,
    pub body: &'b [Instr<'b>],
}

/// A stylesheet: how many modes it has (mode 0 is the default mode) and how many for-eaches, its rules in
/// the order of the text, and the bodies of its named templates.
#[derive(Clone, Copy)]
pub struct Sheet<'b> {
    pub modes: u32,
    pub eaches: u32,
    pub rules: &'b [Rule<'b>],
    pub named: &'b [&'b [Instr<'b>]],
}

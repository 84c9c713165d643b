//! States, edges and runs of small schemas, by hand.

use std::alloc::Global;
use std::test::Fail;
use tc_auto::{Auto, AutoFault, Edge, Leaf};
use tc_model::{ElemPat, Grammar, Name, NameClass, Pat};

const A: Name<'static> = Name {
    uri: "",
    local: "a",
};

const B: Name<'static> = Name {
    uri: "",
    local: "b",
};

const C: Name<'static> = Name {
    uri: "",
    local: "c",
};

const A_OF_U: Name<'static> = Name {
    uri: "u",
    local: "a",
};

const B_OF_U: Name<'static> = Name {
    uri: "u",
    local: "b",
};

const A_OF_V: Name<'static> = Name {
    uri: "v",
    local: "a",
};

/// The states to which an item leads some states. A set of states is a number that has their bits, since there are few.
fn after(auto: &Auto<'_>, states: u64, item: Leaf) -> u64 {
    let mut next = 0;
    for state in 0..auto.states().min(64) {
        if (states >> state) % 2 == 1 {
            for edge in auto.follow(state) {
                if edge.leaf == item && edge.to < 64 {
                    next |= 1 << edge.to;
                }
            }
        }
    }
    next
}

/// Whether one of some states accepts.
fn is_one_accepting(auto: &Auto<'_>, states: u64) -> bool {
    for state in 0..auto.states().min(64) {
        if (states >> state) % 2 == 1 && auto.accepts(state) {
            return true;
        }
    }
    false
}

/// Whether the items lead from the first state of a part to an accepting one.
fn runs(auto: &Auto<'_>, part: u32, items: &[Leaf]) -> bool {
    if part > auto.patterns() {
        return false;
    }
    let first = auto.first(part);
    if first >= 64 {
        return false;
    }
    let mut states = 1 << first;
    for item in items {
        states = after(auto, states, *item);
    }
    is_one_accepting(auto, states)
}

/// Which of three names an element pattern allows, if there is such a pattern.
fn allowed(auto: &Auto<'_>, number: u32) -> Option<[bool; 3]> {
    if number < 1 || number > auto.patterns() {
        return None;
    }
    Some([
        auto.allows(number, &A_OF_U),
        auto.allows(number, &B_OF_U),
        auto.allows(number, &A_OF_V),
    ])
}

/// What is told of an automaton.
enum Told {
    /// How many states there are, and how many element patterns.
    Counts(u32, u32),
    /// The first state of a part.
    First(u32, u32),
    /// Whether a state accepts, and its first edge.
    State(u32, bool, Option<Edge>),
    /// Whether the items lead from the first state of a part to an accepting one.
    Run(u32, &'static [Leaf], bool),
    /// Which of three names an element pattern allows.
    Allowed(u32, [bool; 3]),
    /// Whether an element pattern is an alternative of the start.
    Start(u32, bool),
}

/// Whether it is so.
fn is_so(auto: &Auto<'_>, told: &Told) -> bool {
    match told {
        Told::Counts(states, patterns) => {
            auto.states() == *states && auto.patterns() == *patterns
        }
        Told::First(part, state) => *part <= auto.patterns() && auto.first(*part) == *state,
        Told::State(state, is_accepting, edge) => {
            *state < auto.states()
                && auto.accepts(*state) == *is_accepting
                && auto.follow(*state).first().copied() == *edge
        }
        Told::Run(part, items, is_led) => runs(auto, *part, items) == *is_led,
        Told::Allowed(number, names) => allowed(auto, *number) == Some(*names),
        Told::Start(number, is_start) => auto.starts(*number) == *is_start,
    }
}

/// The name of the first row of which it isn't so, or an empty one.
fn first_wrong(auto: &Auto<'_>, all: &[(&'static str, Told)]) -> &'static str {
    for (name, told) in all {
        if !is_so(auto, told) {
            return name;
        }
    }
    ""
}

/// `element a { a, text }`.
const GROUP: Grammar<'static> = Grammar {
    start: Pat::Ref(1),
    elements: &GROUP_ELEMENTS,
};

const GROUP_ELEMENTS: [ElemPat<'static>; 1] = [ElemPat {
    names: NameClass::Name(A),
    content: Pat::Group(&GROUP_MEMBERS),
}];

const GROUP_MEMBERS: [Pat<'static>; 2] = [Pat::Ref(1), Pat::Text];

const TO_1: Edge = Edge {
    to: 1,
    leaf: Leaf::Ref(1),
};

const TO_3: Edge = Edge {
    to: 3,
    leaf: Leaf::Ref(1),
};

const TO_4: Edge = Edge {
    to: 4,
    leaf: Leaf::Text,
};

/// `element a { element b { empty } & element c { empty } }`.
const INTERLEAVED: Grammar<'static> = Grammar {
    start: Pat::Ref(1),
    elements: &INTERLEAVED_ELEMENTS,
};

const INTERLEAVED_ELEMENTS: [ElemPat<'static>; 3] = [
    ElemPat {
        names: NameClass::Name(A),
        content: Pat::Interleave(&INTERLEAVED_MEMBERS),
    },
    ElemPat {
        names: NameClass::Name(B),
        content: Pat::Empty,
    },
    ElemPat {
        names: NameClass::Name(C),
        content: Pat::Empty,
    },
];

const INTERLEAVED_MEMBERS: [Pat<'static>; 2] = [Pat::Ref(2), Pat::Ref(3)];

const TO_B: Leaf = Leaf::Ref(2);

const TO_C: Leaf = Leaf::Ref(3);

/// `element b { (b, b)* }`, without a start.
const PAIRS: Grammar<'static> = Grammar {
    start: Pat::NotAllowed,
    elements: &PAIRS_ELEMENTS,
};

const PAIRS_ELEMENTS: [ElemPat<'static>; 1] = [ElemPat {
    names: NameClass::Name(B),
    content: Pat::Choice(&PAIRS_MEMBERS),
}];

const PAIRS_MEMBERS: [Pat<'static>; 2] = [Pat::OneOrMore(&Pat::Group(&PAIR)), Pat::Empty];

const PAIR: [Pat<'static>; 2] = [Pat::Ref(1), Pat::Ref(1)];

const TO_ITSELF: Leaf = Leaf::Ref(1);

/// `(element a of u or b of v | notAllowed) | element u:* - u:a`, with an element of all names but `a` of `u` beside.
const NAMED: Grammar<'static> = Grammar {
    start: Pat::Choice(&NAMED_START),
    elements: &NAMED_ELEMENTS,
};

const NAMED_START: [Pat<'static>; 2] = [Pat::Choice(&NAMED_INNER), Pat::Ref(1)];

const NAMED_INNER: [Pat<'static>; 2] = [Pat::Ref(3), Pat::NotAllowed];

const NAMED_ELEMENTS: [ElemPat<'static>; 3] = [
    ElemPat {
        names: NameClass::Ns("u", &EXCEPTED),
        content: Pat::Empty,
    },
    ElemPat {
        names: NameClass::Any(&EXCEPTED),
        content: Pat::Empty,
    },
    ElemPat {
        names: NameClass::Choice(&EITHER),
        content: Pat::Empty,
    },
];

const EXCEPTED: [NameClass<'static>; 1] = [NameClass::Name(A_OF_U)];

const EITHER: [NameClass<'static>; 2] = [NameClass::Name(B_OF_U), NameClass::Name(A_OF_V)];

/// A schema, how many states its automaton may have, whether the start is in it, and what is told of it.
struct Schema {
    grammar: &'static Grammar<'static>,
    most: u32,
    has_start: bool,
    told: &'static [(&'static str, Told)],
}

static SCHEMAS: [Schema; 4] = [
    // The edges of one state after another, and which states accept.
    Schema {
        grammar: &GROUP,
        most: 5,
        has_start: true,
        told: &[
            ("a group: counts", Told::Counts(5, 1)),
            ("a group: the start", Told::First(0, 0)),
            ("a group: a", Told::First(1, 2)),
            ("a group: state 0", Told::State(0, false, Some(TO_1))),
            ("a group: state 1", Told::State(1, true, None)),
            ("a group: state 2", Told::State(2, false, Some(TO_3))),
            ("a group: state 3", Told::State(3, true, Some(TO_4))),
            ("a group: state 4", Told::State(4, true, Some(TO_4))),
        ],
    },
    // An interleave takes both in any order, and neither alone.
    Schema {
        grammar: &INTERLEAVED,
        most: 6,
        has_start: false,
        told: &[
            ("an interleave: counts", Told::Counts(6, 3)),
            ("b, c in a", Told::Run(1, &[TO_B, TO_C], true)),
            ("c, b in a", Told::Run(1, &[TO_C, TO_B], true)),
            ("b in a", Told::Run(1, &[TO_B], false)),
            ("b, b in a", Told::Run(1, &[TO_B, TO_B], false)),
            ("nothing in b", Told::Run(2, &[], true)),
        ],
    },
    // Pairs again and again are an even number.
    Schema {
        grammar: &PAIRS,
        most: 3,
        has_start: false,
        told: &[
            ("pairs: counts", Told::Counts(3, 1)),
            ("no b", Told::Run(1, &[], true)),
            ("one b", Told::Run(1, &[TO_ITSELF; 1], false)),
            ("two b", Told::Run(1, &[TO_ITSELF; 2], true)),
            ("three b", Told::Run(1, &[TO_ITSELF; 3], false)),
            ("four b", Told::Run(1, &[TO_ITSELF; 4], true)),
            ("five b", Told::Run(1, &[TO_ITSELF; 5], false)),
            ("six b", Told::Run(1, &[TO_ITSELF; 6], true)),
        ],
    },
    // Wildcards with exceptions, and alternatives of the start in a choice within a choice.
    Schema {
        grammar: &NAMED,
        most: 3,
        has_start: false,
        told: &[
            ("names: counts", Told::Counts(3, 3)),
            ("u:* - u:a", Told::Allowed(1, [false, true, false])),
            ("* - u:a", Told::Allowed(2, [false, true, true])),
            ("u:b | v:a", Told::Allowed(3, [false, true, true])),
            ("u:* - u:a is a start", Told::Start(1, true)),
            ("* - u:a is none", Told::Start(2, false)),
            ("u:b | v:a is a start", Told::Start(3, true)),
        ],
    },
];

/// The automaton of a schema, of up to so many states, or of the contents of its element patterns alone.
fn automaton_of<'b>(
    alloc: Global,
    grammar: &Grammar<'b>,
    most: u32,
    has_start: bool,
) -> Result<Auto<'b>, AutoFault> {
    if has_start {
        Auto::of(alloc, grammar, most)
    } else {
        Auto::contents(alloc, grammar, most)
    }
}

/// The name of the first row of a schema of which it isn't so, or an empty one.
fn first_wrong_of(alloc: Global, schema: &Schema) -> Result<&'static str, AutoFault> {
    let auto = automaton_of(alloc, schema.grammar, schema.most, schema.has_start)?;
    Ok(first_wrong(&auto, schema.told))
}

#[test]
fn automata_are_as_told(rt: HostRuntime) {
    for schema in &SCHEMAS {
        assert_eq!(rt; first_wrong_of(rt.alloc(), schema), Ok(""));
    }
}

/// `element a { element b { empty }, .. }`, of 260 references.
static LARGE: Grammar<'static> = Grammar {
    start: Pat::Ref(1),
    elements: &LARGE_ELEMENTS,
};

const LARGE_ELEMENTS: [ElemPat<'static>; 2] = [
    ElemPat {
        names: NameClass::Name(A),
        content: Pat::Group(&LARGE_MEMBERS),
    },
    ElemPat {
        names: NameClass::Name(B),
        content: Pat::Empty,
    },
];

const LARGE_MEMBERS: [Pat<'static>; 260] = [Pat::Ref(2); 260];

/// `element a { a & .. }`, of 70 references to itself.
static WIDE: Grammar<'static> = Grammar {
    start: Pat::Ref(1),
    elements: &WIDE_ELEMENTS,
};

const WIDE_ELEMENTS: [ElemPat<'static>; 1] = [ElemPat {
    names: NameClass::Name(A),
    content: Pat::Interleave(&WIDE_MEMBERS),
}];

const WIDE_MEMBERS: [Pat<'static>; 70] = [Pat::Ref(1); 70];

/// How many states a schema has, up to so many, or the contents of its element patterns alone.
fn states_of(
    alloc: Global,
    grammar: &Grammar<'_>,
    most: u32,
    has_start: bool,
) -> Result<u32, AutoFault> {
    let auto = automaton_of(alloc, grammar, most, has_start)?;
    Ok(auto.states())
}

/// How many states are allowed, whether the start is among them, and what is told: two states of the start, 261 of the content of
/// `a` and one of that of `b`.
static LARGE_COUNTS: [(u32, bool, Result<u32, AutoFault>); 3] = [
    (263, true, Err(AutoFault::TooManyStates)),
    (264, true, Ok(264)),
    (262, false, Ok(262)),
];

/// States are counted before they are built.
#[test]
fn large_schemas_have_so_many_states(rt: HostRuntime) {
    for (most, has_start, states) in &LARGE_COUNTS {
        let found = states_of(rt.alloc(), &LARGE, *most, *has_start);
        assert!(rt; found == *states, "{most}");
    }
    let found = states_of(rt.alloc(), &WIDE, 4_294_967_295, true);
    assert!(rt; found == Err(AutoFault::TooManyStates));
}

// The schemas of the tests.

use tc_model::{ElemPat, Grammar, Name, NameClass, Pat};

const A: NameClass<'static> = NameClass::Name(Name {
    uri: "",
    local: "a",
});

const B: NameClass<'static> = NameClass::Name(Name {
    uri: "",
    local: "b",
});

const C: NameClass<'static> = NameClass::Name(Name {
    uri: "",
    local: "c",
});

/// `start = element a { any }` and `any = (element * { any } | text)*`.
pub(crate) static ANYTHING: Grammar<'static> = Grammar {
    start: Pat::Ref(1),
    elements: &ANYTHING_ELEMENTS,
};

const ANYTHING_ELEMENTS: [ElemPat<'static>; 2] = [
    ElemPat {
        names: A,
        content: Pat::Choice(&ANY),
    },
    ElemPat {
        names: NameClass::Any(&[]),
        content: Pat::Choice(&ANY),
    },
];

const ANY: [Pat<'static>; 2] = [Pat::OneOrMore(&ELEMENT_OR_TEXT), Pat::Empty];

const ELEMENT_OR_TEXT: Pat<'static> = Pat::Choice(&[Pat::Ref(2), Pat::Text]);

/// `element a { element b { empty } & element c { empty } }`.
pub(crate) static BOTH: Grammar<'static> = Grammar {
    start: Pat::Ref(1),
    elements: &BOTH_ELEMENTS,
};

const BOTH_ELEMENTS: [ElemPat<'static>; 3] = [
    ElemPat {
        names: A,
        content: Pat::Interleave(&[Pat::Ref(2), Pat::Ref(3)]),
    },
    ElemPat {
        names: B,
        content: Pat::Empty,
    },
    ElemPat {
        names: C,
        content: Pat::Empty,
    },
];

/// `element a { empty }`.
pub(crate) static EMPTY: Grammar<'static> = Grammar {
    start: Pat::Ref(1),
    elements: &EMPTY_ELEMENTS,
};

const EMPTY_ELEMENTS: [ElemPat<'static>; 1] = [ElemPat {
    names: A,
    content: Pat::Empty,
}];

/// `start = e` and `e = element a { e? }`.
pub(crate) static NESTED: Grammar<'static> = Grammar {
    start: Pat::Ref(1),
    elements: &NESTED_ELEMENTS,
};

const NESTED_ELEMENTS: [ElemPat<'static>; 1] = [ElemPat {
    names: A,
    content: Pat::Choice(&OPTIONAL),
}];

const OPTIONAL: [Pat<'static>; 2] = [Pat::Ref(1), Pat::Empty];

/// `start = e` and `e = element * { e? }`.
pub(crate) static NAMED: Grammar<'static> = Grammar {
    start: Pat::Ref(1),
    elements: &NAMED_ELEMENTS,
};

const NAMED_ELEMENTS: [ElemPat<'static>; 1] = [ElemPat {
    names: NameClass::Any(&[]),
    content: Pat::Choice(&OPTIONAL),
}];

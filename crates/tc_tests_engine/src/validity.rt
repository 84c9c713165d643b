//! Pairs and validity of small trees, by hand.

use bumpalo::Bump;
use bumpalo::collections::into_bump_slice;
use std::alloc::Global;
use tc_alpha::{Alphabet, Sym};
use tc_auto::Auto;
use tc_base::NoMemory;
use tc_hedge::Hedge;
use tc_mat::Mat;
use tc_model::{ElemPat, Grammar, Name, NameClass, Node, Pat, Sheet};
use tc_steps::{Judge, take_tree};

const A: Name<'static> = Name {
    uri: "",
    local: "a",
};

const B: Name<'static> = Name {
    uri: "",
    local: "b",
};

const C: Name<'static> = Name {
    uri: "",
    local: "c",
};

const D: Name<'static> = Name {
    uri: "",
    local: "d",
};

const EMPTY_B: ElemPat<'static> = ElemPat {
    names: NameClass::Name(B),
    content: Pat::Empty,
};

const EMPTY_C: ElemPat<'static> = ElemPat {
    names: NameClass::Name(C),
    content: Pat::Empty,
};

const EMPTY_D: ElemPat<'static> = ElemPat {
    names: NameClass::Name(D),
    content: Pat::Empty,
};

static NOTHING: Grammar<'static> = Grammar {
    start: Pat::NotAllowed,
    elements: &[],
};

/// A stylesheet without rules.
static NO_RULES: Sheet<'static> = Sheet {
    modes: 1,
    eaches: 0,
    rules: &[],
    named: &[],
};

const LEAF_A: Node<'static> = Node::Elem(A, &[]);

const LEAF_B: Node<'static> = Node::Elem(B, &[]);

const LEAF_C: Node<'static> = Node::Elem(C, &[]);

const LEAF_D: Node<'static> = Node::Elem(D, &[]);

const X: Node<'static> = Node::Text("x");

const WHITE: Node<'static> = Node::Text(" \n");

/// A tree as it is told where it isn't as it should be, the tree, and whether it is a valid document.
type Document<'n> = (&'n str, Node<'n>, bool);

/// Trees as they are told, the trees, and whether they lead state 0 to an accepting state of the start.
type Hedges<'n> = (&'n str, &'n [Node<'n>], bool);

/// The symbols of one schema and no stylesheet.
fn symbols_of(alloc: Global, grammar: &Grammar<'_>) -> Result<Alphabet, NoMemory> {
    Alphabet::of(alloc, grammar, &NOTHING, &NO_RULES).or(Err(NoMemory))
}

/// Whether a document is valid for a schema, if it can be told.
fn is_valid(alloc: Global, grammar: &Grammar<'_>, document: &Node<'_>) -> Option<bool> {
    let alphabet = symbols_of(alloc, grammar).ok()?;
    let auto = Auto::contents(alloc, grammar, 512).ok()?;
    let mut judge = Judge::new(alloc, &auto, &alphabet).ok()?;
    take_tree(&mut judge, document)?;
    Some(judge.is_valid())
}

/// The hedge of an output schema.
fn hedge_of<'b>(alloc: Global, grammar: &Grammar<'b>) -> Result<Hedge<'b>, NoMemory> {
    let Ok(alphabet) = symbols_of(alloc, grammar) else {
        return Err(NoMemory);
    };
    let Ok(auto) = Auto::of(alloc, grammar, 512) else {
        return Err(NoMemory);
    };
    Hedge::of(alloc, auto, &alphabet)
}

/// Whether pairs lead state 0 to an accepting state of the start.
fn is_accepted(hedge: &Hedge<'_>, pairs: &Mat) -> bool {
    let states = hedge.auto().states();
    if hedge.auto().patterns() == 0 || pairs.size() != states {
        return false;
    }
    let end = hedge.auto().first(1);
    for state in 0..end {
        if state < states && pairs.has(0, state) && hedge.auto().accepts(state) {
            return true;
        }
    }
    false
}

/// Whether trees lead state 0 to an accepting state of the start.
fn leads(hedge: &Hedge<'_>, nodes: &[Node<'_>]) -> Result<bool, NoMemory> {
    match hedge.matrix_of(nodes) {
        Ok(pairs) => Ok(is_accepted(hedge, &pairs)),
        Err(fault) => Err(fault),
    }
}

/// The first tree that isn't told rightly whether it is a valid document of a schema, or an empty text.
fn first_wrong_document<'n>(
    alloc: Global,
    grammar: &Grammar<'_>,
    documents: &[Document<'n>],
) -> &'n str {
    for (text, node, is_so) in documents {
        if is_valid(alloc, grammar, node) != Some(*is_so) {
            return text;
        }
    }
    ""
}

/// The first trees that aren't told rightly whether they lead so, or an empty text.
fn first_wrong_hedge<'n>(hedge: &Hedge<'_>, hedges: &[Hedges<'n>]) -> &'n str {
    for (text, nodes, is_led) in hedges {
        if leads(hedge, nodes) != Ok(*is_led) {
            return text;
        }
    }
    ""
}

/// `element a { element b { empty } & element c { empty } }`.
static INTERLEAVED: Grammar<'static> = Grammar {
    start: Pat::Ref(1),
    elements: &INTERLEAVED_ELEMENTS,
};

const INTERLEAVED_ELEMENTS: [ElemPat<'static>; 3] = [
    ElemPat {
        names: NameClass::Name(A),
        content: Pat::Interleave(&BOTH),
    },
    EMPTY_B,
    EMPTY_C,
];

const BOTH: [Pat<'static>; 2] = [Pat::Ref(2), Pat::Ref(3)];

static INTERLEAVED_DOCUMENTS: [Document<'static>; 5] = [
    ("<a><b/><c/></a>", Node::Elem(A, &[LEAF_B, LEAF_C]), true),
    ("<a><c/><b/></a>", Node::Elem(A, &[LEAF_C, LEAF_B]), true),
    ("<a><b/></a>", Node::Elem(A, &[LEAF_B]), false),
    (
        "<a><b/><c/><b/></a>",
        Node::Elem(A, &[LEAF_B, LEAF_C, LEAF_B]),
        false,
    ),
    ("<b/>", LEAF_B, false),
];

/// `element a { element b { empty }, (element c { empty } | text), element d { empty }+ }`.
static GROUPED: Grammar<'static> = Grammar {
    start: Pat::Choice(&[Pat::NotAllowed, Pat::Ref(1)]),
    elements: &GROUPED_ELEMENTS,
};

const GROUPED_ELEMENTS: [ElemPat<'static>; 4] = [
    ElemPat {
        names: NameClass::Name(A),
        content: Pat::Group(&MEMBERS),
    },
    EMPTY_B,
    EMPTY_C,
    EMPTY_D,
];

const MEMBERS: [Pat<'static>; 3] = [
    Pat::Ref(2),
    Pat::Choice(&[Pat::Ref(3), Pat::Text]),
    Pat::OneOrMore(&Pat::Ref(4)),
];

static GROUPED_DOCUMENTS: [Document<'static>; 8] = [
    (
        "<a><b/><c/><d/></a>",
        Node::Elem(A, &[LEAF_B, LEAF_C, LEAF_D]),
        true,
    ),
    (
        "<a><b/>x<d/><d/></a>",
        Node::Elem(A, &[LEAF_B, X, LEAF_D, LEAF_D]),
        true,
    ),
    ("a text may be none", Node::Elem(A, &[LEAF_B, LEAF_D]), true),
    ("d is missing", Node::Elem(A, &[LEAF_B, LEAF_C]), false),
    (
        "the order counts",
        Node::Elem(A, &[LEAF_C, LEAF_B, LEAF_D]),
        false,
    ),
    (
        "one of both",
        Node::Elem(A, &[LEAF_B, LEAF_C, X, LEAF_D]),
        false,
    ),
    (
        "<a><b/><c/><d/><b/></a>",
        Node::Elem(A, &[LEAF_B, LEAF_C, LEAF_D, LEAF_B]),
        false,
    ),
    ("b is no start", LEAF_B, false),
];

/// `element a { mixed { element b { empty }* } }`.
static MIXED: Grammar<'static> = Grammar {
    start: Pat::Ref(1),
    elements: &MIXED_ELEMENTS,
};

const MIXED_ELEMENTS: [ElemPat<'static>; 2] = [
    ElemPat {
        names: NameClass::Name(A),
        content: Pat::Interleave(&MIXED_MEMBERS),
    },
    EMPTY_B,
];

const MIXED_MEMBERS: [Pat<'static>; 2] = [Pat::Text, Pat::Choice(&ANY_NUMBER)];

const ANY_NUMBER: [Pat<'static>; 2] = [Pat::OneOrMore(&Pat::Ref(2)), Pat::Empty];

const LOOSE: [Node<'static>; 3] = [X, WHITE, X];

const AROUND_LOOSE: Node<'static> = Node::Elem(A, &LOOSE);

const ONE_TEXT: [Node<'static>; 1] = [X];

const AROUND_TEXT: Node<'static> = Node::Elem(B, &ONE_TEXT);

static MIXED_DOCUMENTS: [Document<'static>; 4] = [
    ("<a/>", LEAF_A, true),
    (
        "<a>x<b/>x<b/><b/>x</a>",
        Node::Elem(A, &[X, LEAF_B, X, LEAF_B, LEAF_B, X]),
        true,
    ),
    ("<a><b>x</b></a>", Node::Elem(A, &[AROUND_TEXT]), false),
    ("x", X, false),
];

static MIXED_HEDGES: [Hedges<'static>; 3] = [
    ("white space beside", &[WHITE, AROUND_LOOSE, WHITE], true),
    ("a text behind", &[WHITE, AROUND_LOOSE, X], false),
    ("no tree", &[], false),
];

/// `element * - (a | ns u:*) { element u:* - u:q { empty }? }`.
static WILD: Grammar<'static> = Grammar {
    start: Pat::Ref(1),
    elements: &WILD_ELEMENTS,
};

const WILD_ELEMENTS: [ElemPat<'static>; 2] = [
    ElemPat {
        names: NameClass::Any(&EXCEPTED),
        content: Pat::Choice(&[Pat::Ref(2), Pat::Empty]),
    },
    ElemPat {
        names: NameClass::Ns("u", &EXCEPTED_IN_U),
        content: Pat::Empty,
    },
];

const EXCEPTED: [NameClass<'static>; 1] = [NameClass::Choice(&EITHER_NAME)];

const EITHER_NAME: [NameClass<'static>; 2] = [NameClass::Name(A), NameClass::Ns("u", &[])];

const EXCEPTED_IN_U: [NameClass<'static>; 1] = [NameClass::Name(Name {
    uri: "u",
    local: "q",
})];

const LEAF_P_OF_U: Node<'static> = Node::Elem(
    Name {
        uri: "u",
        local: "p",
    },
    &[],
);

const LEAF_Q_OF_U: Node<'static> = Node::Elem(
    Name {
        uri: "u",
        local: "q",
    },
    &[],
);

const LEAF_P: Node<'static> = Node::Elem(
    Name {
        uri: "",
        local: "p",
    },
    &[],
);

static WILD_DOCUMENTS: [Document<'static>; 6] = [
    ("<b/>", LEAF_B, true),
    ("<b><u:p/></b>", Node::Elem(B, &[LEAF_P_OF_U]), true),
    ("<b><u:q/></b>", Node::Elem(B, &[LEAF_Q_OF_U]), false),
    ("<b><p/></b>", Node::Elem(B, &[LEAF_P]), false),
    ("<a/>", LEAF_A, false),
    ("<u:p/>", LEAF_P_OF_U, false),
];

/// `element * { text }`.
static TEXTS: Grammar<'static> = Grammar {
    start: Pat::Ref(1),
    elements: &[ElemPat {
        names: NameClass::Any(&[]),
        content: Pat::Text,
    }],
};

/// A name of a letter beyond ASCII, a hyphen and a digit.
const ACCENTED: Name<'static> = Name {
    uri: "",
    local: "é-1",
};

static TEXTS_DOCUMENTS: [Document<'static>; 2] = [
    ("<é-1/>", Node::Elem(ACCENTED, &[]), true),
    (
        "the last character",
        Node::Elem(A, &[Node::Text("\u{10FFFF}")]),
        true,
    ),
];

/// The first trees of a schema that aren't told rightly, or an empty text.
fn first_wrong<'n>(
    alloc: Global,
    grammar: &Grammar<'_>,
    documents: &[Document<'n>],
    hedges: &[Hedges<'n>],
) -> &'n str {
    let Ok(hedge) = hedge_of(alloc, grammar) else {
        return "no memory";
    };
    let wrong = first_wrong_document(alloc, grammar, documents);
    if wrong.is_empty() {
        first_wrong_hedge(&hedge, hedges)
    } else {
        wrong
    }
}

/// The same of each schema: of any order, of groups and repeats, of mixed content, of wildcards, and of texts alone.
fn wrong_of_each(alloc: Global) -> [&'static str; 5] {
    [
        first_wrong(alloc, &INTERLEAVED, &INTERLEAVED_DOCUMENTS, &[]),
        first_wrong(alloc, &GROUPED, &GROUPED_DOCUMENTS, &[]),
        first_wrong(alloc, &MIXED, &MIXED_DOCUMENTS, &MIXED_HEDGES),
        first_wrong(alloc, &WILD, &WILD_DOCUMENTS, &[]),
        first_wrong(alloc, &TEXTS, &TEXTS_DOCUMENTS, &[]),
    ]
}

#[test]
fn trees_of_each_schema_are_valid_as_told(rt: HostRuntime) {
    assert_eq!(rt; wrong_of_each(rt.alloc()), [""; 5]);
}

/// So many elements `a` within one another.
fn nested<'b>(arena: &'b Bump, depth: u32) -> Result<Node<'b>, NoMemory> {
    let mut node = LEAF_A;
    for _ in 1..depth {
        node = Node::Elem(A, arena.try_alloc_slice_copy(&[node])?);
    }
    Ok(node)
}

/// `start = a`, where `a = element a { a? }`.
static NESTED: Grammar<'static> = Grammar {
    start: Pat::Ref(1),
    elements: &NESTED_ELEMENTS,
};

const NESTED_ELEMENTS: [ElemPat<'static>; 1] = [ElemPat {
    names: NameClass::Name(A),
    content: Pat::Choice(&[Pat::Ref(1), Pat::Empty]),
}];

/// Whether so many elements are a valid document, and lead so.
fn are_valid(alloc: Global, depth: u32) -> bool {
    let arena = Bump::new(alloc);
    let Ok(node) = nested(&arena, depth) else {
        return false;
    };
    let Ok(hedge) = hedge_of(alloc, &NESTED) else {
        return false;
    };
    is_valid(alloc, &NESTED, &node) == Some(true) && leads(&hedge, &[node]) == Ok(true)
}

#[test]
fn goes_down_two_thousand_levels(rt: HostRuntime) {
    assert!(rt; are_valid(rt.alloc(), 2000));
}

/// `element a { (b | c)*, b, (b | c), .. }`: what stands twelfth from the end tells. Before it children lead to as many sets of
/// states as twelve of them can differ, which are more than are known by numbers.
static TWELFTH: Grammar<'static> = Grammar {
    start: Pat::Ref(1),
    elements: &TWELFTH_ELEMENTS,
};

const TWELFTH_ELEMENTS: [ElemPat<'static>; 3] = [
    ElemPat {
        names: NameClass::Name(A),
        content: Pat::Group(&[
            Pat::Choice(&[Pat::OneOrMore(&EITHER), Pat::Empty]),
            Pat::Ref(2),
            Pat::Group(&[EITHER, EITHER, EITHER, EITHER, EITHER, EITHER]),
            Pat::Group(&[EITHER, EITHER, EITHER, EITHER, EITHER]),
        ]),
    },
    EMPTY_B,
    EMPTY_C,
];

const EITHER: Pat<'static> = Pat::Choice(&[Pat::Ref(2), Pat::Ref(3)]);

/// An element `a` with so many children `b` and `c`, in no order.
fn mixed<'b>(arena: &'b Bump, count: usize) -> Result<Node<'b>, NoMemory> {
    let mut kids = Vec::new(arena);
    let mut dice = 1u32;
    for _child in 0..count {
        dice = dice.wrapping_mul(1_103_515_245).wrapping_add(12_345);
        let is_b = dice / 65_536 % 2 == 1;
        kids.push(if is_b { LEAF_B } else { LEAF_C })?;
    }
    Ok(Node::Elem(A, into_bump_slice(kids)))
}

/// Whether the twelfth child from the end is `b`.
fn is_twelfth(document: &Node<'_>) -> bool {
    let Node::Elem(_, kids) = document else {
        return false;
    };
    let before = kids.len().saturating_sub(12);
    match kids.get(before) {
        Some(Node::Elem(name, _)) => name.local == "b",
        _ => false,
    }
}

/// Whether a document of so many children is told rightly.
fn is_told_rightly(alloc: Global, count: usize) -> bool {
    let arena = Bump::new(alloc);
    let Ok(document) = mixed(&arena, count) else {
        return false;
    };
    is_valid(alloc, &TWELFTH, &document) == Some(is_twelfth(&document))
}

#[test]
fn more_sets_than_are_known_are_gone_through(rt: HostRuntime) {
    let mut are_right = true;
    for count in 4000..4016 {
        are_right &= is_told_rightly(rt.alloc(), count);
    }
    assert!(rt; are_right);
}

/// `element a { element * { empty }, text }`.
static AROUND: Grammar<'static> = Grammar {
    start: Pat::Ref(1),
    elements: &AROUND_ELEMENTS,
};

const AROUND_ELEMENTS: [ElemPat<'static>; 2] = [
    ElemPat {
        names: NameClass::Name(A),
        content: Pat::Group(&[Pat::Ref(2), Pat::Text]),
    },
    ElemPat {
        names: NameClass::Any(&[]),
        content: Pat::Empty,
    },
];

static KIDS: [Node<'static>; 2] = [Node::Elem(B, &[]), X];

/// The symbol of a name without a stylesheet, over one schema.
fn symbol_of(alloc: Global, grammar: &Grammar<'_>, name: &Name<'_>) -> Result<Sym, NoMemory> {
    match symbols_of(alloc, grammar) {
        Ok(alphabet) => Ok(alphabet.sym_of(name)),
        Err(fault) => Err(fault),
    }
}

/// Puts the pairs of an element of a symbol around trees into a matrix.
fn put_around(hedge: &Hedge<'_>, sym: Sym, inner: &Mat, around: &mut Mat) {
    let states = hedge.auto().states();
    if sym.0 < hedge.symbols() && inner.size() == states && around.size() == states {
        hedge.element_into(sym, inner, around);
    }
}

/// The pairs of an element of a symbol around trees.
fn pairs_around(
    alloc: Global,
    hedge: &Hedge<'_>,
    sym: Sym,
    kids: &[Node<'_>],
) -> Result<Mat, NoMemory> {
    let Ok(mut around) = Mat::zero(alloc, hedge.auto().states()) else {
        return Err(NoMemory);
    };
    let Ok(inner) = hedge.matrix_of(kids) else {
        return Err(NoMemory);
    };
    put_around(hedge, sym, &inner, &mut around);
    Ok(around)
}

/// Whether these are the pairs of some trees.
fn are_pairs(hedge: &Hedge<'_>, pairs: &Mat, nodes: &[Node<'_>]) -> bool {
    match hedge.matrix_of(nodes) {
        Ok(led) => pairs.words() == led.words(),
        Err(_) => false,
    }
}

/// Whether the pairs of an element of the symbol of `a` are those of the element of that name.
fn are_pairs_around(alloc: Global, hedge: &Hedge<'_>) -> bool {
    let Ok(sym) = symbol_of(alloc, &AROUND, &A) else {
        return false;
    };
    match pairs_around(alloc, hedge, sym, &KIDS) {
        Ok(around) => are_pairs(hedge, &around, &[Node::Elem(A, &KIDS)]),
        Err(_) => false,
    }
}

/// Whether the pairs of a text are those of its tree.
fn are_pairs_of_text(alloc: Global, hedge: &Hedge<'_>) -> bool {
    match Mat::identity(alloc, hedge.auto().states()) {
        Ok(mut pairs) => {
            hedge.text_into(&mut pairs);
            are_pairs(hedge, &pairs, &ONE_TEXT)
        }
        Err(_) => false,
    }
}

/// There are three symbols: `a`, other names without a namespace, others. An element is known by its own, and so is a text.
#[test]
fn knows_elements_by_their_symbols_and_texts(rt: HostRuntime) {
    let told = match hedge_of(rt.alloc(), &AROUND) {
        Ok(hedge) => [
            hedge.symbols() == 3,
            are_pairs_around(rt.alloc(), &hedge),
            are_pairs_of_text(rt.alloc(), &hedge),
        ],
        Err(_) => [false; 3],
    };
    assert_eq!(rt; told, [true; 3]);
}

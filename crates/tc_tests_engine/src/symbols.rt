//! Symbols of small schemas and stylesheets, by hand.

use bumpalo::Bump;
use bumpalo::collections::{into_bump_slice, into_bump_str};
use std::alloc::Global;
use tc_alpha::{AlphaFault, Alphabet, Sym};
use tc_base::NoMemory;
use tc_model::{ElemPat, Grammar, Instr, Name, NameClass, NodeTest, Pat, Path, Sheet, Step, Test};

/// Names of element patterns that take no element.
const NONE: NameClass<'static> = NameClass::Choice(&[]);

/// One step down.
const CHILD: [Step<'static>; 1] = [Step {
    deep: false,
    test: NodeTest::Any,
    when: Test::True,
}];

/// A stylesheet that mentions nothing: its one named body puts out the value of a path.
static NO_NAMES: Sheet<'static> = Sheet {
    modes: 1,
    eaches: 0,
    rules: &[],
    named: &[&[Instr::ValueOf(Path { alts: &[&CHILD] })]],
};

/// `element * - () { empty }`.
static ANY: Grammar<'static> = Grammar {
    start: Pat::Ref(1),
    elements: &[ElemPat {
        names: NameClass::Any(&[NONE]),
        content: Pat::Empty,
    }],
};

/// `element (a | * - n:*) { empty }`, where `n` stands for no namespace.
static ONE_OR_ELSEWHERE: Grammar<'static> = Grammar {
    start: Pat::Ref(1),
    elements: &[ElemPat {
        names: NameClass::Choice(&[
            NameClass::Name(A),
            NameClass::Any(&[NameClass::Ns("", &[])]),
        ]),
        content: Pat::Empty,
    }],
};

const A: Name<'static> = Name {
    uri: "",
    local: "a",
};

/// A name that nobody mentions.
const B: Name<'static> = Name {
    uri: "",
    local: "b",
};

/// A name of a namespace that nobody mentions.
const ELSEWHERE: Name<'static> = Name {
    uri: "urn:x",
    local: "a",
};

/// The element `a`, other names without a namespace, names of other namespaces.
static SYMBOLS: [(Name<'static>, u32); 3] = [(A, 0), (B, 1), (ELSEWHERE, 2)];

/// Whether there are these symbols, and no others.
fn are_symbols(alphabet: &Alphabet) -> bool {
    for (name, number) in &SYMBOLS {
        if alphabet.sym_of(name) != Sym(*number) {
            return false;
        }
    }
    alphabet.count() == 3
}

#[test]
fn a_wildcard_class_and_a_name_that_nobody_mentions(rt: HostRuntime) {
    let are_told = match Alphabet::of(rt.alloc(), &ANY, &ONE_OR_ELSEWHERE, &NO_NAMES) {
        Ok(alphabet) => are_symbols(&alphabet),
        Err(_) => false,
    };
    assert!(rt; are_told);
}

/// A name of a namespace.
const DEEP: [Step<'static>; 1] = [Step {
    deep: false,
    test: NodeTest::Name(Name {
        uri: "urn:n",
        local: "n",
    }),
    when: Test::True,
}];

/// One step down to what has a child of that name.
const HAVING: [Step<'static>; 1] = [Step {
    deep: false,
    test: NodeTest::Any,
    when: Test::Has(Path { alts: &[&DEEP] }),
}];

/// A stylesheet of a named body that nobody calls, which puts out the value of such a path.
static NEVER_CALLED: Sheet<'static> = Sheet {
    modes: 1,
    eaches: 0,
    rules: &[],
    named: &[&[Instr::ValueOf(Path { alts: &[&HAVING] })]],
};

/// A schema that mentions nothing.
static NOTHING: Grammar<'static> = Grammar {
    start: Pat::Ref(1),
    elements: &[ElemPat {
        names: NONE,
        content: Pat::Empty,
    }],
};

/// Whether this name is made for a symbol, if there is such a symbol.
fn is_fresh(alloc: Global, alphabet: &Alphabet, sym: Sym, uri: &str, local: &str) -> bool {
    if sym.0 >= alphabet.count() {
        return false;
    }
    let arena = Bump::new(alloc);
    match alphabet.fresh(&arena, sym) {
        Ok(name) => name.uri == uri && name.local == local,
        Err(_) => false,
    }
}

/// Symbols and the names that are made for them: `n` is taken in its namespace, and `urn:n` among namespaces.
static FRESH: [(u32, &str, &str); 3] = [(0, "urn:n", "n"), (1, "urn:n", "nn"), (2, "urn:nn", "n")];

/// Whether there are these symbols with their names, and no others.
fn are_fresh(alloc: Global, alphabet: &Alphabet) -> bool {
    for (number, uri, local) in &FRESH {
        if !is_fresh(alloc, alphabet, Sym(*number), uri, local) {
            return false;
        }
    }
    alphabet.count() == 3
}

#[test]
fn names_in_predicates_of_bodies_that_are_never_called(rt: HostRuntime) {
    let are_told = match Alphabet::of(rt.alloc(), &NOTHING, &NOTHING, &NEVER_CALLED) {
        Ok(alphabet) => are_fresh(rt.alloc(), &alphabet),
        Err(_) => false,
    };
    assert!(rt; are_told);
}

/// The class of the name of a number, without a namespace.
fn class_of<'b>(arena: &'b Bump, number: u32) -> Result<NameClass<'b>, NoMemory> {
    let local = into_bump_str(format!(in arena; "n{number}")?);
    Ok(NameClass::Name(Name { uri: "", local }))
}

/// The classes of so many names.
fn classes_of<'b>(arena: &'b Bump, count: u32) -> Result<&'b [NameClass<'b>], NoMemory> {
    let mut classes = Vec::new(arena);
    for number in 0..count {
        classes.push(class_of(arena, number)?)?;
    }
    Ok(into_bump_slice(classes))
}

/// A schema of one element pattern, of so many names.
fn schema_of_names<'b>(arena: &'b Bump, count: u32) -> Result<Grammar<'b>, NoMemory> {
    let element = ElemPat {
        names: NameClass::Choice(classes_of(arena, count)?),
        content: Pat::Empty,
    };
    Ok(Grammar {
        start: Pat::Ref(1),
        elements: arena.try_alloc_slice_copy(&[element])?,
    })
}

/// How many symbols two schemas have.
fn count_of(alloc: Global, input: &Grammar<'_>, output: &Grammar<'_>) -> Result<u32, AlphaFault> {
    match Alphabet::of(alloc, input, output, &NO_NAMES) {
        Ok(alphabet) => Ok(alphabet.count()),
        Err(fault) => Err(fault),
    }
}

/// The same of schemas of so many names.
fn count_of_names(alloc: Global, input: u32, output: u32) -> Result<u32, AlphaFault> {
    let arena = Bump::new(alloc);
    let Ok(input) = schema_of_names(&arena, input) else {
        return Err(AlphaFault::NoMemory);
    };
    let Ok(output) = schema_of_names(&arena, output) else {
        return Err(AlphaFault::NoMemory);
    };
    count_of(alloc, &input, &output)
}

/// How many names an input and an output have, and how many symbols there are: beside each name the other names without a
/// namespace, and all names of other namespaces.
static COUNTS: [(u32, u32, Result<u32, AlphaFault>); 2] = [
    (1022, 1022, Ok(1024)),
    (1022, 1023, Err(AlphaFault::TooManySymbols)),
];

#[test]
fn symbols_up_to_the_limit(rt: HostRuntime) {
    for (input, output, symbols) in &COUNTS {
        let found = count_of_names(rt.alloc(), *input, *output);
        assert!(rt; found == *symbols, "{input} {output}");
    }
}

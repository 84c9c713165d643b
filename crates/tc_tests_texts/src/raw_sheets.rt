//! Stylesheets, by hand.

use crate::constructs::{HERE, INSTRUCTIONS, UNSUPPORTED};
use bumpalo::Bump;
use bumpalo::collections::{into_bump_slice, into_bump_str};
use std::alloc::Global;
use std::process::Abort;
use std::test::Fail;
use tc_base::{Place, Why};
use tc_model::{Binding, Instr, Name, Pattern, Raw, RawAttr, RawElem, Rule, Sheet};
use tc_sheet::{SheetFault, read_sheet};

const XSL: &str = "http://www.w3.org/1999/XSL/Transform";

/// The prefixes that are in scope everywhere.
const SCOPE: [Binding<'static>; 3] = [
    Binding {
        prefix: "xml",
        uri: "http://www.w3.org/XML/1998/namespace",
    },
    Binding {
        prefix: "xsl",
        uri: "http://www.w3.org/1999/XSL/Transform",
    },
    Binding {
        prefix: "",
        uri: "urn:default",
    },
];

/// The same, for elements that are put together by functions.
static IN_SCOPE: [Binding<'static>; 3] = SCOPE;

/// An attribute without a namespace, at a place.
macro_rules! plain {
    ($place:expr, $local:expr, $value:expr) => {
        RawAttr {
            name: Name {
                uri: "",
                local: $local,
            },
            value: $value,
            place: Place($place),
        }
    };
}

/// An attribute of the namespace of XSLT, at a place.
macro_rules! of_xslt {
    ($place:expr, $local:expr, $value:expr) => {
        RawAttr {
            name: Name {
                uri: XSL,
                local: $local,
            },
            value: $value,
            place: Place($place),
        }
    };
}

/// An element of XSLT at a place, with these attributes and children.
macro_rules! xsl {
    ($place:expr, $local:expr, $attributes:expr, $kids:expr) => {
        Raw::Elem(RawElem {
            name: Name {
                uri: XSL,
                local: $local,
            },
            attrs: $attributes,
            scope: &SCOPE,
            place: Place($place),
            kids: $kids,
        })
    };
}

/// A stylesheet of version 1.0 at place 0.
macro_rules! stylesheet {
    ($kids:expr) => {
        xsl!(0, "stylesheet", &VERSION, $kids)
    };
}

/// A template for a pattern, which calls what there isn't.
macro_rules! of_undefined {
    ($pattern:expr) => {
        xsl!(
            50,
            "template",
            &[plain!(51, "match", $pattern)],
            &[xsl!(60, "call-template", &[plain!(61, "name", "z")], &[])]
        )
    };
}

const VERSION: [RawAttr<'static>; 1] = [plain!(1, "version", "1.0")];

/// The same, for stylesheets that are put together by functions.
static OF_VERSION: [RawAttr<'static>; 1] = VERSION;

static FOR_ROOT: [RawAttr<'static>; 1] = [plain!(11, "match", "/")];

/// A name of XSLT.
fn xslt(local: &str) -> Name<'_> {
    Name { uri: XSL, local }
}

/// A name without a namespace.
fn bare(local: &str) -> Name<'_> {
    Name { uri: "", local }
}

/// An element at a place, with these attributes and children.
fn element<'b>(
    place: u32,
    name: Name<'b>,
    attrs: &'b [RawAttr<'b>],
    kids: &'b [Raw<'b>],
) -> Raw<'b> {
    Raw::Elem(RawElem {
        name,
        attrs,
        scope: &IN_SCOPE,
        place: Place(place),
        kids,
    })
}

/// The sheet of a raw tree, if it is one.
fn sheet_of<'b>(arena: &'b Bump, raw: &Raw<'b>) -> Option<Sheet<'b>> {
    match raw {
        Raw::Elem(_) => read_sheet(arena, raw).ok(),
        Raw::Text(_, _) => None,
    }
}

/// The fault of a stylesheet, if it has one.
fn fault<'b>(arena: &'b Bump, raw: &Raw<'b>) -> Option<SheetFault> {
    match raw {
        Raw::Elem(_) => read_sheet(arena, raw).err(),
        Raw::Text(_, _) => None,
    }
}

/// The fault of a root with these attributes and children.
fn fault_of_root<'b>(
    alloc: Global,
    name: Name<'b>,
    attributes: &'b [RawAttr<'b>],
    kids: &'b [Raw<'b>],
) -> Option<SheetFault> {
    let arena = Bump::new(alloc);
    let root = element(0, name, attributes, kids);
    fault(&arena, &root)
}

/// The fault of a stylesheet that holds this.
fn fault_at_top<'b>(alloc: Global, kids: &'b [Raw<'b>]) -> Option<SheetFault> {
    fault_of_root(alloc, xslt("stylesheet"), &OF_VERSION, kids)
}

/// The fault of a stylesheet with one template, for `/`, that holds this.
fn fault_in_body<'b>(alloc: Global, inner: &'b [Raw<'b>]) -> Option<SheetFault> {
    let template = [element(10, xslt("template"), &FOR_ROOT, inner)];
    fault_at_top(alloc, &template)
}

/// The fault of an element in a template for `/`, with these attributes and children.
fn fault_within<'b>(
    alloc: Global,
    place: u32,
    name: Name<'b>,
    attributes: &'b [RawAttr<'b>],
    inner: &'b [Raw<'b>],
) -> Option<SheetFault> {
    let kids = [element(place, name, attributes, inner)];
    fault_in_body(alloc, &kids)
}

/// The stylesheet that copies all.
static COPYING: Raw<'static> = stylesheet!(&[
    xsl!(5, "output", &[plain!(6, "method", "xml")], &[]),
    xsl!(
        10,
        "template",
        &[plain!(11, "match", "@*|node()")],
        &[xsl!(
            20,
            "copy",
            &[],
            &[
                Raw::Text("\n  ", Place(21)),
                xsl!(
                    30,
                    "apply-templates",
                    &[plain!(31, "select", "@*|node()")],
                    &[]
                ),
            ]
        )]
    ),
]);

/// Whether a body applies templates of the first mode to the nodes of one path, and no more.
fn is_apply(body: &[Instr<'_>]) -> bool {
    match body.first() {
        Some(Instr::Apply(path, mode)) => body.len() == 1 && path.alts.len() == 1 && *mode == 0,
        _ => false,
    }
}

/// Whether a body copies, and does no more than that within.
fn is_copy(body: &[Instr<'_>]) -> bool {
    match body.first() {
        Some(Instr::Copy(inner)) => body.len() == 1 && is_apply(inner),
        _ => false,
    }
}

/// Whether that stylesheet is read as it should be.
fn is_copying(sheet: &Sheet<'_>) -> bool {
    match sheet.rules {
        [rule] => {
            sheet.named.is_empty()
                && sheet.modes == 1
                && sheet.eaches == 0
                && rule.priority == -5000
                && rule.mode == 0
                && is_copy(rule.body)
        }
        _ => false,
    }
}

#[test]
fn copies_all(rt: HostRuntime) {
    let arena = Bump::new(rt.alloc());
    match sheet_of(&arena, &COPYING) {
        Some(sheet) => assert!(rt; is_copying(&sheet)),
        None => panic!(rt; "a stylesheet"),
    }
}

/// A stylesheet of modes, a name and for-eaches: a named template with a for-each, and then a rule for two alternatives with two
/// for-eaches, of which one stands in the other. All alternatives of the third template are dropped, so its mode counts for
/// nothing.
static NUMBERED: Raw<'static> = stylesheet!(&[
    xsl!(
        10,
        "template",
        &[plain!(11, "name", "n")],
        &[xsl!(20, "for-each", &[plain!(21, "select", "a")], &[])]
    ),
    xsl!(
        30,
        "template",
        &[
            plain!(31, "match", "a|/"),
            plain!(32, "mode", "m"),
            plain!(33, "priority", "1.25"),
        ],
        &[
            xsl!(
                40,
                "for-each",
                &[plain!(41, "select", "a")],
                &[xsl!(50, "for-each", &[plain!(51, "select", "a")], &[])]
            ),
            xsl!(60, "apply-templates", &[plain!(61, "mode", "k")], &[]),
            xsl!(70, "call-template", &[plain!(71, "name", "n")], &[]),
        ]
    ),
    xsl!(
        80,
        "template",
        &[plain!(81, "match", "@x"), plain!(82, "mode", "z")],
        &[]
    ),
    xsl!(
        90,
        "template",
        &[plain!(91, "match", "b"), plain!(92, "mode", "k")],
        &[]
    ),
]);

/// Whether three rules have their modes and priorities, and the second one is for the root.
fn are_heads_numbered(rules: &[Rule<'_>]) -> bool {
    match rules {
        [first, second, third] => {
            first.mode == 1
                && third.mode == 2
                && first.priority == 12500
                && second.priority == 12500
                && third.priority == 0
                && matches!(second.pattern, Pattern::Root)
        }
        _ => false,
    }
}

/// How many instructions a body has, and the number of its for-each.
fn number_of_each(body: &[Instr<'_>]) -> Option<(usize, u32)> {
    match body.first() {
        Some(Instr::ForEach(number, _, _)) => Some((body.len(), *number)),
        _ => None,
    }
}

/// Whether the first rule's body has the numbers of its for-each, of the one within it, of the mode of its apply, and of what it
/// calls.
fn is_body_numbered(body: &[Instr<'_>]) -> bool {
    let Some(Instr::ForEach(outer, _, inside)) = body.first() else {
        return false;
    };
    let (Some(Instr::Apply(_, mode)), Some(Instr::Call(callee))) = (body.get(1), body.get(2)) else {
        return false;
    };
    body.len() == 3
        && *outer == 0
        && *mode == 2
        && *callee == 0
        && number_of_each(inside) == Some((1, 1))
}

/// Whether the one named body has the number of its for-each, and the first rule its own.
fn are_bodies_numbered(sheet: &Sheet<'_>) -> bool {
    match (sheet.named, sheet.rules) {
        ([named], [first, ..]) => {
            number_of_each(named) == Some((1, 2)) && is_body_numbered(first.body)
        }
        _ => false,
    }
}

/// Whether that stylesheet is read as it should be.
fn is_numbered(sheet: &Sheet<'_>) -> bool {
    sheet.modes == 3
        && sheet.eaches == 3
        && are_heads_numbered(sheet.rules)
        && are_bodies_numbered(sheet)
}

#[test]
fn numbers_modes_names_and_for_eaches(rt: HostRuntime) {
    let arena = Bump::new(rt.alloc());
    match sheet_of(&arena, &NUMBERED) {
        Some(sheet) => assert!(rt; is_numbered(&sheet)),
        None => panic!(rt; "a stylesheet"),
    }
}

/// The faults of an element in a body, at the top, and within an `xsl:apply-templates`.
fn faults_of(alloc: Global, local: &str) -> [Option<SheetFault>; 3] {
    let kids = [element(20, xslt(local), &[], &[])];
    [
        fault_in_body(alloc, &kids),
        fault_at_top(alloc, &kids),
        fault_within(alloc, 15, xslt("apply-templates"), &[], &kids),
    ]
}

#[test]
fn unsupported_elements(rt: HostRuntime) {
    for (local, why) in &UNSUPPORTED {
        let wanted = Some(SheetFault::Unsupported(Place(20), *why));
        assert!(rt;
            faults_of(rt.alloc(), local) == [wanted, wanted, wanted],
            "{local} in a body, at the top, within apply-templates"
        );
    }
}

static TEST: [RawAttr<'static>; 1] = [plain!(16, "test", "a = b")];

static METHOD: [RawAttr<'static>; 1] = [plain!(16, "method", "a = b")];

/// The fault of this within an output.
fn fault_in_output<'b>(alloc: Global, inner: &'b [Raw<'b>]) -> Option<SheetFault> {
    let kids = [element(15, xslt("output"), &METHOD, inner)];
    fault_at_top(alloc, &kids)
}

/// The faults of an element where it isn't looked at, within an attribute, which isn't read, and an output, and of a literal one.
fn faults_of_unseen(alloc: Global, local: &str) -> [Option<SheetFault>; 3] {
    let kids = [element(20, xslt(local), &[], &[])];
    [
        fault_within(alloc, 15, xslt("attribute"), &TEST, &kids),
        fault_in_output(alloc, &kids),
        fault_within(alloc, 20, bare(local), &[], &[]),
    ]
}

#[test]
fn elements_that_are_not_looked_at(rt: HostRuntime) {
    for (local, _) in &UNSUPPORTED {
        assert!(rt;
            faults_of_unseen(rt.alloc(), local) == [None, None, None],
            "{local} within an attribute, within an output, a literal one"
        );
    }
}

/// Asserts the fault of a row, of which such words tell.
fn assert_fault(
    rt: &impl Abort,
    row: &[&str],
    found: Option<SheetFault>,
    wanted: Option<SheetFault>,
) {
    assert!(rt; found == wanted, "{row:?}");
}

/// The fault of an instruction with one attribute without a namespace.
fn fault_of(alloc: Global, local: &str, name: &str, value: &str) -> Option<SheetFault> {
    let attributes = [plain!(21, name, value)];
    fault_within(alloc, 20, xslt(local), &attributes, &[])
}

#[test]
fn attributes_of_instructions(rt: HostRuntime) {
    for (local, name, value, wanted) in &INSTRUCTIONS {
        let found = fault_of(rt.alloc(), local, name, value);
        assert_fault(&rt, &[*local, *name, *value], found, *wanted);
    }
}

static VERSION_OF_XSLT: [RawAttr<'static>; 1] = [of_xslt!(21, "version", "1.0")];

#[test]
fn attributes_of_xslt_must_not_be_there(rt: HostRuntime) {
    let found = fault_within(rt.alloc(), 20, xslt("value-of"), &VERSION_OF_XSLT, &[]);
    assert!(rt; found == Some(SheetFault::Malformed(Place(20))));
}

/// An attribute of literal elements, and why they are refused.
static LITERALS: [(&str, &[RawAttr<'static>], Option<SheetFault>); 5] = [
    ("a", &[plain!(21, "a", "b")], None),
    ("select", &[plain!(21, "select", "b")], None),
    (
        "xsl:exclude-result-prefixes",
        &[of_xslt!(21, "exclude-result-prefixes", "b")],
        None,
    ),
    (
        "xsl:use-attribute-sets",
        &[of_xslt!(21, "use-attribute-sets", "b")],
        Some(SheetFault::Unsupported(HERE, Why::UseAttributeSets)),
    ),
    (
        "xsl:version",
        &[of_xslt!(21, "version", "b")],
        Some(SheetFault::Unsupported(HERE, Why::UnknownXslt)),
    ),
];

#[test]
fn attributes_of_literal_elements(rt: HostRuntime) {
    for (name, attributes, wanted) in &LITERALS {
        let found = fault_within(rt.alloc(), 20, bare("a"), attributes, &[]);
        assert_fault(&rt, &[*name], found, *wanted);
    }
}

/// The fault of a root.
const AT_ROOT: Option<SheetFault> = Some(SheetFault::Malformed(Place(0)));

/// The name of a root of XSLT, its attributes, and the fault of it.
static ROOTS: [(&str, &[RawAttr<'static>], Option<SheetFault>); 5] = [
    (
        "transform",
        &[plain!(1, "version", "1.0"), plain!(2, "id", "a")],
        None,
    ),
    ("stylesheet", &[plain!(1, "id", "a")], AT_ROOT),
    (
        "stylesheet",
        &[plain!(1, "id", "a"), plain!(2, "version", "1.1")],
        Some(SheetFault::Unsupported(Place(2), Why::XsltVersion)),
    ),
    (
        "stylesheet",
        &[
            plain!(1, "version", "1.0"),
            plain!(2, "extension-element-prefixes", "a"),
        ],
        Some(SheetFault::Unsupported(Place(2), Why::ExtensionElements)),
    ),
    ("variable", &[], AT_ROOT),
];

#[test]
fn roots(rt: HostRuntime) {
    for (local, attributes, wanted) in &ROOTS {
        let found = fault_of_root(rt.alloc(), xslt(local), attributes, &[]);
        assert_fault(&rt, &[*local], found, *wanted);
    }
}

/// The attribute of a literal root, and the fault of it.
static LITERAL_ROOTS: [(&str, &[RawAttr<'static>], Option<SheetFault>); 4] = [
    (
        "xsl:version",
        &[of_xslt!(1, "version", "1.0")],
        Some(SheetFault::Unsupported(Place(0), Why::SimplifiedStylesheet)),
    ),
    ("version", &[plain!(1, "version", "1.0")], AT_ROOT),
    (
        "xsl:use-attribute-sets",
        &[of_xslt!(1, "use-attribute-sets", "1.0")],
        AT_ROOT,
    ),
    ("xsl:other", &[of_xslt!(1, "other", "1.0")], AT_ROOT),
];

#[test]
fn literal_roots(rt: HostRuntime) {
    for (name, attributes, wanted) in &LITERAL_ROOTS {
        let found = fault_of_root(rt.alloc(), bare("html"), attributes, &[]);
        assert_fault(&rt, &[*name], found, *wanted);
    }
}

/// The attributes of a template, and whether its head is good.
static HEADS: [(&[RawAttr<'static>], bool); 8] = [
    (&[plain!(11, "match", "a")], true),
    (&[plain!(11, "name", "a")], true),
    (
        &[
            plain!(11, "match", "a"),
            plain!(12, "name", "b"),
            plain!(13, "mode", "c"),
        ],
        true,
    ),
    (
        &[plain!(11, "name", "a"), plain!(12, "priority", "1")],
        true,
    ),
    (&[plain!(11, "name", "a"), plain!(12, "mode", "b")], false),
    (&[plain!(11, "priority", "1")], false),
    (
        &[plain!(11, "match", "a"), plain!(12, "priority", "1.23456")],
        false,
    ),
    (&[plain!(11, "match", "@a"), plain!(12, "mode", "")], false),
];

/// The fault of a stylesheet with one template, of these attributes.
fn fault_of_head<'b>(alloc: Global, attributes: &'b [RawAttr<'b>]) -> Option<SheetFault> {
    let template = [element(10, xslt("template"), attributes, &[])];
    fault_at_top(alloc, &template)
}

#[test]
fn heads_of_templates(rt: HostRuntime) {
    for (attributes, good) in &HEADS {
        assert!(rt; fault_of_head(rt.alloc(), attributes).is_none() == *good);
    }
}

const CALLS_C: Raw<'static> = xsl!(
    25,
    "template",
    &[plain!(26, "name", "b")],
    &[xsl!(30, "call-template", &[plain!(31, "name", "c")], &[])]
);

const CALLS_ITSELF: Raw<'static> = xsl!(
    35,
    "template",
    &[plain!(36, "name", "c")],
    &[xsl!(40, "call-template", &[plain!(41, "name", "c")], &[])]
);

/// What the templates of a stylesheet are, and the fault of it.
static TEMPLATES: [(&str, &[Raw<'static>], Option<SheetFault>); 4] = [
    (
        "four templates, of which three have one name",
        &[
            xsl!(15, "template", &[plain!(16, "name", "b")], &[]),
            xsl!(10, "template", &[plain!(11, "name", "a")], &[]),
            xsl!(
                20,
                "template",
                &[plain!(21, "match", "b"), plain!(22, "name", "a")],
                &[]
            ),
            xsl!(30, "template", &[plain!(31, "name", "a")], &[]),
        ],
        Some(SheetFault::Malformed(Place(20))),
    ),
    // b calls c and c calls itself: the first call on a cycle is the second one
    (
        "calls on a cycle",
        &[CALLS_C, CALLS_ITSELF],
        Some(SheetFault::CallLoop(Place(40))),
    ),
    (
        "an undefined call, which comes before calls on a cycle",
        &[CALLS_C, CALLS_ITSELF, of_undefined!("a")],
        Some(SheetFault::Undefined(Place(60))),
    ),
    (
        "calls of a dropped template, which count for nothing",
        &[of_undefined!("@a")],
        None,
    ),
];

#[test]
fn names_and_calls_of_templates(rt: HostRuntime) {
    for (what, templates, wanted) in &TEMPLATES {
        let found = fault_at_top(rt.alloc(), templates);
        assert_fault(&rt, &[*what], found, *wanted);
    }
}

/// An element, by itself, around this.
fn around<'b>(arena: &'b Bump, inner: &'b [Raw<'b>]) -> Result<&'b [Raw<'b>], Fail> {
    let tree = element(20, bare("a"), &[], inner);
    Ok(arena.try_alloc_slice_copy(&[tree])?)
}

/// This many elements within one another.
fn nested<'b>(arena: &'b Bump, depth: u32) -> Result<&'b [Raw<'b>], Fail> {
    let mut inner = around(arena, &[])?;
    for _ in 1..depth {
        inner = around(arena, inner)?;
    }
    Ok(inner)
}

#[test]
fn elements_nest_two_thousand_deep(rt: HostRuntime) -> Result<(), Fail> {
    let arena = Bump::new(rt.alloc());
    let inner = nested(&arena, 2000)?;
    assert!(rt; fault_in_body(rt.alloc(), inner).is_none());
    Ok(())
}

/// A name for a number: one `a` for each of its bits that is 0, and one `b` for each that is 1.
fn name_of<'b>(arena: &'b Bump, number: u32) -> Result<&'b str, Fail> {
    let mut name = String::new(arena);
    let mut rest = number;
    for _ in 0..20 {
        name.push_str(if rest % 2 == 1 { "b" } else { "a" })?;
        rest /= 2;
    }
    Ok(into_bump_str(name))
}

/// An element of XSLT, by itself, with an attribute `name` and these children.
fn named<'b>(
    arena: &'b Bump,
    local: &'b str,
    name: &'b str,
    kids: &'b [Raw<'b>],
) -> Result<&'b [Raw<'b>], Fail> {
    let attributes = arena.try_alloc_slice_copy(&[plain!(2, "name", name)])?;
    let tree = element(1, xslt(local), attributes, kids);
    Ok(arena.try_alloc_slice_copy(&[tree])?)
}

/// A template of this name, by itself, which calls another one.
fn calling<'b>(arena: &'b Bump, name: &'b str, callee: &'b str) -> Result<&'b [Raw<'b>], Fail> {
    let call = named(arena, "call-template", callee, &[])?;
    named(arena, "template", name, call)
}

/// The first template of a chain.
static FIRST: [Raw<'static>; 1] = [xsl!(1, "template", &[plain!(2, "name", "first")], &[])];

/// Writes so many named templates, each of which calls the one before it.
fn put_chain<'b>(
    templates: &mut Vec<Raw<'b>, &'b Bump>,
    arena: &'b Bump,
    count: u32,
) -> Result<(), Fail> {
    templates.extend_from_slice(&FIRST)?;
    let mut before = "first";
    for number in 0..count {
        let name = name_of(arena, number)?;
        templates.extend_from_slice(calling(arena, name, before)?)?;
        before = name;
    }
    Ok(())
}

/// So many named templates, each of which calls the one before it.
fn chain<'b>(arena: &'b Bump, count: u32) -> Result<&'b [Raw<'b>], Fail> {
    let mut templates = Vec::new(arena);
    put_chain(&mut templates, arena, count)?;
    Ok(into_bump_slice(templates))
}

/// How many named bodies the stylesheet of these templates has.
fn count_of_named<'b>(arena: &'b Bump, templates: &'b [Raw<'b>]) -> Option<usize> {
    let root = element(0, xslt("stylesheet"), &OF_VERSION, templates);
    let sheet = sheet_of(arena, &root)?;
    Some(sheet.named.len())
}

#[test]
fn calls_lead_a_hundred_thousand_far(rt: HostRuntime) -> Result<(), Fail> {
    let arena = Bump::new(rt.alloc());
    let templates = chain(&arena, 100000)?;
    assert!(rt; count_of_named(&arena, templates) == Some(100001));
    Ok(())
}

//! Rows of the grammar, by hand.

use crate::repeated::{Parts, nested};
use bumpalo::Bump;
use std::alloc::Global;
use std::process::Abort;
use std::test::Fail;
use tc_base::Why;
use tc_model::{Alt, Binding, Instr, NodeTest, Path, Pattern, Step, Test};
use tc_path::{
    PathFault, read_pattern, read_priority, read_select, read_test, read_value, selects_attributes,
};

static SCOPE: [Binding<'static>; 2] = [
    Binding {
        prefix: "",
        uri: "urn:default",
    },
    Binding {
        prefix: "p",
        uri: "urn:p",
    },
];

/// Writes texts one after another.
fn put_texts(out: &mut String, texts: &[&str]) -> Result<(), Fail> {
    for text in texts {
        out.push_str(text)?;
    }
    Ok(())
}

/// The texts of a node test, which is spelled with its namespace name.
fn node_test<'t>(test: &NodeTest<'t>) -> [&'t str; 4] {
    match test {
        NodeTest::Name(name) => ["{", name.uri, "}", name.local],
        NodeTest::Ns(uri) => ["{", uri, "}", "*"],
        NodeTest::Any => ["*", "", "", ""],
        NodeTest::Text => ["text()", "", "", ""],
        NodeTest::Node => ["node()", "", "", ""],
    }
}

/// Steps: `//` before each deep one, `/` before another, and its predicates in brackets.
#[cycle(put)]
fn put_steps(out: &mut String, steps: &[Step<'_>]) -> Result<(), Fail> {
    for step in steps {
        put_texts(out, &[if step.deep { "//" } else { "/" }])?;
        put_texts(out, &node_test(&step.test))?;
        match step.when {
            Test::True => (),
            when => {
                put_texts(out, &["["])?;
                put_test(out, &when)?;
                put_texts(out, &["]"])?;
            }
        }
    }
    Ok(())
}

/// Paths, each followed by a stroke.
#[cycle(put)]
fn put_path(out: &mut String, path: &Path<'_>) -> Result<(), Fail> {
    put_texts(out, &["<"])?;
    for steps in path.alts {
        put_steps(out, steps)?;
        put_texts(out, &["|"])?;
    }
    put_texts(out, &[">"])
}

/// Tests in parentheses behind a word, each followed by a comma.
#[cycle(put)]
fn put_tests(out: &mut String, word: &str, tests: &[Test<'_>]) -> Result<(), Fail> {
    put_texts(out, &[word, "("])?;
    for test in tests {
        put_test(out, test)?;
        put_texts(out, &[","])?;
    }
    put_texts(out, &[")"])
}

#[cycle(put)]
fn put_test(out: &mut String, test: &Test<'_>) -> Result<(), Fail> {
    match test {
        Test::True => put_texts(out, &["true"]),
        Test::False => put_texts(out, &["false"]),
        Test::Has(path) => put_path(out, path),
        Test::Not(inner) => {
            put_texts(out, &["not "])?;
            put_test(out, inner)
        }
        Test::And(tests) => put_tests(out, "all", tests),
        Test::Or(tests) => put_tests(out, "any", tests),
    }
}

/// The alternatives, each with what stands for its priority: `=` for 0, `-` for -2500, `--` for -5000, `+` for 5000.
fn put_alternatives(out: &mut String, alternatives: &[Alt<'_>]) -> Result<(), Fail> {
    for alternative in alternatives {
        match alternative.pattern {
            Pattern::Root => put_texts(out, &["root"])?,
            Pattern::Steps(steps) => put_steps(out, steps)?,
        }
        let priority = match alternative.priority {
            0 => "=",
            -2500 => "-",
            -5000 => "--",
            5000 => "+",
            _ => "?",
        };
        put_texts(out, &[priority, " "])?;
    }
    Ok(())
}

/// Writes what stands for a fault in a row.
fn put_fault(out: &mut String, fault: PathFault) -> Result<(), Fail> {
    let word = match fault {
        PathFault::Malformed => "malformed",
        PathFault::Unsupported(why) => why.word(),
        PathFault::TooDeep => "too-deep",
        PathFault::NoMemory => "no-memory",
    };
    put_texts(out, &[word])
}

/// What a text is read as.
#[derive(Clone, Copy)]
enum Form {
    Select,
    Value,
    Test,
    Pattern,
}

/// The word of a form, for messages.
fn name_of(form: Form) -> &'static str {
    match form {
        Form::Select => "select",
        Form::Value => "value",
        Form::Test => "test",
        Form::Pattern => "pattern",
    }
}

/// Writes what a select is read to, or what stands for its fault.
fn put_select(out: &mut String, arena: &Bump, text: &str) -> Result<(), Fail> {
    match read_select(arena, text, &SCOPE) {
        Ok(path) => put_path(out, &path),
        Err(fault) => put_fault(out, fault),
    }
}

/// The same of the select of an `xsl:value-of`.
fn put_value(out: &mut String, arena: &Bump, text: &str) -> Result<(), Fail> {
    match read_value(arena, text, &SCOPE) {
        Ok(Instr::ValueOf(path)) => put_path(out, &path),
        Ok(Instr::ValueOfSelf) => put_texts(out, &["."]),
        Ok(_) => put_texts(out, &["?"]),
        Err(fault) => put_fault(out, fault),
    }
}

/// The same of a test.
fn put_condition(out: &mut String, arena: &Bump, text: &str) -> Result<(), Fail> {
    match read_test(arena, text, &SCOPE) {
        Ok(test) => put_test(out, &test),
        Err(fault) => put_fault(out, fault),
    }
}

/// The same of a pattern.
fn put_pattern(out: &mut String, arena: &Bump, text: &str) -> Result<(), Fail> {
    match read_pattern(arena, text, &SCOPE) {
        Ok(alternatives) => put_alternatives(out, alternatives),
        Err(fault) => put_fault(out, fault),
    }
}

/// The same of a text of a form.
fn put_read(out: &mut String, arena: &Bump, form: Form, text: &str) -> Result<(), Fail> {
    match form {
        Form::Select => put_select(out, arena, text),
        Form::Value => put_value(out, arena, text),
        Form::Test => put_condition(out, arena, text),
        Form::Pattern => put_pattern(out, arena, text),
    }
}

/// Asserts what a text of a form is read to.
fn assert_read(
    rt: &impl Abort,
    alloc: Global,
    form: Form,
    text: &str,
    expected: &str,
) -> Result<(), Fail> {
    let arena = Bump::new(alloc);
    let mut out = String::new(alloc);
    put_read(&mut out, &arena, form, text)?;
    assert!(rt; out.as_str() == expected, "{} {text}", name_of(form));
    Ok(())
}

/// A text, and what it is read to.
type Row = (&'static str, &'static str);

static SELECTS: [Row; 47] = [
    ("a", "</{}a|>"),
    (" a / p:b // * ", "</{}a/{urn:p}b//*|>"),
    (
        ".//a|text()|node()|p:*",
        "<//{}a|/text()|/node()|/{urn:p}*|>",
    ),
    ("child::a/child :: text ( )", "</{}a/text()|>"),
    ("@a", "<>"),
    ("@*|a/@p:x|.//b//@p:*|c", "</{}c|>"),
    ("attribute::a | comment() | processing-instruction()", "<>"),
    ("a[b][not(c)]", "</{}a[all(</{}b|>,not </{}c|>,)]|>"),
    ("a[true()]", "</{}a|>"),
    ("text[text()]/and", "</{}text[</text()|>]/{}and|>"),
    ("child", "</{}child|>"),
    ("", "malformed"),
    ("a/", "malformed"),
    ("a b", "malformed"),
    ("a|", "malformed"),
    ("q:a", "malformed"),
    ("q:*", "malformed"),
    ("p :a", "malformed"),
    ("p:", "malformed"),
    ("a#", "malformed"),
    ("comment()/a", "malformed"),
    ("a/comment()", "malformed"),
    ("a[]", "malformed"),
    ("\"a", "malformed"),
    ("/a", "absolute"),
    ("a|//b", "absolute"),
    (".", "dot"),
    ("./a", "dot"),
    ("a/.//b", "dot"),
    ("..", "axis"),
    ("parent::a", "axis"),
    ("id(a)", "function"),
    ("not(a)", "function"),
    ("a[1]", "arithmetic"),
    ("a[b = c]", "comparison"),
    ("a[b <= c]", "comparison"),
    ("a[b+c]", "arithmetic"),
    ("a[b * c]", "arithmetic"),
    ("a[b div c]", "arithmetic"),
    ("a[@b]", "attribute"),
    ("@a[b]", "predicate"),
    ("attribute::*[b]", "predicate"),
    ("comment()[b]", "predicate"),
    ("$a", "variable-reference"),
    ("a[$p:b]", "variable-reference"),
    ("processing-instruction('a')", "string"),
    ("a['b']", "string"),
];

static VALUES: [Row; 9] = [
    (" . ", "."),
    ("a|.//b", "</{}a|//{}b|>"),
    ("a/@b", "attribute"),
    ("@b", "attribute"),
    (".[a]", "predicate"),
    (".|a", "dot"),
    ("comment()", "malformed"),
    ("a|comment()", "malformed"),
    ("string(.)", "function"),
];

static TESTS: [Row; 22] = [
    ("and and or", "all(</{}and|>,</{}or|>,)"),
    ("a or b and c", "any(</{}a|>,all(</{}b|>,</{}c|>,),)"),
    ("(a or b) and c", "all(any(</{}a|>,</{}b|>,),</{}c|>,)"),
    ("not(a|b)", "not </{}a|/{}b|>"),
    ("not", "</{}not|>"),
    ("true() or false()", "any(true,false,)"),
    ("((a))", "</{}a|>"),
    ("or", "</{}or|>"),
    ("a or", "malformed"),
    ("a and", "malformed"),
    ("a andb", "malformed"),
    ("(a", "malformed"),
    ("true(a)", "malformed"),
    ("a or @b", "attribute"),
    ("@b", "attribute"),
    ("count(a)", "function"),
    ("and(b)", "function"),
    ("a and /b", "absolute"),
    ("a mod b", "arithmetic"),
    ("-a", "arithmetic"),
    ("a != b", "comparison"),
    ("comment()", "malformed"),
];

static PATTERNS: [Row; 24] = [
    ("a|b/c|@x", "//{}a= //{}b/{}c+ "),
    ("/", "root+ "),
    ("/|a", "root+ //{}a= "),
    ("/a", "/{}a+ "),
    ("//a", "//{}a+ "),
    (
        "text()|p:*|*|node()",
        "//text()-- //{urn:p}*- //*-- //node()-- ",
    ),
    ("p:a", "//{urn:p}a= "),
    ("child::a", "//{}a= "),
    ("a[b]", "//{}a[</{}b|>]+ "),
    ("a[true()]", "//{}a+ "),
    ("a[true()][true()]", "//{}a[all(true,true,)]+ "),
    ("@*|node()", "//node()-- "),
    ("/@a", ""),
    ("a//@a", ""),
    ("comment()", ""),
    ("a//b", "//{}a//{}b+ "),
    ("/a|", "malformed"),
    ("//", "malformed"),
    (".//a", "dot"),
    (".", "dot"),
    ("a[.//b]", "//{}a[<//{}b|>]+ "),
    ("a[/b]", "absolute"),
    ("id('a')", "function"),
    ("a/..", "axis"),
];

/// Asserts what texts of a form are read to.
fn assert_rows(rt: &impl Abort, alloc: Global, form: Form, rows: &[Row]) -> Result<(), Fail> {
    for (text, expected) in rows {
        assert_read(rt, alloc, form, text, expected)?;
    }
    Ok(())
}

#[test]
fn texts_of_each_form_are_read_as_told(rt: HostRuntime) -> Result<(), Fail> {
    assert_rows(&rt, rt.alloc(), Form::Select, &SELECTS)?;
    assert_rows(&rt, rt.alloc(), Form::Value, &VALUES)?;
    assert_rows(&rt, rt.alloc(), Form::Test, &TESTS)?;
    assert_rows(&rt, rt.alloc(), Form::Pattern, &PATTERNS)
}

static ATTRIBUTES: [(&str, Result<bool, PathFault>); 9] = [
    ("@a", Ok(true)),
    (" a/@* | .//attribute::p:b ", Ok(true)),
    ("a[b]/@c", Ok(true)),
    ("@a|comment()", Ok(false)),
    ("@a|b", Ok(false)),
    ("processing-instruction()", Ok(false)),
    ("@a[b]", Err(PathFault::Unsupported(Why::Predicate))),
    ("@q:a", Err(PathFault::Malformed)),
    ("@a|/@b", Err(PathFault::Unsupported(Why::AbsolutePath))),
];

#[test]
fn attributes_and_a_predicate_of_one(rt: HostRuntime) {
    let arena = Bump::new(rt.alloc());
    for (text, expected) in &ATTRIBUTES {
        assert!(rt;
            selects_attributes(&arena, text, &SCOPE) == *expected,
            "{text}"
        );
    }
    let predicate = read_select(&arena, "@a[b]", &SCOPE).err();
    assert!(rt; predicate == Some(PathFault::Unsupported(Why::Predicate)));
}

static PRIORITIES: [(&str, Option<i64>); 17] = [
    ("-.5", Some(-5000)),
    ("1.25", Some(12500)),
    ("1.23456", None),
    ("1.2345", Some(12345)),
    (" - 1. ", Some(-10000)),
    ("0", Some(0)),
    ("-0", Some(0)),
    ("999999.9999", Some(9999999999)),
    ("1000000", None),
    (".", None),
    ("", None),
    ("-", None),
    ("1 .5", None),
    ("+1", None),
    ("1e2", None),
    (".1234", Some(1234)),
    (".12345", None),
];

#[test]
fn priorities(rt: HostRuntime) {
    for (text, expected) in &PRIORITIES {
        assert!(rt; read_priority(text) == *expected, "{text}");
    }
}

const PARENTHESES: Parts = ["", "(", "true()", ")", ""];

#[test]
fn parentheses_nest_2000_deep(rt: HostRuntime) -> Result<(), Fail> {
    for (times, expected) in [(1999, "true"), (2001, "too-deep")] {
        let text = nested(rt.alloc(), &PARENTHESES, times)?;
        assert_read(&rt, rt.alloc(), Form::Test, text.as_str(), expected)?;
    }
    Ok(())
}

const BRACKETS: Parts = ["", "a[", "a", "]", ""];

/// Whether a select with so many predicates within one another is read, and how it is refused otherwise.
fn fault_of_brackets(alloc: Global, times: usize) -> Result<Option<PathFault>, Fail> {
    let text = nested(alloc, &BRACKETS, times)?;
    let arena = Bump::new(alloc);
    Ok(read_select(&arena, text.as_str(), &SCOPE).err())
}

#[test]
fn brackets_nest_2000_deep(rt: HostRuntime) -> Result<(), Fail> {
    assert!(rt; fault_of_brackets(rt.alloc(), 2000)?.is_none());
    assert!(rt; fault_of_brackets(rt.alloc(), 2001)? == Some(PathFault::TooDeep));
    Ok(())
}

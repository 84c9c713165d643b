//! Two schemas and a stylesheet by chance, always the same ones.
ghost use Rattle.std.specs.Prelude.{◌<◌, length};

use crate::triples::sheet_text;
use std::alloc::{AllocError, Global};
use tc_base::NoMemory;

/// Contents of the elements `a` and `b` of an input.
static CONTENTS: [&str; 8] = [
    "empty",
    "text",
    "(a|b)*",
    "a?,b*",
    "(text|b)*",
    "b,b?",
    "(b,b)*",
    "b|text",
];

/// Contents of the elements `r` and `x` of an output.
static RESULTS: [&str; 8] = [
    "empty",
    "x*",
    "(x,x)*",
    "(text|x)*",
    "r?,x*",
    "(r|x)*",
    "(text|r|x)*",
    "text,x?,r?,text",
];

/// What rules match.
static MATCHES: [&str; 7] = [
    "a",
    "b",
    "a/b",
    "*[b]",
    "text()",
    "b[not(a)]",
    "a//b[b or a]",
];

/// Parts of their bodies.
static PARTS: [&str; 14] = [
    "",
    "t",
    " ",
    "<x/>",
    "<x>t</x>",
    "<xsl:apply-templates/>",
    "<xsl:apply-templates select=\"b|a\"/>",
    "<xsl:apply-templates select=\".//b\" mode=\"m\"/>",
    "<xsl:value-of select=\"a/b\"/>",
    "<xsl:if test=\"b[b]\"><x/></xsl:if>",
    "<xsl:copy><xsl:apply-templates/></xsl:copy>",
    "<xsl:for-each select=\"b\"><x><xsl:value-of select=\".\"/></x></xsl:for-each>",
    "<xsl:choose><xsl:when test=\"a\"><r/></xsl:when><xsl:otherwise><x/></xsl:otherwise></xsl:choose>",
    "<xsl:call-template name=\"n\"/>",
];

/// Numbers that look as if thrown (a linear congruential generator).
#[derive(Drop)]
pub(crate) struct Dice {
    state: u32,
}

impl Dice {
    /// Dice that throw what others with this seed throw.
    pub(crate) fn new(seed: u32) -> Dice {
        Dice { state: seed }
    }

    /// A number below a count.
    pub(crate) fn roll(&mut self, count: usize) -> usize
        requires { 0 < count }
        ensures { result < count }
    {
        self.state = self
            .state
            .wrapping_mul(1_664_525)
            .wrapping_add(1_013_904_223);
        (self.state >> 16) as usize % count
    }

    /// One of some words.
    pub(crate) fn pick(&mut self, words: &[&'static str]) -> &'static str
        requires { 0 < length words.now }
    {
        let place = self.roll(words.len());
        words[place]
    }
}

/// The texts of two schemas and of a stylesheet.
#[derive(Drop)]
pub(crate) struct TripleTexts {
    pub(crate) input: String,
    /// The input's schema with each of its element patterns at the start.
    pub(crate) anywhere: String,
    pub(crate) output: String,
    pub(crate) sheet: String,
}

/// Puts a schema of two elements of these names and contents, with this start.
fn put_schema(
    text: &mut String,
    start: &str,
    names: [&str; 2],
    contents: [&str; 2],
) -> Result<(), AllocError> {
    let [name, other] = names;
    let [content, inside] = contents;
    write!(
        text,
        "start = {start} {name} = element {name}{{{content}}} {other} = element {other}{{{inside}}}"
    )
}

/// Puts a rule of a pattern in a mode, which is an attribute's text or none. Its body is an element of this name.
fn put_rule(
    rules: &mut String,
    dice: &mut Dice,
    pattern: &str,
    mode: &str,
    name: &str,
) -> Result<(), AllocError> {
    let one = dice.pick(&PARTS);
    let other = dice.pick(&PARTS);
    write!(
        rules,
        "<xsl:template match=\"{pattern}\"{mode}><{name}>{one}{other}</{name}></xsl:template>"
    )
}

/// The modes of rules, as attributes.
static MODES: [&str; 4] = ["", "", "", " mode=\"m\""];

/// The names of the elements that rules put out.
static NAMES: [&str; 3] = ["x", "x", "r"];

/// Puts a named template, a rule of the root, and four others.
fn put_rules(rules: &mut String, dice: &mut Dice) -> Result<(), AllocError> {
    rules.push_str(
        "<xsl:template name=\"n\"><x/><xsl:apply-templates select=\"b\"/></xsl:template>",
    )?;
    put_rule(rules, dice, "/", "", "r")?;
    for mode in &MODES {
        let pattern = dice.pick(&MATCHES);
        let name = dice.pick(&NAMES);
        put_rule(rules, dice, pattern, mode, name)?;
    }
    Ok(())
}

/// A stylesheet of such rules.
fn random_sheet(alloc: Global, dice: &mut Dice) -> Result<String, NoMemory> {
    let mut rules = String::new(alloc);
    put_rules(&mut rules, dice)?;
    sheet_text(alloc, rules.as_str())
}

/// Puts the schemas of a triple, of these contents of an input's elements and of an output's.
fn put_schemas(
    texts: &mut TripleTexts,
    contents: [&str; 2],
    results: [&str; 2],
) -> Result<(), AllocError> {
    let [content, _] = contents;
    let all = if content.contains('b') { "a|b" } else { "a" };
    put_schema(&mut texts.input, "a", ["a", "b"], contents)?;
    put_schema(&mut texts.anywhere, all, ["a", "b"], contents)?;
    put_schema(&mut texts.output, "r", ["r", "x"], results)
}

/// The texts of a triple.
pub(crate) fn random_texts(alloc: Global, dice: &mut Dice) -> Result<TripleTexts, NoMemory> {
    let contents = [dice.pick(&CONTENTS), dice.pick(&CONTENTS)];
    let results = [dice.pick(&RESULTS), dice.pick(&RESULTS)];
    let sheet = random_sheet(alloc, dice)?;
    let mut texts = TripleTexts {
        input: String::new(alloc),
        anywhere: String::new(alloc),
        output: String::new(alloc),
        sheet,
    };
    put_schemas(&mut texts, contents, results)?;
    Ok(texts)
}

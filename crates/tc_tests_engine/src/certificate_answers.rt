//! What the checker of certificates answers, by hand: the certificate of an element around any number of elements, for each of
//! which one is put out, and changes of it.
ghost use Rattle.std.specs.Prelude.{◌≡◌, ◌≤◌, length, IfSome};
ghost use Rattle.tc_model.specs.CertificateData.{IsFormed};

use crate::rows::machine_with;
use crate::triples::LONGEST;
use bumpalo::Bump;
use std::alloc::{AllocError, Global};
use tc_cert::read_cert;
use tc_model::{CertData, Name};
use tc_verify::{RejectRule, VerifyFault, verify};

/// The data of a certificate's text, if it is one.
fn data_of(alloc: Global, text: &str) -> Option<CertData>
    ensures { IfSome result (λ d. IsFormed d) }
{
    if text.len() > LONGEST {
        return None;
    }
    match read_cert(alloc, text.as_bytes()) {
        Ok(cert) => Some(cert),
        Err(_) => None,
    }
}

const INPUT: &str = "element a{element b{empty}*}";

const OUTPUT: &str = "element r{element x{empty}*}";

const RULES: &str =
    "<xsl:template match=\"/\"><r><xsl:apply-templates select=\"a/b\"/></r></xsl:template><xsl:template match=\"b\"><x/></xsl:template>";

const FRONT: &str = "xslt-typecheck certificate 1\noutputs 2\nm 0>0 1>1 2>2 3>3 4>4\nm 2>3 3>3\n";

const TREES: &str = "trees 3\nt 0 0 1 0,0,0 -\nt 0 0 1 1,1,0 -\nt 0 0 2 1,0,1 -\n";

const HEDGES: &str = "hedges 2\nh 0 0 0,2 0,0,0 -\nh 0 0 1 1,0,1 -\nend\n";

/// The texts of two schemas, and the rules of a stylesheet.
#[derive(Clone, Copy)]
struct Triple<'t> {
    input: &'t str,
    output: &'t str,
    rules: &'t str,
}

/// The line, the rule and the number by which a certificate is rejected; no rule where it is accepted.
type Told = (u32, &'static str, u32);

/// The word by which a rule is told here.
fn word_of(rule: RejectRule) -> &'static str {
    match rule {
        RejectRule::Form => "form",
        RejectRule::Fit => "fit",
        RejectRule::Empty => "empty",
        RejectRule::Text => "text",
        RejectRule::Append => "append",
        RejectRule::Wrap => "wrap",
        RejectRule::Root => "root",
    }
}

/// What an answer tells.
fn told_by(answer: Result<(), VerifyFault>) -> Told {
    match answer {
        Ok(()) => (0, "", 0),
        Err(VerifyFault::Rejected(reject)) => (reject.line, word_of(reject.rule), reject.other),
        Err(VerifyFault::NoMemory) => (0, "no memory", 0),
    }
}

/// What is told of a certificate for such texts.
fn told_of(alloc: Global, triple: &Triple<'_>, cert: &CertData) -> Told
    requires { IsFormed cert.now }
{
    let arena = Bump::new(alloc);
    match machine_with(alloc, &arena, triple.input, triple.output, triple.rules) {
        Some(machine) => told_by(verify(alloc, &machine, cert)),
        None => (0, "no machine", 0),
    }
}

/// The data of a certificate in three parts, if it is one.
fn data_of_parts(alloc: Global, parts: &Parts<'_>) -> Option<CertData>
    ensures { IfSome result (λ d. IsFormed d) }
{
    let (front, trees, hedges) = parts;
    match format!(in alloc; "{front}{trees}{hedges}") {
        Ok(text) => data_of(alloc, text.as_str()),
        Err(_) => None,
    }
}

/// What is told of a certificate in three parts, for the rules above and an output.
fn told_of_parts(alloc: Global, output: &str, parts: &Parts<'_>) -> Told {
    let triple = Triple {
        input: INPUT,
        output,
        rules: RULES,
    };
    match data_of_parts(alloc, parts) {
        Some(cert) => told_of(alloc, &triple, &cert),
        None => (0, "no certificate", 0),
    }
}

/// The three parts of a certificate.
type Parts<'t> = (&'t str, &'t str, &'t str);

/// An output, the parts of a certificate, and what is told of it.
static ANSWERS: [(&str, Parts<'static>, Told); 16] = [
    // the certificate, one with a further row that is closed under the rules, and the certificate in version 2
    (OUTPUT, (FRONT, TREES, HEDGES), (0, "", 0)),
    (
        OUTPUT,
        (
            FRONT,
            "trees 4\nt 0 0 1 0,0,0 -\nt 0 0 1 1,0,1 -\nt 0 0 1 1,1,0 -\nt 0 0 2 1,0,1 -\n",
            HEDGES,
        ),
        (0, "", 0),
    ),
    (
        OUTPUT,
        (
            "xslt-typecheck certificate 2\noutputs 2\nm 0>0 1>1 2>2 3>3 4>4\nm 2>3 3>3\n",
            "trees 3\nt 0 0 1 0,0,0 -\nT 0 0 1 0:1,1:1 -\nT 0 0 2 1:0,2:1 -\n",
            "hedges 2\nh 0 0 0,2 0,0,0 -\nH 0 0 1 0:1,2:1 -\nend\n",
        ),
        (0, "", 0),
    ),
    // a row that is made of rows that are listed isn't listed
    (
        OUTPUT,
        (FRONT, TREES, "hedges 1\nh 0 0 1 1,0,1 -\nend\n"),
        (0, "empty", 0),
    ),
    (
        OUTPUT,
        (FRONT, TREES, "hedges 1\nh 0 0 0,2 0,0,0 -\nend\n"),
        (10, "append", 8),
    ),
    // a number of a line is out of range, or a list has another length
    (
        OUTPUT,
        (
            "xslt-typecheck certificate 1\noutputs 2\nm 0>0 1>1 2>2 3>3 4>4\nm 2>5 3>3\n",
            TREES,
            HEDGES,
        ),
        (4, "fit", 0),
    ),
    (
        OUTPUT,
        (
            FRONT,
            "trees 3\nt 0 0 1 0,0,4294967295 -\nt 0 0 1 1,1,0 -\nt 0 0 2 1,0,1 -\n",
            HEDGES,
        ),
        (6, "fit", 0),
    ),
    (
        OUTPUT,
        (
            FRONT,
            "trees 3\nt 0 0 1 0,0 -\nt 0 0 1 1,1,0 -\nt 0 0 2 1,0,1 -\n",
            HEDGES,
        ),
        (6, "fit", 0),
    ),
    (
        OUTPUT,
        (
            FRONT,
            "trees 3\nt 0 0 0 0,0,0 -\nt 0 0 1 1,1,0 -\nt 0 0 2 1,0,1 -\n",
            HEDGES,
        ),
        (6, "fit", 0),
    ),
    (
        OUTPUT,
        (
            FRONT,
            "trees 3\nt 0 0 1 0,0,0 0\nt 0 0 1 1,1,0 -\nt 0 0 2 1,0,1 -\n",
            HEDGES,
        ),
        (6, "fit", 0),
    ),
    (
        OUTPUT,
        (
            FRONT,
            "trees 3\nt 0 0 1 0,0,0 -\nt 0 0 1 1,1,0 -\nt 0 0 3 1,0,1 -\n",
            HEDGES,
        ),
        (8, "fit", 0),
    ),
    // the numbers of rows of lists of trees are in range too
    (
        OUTPUT,
        (
            FRONT,
            TREES,
            "hedges 2\nh 0 0 0,2 0,0,0 -\nh 0 0 1 1,0,2 -\nend\n",
        ),
        (11, "fit", 0),
    ),
    (
        OUTPUT,
        (
            FRONT,
            TREES,
            "hedges 2\nh 0 0 0,2 0,0,0 -\nh 0 0 1 1,0,1,0 -\nend\n",
        ),
        (11, "fit", 0),
    ),
    (
        OUTPUT,
        (
            FRONT,
            TREES,
            "hedges 2\nh 0 0 0,2 0,0,0 -\nh 0 0 3 1,0,1 -\nend\n",
        ),
        (11, "fit", 0),
    ),
    (
        OUTPUT,
        (
            FRONT,
            TREES,
            "hedges 2\nh 0 0 0,2 0,0,0 -\nh 0 0 1 1,0,1 2\nend\n",
        ),
        (11, "fit", 0),
    ),
    // what a document of a row gives isn't valid
    (
        "element r{element x{empty}+}",
        (FRONT, TREES, HEDGES),
        (6, "root", 0),
    ),
];

#[test]
fn answers_certificates(rt: HostRuntime) {
    for (output, parts, told) in &ANSWERS {
        let is_told = told_of_parts(rt.alloc(), output, parts) == *told;
        assert!(rt; is_told, "{output} {}{}{}", parts.0, parts.1, parts.2);
    }
}

/// The symbol of a name over such texts, if there is a machine.
fn symbol_over(alloc: Global, triple: &Triple<'_>, name: &Name<'_>) -> Option<u32> {
    let arena = Bump::new(alloc);
    match machine_with(alloc, &arena, triple.input, triple.output, triple.rules) {
        Some(machine) => Some(machine.alphabet().sym_of(name).0),
        None => None,
    }
}

/// The symbol of a name without a namespace over the texts above.
fn symbol_of(alloc: Global, local: &str) -> Option<u32> {
    let triple = Triple {
        input: INPUT,
        output: OUTPUT,
        rules: RULES,
    };
    symbol_over(alloc, &triple, &Name { uri: "", local })
}

/// Names, and the trees and the line of a certificate in which what an element of this name makes isn't listed.
static WRAPPED: [(&str, &str, u32); 2] = [
    ("b", "trees 2\nt 0 0 1 0,0,0 -\nt 0 0 1 1,1,0 -\n", 9),
    (
        "a",
        "trees 3\nt 0 0 - 0,0,0 -\nt 0 0 1 1,1,0 -\nt 0 0 2 1,0,1 -\n",
        10,
    ),
];

/// Whether it is told by the number of the symbol of this name, in this line, that what such an element makes isn't listed.
fn is_told(alloc: Global, name: &str, trees: &str, line: u32) -> bool {
    match symbol_of(alloc, name) {
        Some(symbol) => {
            told_of_parts(alloc, OUTPUT, &(FRONT, trees, HEDGES)) == (line, "wrap", symbol)
        }
        None => false,
    }
}

/// What an element makes is told by the number of its symbol.
#[test]
fn tells_symbols(rt: HostRuntime) {
    for (name, trees, line) in &WRAPPED {
        assert!(rt; is_told(rt.alloc(), name, trees, *line), "{name}");
    }
}

/// Puts so many zeros with commas between them.
fn put_zeros(entries: &mut String, count: u32) -> Result<(), AllocError> {
    entries.push_str("0")?;
    for _ in 1..count {
        entries.push_str(",0")?;
    }
    Ok(())
}

/// How many entries a row over such texts has, if there is a machine.
fn entries_over(alloc: Global, triple: &Triple<'_>) -> Option<u32> {
    let arena = Bump::new(alloc);
    match machine_with(alloc, &arena, triple.input, triple.output, triple.rules) {
        Some(machine) => Some(machine.shape().entries),
        None => None,
    }
}

/// Puts a certificate that has the row of no tree alone, of so many entries of no output.
fn put_one(text: &mut String, front: &str, count: u32) -> Result<(), AllocError> {
    write!(text, "{front}trees 0\nhedges 1\nh 0 0 0 ")?;
    put_zeros(text, count)?;
    text.push_str(" -\nend\n")
}

/// Its data.
fn data_of_one(alloc: Global, front: &str, triple: &Triple<'_>) -> Option<CertData>
    ensures { IfSome result (λ d. IsFormed d) }
{
    let count = entries_over(alloc, triple)?;
    let mut text = String::new(alloc);
    match put_one(&mut text, front, count) {
        Ok(()) => data_of(alloc, text.as_str()),
        Err(_) => None,
    }
}

/// What is told of it.
fn told_of_one(alloc: Global, front: &str, triple: &Triple<'_>) -> Told {
    match data_of_one(alloc, front, triple) {
        Some(cert) => told_of(alloc, triple, &cert),
        None => (0, "no certificate", 0),
    }
}

/// An element for each text.
static OF_TEXTS: Triple<'static> = Triple {
    input: "element a{text}",
    output: "element r{element x{empty}?}",
    rules: "<xsl:template match=\"/\"><r><xsl:apply-templates/></r></xsl:template><xsl:template match=\"text()\"><x/></xsl:template>",
};

/// A text that may stand in the input has its row listed.
#[test]
fn tells_texts(rt: HostRuntime) {
    let front = "xslt-typecheck certificate 1\noutputs 1\nm 0>0 1>1 2>2 3>3 4>4\n";
    let found = told_of_one(rt.alloc(), front, &OF_TEXTS);
    assert!(rt; found == (0, "text", 0));
}

/// A copy of an element of any name.
static OF_ANY: Triple<'static> = Triple {
    input: "element *{empty}",
    output: "element *{empty}",
    rules: "<xsl:template match=\"*\"><xsl:copy><xsl:apply-templates/></xsl:copy></xsl:template>",
};

/// A name that nothing mentions.
static OTHER: Name<'static> = Name {
    uri: "urn:n",
    local: "n",
};

/// Its symbol is told.
#[test]
fn tells_symbols_of_other_names(rt: HostRuntime) {
    let front = "xslt-typecheck certificate 1\noutputs 2\nm 0>0 1>1 2>2\nm 0>1\n";
    let found = told_of_one(rt.alloc(), front, &OF_ANY);
    let is_told = match symbol_over(rt.alloc(), &OF_ANY, &OTHER) {
        Some(other) => found == (7, "wrap", other),
        None => false,
    };
    assert!(rt; is_told);
}

// Tags by their form (XML 1.0, 3.1, [40] to [42] and [44]).
ghost use Rattle.std.specs.Prelude.{◌≡◌, ◌+◌, ◌-◌, ◌≤◌, ◌∷◌, ◌++◌, [], ℕ, List, true, false, length, IfOk, IfErr, IfSome, IsTrue, IsUtf8, MatchBool, MatchOption, codes, if◌then◌else◌};
ghost use Rattle.tc_base.specs.declared.limits.TheConstants.{LONGEST_TAG};
ghost use Rattle.tc_base.specs.declared.reasons.Why.{Why as Reason};
ghost use Rattle.tc_base.specs.declared.reasons.Why.TheVariants.{EntityReference};
ghost use Rattle.tc_model.specs.XmlTextBytes as bytes;
ghost use Rattle.tc_model.specs.XmlTextContent as xml;
ghost use Rattle.tc_model.specs.XmlTextNames as xml_names;
ghost use Rattle.tc_model.specs.XmlTextReferences as references;
ghost use Rattle.tc_model.specs.XmlTextRefusals as refusals;
ghost use Rattle.tc_model.specs.XmlTextScopes as scopes;
ghost use Rattle.tc_scan.specs.Views.{written_name};
ghost use Rattle.tc_tags.specs.Forms.{AttributeAt, ValueRead, IsNameAt, IsStop, Refuses, UnsupportedAt, OnMalformed, FormRead, lacks_space};
ghost use Rattle.tc_tags.specs.Values.{PieceAt};
ghost use Rattle.tc_tags.specs.Written.{IsWritten, AreWritten};
ghost use Rattle.tc_tags.specs.XmlTextTags.{WrittenElement, TagFormAt, EndTagAt};

use crate::attributes::{Attribute, Attributes};
use crate::names::{Span, WrittenName};
use tc_base::Why;
use tc_scan::{
    NoReference, QualifiedName, after_byte, after_equals, after_mark, after_some_white,
    after_white, begins, plain_len_within, qname, quote, reference,
};

/// A start tag or an empty-element tag by its form, its attributes in the table.
#[derive(Clone, Copy)]
pub struct Form {
    pub name: WrittenName,
    pub is_empty: bool,
}

/// Why bytes aren't the form of a tag.
#[derive(Clone, Copy)]
pub enum NoForm {
    /// They don't go on as one from this place of the tag.
    Malformed(usize),
    /// A construct that isn't read stands at this place of the tag.
    Unsupported(usize, Why),
}

/// What is said where a phrase isn't at the front of what is left of so many bytes.
fn lacking(total: usize, rest: &str) -> NoForm
    requires { length rest.now ≤ total }
    ensures { IsStop result }
{
    NoForm::Malformed(total - rest.len())
}

/// How many bytes the colon behind a prefix has, if there is a prefix.
fn colon_len(prefix: &str) -> usize
    ensures { result ≡ (if scopes.is_empty prefix.now then 0 else 1) }
{
    if prefix == "" { 0 } else { 1 }
}

/// Where the parts of the name stand that is at the front of what is left of so many bytes.
fn spans(total: usize, text: &str, name: QualifiedName<'_>) -> WrittenName
    requires within { length text.now ≤ total }
    requires named { (after : List ℕ) × xml_names.QNameAt text.now (written_name name) after }
    ensures { (front : List ℕ) → length front + length text.now ≡ total
        → IsNameAt (front ++ text.now) result (written_name name.entry) }
{
    let start = total - text.len();
    let prefix = Span {
        start,
        length: name.prefix.len(),
    };
    let colon = colon_len(name.prefix);
    let local = Span {
        start: start + name.prefix.len() + colon,
        length: name.local.len(),
    };
    WrittenName { prefix, local }
}

/// The name at the front, and what follows it.
fn name_at(total: usize, text: &str) -> Result<(QualifiedName<'_>, &str), NoForm>
    requires { length text.now ≤ total }
    ensures ok { IfOk result (λ r. xml_names.QNameAt text.now (written_name r.0) r.1.now) }
    ensures no { IfErr result
        (λ e. IsStop e
        × ((name : xml_names.QualifiedName) (after : List ℕ)
        → xml_names.QNameAt text.now name after → ⊥)) }
{
    match qname(text) {
        Some(found) => Ok(found),
        None => Err(lacking(total, text)),
    }
}

/// Whether this is the name of the attribute `xml:space` (XML 1.0, 2.10).
fn is_xml_space(name: &QualifiedName<'_>) -> bool
    ensures { result ≡ xml_names.same_written (written_name name.now) refusals.xml_space }
{
    name.prefix == "xml" && name.local == "space"
}

/// What follows the run of characters or the reference at the front of what is left of a value.
fn after_piece(total: usize, text: &str, quote: u8) -> Result<&str, NoForm>
    requires within { length text.now ≤ total }
    requires is_quote { bytes.IsQuote quote }
    ensures ok { IfOk result
        (λ rest. (piece : List ℕ) × PieceAt false quote text.now piece rest.now) }
    ensures no { IfErr result (λ e. Refuses e
        ((piece rest : List ℕ) → PieceAt true quote text.now piece rest → ⊥)
        ((piece rest : List ℕ) → PieceAt false quote text.now piece rest → ⊥)) }
    ensures stands { IfErr result
        (λ e. UnsupportedAt total e
        (λ why at. (why ≡ EntityReference) × (at ≡ text.now) × refusals.OtherEntityAt at)) }
{
    let count = plain_len_within(text, quote);
    if count > 0 {
        let (_, rest) = text.split_at(count);
        return Ok(rest);
    }
    match reference(text) {
        Ok((_, rest)) => Ok(rest),
        Err(NoReference::OtherEntity) => {
            Err(NoForm::Unsupported(total - text.len(), Why::EntityReference))
        }
        Err(NoReference::Malformed) => Err(lacking(total, text)),
    }
}

/// Where the value in quotes at the front begins, its quote, and what follows it.
fn value_at(total: usize, text: &str) -> Result<(usize, u8, &str), NoForm>
    requires { length text.now ≤ total }
    ensures ok { IfOk result
        (λ r. (value : List ℕ) × ValueRead total text.now r.0 r.1 value r.2.now) }
    ensures no { IfErr result (λ e. Refuses e
        ((v after : List ℕ) → references.QuotedAt true text.now v after → ⊥)
        ((v after : List ℕ) → references.QuotedAt false text.now v after → ⊥)) }
    ensures stands { IfErr result
        (λ e. UnsupportedAt total e
        (λ why at. (why ≡ EntityReference) × refusals.QuotedRefuses text.now at)) }
    ensures malformed { IfErr result
        (λ e. OnMalformed e ((at : List ℕ) → refusals.QuotedRefuses text.now at → ⊥)) }
{
    let Some((quote, inside)) = quote(text) else {
        return Err(lacking(total, text));
    };
    let mut rest = inside;
    loop {
        if let Some(after) = after_byte(rest, quote) {
            return Ok((total - inside.len(), quote, after));
        }
        rest = after_piece(total, rest, quote)?;
    }
}

/// The attribute at the front, and what follows it.
#[tactic(auto, using(crate::proofs::FormLaws::within))]
fn attribute_at(total: usize, text: &str) -> Result<(Attribute, &str), NoForm>
    requires { length text.now ≤ total }
    ensures ok { IfOk result
        (λ r. (w : scopes.WrittenAttribute) × AttributeAt false total text.now w r.1.now
        × ((front : List ℕ) → length front + length text.now ≡ total → IsUtf8 (front ++ text.now)
        → IsWritten (front ++ text.now) r.0 w)) }
    ensures no { IfErr result (λ e. Refuses e
        ((w : scopes.WrittenAttribute) (after : List ℕ) → AttributeAt true total text.now w after
        → ⊥)
        ((w : scopes.WrittenAttribute) (after : List ℕ) → AttributeAt false total text.now w after
        → ⊥)) }
    ensures stands { IfErr result
        (λ e. UnsupportedAt total e (refusals.AttributesRefuse text.now)) }
    ensures malformed { IfErr result
        (λ e. OnMalformed e
        ((why : Reason) (at : List ℕ) → refusals.AttributesRefuse text.now why at → ⊥)) }
{
    let Some(start) = after_some_white(text) else {
        return Err(lacking(total, text));
    };
    let (name, behind) = name_at(total, start)?;
    if is_xml_space(&name) {
        return Err(NoForm::Unsupported(total - start.len(), Why::XmlSpace));
    }
    let Some(equals) = after_equals(behind) else {
        return Err(lacking(total, behind));
    };
    let (value, quote, rest) = value_at(total, equals)?;
    let parts = spans(total, start, name);
    let attribute = Attribute {
        prefix: parts.prefix,
        local: parts.local,
        value,
        quote,
    };
    Ok((attribute, rest))
}

/// Whether a tag ends here.
fn ends_tag(text: &str) -> bool
    ensures { MatchBool result (xml.EndsTag text.now) (xml.EndsTag text.now → ⊥) }
{
    begins(text, ">") || begins(text, "/")
}

/// Whether a tag is that of an empty element by how it ends, if that ends one.
fn ends_empty(end: &str) -> Option<bool>
    ensures { MatchOption result ((end.now ≡ codes ">" → ⊥) × (end.now ≡ codes "/>" → ⊥))
        (λ is_empty. end.now ≡ (if is_empty then codes "/>" else codes ">")) }
{
    if end == ">" {
        return Some(false);
    }
    if end == "/>" {
        return Some(true);
    }
    None
}

/// The name at the front of a start tag or an empty-element tag, and what follows it.
fn tag_name(tag: &str) -> Result<(WrittenName, &str), NoForm>
    ensures ok { IfOk result
        (λ r. (start : List ℕ) × (name : xml_names.QualifiedName) × (tag.now ≡ 0x3C ∷ start)
        × xml_names.QNameAt start name r.1.now × IsNameAt tag.now r.0 name) }
    ensures no { IfErr result
        (λ e. IsStop e
        × ((start : List ℕ) (name : xml_names.QualifiedName) (after : List ℕ) → tag.now
        ≡ 0x3C ∷ start → xml_names.QNameAt start name after → ⊥)) }
{
    let Some(start) = after_byte(tag, b'<') else {
        return Err(lacking(tag.len(), tag));
    };
    let (name, behind) = name_at(tag.len(), start)?;
    Ok((spans(tag.len(), start, name), behind))
}

/// The attributes at the front, which are put into the table, and what follows them.
fn attributes_at<'t>(
    total: usize,
    text: &'t str,
    attributes: &mut Attributes,
) -> Result<&'t str, NoForm>
    requires within { length text.now + 2 ≤ total }
    requires short { total ≤ LONGEST_TAG }
    requires none { attributes.old.list.items ≡ [] }
    ensures ok { IfOk result (λ rest. (ws : List scopes.WrittenAttribute)
        × xml.AttributesAt false total text.now ws rest.now × IsTrue (lacks_space ws)
        × ((front : List ℕ) → length front + length text.now ≡ total → IsUtf8 (front ++ text.now)
        → AreWritten (front ++ text.now) attributes.new.list.items ws)) }
    ensures no { IfErr result (λ e. Refuses e
        ((ws : List scopes.WrittenAttribute) (after : List ℕ)
        → xml.AttributesAt true total text.now ws after → IsTrue (lacks_space ws) → ⊥)
        ((ws : List scopes.WrittenAttribute) (after : List ℕ)
        → xml.AttributesAt false total text.now ws after → IsTrue (lacks_space ws) → ⊥)) }
    ensures stands { IfErr result
        (λ e. UnsupportedAt total e (refusals.AttributesRefuse text.now)) }
    ensures malformed { IfErr result
        (λ e. OnMalformed e
        ((why : Reason) (at : List ℕ) → refusals.AttributesRefuse text.now why at → ⊥)) }
{
    let mut rest = text;
    while !ends_tag(after_white(rest)) {
        let (attribute, after) = attribute_at(total, rest)?;
        attributes.push(attribute);
        rest = after;
    }
    Ok(after_white(rest))
}

/// A start tag or an empty-element tag by its form, whose attributes are left in the table.
pub fn form_of(tag: &str, attributes: &mut Attributes) -> Result<Form, NoForm>
    requires { length tag.now ≤ LONGEST_TAG }
    ensures ok { IfOk result (λ f. (e : WrittenElement) × FormRead tag.now f e
        × AreWritten tag.now attributes.new.list.items e.attributes) }
    ensures no { IfErr result (λ x. Refuses x
        ((e : WrittenElement) → TagFormAt true (length tag.now) tag.now e (codes ">") → ⊥)
        ((e : WrittenElement) → TagFormAt false (length tag.now) tag.now e (codes ">") → ⊥)) }
    ensures no_empty { IfErr result (λ x. Refuses x
        ((e : WrittenElement) → TagFormAt true (length tag.now) tag.now e (codes "/>") → ⊥)
        ((e : WrittenElement) → TagFormAt false (length tag.now) tag.now e (codes "/>") → ⊥)) }
    ensures stands { IfErr result
        (λ x. UnsupportedAt (length tag.now) x (refusals.TagRefuses tag.now)) }
    ensures malformed { IfErr result
        (λ x. OnMalformed x
        ((why : Reason) (at : List ℕ) → refusals.TagRefuses tag.now why at → ⊥)) }
{
    attributes.clear();
    let (name, behind) = tag_name(tag)?;
    let end = attributes_at(tag.len(), behind, attributes)?;
    match ends_empty(end) {
        Some(is_empty) => Ok(Form { name, is_empty }),
        None => Err(lacking(tag.len(), end)),
    }
}

/// What follows these bytes, where others begin with them.
fn after_bytes<'t>(bytes: &'t [u8], front: &[u8]) -> Option<&'t [u8]>
    ensures { IfSome result (λ rest. bytes.now ≡ front.now ++ rest.now) }
{
    if bytes.starts_with(front) {
        Some(&bytes[front.len()..])
    } else {
        None
    }
}

/// True only of the end tag of an element whose name is written so, and where nothing stands behind the name.
pub fn is_plain_end_tag(tag: &[u8], name: &[u8]) -> bool
    ensures { (written : xml_names.QualifiedName) → xml_names.QNameAt name.now written []
        → IsTrue result → EndTagAt written tag.now [] }
{
    let Some(start) = after_bytes(tag, b"</") else {
        return false;
    };
    let Some(end) = after_bytes(start, name) else {
        return false;
    };
    end == b">".as_slice()
}

/// Whether this is the end tag of an element whose name is written so.
#[tactic(auto, using(crate::proofs::FormLaws::within))]
pub fn is_end_tag(tag: &str, name: &[u8]) -> bool
    ensures { (written : xml_names.QualifiedName) → xml_names.QNameAt name.now written []
        → MatchBool result (EndTagAt written tag.now []) (EndTagAt written tag.now [] → ⊥) }
{
    let Some(start) = after_mark(tag, "</") else {
        return false;
    };
    let Some((_, behind)) = qname(start) else {
        return false;
    };
    let found = &start.as_bytes()[..start.len() - behind.len()];
    found == name && after_white(behind) == ">"
}

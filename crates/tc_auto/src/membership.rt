// Names of name classes, alternatives of patterns, and texts in them.
// `text` counts where it is written, also beside `notAllowed`.
ghost use Rattle.std.specs.Prelude.{◌≡◌};
ghost use Rattle.std.specs.List.{list_any};
ghost use Rattle.tc_model.specs.Grammars.{have_text, has_text, in_class, in_some_class};
ghost use Rattle.tc_model.specs.Views as see;
ghost use Rattle.tc_model.specs.Views.{classes, pattern, patterns};
ghost use Rattle.tc_model.specs.States.{is_alternative, is_one_alternative};

use tc_model::{ElemPat, Name, NameClass, Pat};

/// Whether a name is in a name class (RELAX NG Specification, 6.1).
#[cycle(classes)]
#[tactic(auto, using(tc_model::proofs::ViewsGrammar::see_class))]
pub fn is_in_class(class: &NameClass<'_>, name: &Name<'_>) -> bool
    ensures { result ≡ in_class (see.class class.now) (see.name name.now) }
{
    match class {
        NameClass::Name(one) => one.uri == name.uri && one.local == name.local,
        NameClass::Ns(uri, except) => *uri == name.uri && !is_in_some_class(except, name),
        NameClass::Any(except) => !is_in_some_class(except, name),
        NameClass::Choice(classes) => is_in_some_class(classes, name),
    }
}

#[cycle(classes)]
#[tactic(auto, using(tc_model::proofs::ViewsGrammar::left_class))]
fn is_in_some_class(members: &[NameClass<'_>], name: &Name<'_>) -> bool
    ensures { result ≡ in_some_class (classes members.now) (see.name name.now) }
{
    for member in members {
        if is_in_class(member, name) {
            return true;
        }
    }
    false
}

/// Whether an element pattern is an alternative of a pattern, through nested choices.
#[cycle(alternatives)]
#[tactic(auto, using(tc_model::proofs::ViewsGrammar::see_pattern))]
pub fn has_alternative(pat: &Pat<'_>, number: u32) -> bool
    ensures { result ≡ is_alternative number (pattern pat.now) }
{
    match pat {
        Pat::Ref(other) => number == *other,
        Pat::Choice(members) => has_one_alternative(members, number),
        Pat::Empty
        | Pat::NotAllowed
        | Pat::Text
        | Pat::Group(_)
        | Pat::Interleave(_)
        | Pat::OneOrMore(_) => false,
    }
}

#[cycle(alternatives)]
#[tactic(auto, using(tc_model::proofs::ViewsGrammar::left_pattern))]
fn has_one_alternative(members: &[Pat<'_>], number: u32) -> bool
    ensures { result ≡ is_one_alternative number (patterns members.now) }
{
    for member in members {
        if has_alternative(member, number) {
            return true;
        }
    }
    false
}

/// Whether `text` is written in a pattern, also where nothing can match it there.
#[cycle(texts)]
#[tactic(auto, using(tc_model::proofs::ViewsGrammar::see_pattern))]
pub fn is_with_text(pat: &Pat<'_>) -> bool
    ensures { result ≡ has_text (pattern pat.now) }
{
    match pat {
        Pat::Text => true,
        Pat::Empty | Pat::NotAllowed | Pat::Ref(_) => false,
        Pat::Group(members) | Pat::Choice(members) | Pat::Interleave(members) => {
            is_some_with_text(members)
        }
        Pat::OneOrMore(member) => is_with_text(member),
    }
}

#[cycle(texts)]
#[tactic(auto, using(tc_model::proofs::ViewsGrammar::left_pattern))]
fn is_some_with_text(members: &[Pat<'_>]) -> bool
    ensures { result ≡ have_text (patterns members.now) }
{
    for member in members {
        if is_with_text(member) {
            return true;
        }
    }
    false
}

/// Whether `text` is written in the content of one of some element patterns.
pub fn has_content_with_text(elements: &[ElemPat<'_>]) -> bool
    ensures { result ≡ list_any (λ (e : ElemPat). has_text (pattern e.content)) elements.now }
{
    elements
        .iter()
        .any(|element| is_with_text(&element.content))
}

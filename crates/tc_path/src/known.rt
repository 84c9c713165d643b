// The namespace names of prefixes that stand in a text (Namespaces in XML 1.0, 6.1).
// Where a text has 32 tokens or more, one walk through the bindings in scope finds all that stand in it; in a
// shorter text each prefixed name walks through them. Bindings that elements share can't be told to be the
// same without going through them, so nothing is kept from one text to the next.
ghost use Rattle.std.specs.Prelude.{◌≡◌, ◌∷◌, None, Some, List, IfOk, IfErr, OnOk, MatchOption, MatchBool, map};
ghost use Rattle.tc_model.specs.RawTrees.{Bound};
ghost use Rattle.tc_model.specs.Views.{bound};
ghost use Rattle.tc_model.specs.XmlTextScopes as xml;
ghost use Rattle.tc_path.specs.Known.{AreRight, AreRightBefore, found_in};
ghost use Rattle.tc_path.specs.declared.PathFault.TheVariants.{NoMemory};

use crate::PathFault;
use crate::token::Token;
use bumpalo::Bump;
use std::collections::BTreeMap;
use tc_model::Binding;

/// Of how many tokens on the prefixes are found all at once.
const MANY: usize = 32;

/// Namespace names by prefix, none where a prefix isn't bound.
pub(crate) type Known<'s, 'b> = BTreeMap<&'s str, Option<&'b str>, &'s Bump>;

/// The namespace name to which a prefix is bound.
pub(crate) fn uri_among<'b>(bindings: &[Binding<'b>], prefix: &str) -> Option<&'b str>
    ensures { MatchOption result (xml.uri_of (map bound bindings.now) prefix.now ≡ None)
        (λ uri. xml.uri_of (map bound bindings.now) prefix.now ≡ Some uri.now) }
{
    for binding in bindings {
        if binding.prefix == prefix {
            return Some(binding.uri);
        }
    }
    None
}

/// The prefix of a token that has one.
fn prefix_of<'t>(token: &Token<'t>) -> Option<&'t str> {
    match token {
        Token::Name(name) if name.prefix.is_empty() => None,
        Token::Name(name) => Some(name.prefix),
        Token::AllOfPrefix(prefix) => Some(prefix),
        Token::Mark(_) | Token::Number | Token::Literal | Token::Variable => None,
    }
}

/// Seeks the prefix of a token, if it has one.
fn seek<'s, 'b>(known: &mut Known<'s, 'b>, token: &Token<'s>) -> Result<(), PathFault>
    ensures ok { OnOk result ((scope : List Bound) → AreRightBefore scope scope known.old
        → AreRightBefore scope scope known.new) }
    ensures no { IfErr result (λ e. e ≡ NoMemory) }
{
    let Some(prefix) = prefix_of(token) else {
        return Ok(());
    };
    known.insert(prefix, None)?;
    Ok(())
}

/// The prefixes of tokens, none of which is found yet.
fn sought<'s, 'b>(arena: &'s Bump, tokens: &[Token<'s>]) -> Result<Known<'s, 'b>, PathFault>
    ensures ok { IfOk result (λ known. (scope : List Bound) → AreRightBefore scope scope known) }
    ensures no { IfErr result (λ e. e ≡ NoMemory) }
{
    let mut known = BTreeMap::new(arena);
    for token in tokens {
        seek(&mut known, token)?;
    }
    Ok(known)
}

/// Whether a prefix stands in a text and isn't found yet.
fn is_sought(known: &Known<'_, '_>, prefix: &str) -> bool
    ensures { MatchBool result (found_in known.now prefix.now ≡ Some None)
        (found_in known.now prefix.now ≡ Some None → ⊥) }
{
    match known.get(prefix) {
        Some(found) => found.is_none(),
        None => false,
    }
}

/// Finds the prefix of a binding, where it is sought.
fn find<'s, 'b: 's>(known: &mut Known<'s, 'b>, binding: &Binding<'b>) -> Result<(), PathFault>
    ensures ok { OnOk result ((scope rest : List Bound)
        → AreRightBefore scope (bound binding.now ∷ rest) known.old
        → AreRightBefore scope rest known.new) }
    ensures no { IfErr result (λ e. e ≡ NoMemory) }
{
    if !is_sought(known, binding.prefix) {
        return Ok(());
    }
    known.insert(binding.prefix, Some(binding.uri))?;
    Ok(())
}

/// Finds those prefixes that are bound, the first binding of each.
fn find_all<'s, 'b: 's>(
    known: &mut Known<'s, 'b>,
    bindings: &[Binding<'b>],
) -> Result<(), PathFault>
    requires { AreRightBefore (map bound bindings.now) (map bound bindings.now) known.now }
    ensures ok { OnOk result (AreRight (map bound bindings.now) known.new) }
    ensures no { IfErr result (λ e. e ≡ NoMemory) }
{
    for binding in bindings {
        find(known, binding)?;
    }
    Ok(())
}

/// The namespace names of the prefixes that stand in a text of these tokens, where these are many.
pub(crate) fn known_in<'s, 'b: 's>(
    arena: &'s Bump,
    bindings: &[Binding<'b>],
    tokens: &[Token<'s>],
) -> Result<Known<'s, 'b>, PathFault>
    ensures ok { IfOk result (AreRight (map bound bindings.now)) }
    ensures no { IfErr result (λ e. e ≡ NoMemory) }
{
    if tokens.len() < MANY {
        return Ok(BTreeMap::new(arena));
    }
    let mut known = sought(arena, tokens)?;
    if known.is_empty() {
        return Ok(known);
    }
    find_all(&mut known, bindings)?;
    Ok(known)
}

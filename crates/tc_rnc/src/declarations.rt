// Declarations of prefixes (OASIS, RELAX NG Compact Syntax, 2002: decl).
ghost use Rattle.std.specs.Prelude.{◌≢◌, ℕ, List, [], Bool, None, Some, IfOk, IfErr, IsTrue, MatchBool, MatchOption, codes};
ghost use Rattle.tc_base.specs.declared.limits.TheConstants.{DEEPEST_NESTING};
ghost use Rattle.tc_model.specs.CompactSyntaxNames as names;
ghost use Rattle.tc_model.specs.CompactSyntaxStops as stops;
ghost use Rattle.tc_model.specs.CompactSyntaxUnread as unread;
ghost use Rattle.tc_model.specs.Names.{xmlns_uri};
ghost use Rattle.tc_rnc.specs.Beginnings.{IsDefaultAlone, IsDefaultAndPrefix};
ghost use Rattle.tc_rnc.specs.Refusals.{Refuses};
ghost use Rattle.tc_rnc.specs.Schemas as schemas;
ghost use Rattle.tc_rnc.specs.Scopes.{scope_of};
ghost use Rattle.tc_rnc.specs.Views as seen;

use crate::faults::{RncFault, first_of, unexpected, unread_literal};
use crate::marks::{after_mark, after_word};
use crate::scopes::Scope;
use crate::tokens::{End, Token};
use bumpalo::Bump;
use tc_base::{Place, Why};

/// The namespace of namespace declarations, to which nothing may be bound (Namespaces in XML 1.0, 3).
const XMLNS: &str = "http://www.w3.org/2000/xmlns/";

/// Whether a namespace is inherited here, where one may be.
fn is_inherited(token: &Token<'_>, may_inherit: bool) -> bool
    ensures { MatchBool result
        (IsTrue may_inherit × names.IsWord (codes "inherit") (seen.token token.now))
        (IsTrue may_inherit → names.IsWord (codes "inherit") (seen.token token.now) → ⊥) }
{
    may_inherit && token.is_name("inherit")
}

/// The place of a `~` that stands first.
fn tilde_at(tokens: &[Token<'_>]) -> Option<Place>
    ensures { MatchOption result (names.LacksMark 126 (seen.tokens tokens.now))
        (λ p. schemas.BeginsAt 126 (seen.tokens tokens.now) p.0) }
{
    let (first, _) = first_of(tokens)?;
    if first.is_mark('~') {
        Some(first.place)
    } else {
        None
    }
}

/// The namespace name in quotes that stands first, and what follows it.
fn literal<'s, 't>(
    tokens: &'s [Token<'t>],
    end: End,
    may_inherit: bool,
) -> Result<(&'t str, &'s [Token<'t>]), RncFault>
    ensures ok { IfOk result
        (λ r. schemas.LiteralAt (seen.tokens tokens.now) r.0.now (seen.tokens r.1.now)) }
    ensures whole { IfOk result (λ r. (s : unread.Refusal)
        → unread.NoNamespaceName (seen.end end) may_inherit (seen.tokens tokens.now) s → ⊥) }
    ensures no { IfErr result
        (Refuses (unread.NoNamespaceName (seen.end end) may_inherit (seen.tokens tokens.now))) }
{
    let Some((first, rest)) = first_of(tokens) else {
        return Err(unexpected(tokens, end));
    };
    if is_inherited(first, may_inherit) {
        return Err(RncFault::Unsupported(first.place, Why::InheritedNamespace));
    }
    if let Some(fault) = unread_literal(tokens) {
        return Err(fault);
    }
    let Some(value) = first.literal() else {
        return Err(unexpected(tokens, end));
    };
    if let Some(place) = tilde_at(rest) {
        return Err(RncFault::Unsupported(place, Why::Concatenation));
    }
    Ok((value, rest))
}

/// A namespace name after an equals sign, and what follows it.
fn uri<'s, 't>(
    tokens: &'s [Token<'t>],
    end: End,
    may_inherit: bool,
) -> Result<(&'t str, &'s [Token<'t>]), RncFault>
    ensures ok { IfOk result
        (λ r. schemas.UriAt (seen.tokens tokens.now) r.0.now (seen.tokens r.1.now)) }
    ensures whole { IfOk result (λ r. (s : unread.Refusal)
        → stops.UriStops (seen.end end) may_inherit (seen.tokens tokens.now) s → ⊥) }
    ensures no { IfErr result
        (Refuses (stops.UriStops (seen.end end) may_inherit (seen.tokens tokens.now))) }
{
    let Some(rest) = after_mark(tokens, '=') else {
        return Err(unexpected(tokens, end));
    };
    literal(rest, end, may_inherit)
}

/// A prefix with a namespace name after an equals sign, and what follows them.
fn prefix_uri<'s, 't>(
    tokens: &'s [Token<'t>],
    end: End,
    may_inherit: bool,
) -> Result<(&'t str, &'t str, &'s [Token<'t>]), RncFault>
    ensures ok { IfOk result
        (λ r. schemas.PrefixUriAt (seen.tokens tokens.now) r.0.now r.1.now (seen.tokens r.2.now)) }
    ensures whole { IfOk result (λ r. (s : unread.Refusal)
        → stops.PrefixStops (seen.end end) may_inherit (seen.tokens tokens.now) s → ⊥) }
    ensures no { IfErr result
        (Refuses (stops.PrefixStops (seen.end end) may_inherit (seen.tokens tokens.now))) }
{
    let Some((first, rest)) = first_of(tokens) else {
        return Err(unexpected(tokens, end));
    };
    let Some(prefix) = first.identifier_or_keyword() else {
        return Err(unexpected(tokens, end));
    };
    let (value, after) = uri(rest, end, may_inherit)?;
    Ok((prefix, value, after))
}

/// Whether a prefix may be bound to a namespace name: it isn't yet, and the namespace allows it.
fn may_bind(scope: &Scope<'_>, prefix: &str, uri: &str) -> bool
    ensures { MatchBool result (names.MayBind (scope_of scope.now) prefix.now uri.now)
        (names.MayBind (scope_of scope.now) prefix.now uri.now → ⊥) }
{
    match scope.uri_of(prefix) {
        Some(_) => false,
        None => uri != XMLNS,
    }
}

/// Whether a declaration begins here.
fn begins_declaration(tokens: &[Token<'_>]) -> bool
    ensures { MatchBool result (schemas.BeginsDeclaration (seen.tokens tokens.now))
        (schemas.LacksDeclaration (seen.tokens tokens.now)) }
{
    let Some((first, _)) = first_of(tokens) else {
        return false;
    };
    if first.is_name("namespace") {
        return true;
    }
    if first.is_name("default") {
        return true;
    }
    first.is_name("datatypes")
}

/// Reads a declaration of a prefix, of which `rest` is what follows its word, and gives what follows it.
fn namespace<'b, 's, 't>(
    arena: &'b Bump,
    scope: &mut Scope<'b>,
    tokens: &'s [Token<'t>],
    rest: &'s [Token<'t>],
    end: End,
) -> Result<&'s [Token<'t>], RncFault>
    requires { schemas.StartsWith (codes "namespace") (seen.tokens tokens.now)
        (seen.tokens rest.now) }
    ensures ok { IfOk result
        (λ r. names.DeclarationAt (scope_of scope.old) (seen.tokens tokens.now)
        (scope_of scope.new) (seen.tokens r.now)) }
    ensures whole { IfOk result
        (λ r. (s : unread.Refusal)
        → stops.DeclarationStops (seen.end end) (scope_of scope.old) (seen.tokens tokens.now) s
        → ⊥) }
    ensures no { IfErr result
        (Refuses
        (stops.DeclarationStops (seen.end end) (scope_of scope.old) (seen.tokens tokens.now))) }
{
    let (prefix, value, after) = prefix_uri(rest, end, true)?;
    if !may_bind(scope, prefix, value) {
        return Err(unexpected(tokens, end));
    }
    scope.bind(arena, prefix, value)?;
    Ok(after)
}

/// Reads a declaration of the default namespace alone, of which `rest` is what follows its words, and gives
/// what follows it.
fn default_alone<'b, 's, 't>(
    arena: &'b Bump,
    scope: &mut Scope<'b>,
    tokens: &'s [Token<'t>],
    rest: &'s [Token<'t>],
    end: End,
) -> Result<&'s [Token<'t>], RncFault>
    requires { IsDefaultAlone (seen.tokens tokens.now) (seen.tokens rest.now) }
    ensures ok { IfOk result
        (λ r. names.DeclarationAt (scope_of scope.old) (seen.tokens tokens.now)
        (scope_of scope.new) (seen.tokens r.now)) }
    ensures whole { IfOk result
        (λ r. (s : unread.Refusal)
        → stops.DeclarationStops (seen.end end) (scope_of scope.old) (seen.tokens tokens.now) s
        → ⊥) }
    ensures no { IfErr result
        (Refuses
        (stops.DeclarationStops (seen.end end) (scope_of scope.old) (seen.tokens tokens.now))) }
{
    let (value, after) = uri(rest, end, true)?;
    if !may_bind(scope, "", value) {
        return Err(unexpected(tokens, end));
    }
    scope.bind(arena, "", value)?;
    Ok(after)
}

/// Reads a declaration of the default namespace that binds a prefix too, of which `rest` is what follows its
/// words, and gives what follows it.
fn default_and_prefix<'b, 's, 't>(
    arena: &'b Bump,
    scope: &mut Scope<'b>,
    tokens: &'s [Token<'t>],
    rest: &'s [Token<'t>],
    end: End,
) -> Result<&'s [Token<'t>], RncFault>
    requires { IsDefaultAndPrefix (seen.tokens tokens.now) (seen.tokens rest.now) }
    ensures ok { IfOk result
        (λ r. names.DeclarationAt (scope_of scope.old) (seen.tokens tokens.now)
        (scope_of scope.new) (seen.tokens r.now)) }
    ensures whole { IfOk result
        (λ r. (s : unread.Refusal)
        → stops.DeclarationStops (seen.end end) (scope_of scope.old) (seen.tokens tokens.now) s
        → ⊥) }
    ensures no { IfErr result
        (Refuses
        (stops.DeclarationStops (seen.end end) (scope_of scope.old) (seen.tokens tokens.now))) }
{
    let (prefix, value, after) = prefix_uri(rest, end, true)?;
    if !may_bind(scope, "", value) {
        return Err(unexpected(tokens, end));
    }
    if !may_bind(scope, prefix, value) {
        return Err(unexpected(tokens, end));
    }
    scope.bind(arena, prefix, value)?;
    scope.bind(arena, "", value)?;
    Ok(after)
}

/// Reads a declaration that begins with `default`, of which `behind` is what follows that word, and gives what follows it.
fn default_namespace<'b, 's, 't>(
    arena: &'b Bump,
    scope: &mut Scope<'b>,
    tokens: &'s [Token<'t>],
    behind: &'s [Token<'t>],
    end: End,
) -> Result<&'s [Token<'t>], RncFault>
    requires { schemas.StartsWith (codes "default") (seen.tokens tokens.now)
        (seen.tokens behind.now) }
    ensures ok { IfOk result
        (λ r. names.DeclarationAt (scope_of scope.old) (seen.tokens tokens.now)
        (scope_of scope.new) (seen.tokens r.now)) }
    ensures whole { IfOk result
        (λ r. (s : unread.Refusal)
        → stops.DeclarationStops (seen.end end) (scope_of scope.old) (seen.tokens tokens.now) s
        → ⊥) }
    ensures no { IfErr result
        (Refuses
        (stops.DeclarationStops (seen.end end) (scope_of scope.old) (seen.tokens tokens.now))) }
{
    let Some(rest) = after_word(behind, "namespace") else {
        return Err(unexpected(behind, end));
    };
    match after_mark(rest, '=') {
        Some(_) => default_alone(arena, scope, tokens, rest, end),
        None => default_and_prefix(arena, scope, tokens, rest, end),
    }
}

/// Reads a declaration, and gives what follows it; that of a datatype library has no effect.
fn declaration<'b, 's, 't>(
    arena: &'b Bump,
    scope: &mut Scope<'b>,
    tokens: &'s [Token<'t>],
    end: End,
) -> Result<&'s [Token<'t>], RncFault>
    requires { schemas.BeginsDeclaration (seen.tokens tokens.now) }
    ensures ok { IfOk result
        (λ r. names.DeclarationAt (scope_of scope.old) (seen.tokens tokens.now)
        (scope_of scope.new) (seen.tokens r.now)) }
    ensures whole { IfOk result
        (λ r. (s : unread.Refusal)
        → stops.DeclarationStops (seen.end end) (scope_of scope.old) (seen.tokens tokens.now) s
        → ⊥) }
    ensures no { IfErr result
        (Refuses
        (stops.DeclarationStops (seen.end end) (scope_of scope.old) (seen.tokens tokens.now))) }
{
    if let Some(rest) = after_word(tokens, "namespace") {
        return namespace(arena, scope, tokens, rest, end);
    }
    if let Some(behind) = after_word(tokens, "default") {
        return default_namespace(arena, scope, tokens, behind, end);
    }
    let Some(rest) = after_word(tokens, "datatypes") else {
        return Err(unexpected(tokens, end));
    };
    let (_, _, after) = prefix_uri(rest, end, false)?;
    Ok(after)
}

/// Reads the declarations at the front, and gives what follows them.
pub fn declarations<'b, 's, 't>(
    arena: &'b Bump,
    scope: &mut Scope<'b>,
    tokens: &'s [Token<'t>],
    end: End,
) -> Result<&'s [Token<'t>], RncFault>
    ensures ok { IfOk result
        (λ r. schemas.Declares (seen.end end) (scope_of scope.old) (scope_of scope.new)
        (seen.tokens tokens.now) (seen.tokens r.now)) }
    ensures all { IfOk result (λ r. schemas.LacksDeclaration (seen.tokens r.now)) }
    ensures no { IfErr result
        (Refuses
        (stops.SchemaStops (seen.end end) (scope_of scope.old) DEEPEST_NESTING
        (seen.tokens tokens.now))) }
{
    let mut rest = tokens.split_at(0).1;
    while begins_declaration(rest) {
        let after = declaration(arena, scope, rest, end)?;
        rest = after;
    }
    Ok(rest)
}

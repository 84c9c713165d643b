// The prefixes in scope.
ghost use Rattle.std.specs.Prelude.{◌≡◌, [], ℕ, List};
ghost use Rattle.std.specs.Option.{option_map};
ghost use Rattle.tc_model.specs.XmlTextScopes as xml;
ghost use Rattle.tc_rnc.specs.Bindings.{scope_before, uri_in};

use crate::faults::RncFault;
use bumpalo::Bump;
use std::collections::BTreeMap;
use tc_model::Binding;

/// The namespace of the prefix `xml` (Namespaces in XML 1.0, 3).
const XML: &str = "http://www.w3.org/XML/1998/namespace";

/// The prefixes that are bound, the empty one standing for the default namespace: in the order of the text, and with
/// their namespace names.
#[derive(Drop)]
pub struct Scope<'b> {
    pub bindings: Vec<Binding<'b>, &'b Bump>,
    uris: BTreeMap<&'b str, &'b str, &'b Bump>,
    ghost same: { (prefix : List ℕ) → option_map (λ u. u.now) (uri_in uris prefix) ≡ xml.uri_of (scope_before [] bindings.items) prefix },
}

impl<'b> Scope<'b> {
    ghost use Rattle.std.specs.Prelude.{◌∷◌, None, Some, MatchOption, IfOk, IfErr, OnOk};
    ghost use Rattle.tc_model.specs.CompactSyntaxNames as names;
    ghost use Rattle.tc_rnc.specs.Scopes.{scope_of};
    ghost use Rattle.tc_rnc.specs.declared.faults.RncFault.TheVariants.{NoMemory};

    /// The prefixes that are bound before any declaration.
    pub fn first(arena: &'b Bump) -> Result<Scope<'b>, RncFault>
        ensures ok { IfOk result (λ s. scope_of s ≡ xml.first_scope) }
        ensures no { IfErr result (λ e. e ≡ NoMemory) }
    {
        let mut scope = Scope {
            bindings: Vec::new(arena),
            uris: BTreeMap::new(arena),
        };
        scope.bind(arena, "xml", XML)?;
        Ok(scope)
    }

    /// The namespace name to which a prefix is bound.
    pub fn uri_of(&self, prefix: &str) -> Option<&'b str>
        ensures { MatchOption result (xml.uri_of (scope_of self.now) prefix.now ≡ None)
            (λ uri. xml.uri_of (scope_of self.now) prefix.now ≡ Some uri.now) }
    {
        self.uris.get(prefix).copied()
    }

    /// Binds a prefix to a namespace name.
    pub fn bind(&mut self, arena: &'b Bump, prefix: &str, uri: &str) -> Result<(), RncFault>
        ensures ok { OnOk result
            (scope_of self.new ≡ names.bound_to prefix.now uri.now ∷ scope_of self.old) }
        ensures no { IfErr result (λ e. e ≡ NoMemory) }
    {
        let prefix: &'b str = arena.try_alloc_str(prefix)?;
        let uri: &'b str = arena.try_alloc_str(uri)?;
        self.bindings.push(Binding { prefix, uri })?;
        match self.uris.insert(prefix, uri) {
            Ok(_) => Ok(()),
            Err(_) => {
                self.bindings.pop();
                Err(RncFault::NoMemory)
            }
        }
    }
}

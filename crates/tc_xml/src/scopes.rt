// The prefixes in scope (Namespaces in XML 1.0, 3 and 6.1).
ghost use Rattle.std.specs.Prelude.{◌≡◌, map};
ghost use Rattle.tc_model.specs.Views.{bound};
ghost use Rattle.tc_xml.specs.Bounds.{named};

use crate::faults::Stop;
use bumpalo::Bump;
use bumpalo::collections::into_bump_slice;
use indexmap::IndexMap;
use std::hash::{BuildHasherDefault, FoldHasher};
use tc_model::Binding;

/// Namespace names by prefix, in the order of the bindings.
pub(crate) type Names<'b> = IndexMap<&'b str, &'b str, BuildHasherDefault<FoldHasher>, &'b Bump>;

/// The prefixes in scope, each with the namespace name to which it is bound, in order and by prefix.
#[derive(Clone, Copy)]
pub(crate) struct Scope<'b> {
    pub(crate) bindings: &'b [Binding<'b>],
    names: &'b Names<'b>,
    ghost same: { named names.now ≡ map bound bindings.now },
}

impl<'b> Scope<'b> {
    ghost use Rattle.std.specs.Prelude.{IfOk, IfErr};
    ghost use Rattle.std.specs.Option.{option_map};
    ghost use Rattle.tc_model.specs.XmlTextScopes as xml;
    ghost use Rattle.tc_xml.specs.Tags.{in_scope, Breaks};

    /// What is in scope where these names are.
    pub(crate) fn of(arena: &'b Bump, names: Names<'b>) -> Result<Scope<'b>, Stop>
        ensures ok { IfOk result (λ s. in_scope s ≡ named names.entry) }
        ensures no { IfErr result (λ e. Breaks e ⊥) }
    {
        let names: &'b Names<'b> = arena.try_alloc(names)?;
        let bindings = Scope::bindings_of(arena, names)?;
        Ok(Scope { bindings, names })
    }

    /// The bindings of names, in their order.
    fn bindings_of(arena: &'b Bump, names: &Names<'b>) -> Result<&'b [Binding<'b>], Stop>
        ensures ok { IfOk result (λ r. map bound r.now ≡ named names.now) }
        ensures no { IfErr result (λ e. Breaks e ⊥) }
    {
        let mut bindings = Vec::with_capacity(arena, names.len())?;
        for (prefix, uri) in names {
            bindings.push(Binding { prefix, uri })?;
        }
        Ok(into_bump_slice(bindings))
    }

    /// A copy of the names, to which more may be added.
    pub(crate) fn names(self) -> Result<Names<'b>, Stop>
        ensures ok { IfOk result (λ n. named n ≡ in_scope self.entry) }
        ensures no { IfErr result (λ e. Breaks e ⊥) }
    {
        let names = self.names.clone()?;
        Ok(names)
    }

    /// The namespace name to which a prefix is bound.
    pub(crate) fn uri_of(self, prefix: &str) -> Option<&'b str>
        ensures { option_map (λ u. u.now) result ≡ xml.uri_of (in_scope self.entry) prefix.now }
    {
        let uri = self.names.get(&prefix)?;
        Some(*uri)
    }
}

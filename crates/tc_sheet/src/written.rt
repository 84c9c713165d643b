// A stylesheet as it is written: modes and templates by their names, for-eaches without numbers.
use tc_base::Place;
use tc_model::{Alt, Name, Path, Test};

/// A branch of `xsl:choose`, or an `xsl:if`: its test and its body.
#[derive(Clone, Copy)]
#[cycle(written)]
pub(crate) struct WrittenBranch<'b> {
    pub(crate) test: Test<'b>,
    pub(crate) body: &'b [Written<'b>],
}

/// An instruction. `Apply` has a mode unless it is the default one, `Call` has the place of its element.
#[derive(Clone, Copy)]
#[cycle(written)]
pub(crate) enum Written<'b> {
    Text(&'b str),
    Elem(Name<'b>, &'b [Written<'b>]),
    Copy(&'b [Written<'b>]),
    Apply(Path<'b>, Option<Name<'b>>),
    Call(Name<'b>, Place),
    ValueOf(Path<'b>),
    ValueOfSelf,
    Choose(&'b [WrittenBranch<'b>], &'b [Written<'b>]),
    ForEach(Path<'b>, &'b [Written<'b>]),
}

/// An `xsl:template` (XSLT 1.0, 5.3, 6): the alternatives of its pattern with their priorities, its name, its
/// mode unless it is the default one, its body, and its place.
#[derive(Clone, Copy)]
pub(crate) struct Template<'b> {
    pub(crate) alternatives: &'b [Alt<'b>],
    pub(crate) name: Option<Name<'b>>,
    pub(crate) mode: Option<Name<'b>>,
    pub(crate) body: &'b [Written<'b>],
    pub(crate) place: Place,
}

impl Template<'_> {
    ghost use Rattle.std.specs.Prelude.{◌≡◌};
    ghost use Rattle.tc_model.specs.SheetTextTrees as s;
    ghost use Rattle.tc_sheet.specs.Views.{template};

    /// Whether it makes rules.
    pub(crate) fn makes_rules(&self) -> bool
        ensures { result ≡ s.makes_rules (template self.now) }
    {
        !self.alternatives.is_empty()
    }

    /// Whether it can be used: it makes rules, or can be called.
    pub(crate) fn is_used(&self) -> bool
        ensures { result ≡ s.is_used (template self.now) }
    {
        self.makes_rules() || self.name.is_some()
    }
}

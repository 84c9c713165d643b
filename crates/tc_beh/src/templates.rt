// What is to be instantiated on a node (XSLT 1.0, 5), and what it puts out.
ghost use Rattle.std.specs.Prelude.{◌≡◌, ◌≤◌, ◌<◌, ◌+◌, ℕ, List, length, All, option_map, Option, IfSome, true};
ghost use Rattle.tc_model.specs.Letters as letters;
ghost use Rattle.tc_model.specs.Sheets.{CallFreeBody};
ghost use Rattle.tc_rules.specs.Asked.{found as found_of};
ghost use Rattle.tc_rules.specs.Kept.{told};
ghost use Rattle.tc_rules.specs.KnownRules.{AreKnown};
ghost use Rattle.tc_rules.specs.RulesView.{move_count};
ghost use Rattle.tc_rules.specs.States.{Chosen, Going, plain_of};
ghost use Rattle.tc_rules.specs.Tasks.{IsMoveAt};
ghost use Rattle.tc_rows.specs.Triples.{Triple, sheet, predicates};
ghost use Rattle.tc_rows.specs.Bodies.{body_pairs};
ghost use Rattle.tc_beh.specs.Above.{letter_of};
ghost use Rattle.tc_beh.specs.Heights.{depth_in};
ghost use Rattle.tc_beh.specs.Putting.{Extends};
ghost use Rattle.tc_beh.specs.Opening.{IsOpenAt, IsBeside};
ghost use Rattle.tc_beh.specs.Places.{IsPlace, IsPlaceIn, kind_of, below_of, called_by};
ghost use Rattle.tc_beh.specs.Runs.{IsRulePlace, IsRulePlaceIn};
ghost use Rattle.tc_beh.specs.Stands.{IsRulesIn, AreRules};
ghost use Rattle.tc_beh.specs.Templates.{IsMeantAt, IsTemplate, IsPartTemplate, body_meant, depth_of, depth_of_sheet, built_in_on, AreCalled};

use crate::above::Letter;
use crate::bodies::{At, Place, all_children, put_body, put_selected, put_text_if};
use crate::open_sets::OpenSets;
use crate::runs::put_rule;
use tc_model::Instr;
use tc_rules::{Found, Job, KnownRules, Rules};

/// What is to be instantiated on a node: a body, that of a rule by its number, or what the built-in rules say in a mode.
#[derive(Clone, Copy)]
pub(crate) enum Template<'b> {
    Body(&'b [Instr<'b>]),
    Rule(u32, &'b [Instr<'b>]),
    BuiltIn(u32),
}

/// What a rule says, or the built-in ones in a mode.
pub(crate) fn template_of<'b>(rules: &Rules<'b>, mode: u32, found: Found) -> Template<'b>
    requires rules { AreRules rules.now }
    requires mode { mode < (told rules.now).sheet.modes }
    requires found { IfSome (found_of found) (λ i. i < length (told rules.now).sheet.rules) }
    ensures part { IsPartTemplate (told rules.now).sheet result }
    ensures depth { depth_of result ≤ depth_of_sheet (told rules.now).sheet }
    ensures meant { (x : Triple) (own : ℕ → CallFreeBody) (o : Option Chosen)
        → IsRulesIn x rules.now → option_map (λ w. w.number) o ≡ found_of found →
        IsTemplate (sheet x).named own result (plain_of x.bodies (own mode) o) }
{
    match found {
        Found::BuiltIn => Template::BuiltIn(mode),
        Found::Rule(number) => {
            let body = rules.sheet().rules[number as usize].body;
            Template::Rule(number, body)
        }
    }
}

/// What is to be done on a node that a state of a move above it hits. The ancestor state is that above the node.
pub(crate) fn template_at<'b>(
    rules: &Rules<'b>,
    known: &mut KnownRules,
    letter: Letter,
    ancestor: u32,
    state: u32,
) -> Template<'b>
    requires ancestor { ancestor < length (told rules.now).ancestors.states }
    requires state { state < move_count (told rules.now) }
    requires letter { (x : Triple) × IsRulesIn x rules.now
        × letters.IsLetter x.symbols (predicates x) (letter_of letter)
        × AreKnown x.symbols x.rules known.old }
    ensures known { (x : Triple) → IsRulesIn x rules.now
        → letters.IsLetter x.symbols (predicates x) (letter_of letter)
        → AreKnown x.symbols x.rules known.old → AreKnown x.symbols x.rules known.new }
    ensures part { IsPartTemplate (told rules.now).sheet result }
    ensures depth { depth_of result ≤ depth_of_sheet (told rules.now).sheet }
    ensures meant { (x : Triple) (g : Going) → IsRulesIn x rules.now
        → letters.IsLetter x.symbols (predicates x) (letter_of letter)
        → AreKnown x.symbols x.rules known.old → IsMoveAt x.rules state g
        → IsMeantAt x g ancestor (letter_of letter) result }
{
    match rules.mode_of(state) {
        Job::Each(number) => Template::Body(rules.each_body(number)),
        Job::Mode(mode) => {
            let found = known.rule_for(rules, mode, ancestor, letter.kind, letter.marks);
            template_of(rules, mode, found)
        }
    }
}

/// True only where the same was found.
fn is_same(one: Found, other: Found) -> bool
    ensures { result ≡ true → one ≡ other }
{
    match (one, other) {
        (Found::BuiltIn, Found::BuiltIn) => true,
        (Found::Rule(first), Found::Rule(second)) => first == second,
        _ => false,
    }
}

/// True only where the same is to be done on a node that a state of a move hits, above the one and above the other ancestor state.
pub(crate) fn are_alike(
    rules: &Rules<'_>,
    known: &mut KnownRules,
    letter: Letter,
    first: u32,
    second: u32,
    state: u32,
) -> bool
    requires first { first < length (told rules.now).ancestors.states }
    requires second { second < length (told rules.now).ancestors.states }
    requires state { state < move_count (told rules.now) }
    requires letter { (x : Triple) × IsRulesIn x rules.now }
    ensures known { (x : Triple) → IsRulesIn x rules.now
        → AreKnown x.symbols x.rules known.old → AreKnown x.symbols x.rules known.new }
    ensures meant { result ≡ true → (x : Triple) (g : Going) → IsRulesIn x rules.now
        → letters.IsLetter x.symbols (predicates x) (letter_of letter)
        → AreKnown x.symbols x.rules known.old → IsMoveAt x.rules state g
        → body_meant x g first (letter_of letter) ≡ body_meant x g second (letter_of letter) }
{
    match rules.mode_of(state) {
        Job::Each(_) => true,
        Job::Mode(mode) => {
            let one = known.rule_for(rules, mode, first, letter.kind, letter.marks);
            let other = known.rule_for(rules, mode, second, letter.kind, letter.marks);
            is_same(one, other)
        }
    }
}

/// Puts the pairs of a template.
pub(crate) fn put_template(place: &Place<'_, '_>, template: Template<'_>, sets: &mut OpenSets)
    requires place { IsRulePlace place.now }
    requires part { IsPartTemplate (told place.now.rules.now).sheet template }
    requires sets { IsOpenAt place.now (depth_of template) sets.old }
    ensures same { IsBeside place.now.output.now place.now.outputs.now sets.old sets.new }
    ensures pairs { (x : Triple) (p : CallFreeBody) → IsRulePlaceIn x place.now
        → AreCalled x place.now
        → IsTemplate (sheet x).named (built_in_on (kind_of place.now.node)) template.entry p
        → Extends sets.old.out sets.new.out
        (body_pairs x p (kind_of place.now.node) (below_of x place.now)) }
{
    match template {
        Template::Body(inner) => put_body(place, inner, sets),
        Template::Rule(number, inner) => put_rule(place, number, inner, sets),
        Template::BuiltIn(mode) => put_built_in(place, mode, sets),
    }
}

/// Puts the pairs of the built-in rules: the children of the root and of elements in the same mode; a text is copied
/// (XSLT 1.0, 5.8).
fn put_built_in(place: &Place<'_, '_>, mode: u32, sets: &mut OpenSets)
    requires place { IsPlace place.now }
    requires mode { mode < (told place.now.rules.now).sheet.modes }
    requires sets { IsOpenAt place.now 0 sets.old }
    ensures same { IsBeside place.now.output.now place.now.outputs.now sets.old sets.new }
    ensures pairs { (x : Triple) → IsPlaceIn x place.now
        → Extends sets.old.out sets.new.out
        (body_pairs x (built_in_on (kind_of place.now.node) mode) (kind_of place.now.node)
        (below_of x place.now)) }
{
    match place.node {
        At::Text => put_text_if(place, true, sets),
        At::Root => put_selected(place, all_children(), Job::Mode(mode), sets),
        At::Elem(_) => put_selected(place, all_children(), Job::Mode(mode), sets),
    }
}

// Bodies of templates: texts, literal elements and instructions (XSLT 1.0, 5 to 9).
ghost use Rattle.std.specs.Prelude.{◌≡◌, ◌≢◌, [], Some, IfOk, IfErr, OnOk, MatchBool, MatchResult, codes, option_map};
ghost use Rattle.tc_model.specs.Meaning as meaning;
ghost use Rattle.tc_model.specs.RawTrees as raws;
ghost use Rattle.tc_model.specs.Views as see;
ghost use Rattle.tc_model.specs.SheetTextPhrases as phrases;
ghost use Rattle.tc_model.specs.SheetTextPhrases.{xsl_uri, IsXsl};
ghost use Rattle.tc_model.specs.SheetTextTrees as trees;
ghost use Rattle.tc_sheet.specs.Called.{IsChoose};
ghost use Rattle.tc_sheet.specs.Begun.{IsBegunBy, IsBegun, around as around_seen};
ghost use Rattle.tc_sheet.specs.Constructs.{MustHave, plain};
ghost use Rattle.tc_sheet.specs.Constructs as forms;
ghost use Rattle.tc_sheet.specs.LookedAt.{IsIn, in_body, in_choose, in_blank};
ghost use Rattle.tc_sheet.specs.Readings.{Refuses, IsNotBlank, HasNoCharacters, HasNoInstruction, HasTest, HasNoTest, IsTested, HasNoTested, HasNoBody, IsItem, HasNoItem, IsElementItem, HasNoElementItem, HasNoBranches, alone, attributes_of, scope_of};
ghost use Rattle.tc_sheet.specs.Views.{written_before, put, tag_of, body as body_of, branches as branches_before, instruction as instruction_seen};
ghost use Rattle.tc_sheet.specs.declared.faults.SheetFault.TheVariants as faults;

use crate::attributes::{
    check_literal_attributes, only_attributes, optional_name, optional_select, required_attributes,
    required_element_name, required_name, required_select, required_test, required_value,
};
use crate::elements::{Instruction, instruction_of, is_xsl, is_xslt, misplaced};
use crate::faults::SheetFault;
use crate::written::{Written, WrittenBranch};
use bumpalo::Bump;
use bumpalo::collections::{into_bump_slice, into_bump_str};
use std::slice::from_ref;
use tc_model::{Instr, Name, NodeTest, Path, Raw, RawElem, Step, Test, is_white_space_only};

/// Checks that these are texts of white space alone (XSLT 1.0, 3.4).
fn check_blank(kids: &[Raw<'_>]) -> Result<(), SheetFault>
    ensures ok { OnOk result (phrases.IsBlank (see.raw_trees kids.now)) }
    ensures no { IfErr result
        (λ e. Refuses e (IsIn in_blank (see.raw_trees kids.now))
        (IsNotBlank (see.raw_trees kids.now))) }
{
    for kid in kids {
        match kid {
            Raw::Text(text, place) => {
                if !is_white_space_only(text) {
                    return Err(SheetFault::Malformed(*place));
                }
            }
            Raw::Elem(element) => return Err(misplaced(element)),
        }
    }
    Ok(())
}

/// The characters of an `xsl:text` (XSLT 1.0, 7.2).
fn characters<'b>(arena: &'b Bump, kids: &[Raw<'b>]) -> Result<&'b str, SheetFault>
    ensures ok { IfOk result (λ s. phrases.AreCharacters (see.raw_trees kids.now) s.now) }
    ensures no { IfErr result
        (λ e. Refuses e (IsIn in_blank (see.raw_trees kids.now))
        (HasNoCharacters (see.raw_trees kids.now))) }
{
    let mut all = String::new(arena);
    for kid in kids {
        match kid {
            Raw::Text(text, _) => all.push_str(text)?,
            Raw::Elem(element) => return Err(misplaced(element)),
        }
    }
    Ok(into_bump_str(all))
}

/// All children of a node.
static ALL_CHILDREN: Path<'static> = Path {
    alts: &[&[Step {
        deep: false,
        test: NodeTest::Node,
        when: Test::True,
    }]],
};

/// The path of all children (XSLT 1.0, 5.4).
fn all_children<'b>() -> &'b Path<'b>
    ensures { see.path result.now ≡ meaning.all_children }
{
    &ALL_CHILDREN
}

/// The path, or that of all children.
fn or_all_children<'b>(path: Option<Path<'b>>) -> Path<'b>
    ensures { see.path result ≡ phrases.or_all_children (option_map see.path path.entry) }
{
    match path {
        Some(path) => path,
        None => *all_children(),
    }
}

/// What an element makes of the body that it holds.
#[derive(Clone, Copy)]
pub(crate) enum Head<'b> {
    Element(Name<'b>),
    Copy,
    ForEach(Path<'b>),
    If(Test<'b>),
}

/// What is known of an element before what it holds is read: what it makes where that needs no body, what it
/// makes of its body, or that it is an `xsl:choose`.
#[derive(Clone, Copy)]
pub(crate) enum Begun<'b> {
    Whole(Option<Written<'b>>),
    Around(Head<'b>),
    Choose,
}

/// Reads an `xsl:apply-templates` (XSLT 1.0, 5.4).
fn apply_templates<'b>(arena: &'b Bump, element: &RawElem<'b>) -> Result<Begun<'b>, SheetFault>
    requires { IsXsl (codes "apply-templates") (see.name element.now.name) }
    ensures ok { IfOk result (IsBegunBy phrases.i_apply element.now) }
    ensures no { IfErr result
        (λ e. Refuses e (IsIn in_body (see.raw_element element.now raws.none))
        (HasNoInstruction phrases.i_apply element.now)) }
{
    only_attributes(element, &["select", "mode"])?;
    let path = optional_select(arena, element)?;
    let mode = optional_name(element, "mode")?;
    check_blank(element.kids)?;
    Ok(Begun::Whole(Some(Written::Apply(or_all_children(path), mode))))
}

/// Reads an `xsl:call-template` (XSLT 1.0, 6).
fn call_template<'b>(element: &RawElem<'b>) -> Result<Begun<'b>, SheetFault>
    requires { IsXsl (codes "call-template") (see.name element.now.name) }
    ensures ok { IfOk result (IsBegunBy phrases.i_call element.now) }
    ensures no { IfErr result
        (λ e. Refuses e (IsIn in_body (see.raw_element element.now raws.none))
        (HasNoInstruction phrases.i_call element.now)) }
{
    only_attributes(element, &["name"])?;
    let name = required_name(element)?;
    check_blank(element.kids)?;
    Ok(Begun::Whole(Some(Written::Call(name, element.place))))
}

/// Reads an `xsl:value-of` (XSLT 1.0, 7.6.1).
fn value_of<'b>(arena: &'b Bump, element: &RawElem<'b>) -> Result<Begun<'b>, SheetFault>
    requires { IsXsl (codes "value-of") (see.name element.now.name) }
    ensures ok { IfOk result (IsBegunBy phrases.i_value element.now) }
    ensures no { IfErr result
        (λ e. Refuses e (IsIn in_body (see.raw_element element.now raws.none))
        (HasNoInstruction phrases.i_value element.now)) }
{
    only_attributes(element, &["select"])?;
    let value = required_value(arena, element)?;
    check_blank(element.kids)?;
    match value {
        Instr::ValueOf(path) => Ok(Begun::Whole(Some(Written::ValueOf(path)))),
        _ => Ok(Begun::Whole(Some(Written::ValueOfSelf))),
    }
}

/// Reads an `xsl:text` (XSLT 1.0, 7.2).
fn text<'b>(arena: &'b Bump, element: &RawElem<'b>) -> Result<Begun<'b>, SheetFault>
    requires { IsXsl (codes "text") (see.name element.now.name) }
    ensures ok { IfOk result (IsBegunBy phrases.i_text element.now) }
    ensures no { IfErr result
        (λ e. Refuses e (IsIn in_body (see.raw_element element.now raws.none))
        (HasNoInstruction phrases.i_text element.now)) }
{
    only_attributes(element, &[])?;
    let text = characters(arena, element.kids)?;
    Ok(Begun::Whole(Some(Written::Text(text))))
}

/// Takes an `xsl:copy-of`, which copies attributes alone (XSLT 1.0, 11.3).
fn copy_of<'b>(arena: &'b Bump, element: &RawElem<'b>) -> Result<Begun<'b>, SheetFault>
    requires { IsXsl (codes "copy-of") (see.name element.now.name) }
    ensures ok { IfOk result (IsBegunBy phrases.i_copy_of element.now) }
    ensures no { IfErr result
        (λ e. Refuses e (IsIn in_body (see.raw_element element.now raws.none))
        (HasNoInstruction phrases.i_copy_of element.now)) }
{
    only_attributes(element, &["select"])?;
    required_attributes(arena, element)?;
    check_blank(element.kids)?;
    Ok(Begun::Whole(None))
}

/// Reads the start of an `xsl:for-each` (XSLT 1.0, 8).
fn for_each<'b>(arena: &'b Bump, element: &RawElem<'b>) -> Result<Begun<'b>, SheetFault>
    requires { IsXsl (codes "for-each") (see.name element.now.name) }
    ensures ok { IfOk result (IsBegunBy phrases.i_each element.now) }
    ensures no { IfErr result
        (λ e. Refuses e (IsIn in_body (see.raw_element element.now raws.none))
        (HasNoInstruction phrases.i_each element.now)) }
{
    only_attributes(element, &["select"])?;
    let path = required_select(arena, element)?;
    Ok(Begun::Around(Head::ForEach(path)))
}

/// The test of an `xsl:if` or an `xsl:when` (XSLT 1.0, 9.1, 9.2).
fn test_of<'b>(arena: &'b Bump, element: &RawElem<'b>) -> Result<Test<'b>, SheetFault>
    requires xslt { (see.name element.now.name).uri ≡ xsl_uri }
    requires test { MustHave (see.name element.now.name) (plain (codes "test")) forms.test }
    ensures ok { IfOk result
        (λ t. HasTest (scope_of element.now) (attributes_of element.now) (see.test t)) }
    ensures no { IfErr result (λ e. Refuses e (alone element.now) (HasNoTest element.now)) }
{
    only_attributes(element, &["test"])?;
    required_test(arena, element)
}

/// Reads the start of an `xsl:if` (XSLT 1.0, 9.1).
fn begin_if<'b>(arena: &'b Bump, element: &RawElem<'b>) -> Result<Begun<'b>, SheetFault>
    requires { IsXsl (codes "if") (see.name element.now.name) }
    ensures ok { IfOk result (IsBegunBy phrases.i_if element.now) }
    ensures no { IfErr result
        (λ e. Refuses e (IsIn in_body (see.raw_element element.now raws.none))
        (HasNoInstruction phrases.i_if element.now)) }
{
    let test = test_of(arena, element)?;
    Ok(Begun::Around(Head::If(test)))
}

/// Reads the start of an `xsl:choose` (XSLT 1.0, 9.2).
fn begin_choose<'b>(element: &RawElem<'b>) -> Result<Begun<'b>, SheetFault>
    requires { IsXsl (codes "choose") (see.name element.now.name) }
    ensures ok { IfOk result (IsBegunBy phrases.i_choose element.now) }
    ensures no { IfErr result
        (λ e. Refuses e (IsIn in_body (see.raw_element element.now raws.none))
        (HasNoInstruction phrases.i_choose element.now)) }
{
    only_attributes(element, &[])?;
    Ok(Begun::Choose)
}

/// Reads the start of an `xsl:copy` (XSLT 1.0, 7.5).
fn begin_copy<'b>(element: &RawElem<'b>) -> Result<Begun<'b>, SheetFault>
    requires { IsXsl (codes "copy") (see.name element.now.name) }
    ensures ok { IfOk result (IsBegunBy phrases.i_copy element.now) }
    ensures no { IfErr result
        (λ e. Refuses e (IsIn in_body (see.raw_element element.now raws.none))
        (HasNoInstruction phrases.i_copy element.now)) }
{
    only_attributes(element, &[])?;
    Ok(Begun::Around(Head::Copy))
}

/// Reads the start of an `xsl:element` (XSLT 1.0, 7.1.2).
fn begin_element<'b>(element: &RawElem<'b>) -> Result<Begun<'b>, SheetFault>
    requires { IsXsl (codes "element") (see.name element.now.name) }
    ensures ok { IfOk result (IsBegunBy phrases.i_element element.now) }
    ensures no { IfErr result
        (λ e. Refuses e (IsIn in_body (see.raw_element element.now raws.none))
        (HasNoInstruction phrases.i_element element.now)) }
{
    only_attributes(element, &["name"])?;
    let name = required_element_name(element)?;
    Ok(Begun::Around(Head::Element(name)))
}

/// Reads the start of an instruction, which makes nothing where it is one of attributes.
fn begin_instruction<'b>(
    arena: &'b Bump,
    instruction: Instruction,
    element: &RawElem<'b>,
) -> Result<Begun<'b>, SheetFault>
    requires { phrases.instruction_of (see.name element.now.name)
        ≡ Some (instruction_seen instruction) }
    ensures ok { IfOk result (IsBegunBy (instruction_seen instruction) element.now) }
    ensures no { IfErr result
        (λ e. Refuses e (IsIn in_body (see.raw_element element.now raws.none))
        (HasNoInstruction (instruction_seen instruction) element.now)) }
{
    match instruction {
        Instruction::ApplyTemplates => apply_templates(arena, element),
        Instruction::CallTemplate => call_template(element),
        Instruction::ValueOf => value_of(arena, element),
        Instruction::ForEach => for_each(arena, element),
        Instruction::If => begin_if(arena, element),
        Instruction::Choose => begin_choose(element),
        Instruction::Text => text(arena, element),
        Instruction::Copy => begin_copy(element),
        Instruction::Element => begin_element(element),
        Instruction::Attribute => Ok(Begun::Whole(None)),
        Instruction::CopyOf => copy_of(arena, element),
    }
}

/// Reads the start of an element of a body (XSLT 1.0, 7.1.1).
fn begin<'b>(arena: &'b Bump, element: &RawElem<'b>) -> Result<Begun<'b>, SheetFault>
    ensures ok { IfOk result (IsBegun element.now) }
    ensures no { IfErr result
        (λ e. Refuses e (IsIn in_body (see.raw_element element.now raws.none))
        (HasNoElementItem element.now)) }
{
    if !is_xslt(&element.name) {
        check_literal_attributes(element)?;
        return Ok(Begun::Around(Head::Element(element.name)));
    }
    match instruction_of(&element.name) {
        Some(instruction) => begin_instruction(arena, instruction, element),
        None => Err(misplaced(element)),
    }
}

/// What an element of this head makes of this body.
fn instruction_with_body<'b>(
    arena: &'b Bump,
    head: Head<'b>,
    inner: &'b [Written<'b>],
) -> Result<Option<Written<'b>>, SheetFault>
    ensures ok { IfOk result (λ w. (rest : trees.WrittenBody) → put w rest
        ≡ around_seen head.entry (body_of inner.now) rest) }
    ensures no { IfErr result (λ e. e ≡ faults.NoMemory) }
{
    match head {
        Head::Element(name) => Ok(Some(Written::Elem(name, inner))),
        Head::Copy => Ok(Some(Written::Copy(inner))),
        Head::ForEach(path) => Ok(Some(Written::ForEach(path, inner))),
        Head::If(test) => {
            let branch: &'b WrittenBranch<'b> = arena.try_alloc(WrittenBranch {
                test,
                body: inner,
            })?;
            Ok(Some(Written::Choose(from_ref(branch), &[])))
        }
    }
}

/// Reads an `xsl:when` (XSLT 1.0, 9.2).
#[cycle(body)]
fn when<'b>(arena: &'b Bump, element: &RawElem<'b>) -> Result<WrittenBranch<'b>, SheetFault>
    requires { IsXsl (codes "when") (see.name element.now.name) }
    ensures { MatchResult result
        (λ b. IsTested (tag_of element.now) (see.raw_trees element.now.kids.now) (see.test b.test)
        (body_of b.body.now))
        (λ e. Refuses e (IsIn in_choose (see.raw_element element.now raws.none))
        (HasNoTested element.now)) }
{
    let test = test_of(arena, element)?;
    let body = body(arena, element.kids)?;
    Ok(WrittenBranch { test, body })
}

/// Reads an `xsl:otherwise`, behind which nothing stands (XSLT 1.0, 9.2).
#[cycle(body)]
fn otherwise<'b>(
    arena: &'b Bump,
    element: &RawElem<'b>,
    after: &[Raw<'b>],
) -> Result<&'b [Written<'b>], SheetFault>
    requires { IsXsl (codes "otherwise") (see.name element.now.name) }
    ensures { MatchResult result
        (λ b. phrases.AreBranches (see.raw_element element.now (see.raw_trees after.now))
        (trees.w_otherwise (body_of b.now)))
        (λ e. Refuses e (IsIn in_choose (see.raw_element element.now (see.raw_trees after.now)))
        (HasNoBranches (see.raw_element element.now (see.raw_trees after.now)))) }
{
    only_attributes(element, &[])?;
    let inner = body(arena, element.kids)?;
    check_blank(after)?;
    Ok(inner)
}

/// Whether an element of an `xsl:choose` is an `xsl:otherwise`, and not an `xsl:when`.
fn is_otherwise(element: &RawElem<'_>) -> Result<bool, SheetFault>
    ensures ok { IfOk result
        (λ b. MatchBool b (IsXsl (codes "otherwise") (see.name element.now.name))
        (IsXsl (codes "when") (see.name element.now.name))) }
    ensures no { IfErr result
        (λ e. Refuses e (IsIn in_choose (see.raw_element element.now raws.none))
        (λ c. (rest : raws.RawTrees) → HasNoBranches (see.raw_element element.now rest) c)) }
{
    if is_xsl(&element.name, "when") {
        Ok(false)
    } else if is_xsl(&element.name, "otherwise") {
        Ok(true)
    } else {
        Err(misplaced(element))
    }
}

/// Reads the `xsl:when` elements, of which none was found before, and the body of the `xsl:otherwise`, which is
/// empty where there is none.
#[cycle(body)]
fn read_branches<'b>(
    arena: &'b Bump,
    kids: &[Raw<'b>],
    found: &mut Vec<WrittenBranch<'b>, &'b Bump>,
) -> Result<&'b [Written<'b>], SheetFault>
    requires { found.old.items ≡ [] }
    ensures { MatchResult result
        (λ r. phrases.AreBranches (see.raw_trees kids.now)
        (branches_before found.new.items (trees.w_otherwise (body_of r.now))))
        (λ e. Refuses e (IsIn in_choose (see.raw_trees kids.now))
        (HasNoBranches (see.raw_trees kids.now))) }
{
    for at in 0..kids.len() {
        let kid = &kids[at];
        match kid {
            Raw::Text(text, place) => {
                if !is_white_space_only(text) {
                    return Err(SheetFault::Malformed(*place));
                }
            }
            Raw::Elem(element) => {
                let ends = is_otherwise(element)?;
                if ends {
                    return otherwise(arena, element, &kids[at + 1..]);
                }
                let branch = when(arena, element)?;
                found.push(branch)?;
            }
        }
    }
    Ok(&[])
}

/// What an `xsl:choose` of these branches and this last body makes, which has one branch at least (XSLT 1.0, 9.2).
fn chosen<'b>(
    element: &RawElem<'b>,
    branches: &'b [WrittenBranch<'b>],
    last: &'b [Written<'b>],
) -> Result<Option<Written<'b>>, SheetFault>
    requires { IsChoose element.now
        (branches_before branches.now (trees.w_otherwise (body_of last.now))) }
    ensures ok { IfOk result (λ w. IsElementItem element.now (put w)) }
    ensures no { IfErr result
        (λ e. Refuses e (IsIn in_body (see.raw_element element.now raws.none))
        (HasNoElementItem element.now)) }
{
    if branches.is_empty() {
        return Err(SheetFault::Malformed(element.place));
    }
    Ok(Some(Written::Choose(branches, last)))
}

/// Reads what an `xsl:choose` holds (XSLT 1.0, 9.2).
#[cycle(body)]
fn choose<'b>(arena: &'b Bump, element: &RawElem<'b>) -> Result<Option<Written<'b>>, SheetFault>
    requires choose { phrases.instruction_of (see.name element.now.name) ≡ Some phrases.i_choose }
    requires only { phrases.HasOnly [] (attributes_of element.now) }
    ensures { MatchResult result (λ w. IsElementItem element.now (put w))
        (λ e. Refuses e (IsIn in_body (see.raw_element element.now raws.none))
        (HasNoElementItem element.now)) }
{
    let mut found = Vec::new(arena);
    let last = read_branches(arena, element.kids, &mut found)?;
    chosen(element, into_bump_slice(found), last)
}

/// Reads an element of a body.
#[cycle(body)]
fn element_of_body<'b>(
    arena: &'b Bump,
    element: &RawElem<'b>,
) -> Result<Option<Written<'b>>, SheetFault>
    ensures { MatchResult result (λ w. IsElementItem element.now (put w))
        (λ e. Refuses e (IsIn in_body (see.raw_element element.now raws.none))
        (HasNoElementItem element.now)) }
{
    let begun = begin(arena, element)?;
    match begun {
        Begun::Whole(written) => Ok(written),
        Begun::Around(head) => {
            let inner = body(arena, element.kids)?;
            instruction_with_body(arena, head, inner)
        }
        Begun::Choose => choose(arena, element),
    }
}

/// Reads what stands in a body, which makes nothing where it is white space or of attributes.
#[cycle(body)]
fn item<'b>(arena: &'b Bump, kid: &Raw<'b>) -> Result<Option<Written<'b>>, SheetFault>
    ensures { MatchResult result (λ w. IsItem kid.now (put w))
        (λ e. Refuses e (IsIn in_body (see.raw_tree kid.now)) (HasNoItem kid.now)) }
{
    match kid {
        Raw::Text(text, _) => {
            if is_white_space_only(text) {
                Ok(None)
            } else {
                Ok(Some(Written::Text(text)))
            }
        }
        Raw::Elem(element) => element_of_body(arena, element),
    }
}

/// Puts what was read behind the others, unless it makes nothing.
fn put_read<'b>(
    found: &mut Vec<Written<'b>, &'b Bump>,
    read: Option<Written<'b>>,
) -> Result<(), SheetFault>
    ensures ok { OnOk result ((rest : trees.WrittenBody) → written_before found.new.items rest
        ≡ written_before found.old.items (put read.entry rest)) }
    ensures no { IfErr result (λ e. e ≡ faults.NoMemory) }
{
    match read {
        None => Ok(()),
        Some(written) => {
            found.push(written)?;
            Ok(())
        }
    }
}

/// Reads a body.
#[cycle(body)]
pub(crate) fn body<'b>(arena: &'b Bump, kids: &[Raw<'b>]) -> Result<&'b [Written<'b>], SheetFault>
    ensures { MatchResult result (λ b. phrases.IsBody (see.raw_trees kids.now) (body_of b.now))
        (λ e. Refuses e (IsIn in_body (see.raw_trees kids.now))
        (HasNoBody (see.raw_trees kids.now))) }
{
    let mut found = Vec::new(arena);
    for kid in kids {
        let read = item(arena, kid)?;
        put_read(&mut found, read)?;
    }
    Ok(into_bump_slice(found))
}

// The constructs for which a text is refused by a reason of their own.
ghost use Rattle.std.specs.Prelude.{◌≡◌, ◌<◌, ◌≤◌, ◌+◌, ◌||◌, List, [], ◌∷◌, codes, length};
ghost use Rattle.tc_path.specs.Reasons as reasons;
ghost use Rattle.tc_path.specs.Views.{mark, token, tokens_of};
ghost use Rattle.tc_scan.specs.Views.{written_name};

use crate::token::{Mark, Token, after_mark, begins_with};
use tc_base::Why;
use tc_scan::QualifiedName;

/// Where a token stands: in a select, in a value, in a pattern, or in a test, which the text is or which
/// stands in brackets.
#[derive(Clone, Copy)]
pub(crate) enum Context {
    Select,
    Value,
    Pattern,
    Test,
}

/// What stands before a token (XPath 1.0, 3.7).
#[derive(Clone, Copy)]
enum Before {
    /// Nothing, so that an expression may begin.
    Nothing,
    /// `/`, `//`, `@` or `::`, so that a step has to follow.
    Joint,
    /// An operand.
    Operand,
}

/// Whether a name is this word, without a prefix.
pub(crate) fn is_word(name: &QualifiedName<'_>, word: &str) -> bool
    ensures { result ≡ reasons.is_word (written_name name.now) word.now }
{
    name.prefix.is_empty() && name.local == word
}

/// Whether a name is one of these two words, without a prefix.
fn is_either(name: &QualifiedName<'_>, word: &str, other: &str) -> bool
    ensures { result
        ≡ (reasons.is_word (written_name name.now) word.now
        || reasons.is_word (written_name name.now) other.now) }
{
    is_word(name, word) || is_word(name, other)
}

/// Whether a name that follows an operand is an operator (XPath 1.0, 3.7).
fn is_operator(name: &QualifiedName<'_>) -> bool
    ensures { result ≡ reasons.is_operator (written_name name.now) }
{
    is_either(name, "and", "or") || is_either(name, "div", "mod")
}

/// What stands before the token that follows this one.
fn behind(before: Before, first: &Token<'_>) -> Before
    ensures { result ≡ reasons.behind before (token first.now) }
{
    match first {
        Token::Name(name) => match before {
            Before::Operand if is_operator(name) => Before::Nothing,
            _ => Before::Operand,
        },
        Token::AllOfPrefix(_) | Token::Number | Token::Literal | Token::Variable => Before::Operand,
        Token::Mark(mark) => behind_mark(before, *mark),
    }
}

/// What stands before the token that follows this mark.
fn behind_mark(before: Before, sign: Mark) -> Before
    ensures { result ≡ reasons.behind_mark before (mark sign) }
{
    match sign {
        Mark::Star => match before {
            Before::Operand => Before::Nothing,
            Before::Nothing | Before::Joint => Before::Operand,
        },
        Mark::Slash | Mark::Slashes | Mark::At | Mark::Colons => Before::Joint,
        Mark::CloseParenthesis | Mark::CloseBracket | Mark::Dot | Mark::Dots => Before::Operand,
        Mark::Bar | Mark::OpenParenthesis | Mark::OpenBracket | Mark::Comma => Before::Nothing,
        Mark::Comparison | Mark::Arithmetic => Before::Nothing,
    }
}

/// The reason of the attribute step whose name stands at the front.
fn attribute_reason(context: Context, tokens: &[Token<'_>]) -> Option<Why>
    ensures { result ≡ reasons.attribute_reason context (tokens_of tokens.now) }
{
    match context {
        Context::Test | Context::Value => Some(Why::AttributeStep),
        Context::Select | Context::Pattern => match tokens.split_first() {
            Some((Token::Name(_) | Token::AllOfPrefix(_) | Token::Mark(Mark::Star), rest)) => {
                bracket_reason(rest)
            }
            _ => None,
        },
    }
}

/// The reason of a bracket that must not stand at the front.
fn bracket_reason(tokens: &[Token<'_>]) -> Option<Why>
    ensures { result ≡ reasons.bracket_reason (tokens_of tokens.now) }
{
    match after_mark(tokens, Mark::OpenBracket) {
        Some(_) => Some(Why::Predicate),
        None => None,
    }
}

/// The reason of an axis of this name, before these tokens (XPath 1.0, 2.2).
fn axis_reason(context: Context, name: &QualifiedName<'_>, tokens: &[Token<'_>]) -> Option<Why>
    ensures { result ≡ reasons.axis_reason context (written_name name.now) (tokens_of tokens.now) }
{
    if is_word(name, "attribute") {
        return attribute_reason(context, tokens);
    }
    if is_word(name, "child") || !name.prefix.is_empty() {
        return None;
    }
    Some(Why::Axis)
}

/// The reason of a call of this name, whose parenthesis opens before these tokens (XPath 1.0, 3.2).
fn call_reason(context: Context, name: &QualifiedName<'_>, tokens: &[Token<'_>]) -> Option<Why>
    ensures { result ≡ reasons.call_reason context (written_name name.now) (tokens_of tokens.now) }
{
    if is_either(name, "comment", "processing-instruction") {
        return match after_mark(tokens, Mark::CloseParenthesis) {
            Some(rest) => bracket_reason(rest),
            None => None,
        };
    }
    if is_either(name, "text", "node") {
        return None;
    }
    match context {
        Context::Test if is_word(name, "not") || is_either(name, "true", "false") => None,
        _ => Some(Why::FunctionCall),
    }
}

/// The reason of a name before these tokens.
fn name_reason(
    context: Context,
    before: Before,
    name: &QualifiedName<'_>,
    tokens: &[Token<'_>],
) -> Option<Why>
    ensures { result
        ≡ reasons.name_reason context before (written_name name.now) (tokens_of tokens.now) }
{
    if let Before::Operand = before {
        return if is_either(name, "div", "mod") {
            Some(Why::Arithmetic)
        } else {
            None
        };
    }
    if let Some(rest) = after_mark(tokens, Mark::Colons) {
        return axis_reason(context, name, rest);
    }
    match after_mark(tokens, Mark::OpenParenthesis) {
        Some(rest) => call_reason(context, name, rest),
        None => None,
    }
}

/// The reason of a `.` before these tokens.
fn dot_reason(context: Context, before: Before, tokens: &[Token<'_>]) -> Option<Why>
    ensures { result ≡ reasons.dot_reason context before (tokens_of tokens.now) }
{
    match (context, before) {
        (Context::Select | Context::Test, Before::Nothing) if begins_with(tokens, Mark::Slashes) =>
            None,
        (Context::Value, Before::Nothing) if begins_with(tokens, Mark::Slashes) => None,
        (Context::Value, Before::Nothing) if begins_with(tokens, Mark::OpenBracket) => Some(
            Why::Predicate,
        ),
        _ => Some(Why::Dot),
    }
}

/// The reason of a mark before these tokens.
fn mark_reason(context: Context, before: Before, sign: Mark, tokens: &[Token<'_>]) -> Option<Why>
    ensures { result ≡ reasons.mark_reason context before (mark sign) (tokens_of tokens.now) }
{
    match sign {
        Mark::Star => match before {
            Before::Operand => Some(Why::Arithmetic),
            Before::Nothing | Before::Joint => None,
        },
        Mark::Dots => Some(Why::Axis),
        Mark::Dot => dot_reason(context, before, tokens),
        Mark::Slash | Mark::Slashes => match (before, context) {
            (Before::Nothing, Context::Select | Context::Value | Context::Test) => Some(
                Why::AbsolutePath,
            ),
            _ => None,
        },
        Mark::At => attribute_reason(context, tokens),
        Mark::Comparison => Some(Why::Comparison),
        Mark::Arithmetic => Some(Why::Arithmetic),
        _ => None,
    }
}

/// The reason of the construct that begins at the front, if it is a refused one.
fn reason_at(context: Context, before: Before, first: &Token<'_>, rest: &[Token<'_>]) -> Option<Why>
    ensures { result ≡ reasons.reason_at context before (token first.now) (tokens_of rest.now) }
{
    match first {
        Token::Name(name) => name_reason(context, before, name, rest),
        Token::Mark(mark) => mark_reason(context, before, *mark, rest),
        Token::Number => Some(Why::Arithmetic),
        Token::Variable => Some(Why::VariableReference),
        Token::Literal => Some(Why::StringLiteral),
        Token::AllOfPrefix(_) => None,
    }
}

/// How many brackets are open behind this token.
fn brackets_behind(brackets: usize, first: &Token<'_>) -> usize
    requires { brackets < usize.MAX }
    ensures same { result ≡ reasons.brackets_behind brackets (token first.now) }
    ensures few { result ≤ brackets + 1 }
{
    match first {
        Token::Mark(Mark::OpenBracket) => brackets + 1,
        Token::Mark(Mark::CloseBracket) => brackets.saturating_sub(1),
        _ => brackets,
    }
}

/// What holds within so many brackets.
fn within(context: Context, brackets: usize) -> Context
    ensures { result ≡ reasons.within context brackets }
{
    if brackets == 0 {
        context
    } else {
        Context::Test
    }
}

/// The reason of the first refused construct in the tokens of such a text.
pub(crate) fn first_reason(context: Context, tokens: &[Token<'_>]) -> Option<Why>
    ensures { result ≡ reasons.first_reason context (tokens_of tokens.now) }
{
    let mut before = Before::Nothing;
    let mut brackets = 0;
    for index in 0..tokens.len() {
        let first = &tokens[index];
        let inner = within(context, brackets);
        if let Some(why) = reason_at(inner, before, first, &tokens[index + 1..]) {
            return Some(why);
        }
        before = behind(before, first);
        brackets = brackets_behind(brackets, first);
    }
    None
}

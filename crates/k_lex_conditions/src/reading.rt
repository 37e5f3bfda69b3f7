//! Conditions read token by token (C17 6.5, 6.10.1).
ghost use Rattle.std.specs.Prelude.{◌≡◌, IfOk, map, Option};
ghost use Rattle.k_lex_conditions.specs.Values as worth;
ghost use Rattle.k_lex_conditions.specs.Trees as trees;
ghost use Rattle.k_lex_conditions.specs.Reading as spec;
ghost use Rattle.k_lex_conditions.specs.Conditions as conditions;
ghost use Rattle.k_lex_conditions.specs.Conditions.{IsDecided};

use crate::operations::{chosen, infixed, prefixed};
use crate::operators::{binary_rank, is_sign};
use crate::value::{Known, Open, Value};
use k_num::{Kind, NoMemory, Stack, Text};
use k_tree::{Mark, Token, TokenKind};
use std::alloc::Global;

/// What is open, and the operand that was read last.
type State = (Stack<Open<Value>>, Option<Value>);

/// A signed number.
fn signed(number: i128) -> Value
    ensures { result ≡ worth.signed number }
{
    Value {
        kind: Kind::I64,
        number: Some(number),
    }
}

/// The kind of a constant.
fn constant_kind(kind: Kind, number: u64) -> Kind
    ensures { result ≡ worth.constant_kind kind number }
{
    match kind {
        Kind::I8 | Kind::I16 | Kind::I32 | Kind::I64 if number < 0x8000_0000_0000_0000 => Kind::I64,
        _ => Kind::U64,
    }
}

/// The value of a name.
fn value_of_name(names: &[Known], name: &Text) -> Value
    ensures { result ≡ worth.value_of_name names.now name.now }
{
    for known in names {
        if known.name.as_str() == name.as_str() {
            return known.value;
        }
    }
    signed(0)
}

/// The value of an operand.
fn operand_value(names: &[Known], token: &TokenKind) -> Value
    ensures { result ≡ worth.operand_value names.now token.now }
{
    match token {
        TokenKind::Number(kind, number) => Value {
            kind: constant_kind(*kind, *number),
            number: Some(i128::from(*number)),
        },
        TokenKind::Char(value) => signed(i128::from(*value)),
        TokenKind::Name(name) => value_of_name(names, name),
        _ => signed(0),
    }
}

/// Whether a name is no `defined` that a macro gave.
fn is_other_name(name: &Text) -> bool
    ensures { result ≡ trees.is_operand (TokenKind.Name name.now) }
{
    name.as_str() != "defined"
}

/// Whether a token is an operand.
fn is_operand(token: &TokenKind) -> bool
    ensures { result ≡ trees.is_operand token.now }
{
    match token {
        TokenKind::Number(_, _) | TokenKind::Char(_) | TokenKind::Word(_) => true,
        TokenKind::Name(name) => is_other_name(name),
        _ => false,
    }
}

/// What an open construct makes of its last operand, where that ends before an operator of this rank.
fn closed(least: u8, around: Open<Value>, value: Value) -> Option<Value>
    ensures { result ≡ spec.closed spec.values least around value }
{
    match around {
        Open::Infix { op, rank, left } if least <= rank => Some(infixed(op, left, value)),
        Open::Prefix { op } => Some(prefixed(op, value)),
        Open::Other {
            test,
            chosen: first,
        } if least <= 2 => Some(chosen(test, first, value)),
        _ => None,
    }
}

/// What is open, and the operand, before an operator of this rank.
fn reduced(
    least: u8,
    opens: Stack<Open<Value>>,
    operand: Value,
) -> Result<(Stack<Open<Value>>, Value), NoMemory>
    ensures { IfOk result (λ r. r ≡ spec.reduced spec.values least opens operand) }
{
    let mut opens = opens;
    let mut value = operand;
    while let Some(around) = opens.pop() {
        match closed(least, around, value) {
            Some(made) => value = made,
            None => {
                opens.push(around)?;
                return Ok((opens, value));
            }
        }
    }
    Ok((opens, value))
}

/// An operand is awaited in this construct.
fn awaits(opens: Stack<Open<Value>>, around: Open<Value>) -> Result<Option<State>, NoMemory>
    ensures { IfOk result (λ state. state ≡ spec.awaits opens around) }
{
    let mut opens = opens;
    opens.push(around)?;
    Ok(Some((opens, None)))
}

/// A mark before an operand.
fn mark_before(opens: Stack<Open<Value>>, op: Mark) -> Result<Option<State>, NoMemory>
    ensures { IfOk result (λ state. state ≡ spec.mark_before opens op) }
{
    if let Mark::LeftParen = op {
        return awaits(opens, Open::Paren);
    }
    if is_sign(op) {
        return awaits(opens, Open::Prefix { op });
    }
    Ok(None)
}

/// A token before an operand, or the operand.
fn before(
    names: &[Known],
    opens: Stack<Open<Value>>,
    token: &TokenKind,
) -> Result<Option<State>, NoMemory>
    ensures { IfOk result (λ state. state ≡ spec.before (worth.operand_value names.now) opens token.now) }
{
    if let TokenKind::Mark(op) = token {
        return mark_before(opens, *op);
    }
    if is_operand(token) {
        return Ok(Some((opens, Some(operand_value(names, token)))));
    }
    Ok(None)
}

/// `:` behind the second operand of a conditional expression.
fn colon(opens: Stack<Open<Value>>, value: Value) -> Result<Option<State>, NoMemory>
    ensures { IfOk result (λ state. state ≡ spec.colon (opens, value)) }
{
    let mut opens = opens;
    match opens.pop() {
        Some(Open::Test { test }) => awaits(
            opens,
            Open::Other {
                test,
                chosen: value,
            },
        ),
        _ => Ok(None),
    }
}

/// `)` behind what stands in parentheses.
fn right_paren(opens: Stack<Open<Value>>, value: Value) -> Option<State>
    ensures { result ≡ spec.right_paren spec.values (opens, value) }
{
    let mut opens = opens;
    match opens.pop() {
        Some(Open::Paren) => Some((opens, Some(value))),
        _ => None,
    }
}

/// A mark behind an operand that is no binary operator.
fn other_mark(opens: Stack<Open<Value>>, value: Value, op: Mark) -> Result<Option<State>, NoMemory>
    ensures { IfOk result (λ state. state ≡ spec.other_mark spec.values opens value op) }
{
    match op {
        Mark::Question => {
            let (opens, test) = reduced(3, opens, value)?;
            awaits(opens, Open::Test { test })
        }
        Mark::Colon => {
            let (opens, value) = reduced(0, opens, value)?;
            colon(opens, value)
        }
        Mark::RightParen => {
            let (opens, value) = reduced(0, opens, value)?;
            Ok(right_paren(opens, value))
        }
        _ => Ok(None),
    }
}

/// A token behind an operand.
fn behind(
    opens: Stack<Open<Value>>,
    value: Value,
    token: &TokenKind,
) -> Result<Option<State>, NoMemory>
    ensures { IfOk result (λ state. state ≡ spec.behind spec.values opens value token.now) }
{
    let TokenKind::Mark(op) = token else {
        return Ok(None);
    };
    let op = *op;
    let Some(rank) = binary_rank(op) else {
        return other_mark(opens, value, op);
    };
    let (opens, left) = reduced(rank, opens, value)?;
    awaits(opens, Open::Infix { op, rank, left })
}

/// The next token.
fn step(names: &[Known], state: State, token: &TokenKind) -> Result<Option<State>, NoMemory>
    ensures { IfOk result (λ next. next ≡ spec.step spec.values (worth.operand_value names.now) state token.now) }
{
    let (opens, value) = state;
    match value {
        Some(value) => behind(opens, value, token),
        None => before(names, opens, token),
    }
}

/// The end of the tokens.
fn finish(state: State) -> Result<Option<Value>, NoMemory>
    ensures { IfOk result (λ value. value ≡ spec.finish spec.values state) }
{
    let (opens, value) = state;
    let Some(value) = value else {
        return Ok(None);
    };
    let (opens, value) = reduced(0, opens, value)?;
    if opens.len() == 0 {
        return Ok(Some(value));
    }
    Ok(None)
}

/// The value of the condition that these tokens spell.
fn value_of(alloc: Global, names: &[Known], tokens: &[Token]) -> Result<Option<Value>, NoMemory>
    ensures { IfOk result (λ value. value ≡ spec.value_of names.now (map (λ t. t.what) tokens.now)) }
{
    let mut state = (Stack::new(alloc), None);
    let mut rest = tokens;
    while let Some((token, later)) = rest.split_first() {
        match step(names, state, &token.what)? {
            Some(next) => state = next,
            None => return Ok(None),
        }
        rest = later;
    }
    finish(state)
}

/// Whether a number holds, if there is one.
fn holding(number: Option<i128>) -> Option<bool>
    ensures { result ≡ conditions.holding number }
{
    match number {
        Some(z) => Some(z != 0),
        None => None,
    }
}

/// Whether the condition holds that has this value.
fn answer(value: Option<Value>) -> Option<bool>
    ensures { result ≡ spec.answer value }
{
    match value {
        Some(value) => holding(value.number),
        None => None,
    }
}

/// Whether the condition that these tokens spell holds, where these names are known. Macros were replaced in them, and each `defined` with its name
/// before. The kind of a constant tells whether it's unsigned: a hexadecimal constant without suffix that is `unsigned` in a program is none here.
/// `None` where the tokens are no condition, or it has no value.
pub fn condition(alloc: Global, names: &[Known], tokens: &[Token]) -> Result<Option<bool>, NoMemory>
    ensures { IfOk result (λ found. IsDecided names.now (map (λ t. t.what) tokens.now) found) }
{
    Ok(answer(value_of(alloc, names, tokens)?))
}

//! The tree of an expression's text, read from the left.

ghost use Rattle.std.specs.Prelude.{◌≡◌, ◌<◌, length, ◌≤◌, ◌-◌, IfOk, IfSome, suc, [], Some, Ok};
ghost use Rattle.expr_eval.specs.declared.tree.Expr.TheVariants.{Binary, Prop, Text};
ghost use Rattle.expr_eval.specs.Grammar.{IsExpr, operand, joins, compares, Chained, Negation, Comparison, Signed, Item};
ghost use Rattle.expr_eval.specs.Answer.{Answers, Answered, IsAnswer, IsTree, place};
ghost use Rattle.expr_eval.specs.Tokens.{kinds};
ghost use Rattle.expr_eval.specs.declared.tree.Expr.{Expr};
ghost use Rattle.expr_eval.specs.Reading.{whole_at, Gives, GivesSign, Whole, sort_at, deeper, sign_at, others_at, closed_at, group_at, parens_at, call_at, compared_at, sum_at};

use crate::fault::{ExprFault, Fault};
use crate::lexer::tokens;
use crate::token::{Chain, Kind, Token};
use crate::tree::{Expr, Func, Op};
use ft_base::{Boxed, Bytes};
use std::alloc::Global;

/// The most levels that an expression may open within one another.
const MAX_LEVELS: u32 = 32;

/// The tree that a text spells, or its first fault. Any text may want memory.
pub fn parse_expr(alloc: Global, text: &[u8]) -> Result<Expr, ExprFault>
    ensures exact { IsAnswer text.now result }
    ensures only { (a : Expr) → IsTree text.now a → Answered a result }
{
    let found = tokens(alloc, text)?;
    parse_tokens(alloc, MAX_LEVELS, found.as_slice(), text.len())
}

fn joins(chain: Chain, op: Op) -> bool
    ensures { result ≡ joins chain op }
{
    match chain {
        Chain::Ors => matches!(op, Op::Or),
        Chain::Ands => matches!(op, Op::And),
        Chain::Sums => matches!(op, Op::Plus | Op::Minus),
        Chain::Products => matches!(op, Op::Times),
    }
}

fn compares(op: Op) -> bool
    ensures { result ≡ compares op }
{
    matches!(
        op,
        Op::Equal | Op::Differ | Op::AtMost | Op::AtLeast | Op::Below | Op::Above
    )
}

/// The chain's sign at the head, and the tokens behind it.
#[tactic(auto, unfolding(crate::specs::Reading::sign_at))]
fn sign_of(chain: Chain, tokens: &[Token]) -> Option<(Op, &[Token])>
    ensures sign { GivesSign (λ x. (x.0, kinds x.1.now)) result (sign_at (joins chain) (kinds tokens.now)) }
    ensures shorter { IfSome result (λ x. length x.1.now < length tokens.now) }
{
    let [first, rest @ ..] = tokens else {
        return None;
    };
    match first.kind {
        Kind::Sign(op) => {
            if joins(chain, op) {
                Some((op, rest))
            } else {
                None
            }
        }
        _ => None,
    }
}

#[tactic(auto, unfolding(crate::specs::Reading::sign_at))]
fn comparison_sign(tokens: &[Token]) -> Option<(Op, &[Token])>
    ensures sign { GivesSign (λ x. (x.0, kinds x.1.now)) result (sign_at compares (kinds tokens.now)) }
    ensures shorter { IfSome result (λ x. length x.1.now < length tokens.now) }
{
    let [first, rest @ ..] = tokens else {
        return None;
    };
    match first.kind {
        Kind::Sign(op) => { if compares(op) { Some((op, rest)) } else { None } }
        _ => None,
    }
}

#[tactic(auto, unfolding(crate::specs::Reading::closed_at))]
fn closed_of<'a>(tree: Expr, tokens: &'a [Token]) -> Result<(Expr, &'a [Token]), Fault<'a>>
    ensures read { Gives (λ x. (x.0, kinds x.1.now)) result (closed_at tree (kinds tokens.now)) }
    ensures shorter { IfOk result (λ x. length x.1.now < length tokens.now) }
{
    match tokens {
        [
            Token {
                kind: Kind::Close,
                ..
            },
            rest @ ..,
        ] => Ok((tree, rest)),
        _ => Err(Fault::Syntax(tokens)),
    }
}

#[cycle(parser)]
#[tactic(auto, unfolding(crate::specs::Reading::group_at))]
fn group_of<'a>(
    alloc: Global,
    levels: u32,
    tokens: &'a [Token],
) -> Result<(Expr, &'a [Token]), Fault<'a>>
    ensures read { Gives (λ x. (x.0, kinds x.1.now)) result (group_at (λ s. sort_at (deeper levels) s) (kinds tokens.now)) }
    ensures shorter { IfOk result (λ x. length x.1.now < length tokens.now) }
{
    match tokens {
        [
            Token {
                kind: Kind::Open,
                ..
            },
            rest @ ..,
        ] => {
            let (tree, rest) = chain_of(alloc, levels, Chain::Ors, rest)?;
            closed_of(tree, rest)
        }
        _ => Err(Fault::Syntax(tokens)),
    }
}

#[cycle(parser)]
fn parens_of<'a>(
    alloc: Global,
    levels: u32,
    whole: &'a [Token],
    tokens: &'a [Token],
) -> Result<(Expr, &'a [Token]), Fault<'a>>
    ensures read { Gives (λ x. (x.0, kinds x.1.now)) result (parens_at (deeper levels) (kinds whole.now) (kinds tokens.now)) }
    ensures shorter { IfOk result (λ x. length x.1.now < length tokens.now) }
{
    if levels == 0 {
        return Err(Fault::TooDeep(whole));
    }
    group_of(alloc, levels - 1, tokens)
}

fn text_of<'a>(
    alloc: Global,
    text: &Bytes,
    rest: &'a [Token],
) -> Result<(Expr, &'a [Token]), Fault<'a>>
    ensures read { Gives (λ x. (x.0, kinds x.1.now)) result (Ok (Text text.now, kinds rest.now)) }
    ensures rest { IfOk result (λ x. x.1.now ≡ rest.now) }
{
    Ok((Expr::Text(Bytes::from_slice(alloc, text.as_slice())?), rest))
}

fn property_of<'a>(
    alloc: Global,
    name: &Bytes,
    rest: &'a [Token],
) -> Result<(Expr, &'a [Token]), Fault<'a>>
    ensures read { Gives (λ x. (x.0, kinds x.1.now)) result (Ok (Prop name.now, kinds rest.now)) }
    ensures rest { IfOk result (λ x. x.1.now ≡ rest.now) }
{
    Ok((Expr::Prop(Bytes::from_slice(alloc, name.as_slice())?), rest))
}

/// Two operands under their operator, and the tokens behind them.
fn binary<'a>(
    alloc: Global,
    op: Op,
    left: Expr,
    right: Expr,
    rest: &'a [Token],
) -> Result<(Expr, &'a [Token]), Fault<'a>>
    ensures read { Gives (λ x. (x.0, kinds x.1.now)) result (Ok (Binary op left right, kinds rest.now)) }
    ensures rest { IfOk result (λ x. x.1.now ≡ rest.now) }
{
    let left = Boxed::new(alloc, left)?;
    let right = Boxed::new(alloc, right)?;
    Ok((Expr::Binary { op, left, right }, rest))
}

/// A function's argument, behind its name.
#[cycle(parser)]
fn call_of<'a>(
    alloc: Global,
    levels: u32,
    func: Func,
    whole: &'a [Token],
    tokens: &'a [Token],
) -> Result<(Expr, &'a [Token]), Fault<'a>>
    ensures read { Gives (λ x. (x.0, kinds x.1.now)) result
        (call_at (deeper levels) func (kinds whole.now) (kinds tokens.now)) }
    ensures shorter { IfOk result (λ x. length x.1.now < length tokens.now) }
{
    let (tree, rest) = parens_of(alloc, levels, whole, tokens)?;
    let arg = Boxed::new(alloc, tree)?;
    Ok((Expr::Call { func, arg }, rest))
}

#[cycle(parser)]
#[tactic(auto, unfolding(crate::specs::Reading::item_at))]
fn item_of<'a>(
    alloc: Global,
    levels: u32,
    tokens: &'a [Token],
) -> Result<(Expr, &'a [Token]), Fault<'a>>
    ensures read { Gives (λ x. (x.0, kinds x.1.now)) result (sort_at (deeper levels) Item (kinds tokens.now)) }
    ensures shorter { IfOk result (λ x. length x.1.now < length tokens.now) }
{
    let [first, rest @ ..] = tokens else {
        return Err(Fault::Syntax(tokens));
    };
    match &first.kind {
        Kind::Number(number) => Ok((Expr::Num(*number), rest)),
        Kind::Text(text) => text_of(alloc, text, rest),
        Kind::Property(name) => property_of(alloc, name, rest),
        Kind::Name(func) => call_of(alloc, levels, *func, tokens, rest),
        Kind::Open => parens_of(alloc, levels, tokens, tokens),
        Kind::Close | Kind::Bang | Kind::Sign(_) | Kind::Bad => Err(Fault::Syntax(tokens)),
    }
}

#[cycle(parser)]
#[tactic(auto, unfolding(crate::specs::Reading::signed_at))]
fn signed_of<'a>(
    alloc: Global,
    levels: u32,
    tokens: &'a [Token],
) -> Result<(Expr, &'a [Token]), Fault<'a>>
    ensures read { Gives (λ x. (x.0, kinds x.1.now)) result (sort_at (deeper levels) Signed (kinds tokens.now)) }
    ensures shorter { IfOk result (λ x. length x.1.now < length tokens.now) }
{
    match tokens {
        [
            Token {
                kind: Kind::Sign(Op::Minus),
                ..
            },
            rest @ ..,
        ] => {
            if levels == 0 {
                return Err(Fault::TooDeep(tokens));
            }
            let (tree, rest) = signed_of(alloc, levels - 1, rest)?;
            Ok((Expr::Neg(Boxed::new(alloc, tree)?), rest))
        }
        _ => item_of(alloc, levels, tokens),
    }
}

#[cycle(parser)]
fn operand_of<'a>(
    alloc: Global,
    levels: u32,
    chain: Chain,
    tokens: &'a [Token],
) -> Result<(Expr, &'a [Token]), Fault<'a>>
    ensures read { Gives (λ x. (x.0, kinds x.1.now)) result (sort_at (deeper levels) (operand chain) (kinds tokens.now)) }
    ensures shorter { IfOk result (λ x. length x.1.now < length tokens.now) }
{
    match chain {
        Chain::Ors => chain_of(alloc, levels, Chain::Ands, tokens),
        Chain::Ands => negation_of(alloc, levels, tokens),
        Chain::Sums => chain_of(alloc, levels, Chain::Products, tokens),
        Chain::Products => signed_of(alloc, levels, tokens),
    }
}

/// The left side joined with the operand behind the sign.
#[cycle(parser)]
fn joined_of<'a>(
    alloc: Global,
    levels: u32,
    chain: Chain,
    op: Op,
    left: Expr,
    tokens: &'a [Token],
) -> Result<(Expr, &'a [Token]), Fault<'a>>
    ensures read { Gives (λ x. (x.0, kinds x.1.now)) result
        (compared_at (sort_at (deeper levels) (operand chain)) left [] (Some (op, kinds tokens.now))) }
    ensures shorter { IfOk result (λ x. length x.1.now < length tokens.now) }
{
    let (right, rest) = operand_of(alloc, levels, chain, tokens)?;
    binary(alloc, op, left, right, rest)
}

#[cycle(parser)]
fn others_of<'a>(
    alloc: Global,
    levels: u32,
    chain: Chain,
    first: Expr,
    tokens: &'a [Token],
) -> Result<(Expr, &'a [Token]), Fault<'a>>
    ensures read { Gives (λ x. (x.0, kinds x.1.now)) result (others_at (sort_at (deeper levels) (operand chain)) chain first (kinds tokens.now)) }
    ensures shorter { IfOk result (λ x. length x.1.now < suc (length tokens.now)) }
{
    let mut tree = first;
    let mut rest = tokens;
    'joining: while let Some((op, after)) = sign_of(chain, rest) {
        match joined_of(alloc, levels, chain, op, tree, after) {
            Ok((joined, behind)) => {
                tree = joined;
                rest = behind;
            }
            Err(fault) => return Err(fault),
        }
    }
    Ok((tree, rest))
}

#[cycle(parser)]
#[tactic(auto, unfolding(crate::specs::Reading::chain_at))]
fn chain_of<'a>(
    alloc: Global,
    levels: u32,
    chain: Chain,
    tokens: &'a [Token],
) -> Result<(Expr, &'a [Token]), Fault<'a>>
    ensures read { Gives (λ x. (x.0, kinds x.1.now)) result (sort_at (deeper levels) (Chained chain) (kinds tokens.now)) }
    ensures shorter { IfOk result (λ x. length x.1.now < length tokens.now) }
{
    let (first, rest) = operand_of(alloc, levels, chain, tokens)?;
    others_of(alloc, levels, chain, first, rest)
}

#[cycle(parser)]
#[tactic(auto, unfolding(crate::specs::Reading::comparison_at))]
fn comparison_of<'a>(
    alloc: Global,
    levels: u32,
    tokens: &'a [Token],
) -> Result<(Expr, &'a [Token]), Fault<'a>>
    ensures read { Gives (λ x. (x.0, kinds x.1.now)) result (sort_at (deeper levels) Comparison (kinds tokens.now)) }
    ensures shorter { IfOk result (λ x. length x.1.now < length tokens.now) }
{
    let (left, rest) = chain_of(alloc, levels, Chain::Sums, tokens)?;
    let Some((op, rest)) = comparison_sign(rest) else {
        return Ok((left, rest));
    };
    compared_of(alloc, levels, op, left, rest)
}

/// What is compared with the left side, behind the sign.
#[cycle(parser)]
fn compared_of<'a>(
    alloc: Global,
    levels: u32,
    op: Op,
    left: Expr,
    tokens: &'a [Token],
) -> Result<(Expr, &'a [Token]), Fault<'a>>
    ensures read { Gives (λ x. (x.0, kinds x.1.now)) result
        (compared_at (sum_at (deeper levels)) left [] (Some (op, kinds tokens.now))) }
    ensures shorter { IfOk result (λ x. length x.1.now < length tokens.now) }
{
    let (right, rest) = chain_of(alloc, levels, Chain::Sums, tokens)?;
    binary(alloc, op, left, right, rest)
}

#[cycle(parser)]
#[tactic(auto, unfolding(crate::specs::Reading::negation_at))]
fn negation_of<'a>(
    alloc: Global,
    levels: u32,
    tokens: &'a [Token],
) -> Result<(Expr, &'a [Token]), Fault<'a>>
    ensures read { Gives (λ x. (x.0, kinds x.1.now)) result (sort_at (deeper levels) Negation (kinds tokens.now)) }
    ensures shorter { IfOk result (λ x. length x.1.now < length tokens.now) }
{
    match tokens {
        [
            Token {
                kind: Kind::Bang,
                ..
            },
            rest @ ..,
        ] => {
            if levels == 0 {
                return Err(Fault::TooDeep(tokens));
            }
            let (tree, rest) = negation_of(alloc, levels - 1, rest)?;
            Ok((Expr::Not(Boxed::new(alloc, tree)?), rest))
        }
        _ => comparison_of(alloc, levels, tokens),
    }
}

#[tactic(auto, unfolding(crate::specs::Reading::whole_at))]
fn whole_of<'a>(alloc: Global, levels: u32, tokens: &'a [Token]) -> Result<Expr, Fault<'a>>
    ensures { Whole result (whole_at levels (kinds tokens.now)) }
{
    let (tree, rest) = chain_of(alloc, levels, Chain::Ors, tokens)?;
    match rest {
        [] => Ok(tree),
        _ => Err(Fault::Syntax(rest)),
    }
}

/// Where the token behind the first few begins.
fn place_of(tokens: &[Token], index: usize, end: usize) -> usize
    requires { index ≤ length tokens.now }
    ensures { result ≡ place tokens.now index end }
{
    match tokens.get(index) {
        Some(token) => token.at,
        None => end,
    }
}

/// The expression that the tokens of a text of `end` bytes spell, or the first fault.
fn parse_tokens(alloc: Global, levels: u32, tokens: &[Token], end: usize) -> Result<Expr, ExprFault>
    ensures exact { Answers levels tokens.now end result }
    ensures only { (a : Expr) → IsExpr levels (kinds tokens.now) a → Answered a result }
{
    match whole_of(alloc, levels, tokens) {
        Ok(tree) => Ok(tree),
        Err(Fault::Syntax(rest)) => Err(ExprFault::Syntax {
            at: place_of(tokens, tokens.len() - rest.len(), end),
        }),
        Err(Fault::TooDeep(rest)) => Err(ExprFault::TooDeep {
            at: place_of(tokens, tokens.len() - rest.len(), end),
        }),
        Err(Fault::NoMemory) => Err(ExprFault::NoMemory),
    }
}

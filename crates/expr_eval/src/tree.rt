//! The tree of an expression.
use ft_base::{Boxed, Bytes};

/// A function of one value.
#[derive(Clone, Copy)]
pub enum Func {
    Lower,
    Upper,
    Strlen,
    Abs,
    Exists,
}

/// What stands between two operands.
#[derive(Clone, Copy)]
pub enum Op {
    Or,
    And,
    Equal,
    Differ,
    AtMost,
    AtLeast,
    Below,
    Above,
    Plus,
    Minus,
    Times,
}

/// An expression.
pub enum Expr {
    Num(i64),
    Text(Bytes),
    /// The value of a row under this name.
    Prop(Bytes),
    Call {
        func: Func,
        arg: Boxed<Expr>,
    },
    Not(Boxed<Expr>),
    Neg(Boxed<Expr>),
    Binary {
        op: Op,
        left: Boxed<Expr>,
        right: Boxed<Expr>,
    },
}

// Written out, it is one step for whoever drops an expression, where a derived one has an arm for each form. A chain is
// as deep on its left as it is long, so the left is gone down in a loop: calls nest for right sides and arguments alone,
// whose depth the levels bound.
impl Drop for Expr {
    fn drop(mut self) {
        'down: loop {
            match self {
                Expr::Num(_) => return,
                Expr::Text(text) => return drop(text),
                Expr::Prop(name) => return drop(name),
                Expr::Call { func: _, arg } => return drop(arg),
                Expr::Not(arg) => return drop(arg),
                Expr::Neg(arg) => return drop(arg),
                Expr::Binary { op: _, left, right } => {
                    drop(right);
                    self = left.into_inner();
                }
            }
        }
    }
}

// The operations with two parts.
ghost use Rattle.std.specs.Prelude.{◌≡◌, Some};
ghost use Rattle.std.specs.Result.{result_ok};
ghost use Rattle.values.specs.Ops.{part_kind, gives, apply, op_name, op_of_name};
ghost use Rattle.values.specs.Values.{meaning, kind_of};

use crate::kind::Kind;
use crate::value::Value;
use std::fmt;
use std::str::FromStr;

#[derive(Clone, Copy, PartialEq, Eq, Debug)]
pub enum Op {
    Add,
    Sub,
    Mul,
    Div,
    Less,
    Same,
    And,
    Or,
}

impl Op {
    // The kind of both parts; `None` where either will do, if the two are of one kind.
    pub fn part_kind(self) -> Option<Kind>
        ensures { result ≡ part_kind self }
    {
        match self {
            Op::Add | Op::Sub | Op::Mul | Op::Div | Op::Less => Some(Kind::Integer),
            Op::Same => None,
            Op::And | Op::Or => Some(Kind::Boolean),
        }
    }

    // The kind of the result.
    pub fn gives(self) -> Kind
        ensures { result ≡ gives self }
    {
        match self {
            Op::Add | Op::Sub | Op::Mul | Op::Div => Kind::Integer,
            Op::Less | Op::Same | Op::And | Op::Or => Kind::Boolean,
        }
    }

    // The result; a part of a kind that does not fit counts as unknown.
    pub fn apply(self, a: Value, b: Value) -> Value
        ensures exact { meaning result ≡ apply self (meaning a) (meaning b) }
        ensures kind { kind_of (meaning result) ≡ gives self }
    {
        match self {
            Op::Add => Value::Integer(a.integer().add(b.integer())),
            Op::Sub => Value::Integer(a.integer().sub(b.integer())),
            Op::Mul => Value::Integer(a.integer().mul(b.integer())),
            Op::Div => Value::Integer(a.integer().div(b.integer())),
            Op::Less => Value::Boolean(a.integer().less(b.integer())),
            Op::Same => Value::Boolean(a.same(b)),
            Op::And => Value::Boolean(a.boolean().and(b.boolean())),
            Op::Or => Value::Boolean(a.boolean().or(b.boolean())),
        }
    }

    pub fn name(self) -> &'static str
        ensures { result.now ≡ op_name self }
    {
        match self {
            Op::Add => "ADD",
            Op::Sub => "SUB",
            Op::Mul => "MUL",
            Op::Div => "DIV",
            Op::Less => "LESS",
            Op::Same => "SAME",
            Op::And => "AND",
            Op::Or => "OR",
        }
    }
}

// A text that names no operation.
#[derive(Clone, Copy, PartialEq, Eq, Debug)]
pub struct NoOp;

impl FromStr for Op {
    type Err = NoOp;

    ghost from_str_gives = { λ bs r. result_ok r ≡ op_of_name bs };

    fn from_str(text: &str) -> Result<Op, NoOp> {
        match text {
            "ADD" => Ok(Op::Add),
            "SUB" => Ok(Op::Sub),
            "MUL" => Ok(Op::Mul),
            "DIV" => Ok(Op::Div),
            "LESS" => Ok(Op::Less),
            "SAME" => Ok(Op::Same),
            "AND" => Ok(Op::And),
            "OR" => Ok(Op::Or),
            _ => Err(NoOp),
        }
    }
}

impl fmt::Display for Op {
    ghost output = { λ op. Some (op_name op) };

    fn fmt<W: fmt::Write>(&self, f: &mut fmt::Formatter<W>) -> fmt::Result {
        f.write_str(self.name())
    }
}

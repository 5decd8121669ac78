ghost use Rattle.std.specs.Prelude.{◌≡◌};
ghost use Rattle.al_func.specs.Func as spec;

/// A function of the language.
#[derive(Clone, Copy, Debug, PartialEq, Eq)]
pub enum Func {
    Eq,
    Lt,
    Le,
    And,
    Or,
    Not,
    Add,
    Sub,
    Mul,
    Div,
    Mod,
    Neg,
    Concat,
    Length,
    Substr,
    LowerAscii,
    If,
    IsNull,
    Coalesce,
}

/// How many arguments a function takes.
pub fn arity(f: Func) -> u32
    ensures { result ≡ spec.arity f }
{
    match f {
        Func::Not | Func::Neg | Func::Length | Func::LowerAscii | Func::IsNull => 1,
        Func::Substr | Func::If => 3,
        Func::Eq
        | Func::Lt
        | Func::Le
        | Func::And
        | Func::Or
        | Func::Add
        | Func::Sub
        | Func::Mul
        | Func::Div
        | Func::Mod
        | Func::Concat
        | Func::Coalesce => 2,
    }
}

//! Operators on two words.

ghost use Rattle.std.specs.Prelude.{◌≡◌};
ghost use Rattle.bsp_kernels.specs.Operators.{applied};

/// An operator on two words, modulo 2^64. A comparison gives 1 where it holds, else 0.
#[derive(Clone, Copy)]
pub enum Operator {
    Sub,
    Mul,
    /// There is no quotient by 0.
    Div,
    /// There is no rest by 0.
    Rem,
    And,
    Or,
    Xor,
    /// A shift by 64 or more leaves 0.
    Shl,
    Shr,
    Eq,
    Ne,
    Lt,
    Le,
}

impl Operator {
    /// What it makes of two words.
    #[inline(always)]
    pub(crate) fn apply(self, a: u64, b: u64) -> Option<u64>
        ensures { result ≡ applied self a b }
    {
        match self {
            Operator::Sub => Some(a.wrapping_sub(b)),
            Operator::Mul => Some(a.wrapping_mul(b)),
            Operator::Div => { if b == 0 { None } else { Some(a / b) } }
            Operator::Rem => { if b == 0 { None } else { Some(a % b) } }
            Operator::And => Some(a & b),
            Operator::Or => Some(a | b),
            Operator::Xor => Some(a ^ b),
            Operator::Shl => Some(if b < 64 { a << b } else { 0 }),
            Operator::Shr => Some(if b < 64 { a >> b } else { 0 }),
            Operator::Eq => Some((a == b) as u64),
            Operator::Ne => Some((a != b) as u64),
            Operator::Lt => Some((a < b) as u64),
            Operator::Le => Some((a <= b) as u64),
        }
    }
}

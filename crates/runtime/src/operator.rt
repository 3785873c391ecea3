// The five operators, and when a value is false.
ghost use Rattle.std.specs.Prelude.{◌≡◌};
ghost use Rattle.runtime.specs.Operators.{applied, zero_z};

#[derive(Clone, Copy)]
pub enum Operator {
    Add,
    Sub,
    Equal,
    Less,
    Greater,
}

// Anything but 0 is true.
pub fn is_zero(value: i32) -> bool
    ensures { result ≡ zero_z value }
{
    value == 0
}

impl Operator {
    // Sums and differences wrap at 32 bits; a comparison gives 1 or 0.
    pub fn apply(self, left: i32, right: i32) -> i32
        ensures { result ≡ applied self left right }
    {
        match self {
            Operator::Add => left.wrapping_add(right),
            Operator::Sub => left.wrapping_sub(right),
            Operator::Equal => i32::from(left == right),
            Operator::Less => i32::from(left < right),
            Operator::Greater => i32::from(left > right),
        }
    }
}

// A word of S-code: the opcode in the low 8 bits, above it a signed argument of 24 bits.
ghost use Rattle.std.specs.Prelude.{◌≡◌, IfSome, Some};
ghost use Rattle.scode.specs.Words.{fields, joined};

#[derive(Clone, Copy)]
pub struct Fields {
    // any byte, also one that is no opcode
    pub opcode: u8,
    pub argument: i32,
}

pub const LEAST_ARGUMENT: i32 = -0x80_0000;

pub const MOST_ARGUMENT: i32 = 0x7f_ffff;

// Not `From` and `TryFrom`: two facts with names of their own read better than the one member of a trait.
pub fn split(word: u32) -> Fields
    ensures answer { result ≡ fields word }
    ensures again { joined result ≡ Some word }
{
    Fields {
        // `as` loses nothing behind the mask
        opcode: (word & 0xff) as u8,
        // the shift of a signed number brings the sign along
        argument: word.cast_signed() >> 8,
    }
}

// No word holds an argument that needs more than 24 bits.
pub fn join(parts: Fields) -> Option<u32>
    ensures answer { result ≡ joined parts }
    ensures again { IfSome result (λ w. fields w ≡ parts) }
{
    let word = u32::from(parts.opcode) | parts.argument.cast_unsigned() << 8;
    (LEAST_ARGUMENT..=MOST_ARGUMENT)
        .contains(&parts.argument)
        .then_some(word)
}

// The bits of a 64-bit number: one asked, one set.
#![tactic(auto)]

ghost use Rattle.std.specs.Prelude.{◌≡◌, ◌<◌, ◌^◌};
ghost use Rattle.std.specs.Int.Bits.{bit_or};
ghost use Rattle.bits.specs.Bits.{bit};

// Whether bit o is set; none is from 64 on.
pub fn has_bit(m: u64, o: u32) -> bool
    ensures { result ≡ bit m o }
{
    o < 64 && m >> o & 1 == 1
}

// The number with bit o set.
pub fn with_bit(m: u64, o: u32) -> u64
    requires { o < 64 }
    ensures { result ≡ bit_or m (2 ^ o) }
{
    m | 1u64 << o
}

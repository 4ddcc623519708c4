// Numbers as their fields hold them. One that is too large for its field stays at the field's largest
// value, which is beyond every limit of the rules, so that it is judged by the rule it breaks.
// Three functions of a line each: one generic function would need a crate for the largest value of a
// type, and a clause for each type all the same.
ghost use Rattle.std.specs.Prelude.{◌≡◌, ◌-◌, ◌^◌, min, pos};

pub fn to_u8(n: u64) -> u8
    ensures { result ≡ min n 255 }
{
    u8::try_from(n).unwrap_or(u8::MAX)
}

pub fn to_u32(n: u64) -> u32
    ensures { result ≡ min n (2 ^ 32 - 1) }
{
    u32::try_from(n).unwrap_or(u32::MAX)
}

/// A figure by its size.
pub fn to_i32(size: u64) -> i32
    ensures { result ≡ pos (min size (2 ^ 31 - 1)) }
{
    i32::try_from(size).unwrap_or(i32::MAX)
}

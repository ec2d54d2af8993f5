ghost use Rattle.std.specs.Prelude.{◌≡◌, ◌≢◌, nat_lt};
ghost use Rattle.tg_base.specs.Words as words;

/// The wrapping sum of two words.
#[inline(always)]
pub fn add(a: u32, b: u32) -> u32
    ensures { result ≡ words.add a b }
{
    a.wrapping_add(b)
}

/// The wrapping difference of two words.
#[inline(always)]
pub fn sub(a: u32, b: u32) -> u32
    ensures { result ≡ words.sub a b }
{
    a.wrapping_sub(b)
}

/// The wrapping product of two words.
#[inline(always)]
pub fn mul(a: u32, b: u32) -> u32
    ensures { result ≡ words.mul a b }
{
    a.wrapping_mul(b)
}

/// The exact sum of two words, where it has a word.
#[inline(always)]
pub fn exact_sum(a: u32, b: u32) -> Option<u32>
    ensures { result ≡ words.exact_sum a b }
{
    match a.cast_signed().checked_add(b.cast_signed()) {
        Some(sum) => Some(sum.cast_unsigned()),
        None => None,
    }
}

/// The exact difference of two words, where it has a word.
#[inline(always)]
pub fn exact_difference(a: u32, b: u32) -> Option<u32>
    ensures { result ≡ words.exact_difference a b }
{
    match a.cast_signed().checked_sub(b.cast_signed()) {
        Some(rest) => Some(rest.cast_unsigned()),
        None => None,
    }
}

/// The signed product of two words, in 64 bits.
#[inline(always)]
pub fn product(a: u32, b: u32) -> u64
    ensures { result ≡ words.product a b }
{
    let value = i64::from(a.cast_signed()) * i64::from(b.cast_signed());
    value.cast_unsigned()
}

/// The quotient toward zero of the ints that two words stand for; 80000000 by -1 gives 80000000.
#[inline(always)]
pub fn quot(a: u32, b: u32) -> u32
    requires { b ≢ 0 }
    ensures { result ≡ words.quot a b }
{
    a.cast_signed()
        .wrapping_div(b.cast_signed())
        .cast_unsigned()
}

/// Whether the int that a word stands for is less than another's.
#[inline(always)]
pub fn less_signed(a: u32, b: u32) -> bool
    ensures { result ≡ words.less a b }
{
    a.cast_signed() < b.cast_signed()
}

/// Whether a word is less than another, both without sign.
#[inline(always)]
pub fn less_unsigned(a: u32, b: u32) -> bool
    ensures { result ≡ nat_lt a b }
{
    a < b
}

#[cfg(test)]
mod tests {
    use super::*;

    #[test]
    fn words_at_their_edges(rt: HostRuntime) {
        assert_eq!(rt; add(0xFFFF_FFFF, 2), 1);
        assert_eq!(rt; sub(0, 1), 0xFFFF_FFFF);
        assert_eq!(rt; mul(0x1_0000, 0x1_0001), 0x1_0000);

        // -2147483648 / -1, -7 / 2, 7 / -2 and -7 / -2
        assert_eq!(rt; quot(0x8000_0000, 0xFFFF_FFFF), 0x8000_0000);
        assert_eq!(rt; quot(0xFFFF_FFF9, 2), 0xFFFF_FFFD);
        assert_eq!(rt; quot(7, 0xFFFF_FFFE), 0xFFFF_FFFD);
        assert_eq!(rt; quot(0xFFFF_FFF9, 0xFFFF_FFFE), 3);

        assert!(rt; less_signed(0x8000_0000, 0x7FFF_FFFF));
        assert!(rt; !less_signed(0, 0xFFFF_FFFF));
        assert!(rt; less_unsigned(0, 0xFFFF_FFFF));
    }
}

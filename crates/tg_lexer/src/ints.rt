ghost use Rattle.std.specs.Prelude.{◌≡◌, ◌≤◌, ◌<◌, MatchOption};
ghost use Rattle.std.specs.Str.Parse.{digits_value};
ghost use Rattle.tg_syntax.specs.Spellings.{AllAre, is_digit};

/// The greatest int that a text may hold.
const GREATEST: u64 = 2147483647;

// The int that digits stand for, unless it is too great.
pub(crate) fn int(digits: &[u8]) -> Option<u32>
    requires { AllAre is_digit digits.now }
    ensures { let n = digits_value 10 digits.now in
        MatchOption result (2147483647 < n) (λ value. (value ≡ n) × (value ≤ 2147483647)) }
{
    let mut value: u32 = 0;
    for byte in digits {
        let more = 10 * value as u64 + (*byte - b'0') as u64;
        if more > GREATEST {
            return None;
        }
        value = more as u32;
    }
    Some(value)
}

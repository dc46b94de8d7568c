//! Numbers in decimal digits.
ghost use Rattle.std.specs.Prelude.{◌≡◌, ◌<◌, ◌≤◌, ◌^◌, length, IfSome};
ghost use Rattle.site_records.specs.Digits.{number};

/// Returns the number that at most 10 decimal digits spell, or `None` if there is any other byte.
/// No digits spell 0.
pub fn number(digits: &[u8]) -> Option<u64>
    requires { length digits.now ≤ 10 }
    ensures value { result ≡ number digits.now }
    ensures within { IfSome result (λ n. n < 10 ^ length digits.now) }
{
    let mut n = 0u64;
    for b in digits {
        if *b < b'0' || *b > b'9' {
            return None;
        }
        n = 10 * n + u64::from(*b - b'0');
    }
    Some(n)
}

//! Numbers of configurations and targets: digits, leading zeros among them, and a value within bounds.
ghost use Rattle.std.specs.Prelude.{◌≡◌, ◌≤◌, IfSome};
ghost use Rattle.acng_conf.specs.Numbers.{if_within, number_within};

use acng_base::read_digits;

/// The number from `low` to `high` that 1 to `most` digits write.
pub fn read_number(text: &[u8], most: usize, low: u32, high: u32) -> Option<u32>
    requires { most ≤ 19 }
    ensures number { result ≡ number_within most low high text.now }
    ensures within { IfSome result (λ n. n ≤ high) }
{
    match read_digits(text, most) {
        Some(n) => if_within(n, low, high),
        None => None,
    }
}

fn if_within(n: u64, low: u32, high: u32) -> Option<u32>
    ensures number { result ≡ if_within low high n }
    ensures within { IfSome result (λ n. n ≤ high) }
{
    if u64::from(low) <= n && n <= u64::from(high) {
        Some(n as u32)
    } else {
        None
    }
}

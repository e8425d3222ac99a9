// The period of some numbers: their least common multiple, where it is within a limit. (3.4, 3.5)
#![tactic(auto)]

ghost use Rattle.std.specs.Prelude.{◌≡◌};
ghost use Rattle.periods.specs.Multiples.{IsGreatestDivisor};
ghost use Rattle.periods.specs.Periods.{all_positive, period_within};

use kinds::Refusal;

// The greatest common divisor of two numbers, by Euclid's rule.
fn greatest_divisor(a: u64, b: u64) -> u64
    ensures { IsGreatestDivisor a b result }
{
    let mut m = a;
    let mut n = b;
    while 0 < m {
        let rest = n % m;
        n = m;
        m = rest;
    }
    n
}

// Whether none of the numbers is 0.
fn all_positive(numbers: &[u64]) -> bool
    ensures { result ≡ all_positive numbers.now }
{
    numbers.iter().all(|&n| 1 <= n)
}

// Answers the least common multiple of some numbers. The answer is refusal 3 where one of them is 0, and refusal 5 where the multiple is above the limit.
// The multiple grows number by number, and each step is tested before it is taken, so that nothing wraps round. (3.4, 3.5, 10.7)
pub fn period_within(numbers: &[u64], limit: u64) -> Result<u64, Refusal>
    ensures { result ≡ period_within limit numbers.now }
{
    if !all_positive(numbers) {
        return Err(Refusal::ValueOutOfRange);
    }
    if limit < 1 {
        return Err(Refusal::PeriodTooLong);
    }
    let mut h: u64 = 1;
    for &y in numbers {
        let part = h / greatest_divisor(h, y);
        if limit / y < part {
            return Err(Refusal::PeriodTooLong);
        }
        h = part * y;
    }
    Ok(h)
}

// Numbers and ints as words.
ghost use Rattle.std.specs.Prelude.{◌≡◌, ◌<◌, ◌≤◌, ◌+◌, ◌-◌, ◌*◌, min, Some, None, if◌then◌else◌};
ghost use Rattle.std.specs.Char.{is_ascii_digit};
ghost use Rattle.std.specs.Option.{option_map};
ghost use Rattle.sched_file.specs.Number.{capped_on, number_of, number_between, int_of};

// More than any number that may stand in a file.
const CAP: u64 = 10_000_000_000;

// The value of one or more decimal digits, or CAP where it is more.
#[tactic(auto, using(crate::proofs::NumberLemmas::capped_numbers))]
fn capped_number(word: &[u8]) -> Option<u64>
    ensures { result ≡ option_map (λ n. min n CAP) (number_of word.now) }
{
    match word {
        [] => None,
        _ => capped_value(word),
    }
}

fn capped_value(word: &[u8]) -> Option<u64>
    ensures { result ≡ capped_on 0 word.now }
{
    let mut value = 0u64;
    let mut rest = word;
    while let [digit, after @ ..] = rest {
        value = next_value(value, *digit)?;
        rest = after;
    }
    Some(value)
}

fn next_value(value: u64, digit: u8) -> Option<u64>
    requires { value ≤ CAP }
    ensures { result ≡ if is_ascii_digit digit then Some (min (10 * value + (digit - 48)) CAP) else None }
{
    if digit.is_ascii_digit() {
        Some((10 * value + (digit - 48) as u64).min(CAP))
    } else {
        None
    }
}

// One or more decimal digits of a number in the range.
pub fn number_within(word: &[u8], low: u32, high: u32) -> Option<u32>
    ensures { result ≡ number_between low high word.now }
{
    let value = capped_number(word)?;
    if u64::from(low) <= value && value <= u64::from(high) {
        Some(value as u32)
    } else {
        None
    }
}

// An int: digits, perhaps behind a `-`.
pub fn int(word: &[u8]) -> Option<i32>
    ensures { result ≡ int_of word.now }
{
    match word {
        [] => None,
        [b'-', digits @ ..] => {
            let value = number_within(digits, 0, 2_147_483_648)?;
            Some((-i64::from(value)) as i32)
        }
        _ => {
            let value = number_within(word, 0, 2_147_483_647)?;
            Some(value as i32)
        }
    }
}

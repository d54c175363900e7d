ghost use Rattle.std.specs.Prelude.{◌≡◌, ◌≢◌, ◌↔◌, ℕ, Some, IsTrue, MatchOption};
ghost use Rattle.std.specs.Str.{all_ascii_digits};
ghost use Rattle.std.specs.Str.Parse.{digits_value};
ghost use Rattle.command_line.specs.Words.{IsShortNumeral, IsSampleNumber, IsWorkerCount, digit_word};

/// The most digits of a sample's number.
const MOST_DIGITS: usize = 7;

/// The greatest number of a sample.
const GREATEST: u32 = 1_000_000;

/// Whether each of some bytes is a decimal digit.
fn all_digits(bytes: &[u8]) -> bool
    ensures { result ≡ all_ascii_digits bytes.now }
{
    for byte in bytes {
        if !byte.is_ascii_digit() {
            return false;
        }
    }
    true
}

/// Whether a word has one to seven digits and nothing else.
fn is_short_numeral(word: &str) -> bool
    ensures { IsTrue result ↔ IsShortNumeral word.now }
{
    if word.is_empty() {
        return false;
    }
    if word.len() > MOST_DIGITS {
        return false;
    }
    all_digits(word.as_bytes())
}

/// The number that digits write.
fn value_of(digits: &str) -> Option<u32>
    requires written { IsShortNumeral digits.now }
    ensures { result ≡ Some (digits_value 10 digits.now) }
{
    digits.parse::<u32>().ok()
}

/// The number of a sample that a word writes: one to seven digits, and at most 1,000,000.
pub(crate) fn sample_number(word: &str) -> Option<u32>
    ensures { MatchOption result ((n : ℕ) → IsSampleNumber word.now n → ⊥) (λ n. IsSampleNumber word.now n) }
{
    if !is_short_numeral(word) {
        return None;
    }
    let number = value_of(word)?;
    if number > GREATEST {
        return None;
    }
    Some(number)
}

/// The number of workers that a word writes: one digit from 1 to 8.
pub(crate) fn worker_count(word: &str) -> Option<u32>
    ensures { MatchOption result ((n : ℕ) → IsWorkerCount n → word.now ≢ digit_word n) (λ n. IsWorkerCount n × (word.now ≡ digit_word n)) }
{
    let [digit] = word.as_bytes() else {
        return None;
    };
    if !(b'1'..=b'8').contains(digit) {
        return None;
    }
    Some((digit - b'0') as u32)
}

// Unsigned decimals without needless zeros, read from a word.
#![tactic(auto)]

ghost use Rattle.std.specs.Prelude.{◌≡◌};
ghost use Rattle.decimal.specs.Decimal.{digit, shortest, number_of};
ghost use Rattle.decimal_read.specs.Method.{digits_from};

use decimal::Reading;
use numbers::wide;

fn is_digit(b: u8) -> bool
    ensures { result ≡ digit b }
{
    (48 <= b) & (b <= 57)
}

// "0" is right; "", "00" and "01" are not.
fn is_shortest(word: &[u8]) -> bool
    ensures { result ≡ shortest word.now }
{
    if word.len() == 0 {
        return false;
    }
    if word.len() == 1 {
        return true;
    }
    word[0] != 48
}

// The largest number that can take one digit more is 1844674407370955161, and only up to 5.
fn digits(word: &[u8]) -> Reading
    ensures { result ≡ digits_from 0 word.now }
{
    let mut value: u64 = 0;
    let mut i = 0;
    while i < word.len() {
        let b = word[i];
        if !is_digit(b) {
            return Reading {
                valid: false,
                value: 0,
            };
        }
        let d = wide(b) - 48;
        if 1844674407370955161 < value {
            return Reading {
                valid: false,
                value: 0,
            };
        }
        if 18446744073709551615 - d < value * 10 {
            return Reading {
                valid: false,
                value: 0,
            };
        }
        value = value * 10 + d;
        i += 1;
    }
    Reading { valid: true, value }
}

// An unsigned decimal without needless zeros, up to `most`.
pub fn number(word: &[u8], most: u64) -> Reading
    ensures { result ≡ number_of word.now most }
{
    let r = digits(word);
    let valid = r.valid;
    let value = r.value;
    if is_shortest(word) & valid & (value <= most) {
        return Reading { valid: true, value };
    }
    Reading {
        valid: false,
        value: 0,
    }
}

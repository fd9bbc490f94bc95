// The numbers in the words of a line: decimals, and two hexadecimal digits.
ghost use Rattle.std.specs.Prelude.{◌≡◌, [], ◌≤◌, ◌<◌, length, get_or, IfSome};
ghost use Rattle.lines.specs.Lines.{words as words_of, digits_from, number, hex_digit, byte};

use crate::words;

// The value of at most five digits.
pub fn digits(w: &[u8]) -> Option<u32>
    requires { length w.now ≤ 5 }
    ensures value { result ≡ digits_from 0 w.now }
    ensures upper_bound { IfSome result (λ n. n < 100000) }
{
    let mut value = 0;
    for c in w {
        let d = match *c {
            b'0'..=b'9' => *c - b'0',
            _ => return None,
        };
        value = value * 10 + u32::from(d);
    }
    Some(value)
}

// The value of a decimal.
pub fn decimal(w: &[u8]) -> Option<u32>
    ensures value { result ≡ number w.now }
    ensures upper_bound { IfSome result (λ n. n < 100000) }
{
    let n = w.len();
    if n < 1 || 5 < n {
        return None;
    }
    if w[0] == b'0' && 1 < n {
        return None;
    }
    digits(w)
}

// The value of an upper-case hexadecimal digit.
pub fn hex_digit(c: u8) -> Option<u8>
    ensures value { result ≡ hex_digit c }
    ensures upper_bound { IfSome result (λ n. n < 16) }
{
    match c {
        b'0'..=b'9' => Some(c - b'0'),
        b'A'..=b'F' => Some(c - b'A' + 10),
        _ => None,
    }
}

// The value of two hexadecimal digits.
pub fn hexadecimal(w: &[u8]) -> Option<u8>
    ensures value { result ≡ byte w.now }
    ensures upper_bound { IfSome result (λ n. n < 256) }
{
    if w.len() != 2 {
        return None;
    }
    let x = hex_digit(w[0])?;
    let y = hex_digit(w[1])?;
    Some(x * 16 + y)
}

// The decimal that is word number `k`.
pub fn decimal_at(line: &[u8], k: usize) -> Option<u32>
    ensures value { result ≡ number (get_or (words_of line.now) k []) }
    ensures upper_bound { IfSome result (λ n. n < 100000) }
{
    let from = words::start(line, k);
    let to = words::end(line, from);
    decimal(&line[from..to])
}

// The two hexadecimal digits that are word number `k`.
// It differs from `decimal_at` in the last line alone; one function over the function called there, with its contract, would be no shorter than the two.
pub fn hexadecimal_at(line: &[u8], k: usize) -> Option<u8>
    ensures value { result ≡ byte (get_or (words_of line.now) k []) }
    ensures upper_bound { IfSome result (λ n. n < 256) }
{
    let from = words::start(line, k);
    let to = words::end(line, from);
    hexadecimal(&line[from..to])
}

//! Numbers in digits.
ghost use Rattle.std.specs.Prelude.{◌<◌, ◌*◌, ◌^◌, ◌≡◌, ◌≤◌, length, option_map, IfSome};
ghost use Rattle.std.specs.List.{prefix_len};
ghost use Rattle.std.specs.Char.{is_ascii_digit};
ghost use Rattle.cg_num.specs.Decimal.{number_of};
ghost use Rattle.cg_text.specs.Pieces.{is_plain, number_at};

/// How many digits stand in front.
pub fn digits_len(bytes: &[u8]) -> usize
    ensures value { result ≡ prefix_len is_ascii_digit bytes.now }
    ensures within { result ≤ length bytes.now }
{
    bytes.iter().take_while(|c| c.is_ascii_digit()).count()
}

/// The number that at most seven digits write.
pub fn number_of(digits: &[u8]) -> u32
    requires { length digits.now ≤ 7 }
    ensures value { result ≡ number_of digits.now }
    ensures bound { result < 23 * 10 ^ 7 }
{
    let mut number = 0;
    for digit in digits {
        number = number * 10 + u32::from(digit.saturating_sub(b'0'));
    }
    number
}

fn is_plain(digits: &[u8], most: usize) -> bool
    requires { 1 ≤ most }
    ensures { result ≡ is_plain most digits.now }
{
    match digits {
        [] => false,
        [_] => true,
        [first, ..] => digits.len() <= most && *first != b'0',
    }
}

/// A whole number of so many digits at most, and what comes after it. No zero stands before another digit.
pub fn number_at(bytes: &[u8], most: usize) -> Option<(u32, &[u8])>
    requires some { 1 ≤ most }
    requires few { most ≤ 7 }
    ensures value { option_map (λ number. (number.0, number.1.now)) result ≡ number_at most bytes.now }
    ensures small { IfSome result (λ number. number.0 < 10 ^ most) }
{
    let (digits, rest) = bytes.split_at(digits_len(bytes));
    if is_plain(digits, most) {
        Some((number_of(digits), rest))
    } else {
        None
    }
}

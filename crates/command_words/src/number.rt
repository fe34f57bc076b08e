// Numbers as words.
ghost use Rattle.std.specs.Prelude.{◌≡◌, ◌≤◌, IfSome};
ghost use Rattle.std.specs.Char.{is_ascii_digit};
ghost use Rattle.std.specs.List.{list_all};
ghost use Rattle.command_words.specs.Number.{has_leading_zero, is_number, number_up_to};

/// A number in decimal digits, with no sign and no leading zero but in `0` itself, of at most so much.
pub(crate) fn number_up_to(most: u64, word: &str) -> Option<u64>
    ensures number { result ≡ number_up_to most word.now }
    ensures limit { IfSome result (λ number. number ≤ most) }
{
    if !is_number(word) {
        return None;
    }
    match word.parse::<u64>() {
        Ok(number) => { if number <= most { Some(number) } else { None } }
        Err(_) => None,
    }
}

fn is_number(word: &str) -> bool
    ensures { result ≡ is_number word.now }
{
    !word.is_empty() && are_digits(word) && !has_leading_zero(word)
}

fn are_digits(word: &str) -> bool
    ensures { result ≡ list_all is_ascii_digit word.now }
{
    word.bytes().all(|byte| byte.is_ascii_digit())
}

fn has_leading_zero(word: &str) -> bool
    ensures { result ≡ has_leading_zero word.now }
{
    let digits = word.as_bytes();
    digits.len() > 1 && digits[0] == b'0'
}

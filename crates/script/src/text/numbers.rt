// Numbers.

ghost use Rattle.std.specs.Prelude.{◌≤◌, ◌<◌, ◌^◌, SomeIff};
ghost use Rattle.std.specs.Str.Parse.{IsNumeral, digits_value};
ghost use Rattle.script.specs.Numbers.{ReadsNumber};

// The number that digits are; none where a character is no digit, or the number has more than 64 bits.
fn number(digits: &str, base: u32) -> Option<u64>
    requires { (2 ≤ base) × (base ≤ 36) }
    ensures { SomeIff result (IsNumeral base digits.now × digits_value base digits.now < 2 ^ 64) (digits_value base digits.now) }
{
    if digits.is_empty() {
        return None;
    }
    // The library's own takes a sign, and takes longer.
    let mut number = 0u64;
    for byte in digits.as_bytes() {
        let digit = (*byte as char).to_digit(base)?;
        number = number.checked_mul(base as u64)?.checked_add(digit as u64)?;
    }
    Some(number)
}

// The number that a token of 1 to 20 decimal digits is, where its type has it.
pub fn decimal<T: TryFrom<u64, Error: Drop>>(token: &str) -> Option<T>
    ensures { ReadsNumber T.try_from_gives 10 20 token.now result }
{
    if 20 < token.len() {
        return None;
    }
    T::try_from(number(token, 10)?).ok()
}

// The number that a token of 1 to 8 hex digits of either case is, where its type has it.
pub fn hex<T: TryFrom<u64, Error: Drop>>(token: &str) -> Option<T>
    ensures { ReadsNumber T.try_from_gives 16 8 token.now result }
{
    if 8 < token.len() {
        return None;
    }
    T::try_from(number(token, 16)?).ok()
}

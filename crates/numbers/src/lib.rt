// Decimal numbers, read.
#![tactic(auto)]

ghost use Rattle.std.specs.Prelude.{◌≡◌, ◌-◌, IsTrue};
ghost use Rattle.numbers.specs.Numbers.{is_digit, read_of};
ghost use Rattle.std.specs.Option.{SomeIff};

// The value of a digit.
fn digit(byte: u8) -> Option<u32>
    ensures { SomeIff result (IsTrue (is_digit byte)) (byte - 48) }
{
    char::from(byte).to_digit(10)
}

/// The word as a number, where it is digits and its value fits. (std's `parse` takes a plus sign too, which is no digit.)
#[tactic(auto, using(crate::proofs::Reading::reading))]
pub fn read_number(word: &[u8]) -> Option<u64>
    ensures { result ≡ read_of word.now }
{
    if word.is_empty() {
        return None;
    }
    let mut value: u64 = 0;
    for byte in word {
        let digit = digit(*byte)?;
        value = value.checked_mul(10)?.checked_add(u64::from(digit))?;
    }
    Some(value)
}

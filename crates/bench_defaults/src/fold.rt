// A checksum.
ghost use Rattle.std.specs.Prelude.{◌≡◌, ◌+◌, ◌*◌, ◌/◌, ◌%◌, ◌^◌, bit_or};

/// A checksum with one number more.
pub fn fold(sum: u64, number: u64) -> u64
    ensures { result ≡ (bit_or (sum * 2 ^ 7 % 2 ^ 64) (sum / 2 ^ 57) + number) % 2 ^ 64 }
{
    sum.rotate_left(7).wrapping_add(number)
}

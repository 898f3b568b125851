// A decimal number of any length, read from its bytes. specs/Decimal.antt says what the bytes write.
#![tactic(auto)]

ghost use Rattle.std.specs.Prelude.{◌≡◌, ℕ, ◌<◌};
ghost use Rattle.decimal.specs.Decimal.{sized, shifted, number_of};

// Why bytes write no number of 64 bits: they write a larger one, or none.
#[derive(Clone, Copy, PartialEq, Eq)]
pub enum Unread {
    TooLarge,
    NotDecimal,
}

// The number in front with one digit more behind it. What is too large stays so.
fn put(front: Result<u64, Unread>, digit: u64) -> Result<u64, Unread>
    requires { digit < 10 }
    ensures { (n : ℕ) → front ≡ sized n → result ≡ sized (shifted n digit) }
{
    let tens = front?.checked_mul(10).ok_or(Unread::TooLarge)?;
    tens.checked_add(digit).ok_or(Unread::TooLarge)
}

// The number that the bytes write. No bytes write 0.
pub fn read(bytes: &[u8]) -> Result<u64, Unread>
    ensures { result ≡ number_of bytes.now }
{
    let mut front = Ok(0);
    for byte in bytes {
        if !byte.is_ascii_digit() {
            return Err(Unread::NotDecimal);
        }
        front = put(front, u64::from(*byte - b'0'));
    }
    front
}

// The characters that spell a byte.
ghost use Rattle.std.specs.Prelude.{◌≡◌, ◌/◌, ◌%◌, ◌<◌, [], ◌∷◌};
ghost use Rattle.record.specs.Hex.{digit};

// The upper-case character of a value below 16.
fn digit(value: u8) -> u8
    requires { value < 16 }
    ensures { result ≡ digit value }
{
    if value < 10 {
        b'0' + value
    } else {
        b'A' + (value - 10)
    }
}

// The two characters of a byte.
pub fn digits(byte: u8) -> [u8; 2]
    ensures { result ≡ digit (byte / 16) ∷ digit (byte % 16) ∷ [] }
{
    [digit(byte / 16), digit(byte % 16)]
}

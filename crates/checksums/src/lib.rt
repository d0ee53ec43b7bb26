// Adler-32, the checksum of zlib (RFC 1950): two sums modulo 65521, the greatest prime below 2^16.
#![tactic(auto)]

ghost use Rattle.std.specs.Prelude.{◌≡◌, ◌+◌, ◌%◌, ◌<◌};
ghost use Rattle.checksums.specs.Adler.{adler};

const MODULUS: u32 = 65521;

// The sum of two numbers below the modulus.
fn sum(a: u32, b: u32) -> u32
    requires { (a < 65521) × (b < 65521) }
    ensures { (result ≡ (a + b) % 65521) × (result < 65521) }
{
    (a + b) % MODULUS
}

// The sum of a number below the modulus and a byte.
fn with_byte(a: u32, byte: u8) -> u32
    requires { a < 65521 }
    ensures { (result ≡ (a + byte) % 65521) × (result < 65521) }
{
    (a + u32::from(byte)) % MODULUS
}

pub fn adler32(bytes: &[u8]) -> u32
    ensures { result ≡ adler bytes.now }
{
    let mut a = 1u32;
    let mut b = 0;
    for byte in bytes {
        a = with_byte(a, *byte);
        b = sum(b, a);
    }
    b * 65536 + a
}

// Checksums joined: one pass over a block serves the block and all that it stands in. A register is taken over n bytes
// that are not looked at by a product for each binary digit of n.
#![tactic(auto)]

ghost use Rattle.std.specs.Prelude.{◌≡◌, ◌*◌, ◌<◌, ◌^◌};
ghost use Rattle.crc32c.specs.Crc.{poly, bits, crc_of};
ghost use Rattle.crc32c.specs.Extend.{extended};
ghost use Rattle.crc32c.specs.Product.{product};

// The registers of the powers 8, 16, 32 and so on, each the square of the one before.
const POWERS: [u64; 32] = [
    0x80_0000,
    0x8000,
    0x82F6_3B78,
    0x6EA2_D55C,
    0x18B8_EA18,
    0x510A_C59A,
    0xB82B_E955,
    0xB8FD_B1E7,
    0x88E5_6F72,
    0x74C3_60A4,
    0xE417_2B16,
    0xD65_762A,
    0x35D7_3A62,
    0x2846_1564,
    0xBF45_5269,
    0xE2EA_32DC,
    0xFE77_40E6,
    0xF946_610B,
    0x3C20_4F8F,
    0x5385_86E3,
    0x5972_6915,
    0x734D_5309,
    0xBC1A_C763,
    0x7D07_22CC,
    0xD289_CABE,
    0xE94C_A9BC,
    0x5B7_4F3F,
    0xA51E_1F42,
    0x4000_0000,
    0x2000_0000,
    0x800_0000,
    0x80_0000,
];

// The product of two registers, by the digits of the first from the lowest on.
pub fn times(x: u64, k: u64) -> u64
    ensures { result ≡ product x k }
{
    let mut left = x;
    let mut sum: u64 = 0;
    for _ in 0..u32::BITS {
        sum = (sum / 2) ^ (sum % 2 * crc32c::POLYNOMIAL) ^ (left % 2 * k);
        left /= 2;
    }
    sum
}

// The register after n zero bytes.
fn zeros(c: u64, n: usize) -> u64
    requires { (c < 2 ^ 32) × (n < 2 ^ 32) }
    ensures { (result ≡ bits poly (8 * n) c) × (result < 2 ^ 32) }
{
    let mut x = c;
    let mut m = n;
    for power in &POWERS {
        if m == 0 {
            break;
        }
        if m % 2 == 1 {
            x = times(x, *power);
        }
        m /= 2;
    }
    x
}

// From how many bytes on products are quicker than another pass.
const LONG: usize = 2048;

// The checksum of a slice that stands behind others, by the checksum of those and the slice's own.
pub fn extend_by(sum: u32, data: &[u8], known: u32) -> u32
    requires { known ≡ crc_of «data».now }
    ensures { result ≡ extended sum «data».now }
{
    let n = data.len();
    if n < LONG {
        return crc32c::extend(sum, data);
    }
    if n > 0xFFFF_FFFF {
        return crc32c::extend(sum, data);
    }
    (zeros(sum as u64, n) ^ known as u64) as u32
}

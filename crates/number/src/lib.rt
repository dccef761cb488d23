// Little-endian numbers at a position of a byte slice, and arithmetic on numbers. Each caller shows that the bytes are there, and that a sum fits.
// A function for each width: one over a trait of widths would have the same bodies, one an impl, and each call would name the width as a type.
#![tactic(auto)]

ghost use Rattle.std.specs.Prelude.{◌≡◌, ◌+◌, ◌*◌, ◌%◌, ◌^◌, ◌≤◌, ◌<◌, length, pos, ◌+ℤ◌, nat_abs, ◌≤ℤ◌, ◌<ℤ◌};
ghost use Rattle.std.specs.Int.{w32, w64};
ghost use Rattle.std.proofs.Common.{to_z, of_z};
ghost use Rattle.number.specs.Bytes.{le_at, put_at, i32_at, i64_at};
ghost use Rattle.number.specs.Integer.{max_z};

pub fn read_u16(s: &[u8], at: usize) -> u16
    requires { at + 2 ≤ length s.now }
    ensures { result ≡ le_at 2 s.now at }
{
    u16::from_le_bytes([s[at], s[at + 1]])
}

pub fn read_u32(s: &[u8], at: usize) -> u32
    requires { at + 4 ≤ length s.now }
    ensures { result ≡ le_at 4 s.now at }
{
    u32::from_le_bytes([s[at], s[at + 1], s[at + 2], s[at + 3]])
}

fn read_u64(s: &[u8], at: usize) -> u64
    requires { at + 8 ≤ length s.now }
    ensures { result ≡ le_at 8 s.now at }
{
    u64::from(read_u32(s, at)) + u64::from(read_u32(s, at + 4)) * 0x1_0000_0000
}

// The number whose bits are those of x.
fn signed_32(x: u32) -> i32
    ensures { result ≡ to_z w32 x }
{
    x.cast_signed()
}

// The bits of x.
pub fn bits_32(x: i32) -> u32
    ensures { result ≡ of_z w32 x }
{
    x.cast_unsigned()
}

pub fn bits_64(z: i64) -> u64
    ensures { result ≡ of_z w64 z }
{
    z.cast_unsigned()
}

pub fn read_i32(s: &[u8], at: usize) -> i32
    requires { at + 4 ≤ length s.now }
    ensures { result ≡ i32_at s.now at }
{
    signed_32(read_u32(s, at))
}

pub fn read_i64(s: &[u8], at: usize) -> i64
    requires { at + 8 ≤ length s.now }
    ensures { result ≡ i64_at s.now at }
{
    read_u64(s, at).cast_signed()
}

pub fn write_u16(s: &mut [u8], at: usize, x: u16)
    requires { at + 2 ≤ length s.old }
    ensures { s.new ≡ put_at 2 s.old at x }
{
    s[at..at + 2].copy_from_slice(&x.to_le_bytes());
}

pub fn write_u32(s: &mut [u8], at: usize, x: u32)
    requires { at + 4 ≤ length s.old }
    ensures { s.new ≡ put_at 4 s.old at x }
{
    s[at..at + 4].copy_from_slice(&x.to_le_bytes());
}

fn write_u64(s: &mut [u8], at: usize, x: u64)
    requires { at + 8 ≤ length s.old }
    ensures { s.new ≡ put_at 8 s.old at x }
{
    s[at..at + 8].copy_from_slice(&x.to_le_bytes());
}

pub fn write_i32(s: &mut [u8], at: usize, x: i32)
    requires { at + 4 ≤ length s.old }
    ensures { s.new ≡ put_at 4 s.old at (of_z w32 x) }
{
    write_u32(s, at, bits_32(x));
}

pub fn write_i64(s: &mut [u8], at: usize, x: i64)
    requires { at + 8 ≤ length s.old }
    ensures { s.new ≡ put_at 8 s.old at (of_z w64 x) }
{
    write_u64(s, at, bits_64(x));
}

pub fn max(a: i64, b: i64) -> i64
    ensures { result ≡ max_z a b }
{
    a.max(b)
}

pub fn sum(a: i64, b: i64) -> i64
    requires { nat_abs a + nat_abs b < 2 ^ 63 }
    ensures { result ≡ a +ℤ b }
{
    a + b
}

pub fn to_u32(x: i64) -> u32
    requires { (pos 0 ≤ℤ x) × (x <ℤ pos 4294967296) }
    ensures { pos result ≡ x }
{
    x as u32
}

// The product modulo 2^32.
pub fn wrapping_mul(a: u32, b: u32) -> u32
    ensures { result ≡ (a * b) % 2 ^ 32 }
{
    a.wrapping_mul(b)
}

// Numbers in hexadecimal digits: read from bytes, and written to lent ones.
#![tactic(auto)]

ghost use Rattle.std.specs.Prelude.{◌≡◌, cond, ◌+◌, ◌≤◌, ◌<◌, leb, length, unwrap_or};
ghost use Rattle.std.proofs.lemmas.List.Edits.{sets};
ghost use Rattle.digits.specs.Digits.{digit, hex};
ghost use Rattle.digits.specs.Reading.{digit_value, digit_at, number_in};
ghost use Rattle.digits.specs.Table.{by_table};

// The value of a byte as a digit, and 16 where it is none: sixteen cases in the order of the ASCII table, to be laid beside it.
pub fn digit_value(byte: u8) -> u8
    ensures rule { result ≡ unwrap_or (digit_value byte) 16 }
    ensures table { result ≡ unwrap_or (by_table byte) 16 }
{
    match byte {
        b'0' => 0,
        b'1' => 1,
        b'2' => 2,
        b'3' => 3,
        b'4' => 4,
        b'5' => 5,
        b'6' => 6,
        b'7' => 7,
        b'8' => 8,
        b'9' => 9,
        b'a' => 10,
        b'b' => 11,
        b'c' => 12,
        b'd' => 13,
        b'e' => 14,
        b'f' => 15,
        _ => 16,
    }
}

// The value of a byte that is among 64 bytes of the ASCII table, from a byte on; of any other, what is known by then.
fn digit_among(byte: u8, from: u8, known: u8) -> u8
    ensures { (from ≤ byte → byte < from + 64 → result ≡ unwrap_or (digit_value byte) 16)
        × (byte < from → result ≡ known) × (from + 64 ≤ byte → result ≡ known) }
{
    if byte < from || 63 < byte - from {
        return known;
    }
    digit_value(byte)
}

// The value of a byte as a digit, asked for in one half of the ASCII table and then in the other. Numerals stand close together in the first half, letters in the
// second, and of cases close together the compiler makes a sum. Of all sixteen at once it makes a jump, and a sheet takes seven times as long to read.
// It sees the cases only where they are asked for in one place of all the code (docs/DECISIONS.md, 81).
// Stays: none is 16 here, in `digit_among` and in `digit_at`, and not an Option, since of bytes alone the compiler makes that sum; `digit_value` is public.
fn digit_by_halves(byte: u8) -> u8
    ensures { result ≡ unwrap_or (digit_value byte) 16 }
{
    let mut value: u8 = 16;
    for half in 0..2 {
        value = digit_among(byte, 64 * half, value);
    }
    value
}

// The digit at a place and so many further, and 16 where there is none.
fn digit_at(s: &[u8], at: usize, further: usize) -> u8
    requires { further ≤ 8 }
    ensures { result ≡ unwrap_or (digit_at s.now (at + further)) 16 }
{
    if s.len() <= at {
        return 16;
    }
    let here = at + further;
    if here < s.len() {
        return digit_by_halves(s[here]);
    }
    16
}

// The number in at most 8 digits from a place on; nothing where there are more digits to read than that.
pub fn number_at(s: &[u8], at: usize, digits: usize) -> Option<u32>
    ensures { result ≡ number_in digits s.now at }
{
    if 8 < digits {
        return None;
    }
    let mut x: u32 = 0;
    for k in 0..digits {
        let d = digit_at(s, at, k);
        if 15 < d {
            return None;
        }
        x = 16 * x + u32::from(d);
    }
    Some(x)
}

// A digit's byte.
#[tactic(auto, unfolding(crate::specs::Digits::digit))]
fn digit(d: u32) -> u8
    requires { d < 16 }
    ensures { result ≡ digit d }
{
    if d < 10 {
        return (48 + d) as u8;
    }
    (87 + d) as u8
}

// Writes x in so many digits from `at` on, the last digit first.
fn put_number(out: &mut [u8], at: usize, digits: usize, x: u32)
    requires { at + digits ≤ length out.old }
    ensures { out.new ≡ sets out.old at (hex digits x) }
{
    let mut rest = x;
    for k in (0..digits).rev() {
        out[at + k] = digit(rest % 16);
        rest /= 16;
    }
}

// Writes x in so many digits from `at` on and answers true. Where there is no room it answers false and leaves `out` as it came.
pub fn write_number(out: &mut [u8], at: usize, digits: usize, x: u32) -> bool
    ensures { (result ≡ leb (at + digits) (length out.old))
        × (out.new ≡ cond (leb (at + digits) (length out.old)) (sets out.old at (hex digits x)) out.old) }
{
    if out.len() < digits || out.len() - digits < at {
        return false;
    }
    put_number(out, at, digits, x);
    true
}

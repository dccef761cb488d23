// Decimal text at a position of a buffer, where each caller shows that it fits.
#![tactic(auto)]

ghost use Rattle.std.specs.Prelude.{◌≡◌, ◌+◌, ◌-◌, ◌≤◌, [], ◌∷◌, ◌++◌, length};
ghost use Rattle.std.proofs.lemmas.List.Edits.{sets};
ghost use Rattle.text.specs.Decimal.{digits_of, decimal_of};
ghost use Rattle.text.specs.Columns.{blanks, right_aligned};

// How many digits n has.
fn count_digits(n: u64) -> usize
    ensures { result ≡ length (digits_of n) }
{
    let mut left = n;
    let mut count: usize = 1;
    // A step is a division by ten, which no range makes.
    while 10 <= left {
        left /= 10;
        count += 1;
    }
    count
}

// The digits are written from the last to the first.
fn write_digits(out: &mut [u8], at: usize, n: u64) -> usize
    requires { at + length (digits_of n) ≤ length out.old }
    ensures answer { result ≡ at + length (digits_of n) }
    ensures buffer { out.new ≡ sets out.old at (digits_of n) }
{
    let end = at + count_digits(n);
    let mut rest = n;
    let mut i = end - 1;
    // .. and here too.
    while 10 <= rest {
        out[i] = (48 + rest % 10) as u8;
        rest /= 10;
        i -= 1;
    }
    out[i] = (48 + rest) as u8;
    end
}

// A minus where x is negative, and the digits; the answer is where the text ends.
fn write_decimal(out: &mut [u8], at: usize, x: i64) -> usize
    requires { at + length (decimal_of x) ≤ length out.old }
    ensures answer { result ≡ at + length (decimal_of x) }
    ensures buffer { out.new ≡ sets out.old at (decimal_of x) }
{
    let size = x.unsigned_abs();
    if x < 0 {
        out[at] = b'-';
        write_digits(out, at + 1, size)
    } else {
        write_digits(out, at, size)
    }
}

// A number and the byte after it.
pub fn write_item(out: &mut [u8], at: usize, x: i64, after: u8) -> usize
    requires { at + (length (decimal_of x) + 1) ≤ length out.old }
    ensures answer { result ≡ at + (length (decimal_of x) + 1) }
    ensures buffer { out.new ≡ sets out.old at (decimal_of x ++ (after ∷ [])) }
{
    let i = write_decimal(out, at, x);
    out[i] = after;
    i + 1
}

// How many bytes the text of x takes.
fn decimal_length(x: i64) -> usize
    ensures { result ≡ length (decimal_of x) }
{
    let digits = count_digits(x.unsigned_abs());
    if x < 0 { digits + 1 } else { digits }
}

// Blanks from one position to another.
fn write_blanks(out: &mut [u8], at: usize, end: usize)
    requires { (at ≤ end) × (end ≤ length out.old) }
    ensures { out.new ≡ sets out.old at (blanks (end - at)) }
{
    out[at..end].fill(b' ');
}

// A number at the right end of its columns, with blanks before it, and the byte after them.
pub fn write_column(out: &mut [u8], at: usize, columns: usize, x: i64, after: u8)
    requires { (length (decimal_of x) ≤ columns) × (at + (columns + 1) ≤ length out.old) }
    ensures { out.new ≡ sets out.old at (right_aligned columns (decimal_of x) ++ (after ∷ [])) }
{
    let start = at + (columns - decimal_length(x));
    write_blanks(out, at, start);
    write_item(out, start, x, after);
}

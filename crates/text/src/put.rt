// Decimal numbers, appended to a text: to what is written of a lent buffer.
ghost use Rattle.std.specs.Prelude.{◌≡◌, ◌+◌, ◌<◌, ◌≤◌, length};
ghost use Rattle.rack.specs.Putting.{Grows};
ghost use Rattle.text.specs.Decimals.{digit_code, digits, decimal};

pub use rack::output::Output as Text;

// Appends at most `left` digits of a number. Not by `write!`, which ensures a text only with an `Ok`, and never that there is one.
fn put_digits(text: &mut Text<'_>, v: u32, left: u32)
    requires { text.old.length + length (digits left v) ≤ length text.old.bytes.now }
    ensures { Grows text.old text.new (digits left v) }
{
    if left == 0 {
        return;
    }
    if v >= 10 {
        put_digits(text, v / 10, left - 1);
    }
    text.put_byte(digit(v % 10));
}

// Appends a decimal number. A function and no method: a type's methods stand in its own crate, rack, and decimals are of this one.
pub fn put_decimal(text: &mut Text<'_>, v: u32)
    requires { text.old.length + length (decimal v) ≤ length text.old.bytes.now }
    ensures { Grows text.old text.new (decimal v) }
{
    put_digits(text, v, 10);
}

// The code of a digit.
pub fn digit(d: u32) -> u8
    requires { d < 10 }
    ensures { result ≡ digit_code d }
{
    b'0' + (d as u8)
}

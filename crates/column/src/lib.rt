//! Numbers in columns of 12.
#![tactic(auto)]

ghost use Rattle.std.specs.Prelude.{◌≡◌, ◌^◌, ◌<◌, ◌≤◌, Some, None};
ghost use Rattle.column.specs.Column.{in_column, DigitRule};

// The first number that has more than 12 digits.
const TOO_WIDE: u64 = 1_000_000_000_000;

/// The digits of a number below 10 are that digit. From 10 up they are those of n / 10, and then n % 10.
pub fn digit_rule()
    ensures { DigitRule }
{}

/// A number right-justified in a column of 12, with spaces before it; nothing where it has more digits.
pub fn column(n: u64) -> Option<[u8; 12]>
    ensures fits { n < 10 ^ 12 → result ≡ Some (in_column n) }
    ensures wide { 10 ^ 12 ≤ n → result ≡ None }
{
    if n >= TOO_WIDE {
        return None;
    }
    Some(justified(n))
}

// From the right, until no digit is left. By hand, since `format!` takes memory from the heap;
// by index, since a proof does not know what is written through `iter_mut().rev()`.
fn justified(n: u64) -> [u8; 12]
    requires { n < 10 ^ 12 }
    ensures { result ≡ in_column n }
{
    let mut column = [b' '; 12];
    let mut left = n;
    for at in (0..12).rev() {
        column[at] = b'0' + (left % 10) as u8;
        left /= 10;
        if left == 0 {
            break;
        }
    }
    column
}

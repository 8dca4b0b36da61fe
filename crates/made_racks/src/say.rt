// Sums that stand for many numbers in a line.
ghost use Rattle.std.specs.Prelude.{◌<◌};

// A sum with one more number in it.
fn added(sum: u32, x: u64) -> u32
    requires { sum < 65521 }
    ensures { result < 65521 }
{
    (31 * sum + (x % 65521) as u32) % 65521
}

// A sum of numbers, 0 where all are 0.
pub fn sum<T: Copy + Into<u64>>(numbers: &[T]) -> u32 {
    let mut sum = 0;
    for x in numbers {
        sum = added(sum, (*x).into());
    }
    sum
}

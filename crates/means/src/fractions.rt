// A total over a count, made as small as it goes by their greatest common divisor.
ghost use Rattle.std.specs.Prelude.{◌≡◌, ◌<◌};
ghost use Rattle.means.specs.Means.{greatest_common, mean_of};

// A mean: `total` things over `count` in lowest terms.
#[derive(Clone, Copy)]
pub struct Mean {
    pub total: u64,
    pub count: u64,
}

// The greatest number that divides both, as Euclid found it.
fn greatest_common(total: u64, count: u64) -> u64
    requires { 0 < count }
    ensures { result ≡ greatest_common total count }
{
    let (mut divisor, mut left) = (total, count);
    while left != 0 {
        (divisor, left) = (left, divisor % left);
    }
    divisor
}

// The mean of a total over so many; 0 and 1 where there are none.
pub fn mean_of(total: u64, count: u64) -> Mean
    ensures { result ≡ mean_of total count }
{
    if count == 0 {
        return Mean { total: 0, count: 1 };
    }
    let divisor = greatest_common(total, count);
    Mean {
        total: total / divisor,
        count: count / divisor,
    }
}

ghost use Rattle.std.specs.Prelude.{◌≡◌, ◌*◌, ◌<◌, ◌^◌, pos, ◌*ℤ◌, unsigned_abs};

/// A number so many times.
pub(crate) fn times(number: i128, by: u64) -> i128
    requires { unsigned_abs number * by < 2 ^ 127 }
    ensures { result ≡ number *ℤ pos by }
{
    number * i128::from(by)
}

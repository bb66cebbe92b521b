//! Steps of arithmetic whose results are known to fit.
ghost use Rattle.std.specs.Prelude.{◌≡◌, ◌+◌, ◌*◌, ◌^◌, ◌<◌, ◌≤◌, ◌+ℤ◌, ◌-ℤ◌, ◌*ℤ◌, unsigned_abs};

/// The product of two numbers.
pub fn product(a: i128, b: i128) -> i128
    requires { unsigned_abs a * unsigned_abs b < 2 ^ 126 }
    ensures value { result ≡ a *ℤ b }
    ensures size { unsigned_abs result ≤ unsigned_abs a * unsigned_abs b }
{
    a * b
}

/// A sum with one more product.
pub fn add_product(sum: i128, a: i128, b: i128) -> i128
    requires { unsigned_abs sum + unsigned_abs a * unsigned_abs b < 2 ^ 126 }
    ensures value { result ≡ sum +ℤ a *ℤ b }
    ensures size { unsigned_abs result ≤ unsigned_abs sum + unsigned_abs a * unsigned_abs b }
{
    let part = product(a, b);
    sum + part
}

/// The difference of two products, `a * b - c * d`.
pub fn cross_difference(a: i128, b: i128, c: i128, d: i128) -> i128
    requires { unsigned_abs a * unsigned_abs b + unsigned_abs c * unsigned_abs d < 2 ^ 126 }
    ensures value { result ≡ a *ℤ b -ℤ c *ℤ d }
    ensures size { unsigned_abs result ≤ unsigned_abs a * unsigned_abs b + unsigned_abs c * unsigned_abs d }
{
    let first = product(a, b);
    let second = product(c, d);
    first - second
}

// A table by a closure. Part of the record layer.
ghost use Rattle.std.specs.Prelude.{ℕ, ◌<◌, get_or};

// The table that has `f` of `k` at each entry `k`.
pub fn table_of<T: Copy, const N: usize, F: Fn(usize) -> T>(f: F) -> [T; N]
    requires { (0 < N) × ((k : ℕ) → k < N → F.pre f k) }
    ensures { (d : T) (k : ℕ) → k < N → F.post f k (get_or result k d) }
{
    let mut t = [f(0); N];
    for k in 1..N {
        t[k] = f(k);
    }
    t
}

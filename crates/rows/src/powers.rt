// The powers of two that are the levels of a row.
ghost use Rattle.std.specs.Prelude.{◌≡◌, suc, ◌<◌, ◌≤◌};
ghost use Rattle.plans.specs.Steps.{log2};

pub const POWERS: [usize; 13] = [1, 2, 4, 8, 16, 32, 64, 128, 256, 512, 1024, 2048, 4096];

// How many of the powers are not above `q`.
pub fn power_count(q: usize) -> usize
    requires { (0 < q) × (q ≤ 4097) }
    ensures { result ≡ suc (log2 12 q) }
{
    let mut count = 0;
    for power in POWERS {
        if power > q {
            break;
        }
        count += 1;
    }
    count
}

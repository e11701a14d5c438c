//! Division to the nearest whole number.
ghost use Rattle.std.specs.Prelude.{◌≡◌, ◌*◌, ◌^◌, ◌<◌, ◌≤◌, ◌↔◌, IsTrue, pos, int_lt};
ghost use Rattle.std.specs.Bool.{beq};
ghost use Rattle.operations.specs.Operations.{nearest, shared};

/// The first divided by the second to the nearest whole number, an exact half away from zero; 0 if the second is 0.
pub(crate) fn share(first: i32, second: i32) -> i32
    ensures { result ≡ shared first second }
{
    if second == 0 {
        return 0;
    }
    // 2^31 is no value, and is taken for -2^31: only -2^31 by -1 gives it.
    let size = nearest(first.unsigned_abs(), second.unsigned_abs()).cast_signed();
    if alike(first, second) {
        size
    } else {
        size.wrapping_neg()
    }
}

// Whether both are below 0, or neither is.
fn alike(first: i32, second: i32) -> bool
    ensures { result ≡ beq (int_lt first (pos 0)) (int_lt second (pos 0)) }
{
    (first < 0) == (second < 0)
}

fn nearest(size: u32, by: u32) -> u32
    requires divisor { (0 < by) × (by ≤ 2 ^ 31) }
    requires dividend { size ≤ 2 ^ 31 }
    ensures value { result ≡ nearest size by }
{
    let whole = size / by;
    if is_half(size % by, by) {
        whole + 1
    } else {
        whole
    }
}

// Whether what is left over is at least half of the divisor.
fn is_half(left: u32, by: u32) -> bool
    requires { left < by }
    ensures { IsTrue result ↔ (by ≤ 2 * left) }
{
    by - left <= left
}

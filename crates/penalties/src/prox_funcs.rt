// The proximal operator that L1 and L1PlusL2 share. Of a NaN no comparison is true, so without its own tests it would come out as 0.
ghost use Rattle.std.specs.Prelude.{◌≡◌};
ghost use Rattle.penalties.specs.Soft.{soft};

pub fn soft_thresholding(x: f64, threshold: f64) -> f64
    ensures { result ≡ soft x threshold }
{
    if x.is_nan() {
        return x;
    }
    if threshold.is_nan() {
        return threshold;
    }
    if x > threshold {
        x - threshold
    } else if x < -threshold {
        x + threshold
    } else {
        0.0
    }
}

// How many bytes a value takes.
ghost use Rattle.std.specs.Prelude.{◌≡◌};
ghost use Rattle.vecseg.specs.Payload.{width};

// Bytes of a value by its dtype; 0 where the dtype is not held.
pub fn width_of(dtype: u64) -> usize
    ensures { result ≡ width dtype }
{
    match dtype {
        0 => 4,
        3 => 1,
        4 => 1,
        _ => 0,
    }
}

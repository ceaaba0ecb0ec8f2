// Lists of numbers: where one stands, and whether one may follow another.
ghost use Rattle.std.specs.Prelude.{◌≡◌, leb};
ghost use Rattle.octets.specs.numbers.Numbers.{index_of, least_next};
ghost use Rattle.octets.specs.Options.{option_of};

// Where a number stands in a list.
pub fn index_of(ids: &[u64], x: u64) -> Option<usize>
    ensures { result ≡ option_of (index_of x ids.now) }
{
    for (i, y) in ids.iter().enumerate() {
        if *y == x {
            return Some(i);
        }
    }
    None
}

// Whether a number may follow the one before it: above that one, and any where none is before.
pub fn follows(prev: Option<u64>, next: u64) -> bool
    ensures { result ≡ leb (least_next prev) next }
{
    match prev {
        None => true,
        Some(before) => before < next,
    }
}

// Powers of two.
ghost use Rattle.std.specs.Prelude.{◌≡◌};
ghost use Rattle.memory_range.specs.Power.{is_power_of_two};

// Whether exactly one bit is set: neither 0 nor a number with another divisor than 2 passes.
pub fn is_power_of_two(alignment: u64) -> bool
    ensures { result ≡ is_power_of_two alignment }
{
    u64::count_ones(alignment) == 1
}

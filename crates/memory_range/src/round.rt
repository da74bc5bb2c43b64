// Rounding a length up to a multiple.
ghost use Rattle.std.specs.Prelude.{◌≡◌, ◌-◌};
ghost use Rattle.memory_range.specs.Round.{round_up, rounded_up};

// How much rounding adds: what is missing to the next multiple; nothing where the multiple is 0.
pub fn padding(length: u64, multiple: u64) -> u64
    ensures { result ≡ round_up multiple length - length }
{
    if multiple == 0 {
        return 0;
    }
    let past = length % multiple;
    if past == 0 {
        return 0;
    }
    multiple - past
}

// The length rounded up, or none where it is above every multiple that 64 bits hold. The only multiple
// of 0 is 0.
pub fn round_up(length: u64, multiple: u64) -> Option<u64>
    ensures { result ≡ rounded_up multiple length }
{
    if multiple == 0 && length != 0 {
        return None;
    }
    length.checked_add(padding(length, multiple))
}

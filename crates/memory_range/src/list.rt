// How many items slices of fields hold: as many as the shortest has elements.
ghost use Rattle.std.specs.Prelude.{◌≡◌, length};
ghost use Rattle.memory_range.specs.List.{ranges_of, tagged_of};

// How many ranges two slices hold.
pub fn range_count(starts: &[u64], ends: &[u64]) -> usize
    ensures { result ≡ length (ranges_of starts.now ends.now) }
{
    starts.len().min(ends.len())
}

// How many tagged ranges three slices hold.
pub fn tagged_count(starts: &[u64], ends: &[u64], tags: &[u32]) -> usize
    ensures { result ≡ length (tagged_of starts.now ends.now tags.now) }
{
    range_count(starts, ends).min(tags.len())
}

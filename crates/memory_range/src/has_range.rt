// What lists of ranges hold: items that have a range.
ghost use Rattle.std.specs.Prelude.{◌≡◌};
ghost use Rattle.memory_range.specs.HasRange.{range_of_tagged};

use super::range::{MemoryRange, TaggedRange};

pub trait HasRange {
    ghost use Rattle.memory_range.specs.declared.range.MemoryRange.{MemoryRange};
    ghost use Rattle.std.specs.Prelude.{◌<◌};
    ghost use Rattle.std.specs.Mem.{type_size};

    ghost range_in: { Self → MemoryRange };

    fn range(self) -> MemoryRange
        ensures { result ≡ range_in self };

    // So a slice of them has fewer than 2^63.
    ghost sized: { 0 < type_size Self.row };
}

impl HasRange for MemoryRange {
    ghost range_in = { λ r. r };

    ghost use Rattle.std.proofs.Common.{arith};

    ghost sized = { omega arith };

    fn range(self) -> MemoryRange {
        self
    }
}

impl HasRange for TaggedRange {
    ghost range_in = { range_of_tagged };

    ghost use Rattle.std.proofs.Common.{arith};

    ghost sized = { omega arith };

    fn range(self) -> MemoryRange {
        self.range
    }
}

// The lists of a plan, each written line by line from a place of the output on.
ghost use Rattle.std.specs.Prelude.{length};
ghost use Rattle.address_space.specs.Table.{entries_of};
ghost use Rattle.plan.specs.Line.{Room, Wrote};
ghost use Rattle.plan.specs.Write.{ram_lines, pool_lines, map_lines};

use crate::line::{OutputLine, put_lines};
use address_space::{AddressSpaceManager, AllocatedRange};
use memory_range::TaggedRange;

pub(crate) fn write_ram_lines(output: &mut [u8], at: usize, ram: &[TaggedRange]) -> usize
    requires { Room (length (ram_lines ram.now)) at output.old }
    ensures { Wrote (ram_lines ram.now) at output.old output.new result }
{
    let lines = ram
        .iter()
        .map(|piece| OutputLine::Ram(piece.range, piece.tag));
    put_lines(output, at, lines)
}

pub(crate) fn write_pool_lines(output: &mut [u8], at: usize, ranges: &[AllocatedRange]) -> usize
    requires { Room (length (pool_lines ranges.now)) at output.old }
    ensures { Wrote (pool_lines ranges.now) at output.old output.new result }
{
    let lines = ranges
        .iter()
        .map(|piece| OutputLine::Pool(piece.range, piece.vnode));
    put_lines(output, at, lines)
}

// Touching ranges of one type are joined.
pub(crate) fn write_map_lines(output: &mut [u8], at: usize, manager: AddressSpaceManager) -> usize
    requires { Room (length (map_lines (entries_of manager))) at output.old }
    ensures { Wrote (map_lines (entries_of manager)) at output.old output.new result }
{
    let list = manager.all_vtl2_ranges();
    let lines = list.ranges[..list.count]
        .iter()
        .map(|found| OutputLine::Map(found.range, found.vtl_type));
    put_lines(output, at, lines)
}

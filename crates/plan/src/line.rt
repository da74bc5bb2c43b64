// The lines of a plan.
ghost use Rattle.std.specs.Prelude.{◌≡◌, [], ◌∷◌, length};
ghost use Rattle.std.specs.Iterator.{Drains, HoldsAlong, IsFinite};
ghost use Rattle.plan_output.specs.Line.{written};
ghost use Rattle.plan.specs.Line.{line_bytes, Room, Wrote};

use host_params::MemoryVtlType;
use memory_range::MemoryRange;
use plan_output::{LINE_SIZE, put_word, write_got, write_map, write_no, write_pool, write_ram};
use refusal::Refusal;

#[derive(Clone, Copy)]
pub enum OutputLine {
    Ram(MemoryRange, u32),
    Pool(MemoryRange, u32),
    Got(MemoryRange, u32),
    No(Refusal),
    Map(MemoryRange, MemoryVtlType),
}

fn write_line(buffer: &mut [u8; LINE_SIZE], line: OutputLine) -> usize
    ensures value { result ≡ length (line_bytes line) }
    ensures buffer_after { buffer.new ≡ written (line_bytes line) buffer.old }
{
    match line {
        OutputLine::Ram(range, node) => write_ram(buffer, range, node),
        OutputLine::Pool(range, node) => write_pool(buffer, range, node),
        OutputLine::Got(range, node) => write_got(buffer, range, node),
        OutputLine::No(refusal) => write_no(buffer, refusal.number()),
        OutputLine::Map(range, memory_type) => write_map(buffer, range, memory_type),
    }
}

// Puts a line at a place of the output, where it has room, and answers the place behind it.
pub(crate) fn put_line(output: &mut [u8], at: usize, line: OutputLine) -> usize
    requires { Room 1 at output.old }
    ensures { Wrote (line ∷ []) at output.old output.new result }
{
    let mut buffer = [0u8; LINE_SIZE];
    let len = write_line(&mut buffer, line);
    put_word(output, at, &buffer[..len]).unwrap()
}

// Puts lines one behind the other, and answers the place behind the last.
pub(crate) fn put_lines<I: Iterator<Item = OutputLine> + Drop>(
    output: &mut [u8],
    at: usize,
    lines: I,
) -> usize
    requires can { I.can_next lines }
    requires ends { IsFinite (I.remaining lines) }
    requires room { HoldsAlong I.next_gives lines (λ ls. Room (length ls) at output.old) }
    ensures { (ls : _) × Drains I.next_gives lines ls × Wrote ls at output.old output.new result }
{
    let mut next = at;
    for line in lines {
        next = put_line(output, next, line);
    }
    next
}

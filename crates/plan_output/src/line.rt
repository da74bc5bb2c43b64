// The five kinds of output line, each written at the start of a lent line buffer.
ghost use Rattle.std.specs.Prelude.{◌≡◌, ◌+◌, ◌≤◌, length};
ghost use Rattle.plan_output.specs.Number.{hex_of};
ghost use Rattle.plan_output.specs.Line.{range_line, ram_line, pool_line, got_line, no_line, type_word, map_line, written};

use super::put::{hex_digits, put_field, put_number_field};
use host_params::MemoryVtlType;
use memory_range::MemoryRange;
use plan_fields::{NEWLINE, TAB};

// The bytes of the longest line: `map`, two numbers of 16 digits, a type of 13 letters, and the byte
// behind each of the four.
pub const LINE_SIZE: usize = 3 + 1 + 16 + 1 + 16 + 1 + 13 + 1;

// A line of a word, a range and a last field.
fn write_range_line(
    buffer: &mut [u8; LINE_SIZE],
    word: &[u8],
    range: MemoryRange,
    last: &[u8],
) -> usize
    requires { length word.now + length last.now ≤ 16 }
    ensures value { result ≡ length (range_line word.now range last.now) }
    ensures buffer_after { buffer.new ≡ written (range_line word.now range last.now) buffer.old }
{
    let start_at = put_field(buffer, 0, word, TAB);
    let end_at = put_number_field(buffer, start_at, range.start, TAB);
    let last_at = put_number_field(buffer, end_at, range.end, TAB);
    put_field(buffer, last_at, last, NEWLINE)
}

// A line of a word, a range and a node.
fn write_node_line(
    buffer: &mut [u8; LINE_SIZE],
    word: &[u8],
    range: MemoryRange,
    node: u32,
) -> usize
    requires { length word.now ≤ 4 }
    ensures value { result ≡ length (range_line word.now range (hex_of node)) }
    ensures buffer_after { buffer.new ≡ written (range_line word.now range (hex_of node)) buffer.old }
{
    let mut digits = [0u8; 16];
    let count = hex_digits(u64::from(node), &mut digits);
    write_range_line(buffer, word, range, &digits[..count])
}

pub fn write_ram(buffer: &mut [u8; LINE_SIZE], range: MemoryRange, node: u32) -> usize
    ensures value { result ≡ length (ram_line range node) }
    ensures buffer_after { buffer.new ≡ written (ram_line range node) buffer.old }
{
    write_node_line(buffer, b"ram", range, node)
}

pub fn write_pool(buffer: &mut [u8; LINE_SIZE], range: MemoryRange, node: u32) -> usize
    ensures value { result ≡ length (pool_line range node) }
    ensures buffer_after { buffer.new ≡ written (pool_line range node) buffer.old }
{
    write_node_line(buffer, b"pool", range, node)
}

pub fn write_got(buffer: &mut [u8; LINE_SIZE], range: MemoryRange, node: u32) -> usize
    ensures value { result ≡ length (got_line range node) }
    ensures buffer_after { buffer.new ≡ written (got_line range node) buffer.old }
{
    write_node_line(buffer, b"got", range, node)
}

// The line of a refusal, whose number stands in decimal.
pub fn write_no(buffer: &mut [u8; LINE_SIZE], refusal: u8) -> usize
    ensures value { result ≡ length (no_line refusal) }
    ensures buffer_after { buffer.new ≡ written (no_line refusal) buffer.old }
{
    let mut digits = [0u8; 20];
    let count = io::decimal(u64::from(refusal), &mut digits);
    let at = put_field(buffer, 0, b"no", TAB);
    put_field(buffer, at, &digits[..count], NEWLINE)
}

fn type_word(memory_type: MemoryVtlType) -> &'static [u8]
    ensures { result.now ≡ type_word memory_type }
{
    match memory_type {
        MemoryVtlType::Ram => b"ram",
        MemoryVtlType::Config => b"config",
        MemoryVtlType::SidecarImage => b"sidecar-image",
        MemoryVtlType::SidecarNode => b"sidecar-node",
        MemoryVtlType::Reserved => b"reserved",
        MemoryVtlType::GpaPool => b"pool",
        MemoryVtlType::TdxPageTables => b"tdx-tables",
        MemoryVtlType::BootshimLogBuffer => b"log",
        MemoryVtlType::PersistedStateHeader => b"state-header",
        MemoryVtlType::PersistedStatePayload => b"state-payload",
    }
}

pub fn write_map(
    buffer: &mut [u8; LINE_SIZE],
    range: MemoryRange,
    memory_type: MemoryVtlType,
) -> usize
    ensures value { result ≡ length (map_line range memory_type) }
    ensures buffer_after { buffer.new ≡ written (map_line range memory_type) buffer.old }
{
    write_range_line(buffer, b"map", range, type_word(memory_type))
}

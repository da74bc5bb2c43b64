// A line as a record. Four records have fields of their own; the other ten have a start and an end.
ghost use Rattle.std.specs.Prelude.{◌≡◌, ◌+◌, length, drop};
ghost use Rattle.plan_fields.specs.Cut.{tab, split_on, first_part, first_of};
ghost use Rattle.plan_fields.specs.Number.{number_of};
ghost use Rattle.plan_record.specs.Value.{optional_of};
ghost use Rattle.plan_record.specs.Record.{Taken, line_of, record_for, shape_of, mem_of, pool_of, get_of, range_of, forms, range_by};

use super::value::{
    first_optional, read_entry_type, read_isolation, read_kind, read_mode, read_node,
    read_optional, read_optional_node, read_policy, read_pool_config, read_split,
};
use host_params::{
    AllocationPolicy, AllocationType, IsolationType, MemoryAllocationMode, MemoryEntry,
    Vtl2GpaPoolConfig,
};
use memory_range::MemoryRange;
use plan_fields::{TAB, first_number, first_part, later_parts, read_number, same_bytes};

#[derive(Clone, Copy)]
pub struct Shape {
    pub mode: MemoryAllocationMode,
    pub isolation: IsolationType,
    pub memory_size: Option<u64>,
}

#[derive(Clone, Copy)]
pub struct Pool {
    pub config: Vtl2GpaPoolConfig,
    pub host_pages: Option<u64>,
    pub processors: u64,
    pub split: bool,
}

#[derive(Clone, Copy)]
pub struct Get {
    pub required_vnode: Option<u32>,
    pub len: u64,
    pub allocation_policy: AllocationPolicy,
    pub allocation_type: AllocationType,
    pub alignment: Option<u64>,
}

// A line's record with its values, named by its first word.
#[derive(Clone, Copy)]
pub enum Record {
    Shape(Shape),
    File(MemoryRange),
    Mem(MemoryEntry),
    Import(MemoryRange),
    Used(MemoryRange),
    State(MemoryRange),
    Config(MemoryRange),
    Keep(MemoryRange),
    Side(MemoryRange),
    Tables(MemoryRange),
    Log(MemoryRange),
    Gpool(MemoryRange),
    Pool(Pool),
    Get(Get),
}

// The readers below are given the fields behind the word. They cut fields off from the front, and take
// all that is left for the last. No field may be empty or hold a tab, so a line with a field too few or
// too many breaks the form of a field, and they need not be counted.

// The first field, and the fields behind it.
fn cut(fields: &[u8]) -> (&[u8], &[u8])
    ensures field { result.0.now ≡ first_part tab fields.now }
    ensures behind { result.1.now ≡ drop (length result.0.now + 1) fields.now }
{
    let field = first_part(fields, TAB);
    (field, later_parts(fields, field.len()))
}

// The number that the first field spells, and the fields behind it.
fn number(fields: &[u8]) -> Option<(u64, &[u8])>
    ensures { Taken (first_of number_of fields.now) fields.now result }
{
    let (value, size) = first_number(fields)?;
    Some((value, later_parts(fields, size)))
}

// The same of a number, or `-`.
fn optional(fields: &[u8]) -> Option<(Option<u64>, &[u8])>
    ensures { Taken (first_of optional_of fields.now) fields.now result }
{
    let (value, size) = first_optional(fields)?;
    Some((value, later_parts(fields, size)))
}

fn read_shape(fields: &[u8]) -> Option<Record>
    ensures { result ≡ shape_of (split_on tab fields.now) }
{
    let (field, fields) = cut(fields);
    let mode = read_mode(field)?;
    let (field, fields) = cut(fields);
    let isolation = read_isolation(field)?;
    let memory_size = read_optional(fields)?;
    Some(Record::Shape(Shape {
        mode,
        isolation,
        memory_size,
    }))
}

fn read_range(fields: &[u8]) -> Option<MemoryRange>
    ensures { result ≡ range_of (split_on tab fields.now) }
{
    let (start, fields) = number(fields)?;
    let end = read_number(fields)?;
    Some(MemoryRange { start, end })
}

fn read_mem(fields: &[u8]) -> Option<Record>
    ensures { result ≡ mem_of (split_on tab fields.now) }
{
    let (start, fields) = number(fields)?;
    let (end, fields) = number(fields)?;
    let (node, fields) = number(fields)?;
    let vnode = read_node(node)?;
    let mem_type = read_entry_type(fields)?;
    Some(Record::Mem(MemoryEntry {
        range: MemoryRange { start, end },
        vnode,
        mem_type,
    }))
}

fn read_pool(fields: &[u8]) -> Option<Record>
    ensures { result ≡ pool_of (split_on tab fields.now) }
{
    let (kind, fields) = cut(fields);
    let (pages, fields) = cut(fields);
    let config = read_pool_config(kind, pages)?;
    let (host_pages, fields) = optional(fields)?;
    let (processors, fields) = number(fields)?;
    let split = read_split(fields)?;
    Some(Record::Pool(Pool {
        config,
        host_pages,
        processors,
        split,
    }))
}

fn read_get(fields: &[u8]) -> Option<Record>
    ensures { result ≡ get_of (split_on tab fields.now) }
{
    let (node, fields) = optional(fields)?;
    let required_vnode = read_optional_node(node)?;
    let (len, fields) = number(fields)?;
    let (policy, fields) = cut(fields);
    let allocation_policy = read_policy(policy)?;
    let (kind, fields) = cut(fields);
    let allocation_type = read_kind(kind)?;
    let alignment = read_optional(fields)?;
    Some(Record::Get(Get {
        required_vnode,
        len,
        allocation_policy,
        allocation_type,
        alignment,
    }))
}

// The record of a word whose fields are a start and an end.
fn range_record(word: &[u8], range: MemoryRange) -> Option<Record>
    ensures { result ≡ range_by forms word.now range }
{
    if same_bytes(word, b"file") {
        return Some(Record::File(range));
    }
    if same_bytes(word, b"import") {
        return Some(Record::Import(range));
    }
    if same_bytes(word, b"used") {
        return Some(Record::Used(range));
    }
    if same_bytes(word, b"state") {
        return Some(Record::State(range));
    }
    if same_bytes(word, b"config") {
        return Some(Record::Config(range));
    }
    if same_bytes(word, b"keep") {
        return Some(Record::Keep(range));
    }
    if same_bytes(word, b"side") {
        return Some(Record::Side(range));
    }
    if same_bytes(word, b"tables") {
        return Some(Record::Tables(range));
    }
    if same_bytes(word, b"log") {
        return Some(Record::Log(range));
    }
    if same_bytes(word, b"gpool") {
        return Some(Record::Gpool(range));
    }
    None
}

// The record that a word and the fields behind it make. Tests in turn: of a `match` on the bytes the check
// did not find the cases.
fn read_record(word: &[u8], fields: &[u8]) -> Option<Record>
    ensures { result ≡ record_for word.now (split_on tab fields.now) }
{
    if same_bytes(word, b"shape") {
        return read_shape(fields);
    }
    if same_bytes(word, b"mem") {
        return read_mem(fields);
    }
    if same_bytes(word, b"pool") {
        return read_pool(fields);
    }
    if same_bytes(word, b"get") {
        return read_get(fields);
    }
    range_record(word, read_range(fields)?)
}

// The record of a line, which is given without its newline.
pub fn read_line(line: &[u8]) -> Option<Record>
    ensures { result ≡ line_of line.now }
{
    let (word, fields) = cut(line);
    read_record(word, fields)
}

// The two records that hold neither a range nor an entry of the map, and stand once.
ghost use Rattle.std.specs.Prelude.{◌≡◌};
ghost use Rattle.plan_text.specs.Plan.{held_by, shape_held, pool_held};
ghost use Rattle.plan_input.specs.Record.{records_at, behind_one, SameCheck, Moved};
ghost use Rattle.plan_input.specs.Once.{first_or, no_shape, no_pool, shape_first, pool_first};

use crate::word::Cursor;
use host_params::{IsolationType, MemoryAllocationMode, Vtl2GpaPoolConfig};
use plan_record::{Pool, Record, Shape};

#[derive(Clone, Copy)]
pub struct PoolRead {
    pub pool: Pool,
    pub next: usize,
    pub order: u8,
}

fn shape_in(record: Record) -> Shape
    ensures { result ≡ first_or no_shape (shape_held (held_by «record»)) }
{
    match record {
        Record::Shape(shape) => shape,
        _ => no_shape(),
    }
}

fn no_shape() -> Shape
    ensures { result ≡ no_shape }
{
    Shape {
        mode: MemoryAllocationMode::Host,
        isolation: IsolationType::None,
        memory_size: None,
    }
}

impl Cursor {
    pub(crate) fn read_shape(&mut self, text: &[u8]) -> Shape
        ensures value { result ≡ shape_first (records_at text.now self.old.at) }
        ensures moved { Moved text.now self.old self.new (behind_one (records_at text.now self.old.at)) }
    {
        let Some((record, behind)) = self.step(text) else {
            return no_shape();
        };
        *self = behind;
        shape_in(record)
    }
}

fn no_pool() -> Pool
    ensures { result ≡ no_pool }
{
    Pool {
        config: Vtl2GpaPoolConfig::Off,
        host_pages: None,
        processors: 0,
        split: false,
    }
}

fn pool_in(record: Record) -> Pool
    ensures { result ≡ first_or no_pool (pool_held (held_by «record»)) }
{
    match record {
        Record::Pool(pool) => pool,
        _ => no_pool(),
    }
}

// The pool record at a place of the text.
pub fn read_pool(text: &[u8], at: usize, order: u8) -> PoolRead
    ensures { let bytes = text.now in
        let records = records_at bytes at in (result.pool ≡ pool_first records)
        × (records_at bytes result.next ≡ behind_one records)
        × SameCheck bytes order at result.order result.next }
{
    let cursor = Cursor { at, order };
    match cursor.step(text) {
        Some((record, behind)) => PoolRead {
            pool: pool_in(record),
            next: behind.at,
            order: behind.order,
        },
        None => PoolRead {
            pool: no_pool(),
            next: at,
            order,
        },
    }
}

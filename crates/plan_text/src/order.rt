// The order of the records of a text, judged one by one.
ghost use Rattle.std.specs.Prelude.{◌≡◌};
ghost use Rattle.plan_text.specs.Order.{place_of};
ghost use Rattle.plan_text.specs.OrderStep.{greatest_place, repeats, order_after};

use plan_record::Record;

// The order is the least place that the next record may have; this one, once it is broken. It is a number,
// since the definitions compare and count places.
pub(crate) const BROKEN: u8 = 15;

// The order that a text must leave: behind the pool record, where only get records may follow.
pub(crate) const COMPLETE: u8 = 13;

// The place of the record's word among the fourteen words.
pub fn record_place(record: Record) -> u8
    ensures { result ≡ place_of «record» }
{
    match record {
        Record::Shape(_) => 0,
        Record::File(_) => 1,
        Record::Mem(_) => 2,
        Record::Import(_) => 3,
        Record::Used(_) => 4,
        Record::State(_) => 5,
        Record::Config(_) => 6,
        Record::Keep(_) => 7,
        Record::Side(_) => 8,
        Record::Tables(_) => 9,
        Record::Log(_) => 10,
        Record::Gpool(_) => 11,
        Record::Pool(_) => 12,
        Record::Get(_) => 13,
    }
}

// The greatest place that the next record may have: the next word that must stand once is not passed
// over.
fn greatest_place(order: u8) -> u8
    ensures { result ≡ greatest_place order }
{
    match order {
        0 => 0,
        1 => 1,
        2..=4 => 4,
        5 => 5,
        6..=12 => 12,
        _ => 13,
    }
}

// Whether the word at that place may stand any number of times.
fn may_repeat(place: u8) -> bool
    ensures { result ≡ repeats place }
{
    matches!(place, 2 | 3 | 6 | 11 | 13)
}

// The order after a record. At the start of a text it is 0.
#[tactic(auto, unfolding(crate::specs::OrderStep::order_after))]
pub fn order_after(order: u8, record: Record) -> u8
    ensures { result ≡ order_after order (place_of «record») }
{
    let place = record_place(record);
    if place < order {
        return BROKEN;
    }
    if greatest_place(order) < place {
        return BROKEN;
    }
    if may_repeat(place) {
        return place;
    }
    place + 1
}

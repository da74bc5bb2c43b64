// Reading on from record to record: the steps that single records and lists are read by.
ghost use Rattle.std.specs.Prelude.{◌≡◌};
ghost use Rattle.plan_input.specs.Record.{records_at, Stepped, Moved};
ghost use Rattle.plan_input.specs.Word.{word_first, behind_word};

use plan_record::Record;
use plan_text::{next_record, order_after, record_place};

// The place of the record that is read next, and the order that those before it leave.
#[derive(Clone, Copy)]
pub(crate) struct Cursor {
    pub at: usize,
    pub order: u8,
}

impl Cursor {
    // The record here and the cursor behind it.
    pub(crate) fn step(self, text: &[u8]) -> Option<(Record, Cursor)>
        ensures { Stepped text.now self result }
    {
        let (record, at) = next_record(text, self.at).ok()??;
        let order = order_after(self.order, record);
        Some((record, Cursor { at, order }))
    }

    // The record here, if its word has the given place among the fourteen words; only then it is passed.
    pub(crate) fn read_word(&mut self, text: &[u8], place: u8) -> Option<Record>
        ensures value { result ≡ word_first place (records_at text.now self.old.at) }
        ensures moved { Moved text.now self.old self.new (behind_word place (records_at text.now self.old.at)) }
    {
        let (record, behind) = self.step(text)?;
        if record_place(record) != place {
            return None;
        }
        *self = behind;
        Some(record)
    }
}

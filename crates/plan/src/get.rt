// The requests of a plan text, answered as they are read.
ghost use Rattle.std.specs.Prelude.{◌≡◌, length};
ghost use Rattle.address_space.specs.Request.{allocation_as};
ghost use Rattle.address_space.specs.Table.{entries_of};
ghost use Rattle.plan_text.specs.Plan.{held_by, get_held};
ghost use Rattle.plan_input.specs.Record.{records_at};
ghost use Rattle.plan_input.specs.Input.{gets_first};
ghost use Rattle.plan.specs.Line.{Room, Wrote};
ghost use Rattle.plan.specs.Get.{outcome_on, get_lines, after_gets, answer_line, get_step, get_stepped};

use crate::line::{OutputLine, put_line};
use address_space::{AddressSpaceManager, AllocatedRange};
use plan_record::{Get, Record};
use plan_text::next_record;
use refusal::Refusal;

fn get_in(record: Record, next: usize) -> Option<(Get, usize)>
    ensures { result ≡ get_step (get_held (held_by «record»)) next }
{
    match record {
        Record::Get(get) => Some((get, next)),
        _ => None,
    }
}

// The request at a place of the text, and the place behind it.
fn next_get(text: &[u8], at: usize) -> Option<(Get, usize)>
    ensures { gets_first (records_at text.now at) ≡ get_stepped text.now result }
{
    let (record, next) = next_record(text, at).ok()??;
    get_in(record, next)
}

// A request that finds no entry leaves the table, and so it is told from the others first, which spares it
// the copies of a table that is changed.
fn answer_get(manager: &mut AddressSpaceManager, get: Get) -> Result<AllocatedRange, Refusal>
    ensures { let asked = allocation_as manager.old get.allocation_type (outcome_on get (entries_of manager.old)) in (result ≡ asked.answer) × (manager.new ≡ asked.manager) }
{
    manager.check_request(
        get.required_vnode,
        get.len,
        get.allocation_policy,
        get.alignment,
    )?;
    match get.alignment {
        None => manager.allocate(
            get.required_vnode,
            get.len,
            get.allocation_type,
            get.allocation_policy,
        ),
        Some(alignment) => manager.allocate_aligned(
            get.required_vnode,
            get.len,
            get.allocation_type,
            get.allocation_policy,
            alignment,
        ),
    }
}

fn answer_line(answer: Result<AllocatedRange, Refusal>) -> OutputLine
    ensures { result ≡ answer_line answer }
{
    match answer {
        Ok(handed) => OutputLine::Got(handed.range, handed.vnode),
        Err(refusal) => OutputLine::No(refusal),
    }
}

// Each request is answered on the table that the last one left. Answers the place behind their lines.
pub(crate) fn answer_gets(
    text: &[u8],
    from: usize,
    manager: &mut AddressSpaceManager,
    output: &mut [u8],
    at: usize,
) -> usize
    requires { let requests = gets_first (records_at text.now from) in
        Room (length (get_lines requests (entries_of manager.old))) at output.old }
    ensures { let requests = gets_first (records_at text.now from) in Wrote (get_lines requests (entries_of manager.old)) at output.old output.new result
        × (entries_of manager.new ≡ after_gets requests (entries_of manager.old)) }
{
    let mut next = at;
    let mut place = from;
    while let Some((get, behind)) = next_get(text, place) {
        let answer = answer_get(manager, get);
        next = put_line(output, next, answer_line(answer));
        place = behind;
    }
    next
}

// The plan of a text.
ghost use Rattle.std.specs.Prelude.{◌≡◌};
ghost use Rattle.plan.specs.Planner.{output_size_for, planned_to, output_to};
ghost use Rattle.table_words.specs.Code.{done_of};
ghost use Rattle.bootplan_c.specs.Planning.{call_error, plan_call, plan_code, length_or};

use plan::PlanError;
use table_words::{CallError, code_of};

// So many bytes suffice for the plan of every text of that many bytes.
#[unsafe(no_mangle)]
pub extern "C" fn bootplan_output_size(text_len: usize) -> usize
    ensures { result ≡ output_size_for text_len }
{
    plan::output_size(text_len)
}

fn call_error(error: PlanError) -> CallError
    ensures { result ≡ call_error error }
{
    match error {
        PlanError::Refused(refusal) => CallError::Refused(refusal),
        PlanError::NoRoom => CallError::NoRoom,
    }
}

fn plan_to(text: &[u8], output: &mut [u8], written: &mut usize) -> Result<(), CallError>
    ensures value { result ≡ done_of (plan_call (planned_to text.now output.old)) }
    ensures output_after { output.new ≡ output_to text.now output.old }
    ensures written_after { written.new ≡ length_or (planned_to text.now output.old) written.old }
{
    let len = plan::plan_to(text, output).map_err(call_error)?;
    *written = len;
    Ok(())
}

// Writes the plan of a text at the start of the output, and its length to `written`. Anything but 0
// leaves both as found.
#[unsafe(no_mangle)]
pub extern "C" fn bootplan_plan(text: &[u8], output: &mut [u8], written: &mut usize) -> u8
    ensures value { result ≡ plan_code (planned_to text.now output.old) }
    ensures output_after { output.new ≡ output_to text.now output.old }
    ensures written_after { written.new ≡ length_or (planned_to text.now output.old) written.old }
{
    code_of(plan_to(text, output, written))
}

// Reads a plan text on standard input and writes its plan.
#![tactic(auto)]

ghost use Rattle.std.specs.Prelude.{◌≤◌, length, IfSome, OnOk};
ghost use Rattle.std.specs.Io.KnownBytes.{Appends};
ghost use Rattle.plan.specs.Planner.{plan_of};
ghost use Rattle.bootplan.specs.Input.{bytes_in, ReadsFirst};
ghost use Rattle.bootplan.specs.Output.{plan_bytes, output_for};

use plan::{OUTPUT_SIZE, plan};
use plan_output::{LINE_SIZE, write_no};
use plan_text::TEXT_SIZE;
use std::io;
use std::io::{Read, Write};

// One byte more than a text may have, so that a text that is too long shows.
const INPUT_SIZE: usize = TEXT_SIZE + 1;

// Why there is no plan, or not all of it.
#[derive(Clone, Copy)]
enum Failure {
    Input,
    Output,
}

// Reads to the end of the input, or until the buffer is full, and answers how many bytes were read. The
// library reads so far only into a list on the heap.
fn read_input<R: Read>(input: &mut R, buffer: &mut [u8]) -> Result<usize, Failure>
    ensures within { bytes_in result ≤ length buffer.new }
    ensures text { IfSome (R.remaining input.old) (ReadsFirst result buffer.new) }
{
    let mut len = 0;
    while len < buffer.len() {
        match input.read(&mut buffer[len..]) {
            Ok(0) => return Ok(len),
            Ok(more) => len += more,
            Err(_) => return Err(Failure::Input),
        }
    }
    Ok(len)
}

// Writes the plan of a text, or the line of its refusal.
fn write_plan<W: Write>(output: &mut W, text: &[u8]) -> io::Result<()>
    ensures { OnOk result (Appends (W.contents output.old) (W.contents output.new) (plan_bytes (plan_of text.now))) }
{
    let mut buffer = [0u8; OUTPUT_SIZE];
    match plan(text, &mut buffer) {
        Ok(len) => output.write_all(&buffer[..len]),
        Err(refusal) => {
            let mut line = [0u8; LINE_SIZE];
            let len = write_no(&mut line, refusal.number());
            output.write_all(&line[..len])
        }
    }
}

// Reads a text and writes its plan.
fn run<R: Read, W: Write>(input: &mut R, output: &mut W) -> Result<(), Failure>
    ensures { OnOk result (IfSome (R.remaining input.old) (λ given.
        Appends (W.contents output.old) (W.contents output.new) (output_for given))) }
{
    let mut buffer = [0u8; INPUT_SIZE];
    let len = read_input(input, &mut buffer)?;
    write_plan(output, &buffer[..len]).map_err(|_| Failure::Output)
}

// Where nothing can be said on standard error either, nothing is said.
fn say(rt: &impl Eprint, what: &str) {
    let _ = rt.eprintln(what);
}

fn main(rt: HostRuntime) {
    match run(&mut rt.stdin(), &mut io::writer(&rt)) {
        Ok(()) => {}
        Err(Failure::Input) => say(&rt, "bootplan: the input could not be read"),
        Err(Failure::Output) => say(&rt, "bootplan: the output could not be written"),
    }
}

// Prints the states of the program that standard input holds: a line each, up to a halt, a stop or 4,096 states, and a last
// line with A, PC and the number of states. With an argument, standard input is an Intel HEX text.
#![tactic(auto)]

ghost use Rattle.std.specs.Prelude.{◌<◌, ◌≤◌, length, take, IfOk};
ghost use Rattle.std.specs.Io.KnownBytes.{Consumes, IsAtEnd};
ghost use Rattle.print_states.specs.Printed.{Printed};

use intel_hex::answer::Fault;
use machine::record::Machine;
use run::{Asked, ran};
use std::env::{Env, FillError};
use std::io;
use std::io::Read;

// Runs the machine from cold over a memory, with all ports 0 and no events, and writes its listing into out; its length.
fn print(memory: &mut [u8], out: &mut [u8]) -> usize
    ensures { Printed memory.old out.old result memory.new out.new }
{
    let mut outputs = [0; 256];
    let mut trace = [0; 32768];
    let asked = Asked {
        machine: Machine::cold(),
        states: 4096,
    };
    let after = ran(run::run(asked, memory, &[0; 256], &mut outputs, &[], &mut trace));
    let regs = after.machine.regs;
    listing::listing(out, &trace, after.states, regs.a, regs.pc)
}

// Prints the states of what memory holds. A listing has 155,689 characters at most.
fn show(rt: &impl Print, memory: &mut [u8]) -> io::Result<()> {
    let mut out = [0; 163840];
    let n = print(memory, &mut out);
    rt.write_all(&out[..n])
}

// Reads until buf is full or the input ends, into the start of buf; the number of bytes. In std, `read_to_end` needs a `Vec`, on
// the heap, and `read_exact` refuses an input that ends before.
fn read_full<R: Read>(input: &mut R, buf: &mut [u8]) -> io::Result<usize>
    ensures within { IfOk result (λ n. n ≤ length buf.new) }
    ensures bytes { IfOk result (λ n. Consumes (R.remaining input.old) (R.remaining input.new) (take n buf.new)) }
    ensures whole { IfOk result (λ n. n < length buf.new → IsAtEnd (R.remaining input.new)) }
{
    let mut done = 0;
    while done < buf.len() {
        let n = input.read(&mut buf[done..])?;
        if n == 0 {
            return Ok(done);
        }
        done += n;
    }
    Ok(done)
}

// The first 4,096 bytes of standard input go to address 0 of a zeroed memory.
fn show_program(rt: &impl Print, input: &mut impl Read) -> io::Result<()> {
    let mut memory = [0; 65536];
    read_full(input, &mut memory[..4096])?;
    show(rt, &mut memory)
}

// Says why a text is refused, on standard error. (Printed here alone, so no Display.)
fn refuse(rt: &impl Eprint, fault: Fault) -> io::Result<()> {
    let Fault { reason, line } = fault;
    let number = u8::from(reason);
    if line > 0 {
        eprintln!(rt; "print_states: refused {number} in line {line}")
    } else {
        eprintln!(rt; "print_states: refused {number}")
    }
}

// The records of the text on standard input go into a zeroed memory; where the text is refused, nothing is printed.
// A text of the whole memory in records of 8 bytes has 237,581 characters.
fn show_hex(rt: &(impl Print + Eprint), input: &mut impl Read) -> io::Result<()> {
    let mut text = [0; 262144];
    let n = read_full(input, &mut text)?;
    if n == text.len() {
        return eprintln!(rt; "print_states: the text has 262,144 characters or more");
    }
    let mut memory = [0; 65536];
    match intel_hex::read(&text[..n], &mut memory) {
        Ok(()) => show(rt, &mut memory),
        Err(fault) => refuse(rt, fault),
    }
}

// Whether the program was given an argument.
fn has_argument(rt: &HostRuntime) -> bool {
    !matches!(rt.arg(1, &mut [0; 1]), Err(FillError::NotPresent))
}

fn main(rt: HostRuntime) -> io::Result<()> {
    if has_argument(&rt) {
        show_hex(&rt, &mut rt.stdin())
    } else {
        show_program(&rt, &mut rt.stdin())
    }
}

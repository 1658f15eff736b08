// Reading an input and printing its answer.
ghost use Rattle.program.specs.Fault.{status_of};
ghost use Rattle.std.specs.Prelude.{◌≡◌, IfOk, List, ℕ, Result, String};
ghost use Rattle.std.specs.Process.{exit_status};
ghost use Rattle.std.specs.declared.alloc.Global.{Global};

use crate::fault::InputFault;
use std::alloc::{AllocGlobal, Global};
use std::fmt::Display;
use std::io;
use std::io::Read;
use std::process::ExitCode;

// Prints the answer, or one line on standard error with the program's name and the fault.
fn print<F: Display + Drop>(
    rt: &(impl Print + Eprint),
    program: &str,
    answer: Result<String, InputFault<F>>,
) -> io::Result<ExitCode>
    ensures { IfOk result (λ code. exit_status code ≡ status_of answer) }
{
    match answer {
        Ok(text) => {
            print!(rt; "{text}")?;
            Ok(ExitCode::SUCCESS)
        }
        Err(fault) => {
            eprintln!(rt; "{program}: {fault}")?;
            Ok(ExitCode::FAILURE)
        }
    }
}

/// Reads all of standard input and prints what it is answered, or one line on standard error with the program's name and the fault. The status is 0
/// where there is an answer, and else 1.
pub fn run<F: Display + Drop, A: FnOnce(Global, &[u8]) -> Result<String, InputFault<F>>>(
    rt: &(impl Input + Print + Eprint + AllocGlobal),
    program: &str,
    answer: A,
) -> io::Result<ExitCode>
    requires { A.IsAlwaysCallable answer }
    ensures { IfOk result (λ code. (heap : _) × (input : _) × (given : _) × A.post answer heap input given × (exit_status code ≡ status_of given)) }
{
    let mut input = Vec::new(rt.alloc());
    rt.reader().read_to_end(&mut input)?;
    print(rt, program, answer(rt.alloc(), input.as_slice()))
}

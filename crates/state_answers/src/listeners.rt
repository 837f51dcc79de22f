//! Whether the listener can be read and written.

ghost use Rattle.std.specs.Prelude.{◌≡◌, ◌<◌, ◌++◌, OnOk};
ghost use Rattle.history_frames.specs.Ordinals.{tasks_made};
ghost use Rattle.model_kernel.specs.Kernels.{IsKernel, past};
ghost use Rattle.state_answers.specs.Looks.{bit_text, is_fetched, is_unfetched, listener_text, some_waits};

use audit_log::line::LineBuffer;
use hist_model::notification::State;
use model_kernel::Kernel;
use sys_abi::memory::NoMemory;

/// Whether a call waits to be received.
fn is_unfetched(state: Option<State>) -> bool
    ensures { result ≡ is_unfetched state }
{
    matches!(state, Some(State::Unfetched))
}

/// Whether a call was received, and waits for its answer.
fn is_fetched(state: Option<State>) -> bool
    ensures { result ≡ is_fetched state }
{
    matches!(state, Some(State::Fetched))
}

/// Whether the listener can be read (POLLIN), and written (POLLOUT).
fn readiness(kernel: &Kernel) -> (bool, bool)
    requires { IsKernel kernel.now }
    ensures input { result.0 ≡ some_waits is_unfetched (past kernel.now) (tasks_made (past kernel.now)) }
    ensures output { result.1 ≡ some_waits is_fetched (past kernel.now) (tasks_made (past kernel.now)) }
{
    let made = kernel.tasks() as u32;
    let mut input = false;
    let mut output = false;
    for task in 0..made {
        let state = kernel.call_state(task);
        input = input || is_unfetched(state);
        output = output || is_fetched(state);
    }
    (input, output)
}

/// Adds a bit.
fn push_bit(line: &mut LineBuffer, bit: bool) -> Result<(), NoMemory>
    ensures { OnOk result (line.new ≡ line.old ++ bit_text bit) }
{
    line.push(if bit { "1" } else { "0" })
}

/// Adds the line of the listener.
pub(crate) fn push_listener(line: &mut LineBuffer, kernel: &Kernel) -> Result<(), NoMemory>
    requires { IsKernel kernel.now }
    ensures { OnOk result (line.new ≡ line.old ++ listener_text (past kernel.now)) }
{
    let (input, output) = readiness(kernel);
    line.push("look in=")?;
    push_bit(line, input)?;
    line.push(" out=")?;
    push_bit(line, output)?;
    line.push("\n")
}

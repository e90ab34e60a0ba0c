// What answers a state's request: memory and ports.
ghost use Rattle.std.specs.Prelude.{◌≡◌};
ghost use Rattle.run.specs.State.{byte_on, memory_after, outputs_after};

use machine::request::Request;

// The byte on the bus: read, written, or 0 where there is none. A write goes to memory, an output to its port.
#[tactic(auto, unfolding(crate::specs::State::byte_on, crate::specs::State::memory_after, crate::specs::State::outputs_after))]
pub(crate) fn serve(
    q: Request,
    memory: &mut [u8; 65536],
    inputs: &[u8; 256],
    outputs: &mut [u8; 256],
) -> u8
    ensures byte { result ≡ byte_on q memory.old inputs.now }
    ensures memory { memory.new ≡ memory_after q memory.old }
    ensures outputs { outputs.new ≡ outputs_after q outputs.old }
{
    match q {
        Request::Nothing => 0,
        Request::Read { address } => memory[usize::from(address)],
        Request::Write { address, byte } => {
            memory[usize::from(address)] = byte;
            byte
        }
        Request::Input { port } => inputs[usize::from(port)],
        Request::Output { port, byte } => {
            outputs[usize::from(port)] = byte;
            byte
        }
        Request::Restart { byte } => byte,
    }
}

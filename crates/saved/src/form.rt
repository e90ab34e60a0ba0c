// The bytes of a saved form written and read.
ghost use Rattle.std.specs.Prelude.{◌≡◌, ◌++◌};
ghost use Rattle.saved.specs.Fields.{ports_in, memory_in};

// The header, the output ports, memory.
pub(crate) fn write(
    header: &[u8; 24],
    outputs: &[u8; 256],
    memory: &[u8; 65536],
    out: &mut [u8; 65816],
)
    ensures { out.new ≡ header.now ++ outputs.now ++ memory.now }
{
    out[..24].copy_from_slice(header);
    out[24..280].copy_from_slice(outputs);
    out[280..].copy_from_slice(memory);
}

// The output ports and memory of the form s.
#[tactic(auto, using(crate::proofs::Put::memory_part))]
pub(crate) fn read(s: &[u8; 65816], memory: &mut [u8; 65536], outputs: &mut [u8; 256])
    ensures { (memory.new ≡ memory_in s.now) × (outputs.new ≡ ports_in s.now) }
{
    outputs.copy_from_slice(&s[24..280]);
    memory.copy_from_slice(&s[280..]);
}

// What bench/ links: the crate measure under the name that it calls.
// The function stands twice, since C takes its names from a static library, and Rattle code its functions from another.
#![tactic(auto)]

ghost use Rattle.std.specs.Prelude.{◌≡◌};
ghost use Rattle.measure.specs.Chains.{chain_memory};

// Writes the statement after so many stamps to the front of the memory.
#[unsafe(no_mangle)]
pub extern "C" fn measure_stamps(key: &[u8], turns: u32, memory: &mut [u8])
    ensures { memory.new ≡ chain_memory key.now turns memory.old }
{
    measure::measure_stamps(key, turns, memory);
}

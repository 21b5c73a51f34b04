// The call of `replay`, as the archive for the tests has it: under the same name, with the same promise.
// Said twice, as C needs it: an archive is a crate of its own, and exports only what stands in it.
#![tactic(auto)]

ghost use Rattle.tape.specs.Promises.{Written};

#[unsafe(no_mangle)]
pub extern "C" fn replay_run(tape: &[u8], out: &mut [u8]) -> u64
    ensures { Written tape.now out.old result out.new }
{
    replay::replay_run(tape, out)
}

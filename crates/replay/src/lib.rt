// `tape::run` for the tests, under a name that C knows; hosts get it with a later request.
#![tactic(auto)]

ghost use Rattle.tape.specs.Promises.{Written};

#[unsafe(no_mangle)]
pub extern "C" fn replay_run(tape: &[u8], out: &mut [u8]) -> u64
    ensures { Written tape.now out.old result out.new }
{
    tape::run(tape, out)
}

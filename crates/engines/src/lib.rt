// Either engine: the quick one, `trace::run`, and the plain one, `plain::run`. Both have one contract, so what comes of a trace is the same by either.
#![tactic(auto)]

ghost use Rattle.std.specs.Prelude.{◌≡◌};
ghost use Rattle.trace.specs.Run.{run as run_of};

use file::File;
use trace::Ran;

#[derive(Clone, Copy)]
pub enum Engine {
    Quick,
    Plain,
}

// A run by either. Its contract is that of `trace::run` and doesn't name the engine.
pub fn run_by(engine: Engine, whole: File, trace: &[u8], replies: &mut [u8]) -> Ran
    ensures answer_value { (result.answer ≡ (run_of whole trace.now replies.old).answer) × (result.file ≡ (run_of whole trace.now replies.old).file) × (result.count ≡ (run_of whole trace.now replies.old).count) }
    ensures replies_after { replies.new ≡ (run_of whole trace.now replies.old).buffer }
{
    match engine {
        Engine::Quick => trace::run(whole, trace, replies),
        Engine::Plain => plain::run(whole, trace, replies),
    }
}

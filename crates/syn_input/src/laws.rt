//! Laws of streams that are read. Each is the contract of a function that does nothing.

ghost use Rattle.std.specs.Prelude.{◌≡◌, List};
ghost use Rattle.syn_input.specs.Commands.{Command, advanced, fork_of, ran_all};
ghost use Rattle.syn_input.specs.declared.input.ParseBuffer.{ParseBuffer};

/// Commands that run on a fork, to which the stream is then advanced, do what they do on the stream itself. What they
/// answer is known from the places alone, which are the same.
#[tactic(auto, using(crate::proofs::Forks::on_a_fork))]
pub fn forks_run_straight()
    ensures { (fs : List Command) (input : ParseBuffer)
        → advanced input (ran_all fs (fork_of input)) ≡ ran_all fs input }
{}

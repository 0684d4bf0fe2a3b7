ghost use Rattle.cli_words.specs.Commands.{PipeIsAll};

/// Words that ask for something are `pipe`, and behind it at most `--`, which ends the options.
#[tactic(auto, using(crate::proofs::Pipe::pipe_is_all))]
pub fn pipe_is_the_one_command()
    ensures { PipeIsAll }
{}

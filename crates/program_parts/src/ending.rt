// How a program ends.
ghost use Rattle.std.specs.Prelude.{◌≡◌, MatchResult};
ghost use Rattle.std.specs.Process.{exit_status};

use std::io::Eprint;
use std::process::ExitCode;

/// Writes the error, where there is one, and answers the status to end with.
pub fn end<R: Eprint>(rt: &R, outcome: anyhow::Result<()>) -> ExitCode
    ensures { MatchResult outcome (λ _. exit_status result ≡ 0) (λ _. exit_status result ≡ 1) }
{
    match outcome {
        Ok(()) => ExitCode::SUCCESS,
        Err(e) => {
            let _ = rt.eprintln(e);
            ExitCode::FAILURE
        }
    }
}

// Samples: small scales, with what the definitions compute on them, and lives of jobs that are tested. Nobody uses it.
#![tactic(auto)]

ghost use Rattle.samples.specs.Samples.{Samples};

#[cfg(test)]
mod tests;

// Every sample has the value that it should, computed from the definitions.
pub fn samples_hold()
    ensures { Samples }
{}

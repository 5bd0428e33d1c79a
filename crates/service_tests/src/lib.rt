// Tests of the service: over memory by its contract, and over readers and writers that fail or are slow. Nobody uses it.
#![tactic(auto)]

ghost use Rattle.std.specs.Prelude.{◌≡◌, ℕ, List, ◌++◌, OnOk};
ghost use Rattle.sheets.specs.Printed.{Prints};
ghost use Rattle.decoder.specs.Sheets.{sheet};

use service::{ServeFault, serve};
use std::alloc::Global;

#[cfg(test)]
mod tests;

// Over memory the contract of `serve` says it all: the text for these bytes is added to the output.
pub fn serve_memory(heap: Global, bytes: &[u8], output: &mut Vec<u8>) -> Result<(), ServeFault>
    ensures { OnOk result ((text : List ℕ) × Prints (sheet bytes.now) text × (output.new.items ≡ output.old.items ++ text)) }
{
    serve(heap, bytes, output)
}

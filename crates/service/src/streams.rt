// What a sheet is read from, and what the lines for it are written to.
ghost use Rattle.std.specs.Prelude.{◌≡◌, ℕ, List, ◌++◌, IfOk, vec_items, Result, MatchResult};
ghost use Rattle.std.specs.Result.{result_map_both};
ghost use Rattle.std.specs.declared.io.Error.{Error};
ghost use Rattle.service.specs.Served.{Front, Given};

use std::alloc::Global;
use std::io;
use std::io::{Read, Write};

// What a sheet is read from.
pub trait SheetReader {
    // what may come of reading it in full
    ghost gives: { Self → Given → Type 0 };

    // All its bytes, or the first `most` where there are more.
    fn read_at_most(self, heap: Global, most: usize) -> io::Result<Vec<u8>>
        ensures { Front (gives self) most (result_map_both vec_items (λ e. e) result) };
}

// What the lines are written to.
pub trait LineWriter {
    // what may come of writing bytes to it, and how it is then
    ghost took: { Self → List ℕ → Result Unit Error → Self → Type 0 };

    // Writes all of the text.
    fn write_whole(&mut self, text: &[u8]) -> io::Result<()>
        ensures { took self.old text.now result self.new };
}

// A stream of the operating system, or any other of whose bytes no clause can speak.
#[derive(Drop)]
pub struct Stream<S>(pub S);

impl<R: Read + Drop> SheetReader for Stream<R> {
    ghost gives = { λ _ _. Unit {0} };

    fn read_at_most(self, heap: Global, most: usize) -> io::Result<Vec<u8>> {
        let mut bytes = Vec::new(heap);
        self.0.take(most as u64).read_to_end(&mut bytes)?;
        // `take` keeps to this too, but its contract does not say so
        bytes.truncate(most);
        Ok(bytes)
    }
}

impl<W: Write> LineWriter for Stream<W> {
    ghost took = { λ _ _ _ _. Unit {0} };

    fn write_whole(&mut self, text: &[u8]) -> io::Result<()> {
        self.0.write_all(text)?;
        self.0.flush()
    }
}

impl SheetReader for &[u8] {
    ghost gives = { λ s r. IfOk r (λ all. all ≡ s.now) };

    fn read_at_most(self, heap: Global, most: usize) -> io::Result<Vec<u8>> {
        let most = most.min(self.len());
        Ok(Vec::from_slice(heap, &self[..most])?)
    }
}

impl LineWriter for Vec<u8> {
    ghost took = { λ before text r after. MatchResult r (λ _. after.items ≡ before.items ++ text) (λ _. after.items ≡ before.items) };

    fn write_whole(&mut self, text: &[u8]) -> io::Result<()> {
        Ok(self.extend_from_slice(text)?)
    }
}

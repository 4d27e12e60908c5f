// The lines of an input, one at a time in a buffer that is used again. The reader's own iterator, `split`, allocates each line: with
// it a journal of a million calls takes a tenth longer.
use std::alloc::Global;
use std::io::{BufRead, BufReader, Read};

#[derive(Drop)]
pub(crate) struct Lines<R: Read + Drop> {
    input: BufReader<R>,
    line: Vec<u8>,
}

impl<R: Read + Drop> Lines<R> {
    pub(crate) fn new(heap: Global, input: R) -> anyhow::Result<Lines<R>> {
        Ok(Lines {
            input: BufReader::new(heap, input)?,
            line: Vec::new(heap),
        })
    }

    // The next line, without its line feed, or none at the end of the input.
    pub(crate) fn next_line(&mut self) -> anyhow::Result<Option<&[u8]>> {
        self.line.clear();
        if self.input.read_until(b'\n', &mut self.line)? == 0 {
            return Ok(None);
        }
        let line = self.line.as_slice();
        Ok(Some(line.strip_suffix(b"\n").unwrap_or(line)))
    }
}

// The words of a line, one by one. specs/Words.antt says which they are.
ghost use Rattle.std.specs.Prelude.{◌≡◌, ◌≤◌, not, ◌==◌, length, position};
ghost use Rattle.std.specs.List.{position_or_len};
ghost use Rattle.std.specs.Iterator.{YieldsFirstBy, item_count};
ghost use Rattle.std.specs.Str.{bytes_eq};
ghost use Rattle.text.specs.Words.{blank, unreturned, uncommented, words_of, to_come, count_before, before_colon, behind_colon, is_text};

// Whether the byte separates words.
fn is_blank(byte: u8) -> bool
    ensures { result ≡ blank byte }
{
    byte == b' ' || byte == b'\t'
}

// Where the first byte stands that separates no words.
fn first_solid(bytes: &[u8]) -> Option<usize>
    ensures { result ≡ position (λ b. not (blank b)) bytes.now }
{
    bytes.iter().position(|byte| !is_blank(*byte))
}

// How many bytes stand before the first that separates words.
fn solid_len(bytes: &[u8]) -> usize
    ensures value { result ≡ position_or_len blank bytes.now }
    ensures bound { result ≤ length bytes.now }
{
    bytes
        .iter()
        .position(|byte| is_blank(*byte))
        .unwrap_or(bytes.len())
}

// Where the first colon stands.
fn colon(word: &[u8]) -> Option<usize>
    ensures { result ≡ position (λ b. b == 58) word.now }
{
    word.iter().position(|byte| *byte == b':')
}

// The line without a carriage return at its very end.
fn without_return(line: &[u8]) -> &[u8]
    ensures { result.now ≡ unreturned line.now }
{
    line.strip_suffix(b"\r").unwrap_or(line)
}

// The line without its comment.
fn without_comment(line: &[u8]) -> &[u8]
    ensures { result.now ≡ uncommented line.now }
{
    let end = line
        .iter()
        .position(|byte| *byte == b'#')
        .unwrap_or(line.len());
    &line[..end]
}

// What is left of a line.
#[derive(Clone, Copy)]
pub struct Words<'a> {
    rest: &'a [u8],
}

impl<'a> Words<'a> {
    // All the words of the line.
    pub fn new(line: &'a [u8]) -> Words<'a>
        ensures { to_come result ≡ words_of line.now }
    {
        Words {
            rest: without_comment(without_return(line)),
        }
    }

    // How many words come before the first that is this name. One walk, which ends at the name.
    pub fn count_before(self, name: &str) -> usize
        ensures { result ≡ count_before name.now (to_come self.entry) }
    {
        let passed = self.take_while(|word| !is(word, name)).count();
        passed
    }
}

// The words in the order of the line.
impl<'a> Iterator for Words<'a> {
    type Item = &'a [u8];

    ghost next_gives = { YieldsFirstBy (λ x. x.now) to_come };

    ghost remaining = { item_count to_come };

    // At the end of a line the separators that are left go too, so that a further call has nothing to pass over.
    fn next(&mut self) -> Option<&'a [u8]> {
        let Some(at) = first_solid(self.rest) else {
            self.rest = &[];
            return None;
        };
        let text = &self.rest[at..];
        let (word, rest) = text.split_at(solid_len(text));
        self.rest = rest;
        Some(word)
    }
}

// How many words are still to come.
impl ExactSizeIterator for Words<'_> {
    fn len(&self) -> usize {
        (*self).count()
    }
}

// What stands before a word's first colon and what stands behind it, which is nothing where there is none.
pub fn halves(word: &[u8]) -> (&[u8], &[u8])
    ensures front { result.0.now ≡ before_colon word.now }
    ensures back { result.1.now ≡ behind_colon word.now }
{
    match colon(word) {
        Some(at) => (&word[..at], &word[at + 1..]),
        None => (word, &[]),
    }
}

// Whether the word is this name: a function, since callers cite its equation.
pub fn is(word: &[u8], name: &str) -> bool
    ensures { result ≡ bytes_eq word.now name.now }
{
    word == name.as_bytes()
}

// Whether the bytes are text in UTF-8.
pub fn is_text(line: &[u8]) -> bool
    ensures { result ≡ is_text line.now }
{
    std::str::from_utf8(line).is_ok()
}

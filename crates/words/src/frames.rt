// Frames of 1,024 words, as parts of the words that the caller lends.
ghost use Rattle.std.specs.Prelude.{◌≡◌, ◌+◌, ◌*◌, ◌≤◌, length};
ghost use Rattle.std.proofs.Math.Seq.{paste};
ghost use Rattle.words.specs.Frames.{contents, copied, lent, word, written};

pub const FRAME_WORDS: usize = 1024;

// Whether all words of the frame are lent.
pub fn is_lent(words: &[u32], frame: u32) -> bool
    ensures { result ≡ lent words.now frame }
{
    (frame as usize) < words.len() / FRAME_WORDS
}

// The word `offset` words after the first of the frame, 0 where none is lent.
pub fn read(words: &[u32], frame: u32, offset: u32) -> u32
    ensures { result ≡ word words.now frame offset }
{
    let at = frame as usize * FRAME_WORDS + offset as usize;
    words.get(at).copied().unwrap_or(0)
}

// Writes that word; nothing where none is lent.
pub fn write(words: &mut [u32], frame: u32, offset: u32, value: u32)
    ensures { words.new ≡ written words.old frame offset value }
{
    let at = frame as usize * FRAME_WORDS + offset as usize;
    // by index: what is written through a slice's `get_mut` is known to no proof
    if at < words.len() {
        words[at] = value;
    }
}

// Copies frame `from` over frame `to`; nothing where one of them is not lent.
pub fn copy(words: &mut [u32], from: u32, to: u32)
    ensures { words.new ≡ copied words.old from to }
{
    if is_lent(words, from) && is_lent(words, to) {
        let source = fetched(words, from as usize);
        replace(words, to as usize, &source);
    }
}

// Fetched and written over, and no `copy_within`: a frame is lent on as a part of the words (docs/DECISIONS.md, "Forms of the language").
fn fetched(words: &[u32], frame: usize) -> [u32; FRAME_WORDS]
    requires { frame * 1024 + 1024 ≤ length words.now }
    ensures { result ≡ contents words.now frame }
{
    let start = frame * FRAME_WORDS;
    let mut source = [0; FRAME_WORDS];
    source.copy_from_slice(&words[start..start + FRAME_WORDS]);
    source
}

fn replace(words: &mut [u32], frame: usize, source: &[u32; FRAME_WORDS])
    requires { frame * 1024 + 1024 ≤ length words.old }
    ensures { words.new ≡ paste words.old (frame * 1024) source.now 1024 }
{
    let start = frame * FRAME_WORDS;
    let end = start + FRAME_WORDS;
    overwrite(&mut words[start..end], source);
}

fn overwrite(target: &mut [u32], source: &[u32; FRAME_WORDS])
    requires { length target.old ≡ 1024 }
    ensures { target.new ≡ source.now }
{
    target.copy_from_slice(source);
}

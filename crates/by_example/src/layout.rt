// A memory with code, and refusals as tests compare them.
use plan::refusal::Refusal;
use rv32ui::memory::{CODE_FRAME, lay_out};
use words::frames::write;

// The small memory with a word of code at the start of page 16.
pub(crate) fn lay_out_code(words: &mut [u32], code: u32) {
    lay_out(words);
    write(words, CODE_FRAME, 0, code);
}

// Number and place of the refusal, none where there is none.
pub(crate) fn refused<T: Drop>(checked: Result<T, Refusal>) -> Option<(u8, usize)> {
    let refusal = checked.err()?;
    Some((refusal.number(), refusal.place()))
}

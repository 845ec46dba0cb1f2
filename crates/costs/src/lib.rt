// What things cost in cycles: one constant each, and what is computed from them. A board with other costs changes them here.
#![tactic(auto)]

pub mod laws;
pub mod used;

// every instruction
pub const INSTRUCTION: u32 = 1;
// a page that is not in the TLB: the walk of its page table
pub const WALK: u32 = 30;
// a line that is not in the cache
pub const MISS: u32 = 20;
// a dirty line that leaves the cache
pub const WRITE_BACK: u32 = 10;
// a branch that the predictor got wrong
pub const MISPREDICTION: u32 = 3;
// a word of a message that is copied
pub const COPIED_WORD: u32 = 1;

pub const CACHE_LINES: u32 = 64;

// The worst case of an instruction: a load or store whose code page, data page and line are all missing, over a dirty line.
pub const WORST_INSTRUCTION: u32 = INSTRUCTION + WALK + WALK + MISS + WRITE_BACK;
// The worst case of a branch, which has no data: its code page is missing, and the predictor got it wrong.
pub const WORST_BRANCH: u32 = INSTRUCTION + WALK + MISPREDICTION;
// The most that can lie between a slot's end and the end of a switch without messages: the last instruction began in the slot's last cycle, and every line is dirty.
pub const WORST_SWITCH: u32 = WORST_INSTRUCTION - 1 + CACHE_LINES * WRITE_BACK;

// The numbers that the laws of the definitions have, for what no function here answers.
const _: () = prove!(WORST_INSTRUCTION == 91);

const _: () = prove!(WORST_BRANCH == 34);

const _: () = prove!(WORST_SWITCH == 730);

const _: () = prove!(COPIED_WORD == 1);

const _: () = prove!(CACHE_LINES == 64);

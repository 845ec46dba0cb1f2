// The 32 registers.
ghost use Rattle.std.specs.Prelude.{◌&&◌, T, length, ◌==◌, nat_lt, slice_index};

// The name of a register, x0 to x31.
#[derive(Clone, Copy)]
pub struct Register {
    index: u8,
    ghost named: { T (nat_lt index 32) },
}

// What the registers hold. Register 0 holds 0.
#[derive(Clone, Copy)]
pub struct Registers {
    words: [u32; 32],
    ghost formed: { T (length words == 32 && slice_index words 0 == 0) },
}

mod access;

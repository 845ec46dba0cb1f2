// The instructions of RV32I: decoding, the ALU, branch conditions and the registers.
#![tactic(auto)]

pub mod alu;
pub mod branch;
pub mod csr;
pub mod decode;
pub mod decoder;
mod fields;
pub mod instruction;
pub mod laws;
pub mod numbers;
pub mod register;

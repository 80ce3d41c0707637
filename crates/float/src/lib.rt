#![tactic(auto)]
// An f32 from its bit pattern and back, for every pattern. The machine's own from_bits and to_bits are
// undefined at a NaN: std's two functions for it, with_nan by name, step around it.

ghost use Rattle.std.specs.Prelude.{◌≡◌};
ghost use Rattle.std.specs.Float.{binary32};
ghost use Rattle.std.specs.Float.Ieee.{of_bits, to_bits};

use std::num::{f32_from_bits_with_nan, f32_to_bits_with_nan};

// The f32 that a bit pattern stands for. Every NaN pattern gives NaN.
#[tactic(auto, using(crate::proofs::Nan::zeros_nan, crate::proofs::Nan::other_pattern))]
pub fn from_bits(bits: u32) -> f32
    ensures { result ≡ of_bits binary32 bits }
{
    f32_from_bits_with_nan(bits)
}

// The bit pattern of an f32. NaN gives 0x7FC00000.
#[tactic(auto, using(crate::proofs::Nan::nan_written, crate::proofs::Nan::same_is_no_nan))]
pub fn to_bits(x: f32) -> u32
    ensures { result ≡ to_bits binary32 x }
{
    f32_to_bits_with_nan(x)
}

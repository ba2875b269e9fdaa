// The machine's random source.
use crate::{Ends, Noise};
use std::random::RandomSource;

/// The machine's random source. Where it fails, the ten bytes are zeros.
#[derive(Drop)]
pub struct RealNoise<R: RandomSource> {
    rt: R,
}

impl<R: RandomSource> RealNoise<R> {
    /// A noise over this runtime.
    pub fn new(rt: R) -> Self {
        RealNoise { rt }
    }
}

impl<R: RandomSource> Ends for RealNoise<R> {}

impl<R: RandomSource> Noise for RealNoise<R> {
    fn ten(&mut self) -> [u8; 10] {
        let mut ten = [0; 10];
        match self.rt.fill_bytes(&mut ten) {
            Ok(()) => ten,
            Err(_) => [0; 10],
        }
    }
}

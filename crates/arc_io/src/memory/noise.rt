// A noise that goes through a list.
ghost use Rattle.std.specs.Prelude.{◌≡◌, min, vec_len};
ghost use Rattle.arc_io.specs.Lists.{ten_at};

use crate::count::Count;
use crate::{Ends, Noise};

/// A noise that gives the tens of a list, one after the other, and then zeros.
#[derive(Drop)]
pub struct ListNoise {
    tens: Vec<[u8; 10]>,
    at: usize,
    calls: Count,
    ghost counted: { at ≡ min calls.number (vec_len tens) },
}

impl ListNoise {
    ghost use Rattle.arc_io.specs.Memory.{noise_list, noise_calls};

    /// A noise that gives these tens.
    pub fn new(tens: Vec<[u8; 10]>) -> Self
        ensures list { noise_list result ≡ tens.items }
        ensures calls { noise_calls result ≡ 0 }
    {
        ListNoise {
            tens,
            at: 0,
            calls: Count::new(),
        }
    }
}

impl Ends for ListNoise {
    ghost use Rattle.arc_io.specs.Memory.{noise_seen};

    ghost seen = { noise_seen };
}

impl Noise for ListNoise {
    ghost use Rattle.arc_io.specs.Told.{after_noise};
    ghost use Rattle.arc_io.specs.Memory.{noise_seen, NoiseDraw};

    fn ten(&mut self) -> [u8; 10]
        ensures told { noise_seen self.new ≡ after_noise result (noise_seen self.old) }
        ensures exact { NoiseDraw self.old self.new result }
    {
        let ten = item_at(&self.tens, self.at);
        if self.at < self.tens.len() {
            self.at += 1;
        }
        self.calls = self.calls.and_one();
        ten
    }
}

// The list's ten at the place, or zeros after its end.
fn item_at(tens: &[[u8; 10]], at: usize) -> [u8; 10]
    ensures { result ≡ ten_at tens.now at }
{
    tens.get(at).copied().unwrap_or([0; 10])
}

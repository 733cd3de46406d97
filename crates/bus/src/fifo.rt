// A FIFO of at most 16 words.
ghost use Rattle.std.specs.Prelude.{◌<◌, ◌≤◌, ℕ, List, [], ◌∷◌, ◌++◌, ◌-◌, ◌≡◌, length, get_or, slice_get, take, replicate};
ghost use Rattle.agreement.specs.End.{behind};

use std::marker::Model;

#[derive(Clone, Copy)]
pub struct Fifo {
    // The first word stands at place 0, and behind the last one zeros. Fixed memory: as many places as the largest FIFO.
    words: [u32; 16],
    count: usize,
}

// Clauses see the words queued, the first word first. (They give the fields back, which `Copy` needs: so the places behind them are zero.)
impl Model for Fifo {
    ghost Value = { List ℕ };

    ghost view = { λ f. take f.count f.words };

    ghost invariant = { λ f. (length (take f.count f.words) ≡ f.count)
        × (take f.count f.words ++ replicate (16 - f.count) 0 ≡ f.words) };

    ghost inverse = { λ ws. record { words = ws ++ replicate (16 - length ws) 0; count = length ws } };
}

impl Fifo {
    pub(crate) fn new() -> Self
        ensures { result ≡ [] }
    {
        Fifo {
            words: [0; 16],
            count: 0,
        }
    }

    // The words queued: at most 16.
    pub fn len(&self) -> usize
        ensures queued { result ≡ length self.now }
        ensures within { result ≤ 16 }
    {
        self.count
    }

    // The word queued at a place, the first at 0; 0 where there is none.
    pub fn word(&self, place: usize) -> u32
        ensures { result ≡ get_or self.now place 0 }
    {
        self.words[..self.count].get(place).copied().unwrap_or(0)
    }

    pub(crate) fn push(&mut self, word: u32)
        requires { length self.old < 16 }
        ensures { self.new ≡ self.old ++ word ∷ [] }
    {
        self.words[self.count] = word;
        self.count += 1;
    }

    // The first word leaves, if there is one.
    pub(crate) fn pop(&mut self) -> Option<u32>
        ensures first { result ≡ slice_get self.old 0 }
        ensures rest { self.new ≡ behind self.old }
    {
        if self.count == 0 {
            return None;
        }
        let first = self.words[0];
        self.words.copy_within(1..16, 0);
        self.words[15] = 0;
        self.count -= 1;
        Some(first)
    }

    pub(crate) fn clear(&mut self)
        ensures { self.new ≡ [] }
    {
        *self = Fifo::new();
    }
}

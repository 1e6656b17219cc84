// The lowest bits of a word by a table of masks: a shift by a count that varies takes longer than a look-up.
ghost use Rattle.std.specs.Prelude.{◌≡◌, ◌%◌, ◌^◌, ◌<◌};
ghost use Rattle.frame.specs.Masks.{mask_list};

// A mask of k ones at k. A caller makes the table once and lends it to its loop.
#[derive(Drop)]
pub struct Masks {
    table: [u64; 16],
    ghost of_ones: { table ≡ mask_list },
}

impl Masks {
    #[tactic(auto, unfolding(crate::specs::Masks::mask_list))]
    pub fn new() -> Self {
        Masks {
            table: [
                0x0000, 0x0001, 0x0003, 0x0007, 0x000f, 0x001f, 0x003f, 0x007f, 0x00ff, 0x01ff,
                0x03ff, 0x07ff, 0x0fff, 0x1fff, 0x3fff, 0x7fff,
            ],
        }
    }

    // The k lowest bits of a word. Called by proved code only.
    pub fn lowest(&self, k: usize, word: u64) -> u32
        requires { k < 16 }
        ensures { (result ≡ word % 2 ^ k) × (result < 32768) }
    {
        (word & self.table[k]) as u32
    }
}

// A width of a word, which is 1 to 64.
ghost use Rattle.std.specs.Prelude.{◌≡◌, ◌^◌, ◌-◌};
ghost use Rattle.words.specs.Word.{Width};

#[derive(Clone, Copy)]
pub struct WordWidth {
    pub bits: u64,
    ghost width: { Width bits },
}

impl WordWidth {
    // The lowest bits, as many as the width says.
    pub fn mask(self) -> u64
        ensures { result ≡ 2 ^ self.bits - 1 }
    {
        words::mask(self.bits)
    }
}

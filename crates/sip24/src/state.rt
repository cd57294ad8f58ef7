// The internal state of SipHash: four words, and the steps on them.

ghost use Rattle.std.specs.Prelude.{◌≡◌, map};
ghost use Rattle.sip24.specs.SipHash.{first_half, second_half, sip_round, initial, compress, compress_all, finalize, little_endian};

/// The four words of the internal state.
#[derive(Clone, Copy)]
pub struct State {
    v0: u64,
    v1: u64,
    v2: u64,
    v3: u64,
}

impl State {
    /// The state at the start, from the key's two words.
    pub fn new(key: [u8; 16]) -> State
        ensures { result ≡ initial key }
    {
        let (words, _) = key.as_chunks::<8>();
        let k0 = word_of(words[0]);
        let k1 = word_of(words[1]);
        State {
            v0: k0 ^ 0x736f_6d65_7073_6575,
            v1: k1 ^ 0x646f_7261_6e64_6f6d,
            v2: k0 ^ 0x6c79_6765_6e65_7261,
            v3: k1 ^ 0x7465_6462_7974_6573,
        }
    }

    #[inline(always)]
    #[tactic(auto, unfolding(crate::specs::SipHash::first_half))]
    fn first_half(self) -> State
        ensures { result ≡ first_half self }
    {
        let a = self.v0.wrapping_add(self.v1);
        let b = self.v2.wrapping_add(self.v3);
        State {
            v0: a.rotate_left(32),
            v1: self.v1.rotate_left(13) ^ a,
            v2: b,
            v3: self.v3.rotate_left(16) ^ b,
        }
    }

    #[inline(always)]
    #[tactic(auto, unfolding(crate::specs::SipHash::second_half))]
    fn second_half(self) -> State
        ensures { result ≡ second_half self }
    {
        let a = self.v2.wrapping_add(self.v1);
        let b = self.v0.wrapping_add(self.v3);
        State {
            v0: b,
            v1: self.v1.rotate_left(17) ^ a,
            v2: a.rotate_left(32),
            v3: self.v3.rotate_left(21) ^ b,
        }
    }

    // The publication's SipRound.
    #[inline(always)]
    fn round(self) -> State
        ensures { result ≡ sip_round self }
    {
        self.first_half().second_half()
    }

    /// One word compressed, by two rounds.
    #[inline(always)]
    #[tactic(auto, unfolding(crate::specs::SipHash::compress))]
    pub fn compress(mut self, word: u64) -> State
        ensures { result ≡ compress self word }
    {
        self.v3 ^= word;
        let mut mixed = self.round().round();
        mixed.v0 ^= word;
        mixed
    }

    /// The words that chunks of eight bytes write, compressed one after another.
    pub fn compress_chunks(self, chunks: &[[u8; 8]]) -> State
        ensures { result ≡ compress_all self (map little_endian chunks.now) }
    {
        let mut state = self;
        for chunk in chunks {
            state = state.compress(word_of(*chunk));
        }
        state
    }

    /// The hash value, by four rounds.
    #[inline(always)]
    #[tactic(auto, unfolding(crate::specs::SipHash::finalize))]
    pub fn finalize(mut self) -> u64
        ensures { result ≡ finalize self }
    {
        self.v2 ^= 0xff;
        let mixed = self.round().round().round().round();
        (mixed.v0 ^ mixed.v1) ^ (mixed.v2 ^ mixed.v3)
    }
}

// The word that eight bytes write, the lowest byte first.
#[inline(always)]
#[tactic(auto, using(crate::proofs::Words::little_endian_of_8))]
fn word_of(bytes: [u8; 8]) -> u64
    ensures { result ≡ little_endian bytes }
{
    u64::from_le_bytes(bytes)
}

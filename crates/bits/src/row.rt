// A row of bits with its samples.
ghost use Rattle.bits.specs.Rows.{Sampled};

// The n bits of a row in `bits`, with its samples, which are right.
#[derive(Clone, Copy)]
pub struct Row<'a> {
    pub samples: &'a [u8],
    pub bits: &'a [u8],
    pub n: usize,
    pub ghost sampled: { Sampled n samples.now bits.now },
}

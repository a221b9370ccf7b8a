// A file whose counts and length keep rule 3, as the rules from 4 on take it.

ghost use Rattle.check_layout.specs.Frame.{Framed};

// The file with its two counts: n nodes and m step records.
#[derive(Clone, Copy)]
pub struct Counted<'a> {
    pub policy: &'a [u8],
    pub n: usize,
    pub m: usize,
    pub ghost framed: { Framed policy.now n m },
}

// A reader struct over a stream (document 01, "What each place should look like"): a pass makes it once, thin functions take it apart,
// and call a function on the slice and the number.
#![tactic(auto)]

ghost use Rattle.std.specs.Prelude.{◌≡◌};

// The stream and the current place.
#[derive(Clone, Copy)]
pub struct Reader<'a> {
    pub stream: &'a [u8],
    pub at: usize,
}

impl<'a> Reader<'a> {
    // At the start of a stream.
    pub fn new(stream: &'a [u8]) -> Reader<'a>
        ensures { (result.stream ≡ stream.entry) × (result.at ≡ 0) }
    {
        Reader { stream, at: 0 }
    }
}

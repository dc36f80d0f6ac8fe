// The reader covers the caller's bytes and remembers how far it has come.
ghost use Rattle.std.specs.Prelude.{◌≤◌, length};

mod making;
mod reading;

// The bytes and a position in them, and no slice of the rest: how many were read is asked for.
#[derive(Drop)]
pub struct Reader<'a> {
    input: &'a [u8],
    at: usize,
    ghost within: { at ≤ length input.now },
}

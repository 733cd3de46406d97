// The longer of two lent buffers, for the frame size: the write buffer on a tie.
ghost use Rattle.std.specs.Prelude.{◌≡◌};
ghost use Rattle.words.specs.Longer.{longer};

pub fn longer<'a, T>(read: &'a [T], write: &'a [T]) -> &'a [T]
    ensures { result ≡ longer read.entry write.entry }
{
    if write.len() < read.len() {
        read
    } else {
        write
    }
}

// What is left of the input, moved to the front of its buffer.
ghost use Rattle.commands.specs.Kept.{Keeps};

// Moves the bytes from..to to the front, and answers how many they are. Where bytes has no such
// part, none is moved.
pub fn keep(bytes: &mut [u8], from: usize, to: usize) -> usize
    ensures { Keeps bytes.old from to result bytes.new }
{
    if to < from {
        return 0;
    }
    if bytes.len() < to {
        return 0;
    }
    bytes.copy_within(from..to, 0);
    to - from
}

// Standard output for the programs that print a table: `write!` to it goes through the C library's
// `write` alone, where the handle's `println!` would also ask for the number of an error.
//
// No contract reaches what `io::write_all` does with the bytes: that they are the text's, and go to
// standard output, stands in `write_str`, which calls it once.
#![tactic(auto)]

ghost use Rattle.std.specs.Prelude.{◌≡◌};
ghost use Rattle.output.specs.Output.{goes_on};

use std::fmt;

// Standard output's number.
const STDOUT_FILENO: i32 = 1;

// Standard output, unbuffered.
#[derive(Drop)]
pub struct Output;

impl fmt::Write for Output {
    // Good whatever the write says: what cannot be written is left out, and the program goes on with
    // the rest, as far as that can be.
    fn write_str(&mut self, text: &str) -> fmt::Result
        ensures { result ≡ goes_on }
    {
        io::write_all(STDOUT_FILENO, text.as_bytes());
        Ok(())
    }
}

// A command: three bytes.
ghost use Rattle.std.specs.Prelude.{◌≡◌};
ghost use Rattle.commands.specs.Command.{fields_say, command_of};

// A slice, or the release of a kind with a length e.
#[derive(Clone, Copy)]
pub enum Command {
    Slice,
    Release(u8, u16),
}

// The three bytes as one number: 1 bit for which command, 4 for the kind and 12 for e, above 7
// zeros.
const WHICH: u32 = 8388608;

const KIND: u32 = 524288;

const E: u32 = 128;

impl Command {
    // What the four fields say, where they are a command.
    #[tactic(auto, unfolding(crate::specs::Command::fields_say))]
    fn of_fields(which: u32, kind: u8, e: u16, zeros: u32) -> Option<Self>
        ensures { result ≡ fields_say which kind e zeros }
    {
        if zeros != 0 {
            return None;
        }
        if which == 1 {
            return Some(Command::Release(kind, e));
        }
        if kind == 0 && e == 0 {
            return Some(Command::Slice);
        }
        None
    }

    // The command at the front of bytes, if there is one.
    #[tactic(auto, using(crate::specs::Command::Properties::decodes))]
    pub fn decode(bytes: &[u8]) -> Option<Self>
        ensures { result ≡ command_of bytes.now }
    {
        let [first, second, third, ..] = *bytes else {
            return None;
        };
        let fields = u32::from_be_bytes([0, first, second, third]);
        let kind = (fields / KIND % 16) as u8;
        let e = (fields / E % 4096) as u16;
        Command::of_fields(fields / WHICH, kind, e, fields % E)
    }
}

// Plays standard input: a plan, and then commands of three bytes, a line for each on standard
// output.
//
// What is printed is `player::Session::play`'s. Here are the two buffers and the system calls:
// lines are written when their buffer is full, and before more input is waited for. The play ends
// with its last line, with a read that fails, or with an output that is closed.
//
// What a round does is said in specs/Desk.antt. No contract reaches what `Stdin::read` puts into
// the buffer and what `io::write_all` does with its bytes: each is called once, in `read_more` and
// in `round`.
#![tactic(auto)]

ghost use Rattle.std.specs.Prelude.{◌≡◌, ◌+◌, ◌-◌, ◌^◌, ◌≤◌, ◌<◌, length};
ghost use Rattle.lines.specs.Line.{line_room};
ghost use Rattle.play.specs.Desk.{is_closed, Fits, arrival_of, count_of, Arrives, course_of, told_of, ended_of, heard_of, Hears, Round};
ghost use Rattle.play.specs.Desk.{Ends};

use player::Session;
use std::io::{Read, Stdin};

// Standard output's number.
const STDOUT_FILENO: i32 = 1;

// Whether the play goes on, and why it does not: its last line is printed, a read failed, or the
// output is closed.
#[derive(Clone, Copy)]
enum Course {
    On,
    Over,
    Unread,
    Unwritten,
}

impl Course {
    fn is_closed(self) -> bool
        ensures { result ≡ is_closed self }
    {
        !matches!(self, Course::On)
    }
}

// The play so far: its session, where the bytes that are not taken yet stand in the input's
// buffer, whether the input has ended with them, and whether the play goes on.
#[derive(Clone, Copy)]
struct Desk {
    session: Session,
    from: usize,
    to: usize,
    last: bool,
    course: Course,
}

// What a read's answer says, of so many bytes asked for: it brings no more than these, none at the
// end of the input, or fails.
fn brought(read: std::io::Result<usize>, asked: usize) -> Option<usize>
    ensures { result ≡ arrival_of read asked }
{
    match read {
        Ok(count) => Some(count.min(asked)),
        Err(_) => None,
    }
}

// Reads behind the bytes that are held. There is room, so that 0 means the end of the input.
fn read_more(stdin: &mut Stdin, input: &mut [u8], held: usize) -> Option<usize>
    requires { held < length input.old }
    ensures { Arrives input.old held result input.new }
{
    let asked = input.len() - held;
    brought(stdin.read(&mut input[held..]), asked)
}

// The play after a read, whose bytes stand behind those that are held.
fn heard(session: Session, held: usize, arrival: Option<usize>) -> Desk
    requires { held + count_of arrival < 2 ^ 64 }
    ensures { result ≡ heard_of session held arrival }
{
    match arrival {
        Some(more) => Desk {
            session,
            from: 0,
            to: held + more,
            last: more == 0,
            course: Course::On,
        },
        None => Desk {
            session,
            from: 0,
            to: held,
            last: false,
            course: Course::Unread,
        },
    }
}

// There is no line without more input: reads once.
fn listen(stdin: &mut Stdin, desk: Desk, input: &mut [u8]) -> Desk
    requires { (Fits desk input.old) × (desk.to - desk.from < length input.old) }
    ensures { Hears desk input.old result input.new }
{
    let held = commands::keep(input, desk.from, desk.to);
    let arrival = read_more(stdin, input, held);
    heard(desk.session, held, arrival)
}

// The last line is printed.
fn ended(desk: Desk) -> Desk
    ensures { result ≡ ended_of desk }
{
    Desk {
        course: Course::Over,
        ..desk
    }
}

// Whether the play goes on after a write.
fn after_write(written: bool) -> Course
    ensures { result ≡ course_of written }
{
    if written {
        Course::On
    } else {
        Course::Unwritten
    }
}

// The play after lines that took so many bytes.
fn told(desk: Desk, session: Session, taken: usize, written: bool) -> Desk
    requires { desk.from + taken < 2 ^ 64 }
    ensures { result ≡ told_of desk session taken written }
{
    Desk {
        session,
        from: desk.from + taken,
        course: after_write(written),
        ..desk
    }
}

// Plays what is there and writes the lines, or reads where there is no line.
fn round(stdin: &mut Stdin, desk: Desk, input: &mut [u8], output: &mut [u8]) -> Desk
    requires { (Fits desk input.old) × (line_room ≤ length input.old) × (line_room ≤ length output.old) }
    ensures { Round desk input.old output.old result input.new output.new }
{
    let progress = desk
        .session
        .play(&input[desk.from..desk.to], desk.last, output);
    if progress.count == 0 {
        if desk.session.is_over() {
            return ended(desk);
        }
        return listen(stdin, desk, input);
    }
    let written = io::write_all(STDOUT_FILENO, &output[..progress.count]);
    told(desk, progress.session, progress.taken, written)
}

// A proved loop has to end, and nothing says that the input does. So it counts its rounds, up to
// a number that no run comes to.
fn play_all(stdin: &mut Stdin, input: &mut [u8], output: &mut [u8]) -> Desk
    requires { (line_room ≤ length input.old) × (line_room ≤ length output.old) }
    ensures { Ends result input.new }
{
    let mut desk = Desk {
        session: Session::new(),
        from: 0,
        to: 0,
        last: false,
        course: Course::On,
    };
    for _rounds in 0..u64::MAX {
        if desk.course.is_closed() {
            return desk;
        }
        desk = round(stdin, desk, input, output);
    }
    desk
}

fn main(rt: HostRuntime) {
    let mut stdin = rt.stdin();
    let mut input = io::buffer();
    let mut output = io::buffer();
    play_all(&mut stdin, &mut input, &mut output);
}

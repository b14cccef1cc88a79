// Where each kind sits in a slice: on its project's cards, earliest deadline first.
//
// Document 01, "Running". What a kind works for, the slices until it is due and where each project's
// cards begin and end come as arrays, so that nothing is found twice. Every array is answered.
//
// A kind's whole standing is one number, and its rank the difference of two counts without branches:
// how many standings are its project's least or after it, which is counted once for the project, and
// how many are its own or after it. Of n kinds, a of them with slices left and a project that has a
// card, for q such projects, that is 16(a + q) steps for the ranks and 2n for the rest.
#![tactic(auto)]

ghost use Rattle.std.specs.Prelude.{◌≡◌, ◌+◌, ◌-◌, ◌≤◌, ◌<◌};
ghost use Rattle.seats.specs.Seats.{seat_at, seats_by};
ghost use Rattle.seats.specs.Ranks.{at_or_after, Within28Bits, Standing, Standings, Known};

// The most kinds and the most projects that a plan has.
const KINDS: usize = 16;

const PROJECTS: usize = 8;

// How many standings those that work for one project have, and how many there are.
const OWN: u32 = 1048576;

const ALL: u32 = 268435456;

// A kind's whole standing: what it works for, the slices until it is due and its number, in 28 bits.
fn standing(works: u8, until: u16, number: usize) -> u32
    requires { number < 16 }
    ensures { Standing works until number result }
{
    u32::from(works) * OWN + (u32::from(until) * 16 + number as u32)
}

// The standings of all sixteen places, none of more than 28 bits.
#[derive(Clone, Copy)]
struct AllStandings {
    each: [u32; KINDS],
    ghost narrow: { Within28Bits each },
}

impl AllStandings {
    // Those of the first kinds.
    fn of(works: &[u8; KINDS], until: &[u16; KINDS], kinds: usize) -> Self
        requires { kinds ≤ 16 }
        ensures { Standings works.now until.now kinds result.each }
    {
        let mut each = [0u32; KINDS];
        // kept: an index; a zip of the arrays, numbered, is no plainer.
        for i in 0..kinds {
            each[i] = standing(works[i], until[i], i);
        }
        AllStandings { each }
    }

    // How many are x or after it. There is no branch in the loop: what is carried out of 28 bits is
    // added, which on vectors costs less than a comparison.
    fn at_or_after(&self, x: u32) -> u32
        requires { x ≤ 268435456 }
        ensures { result ≡ at_or_after self.now.each x }
    {
        let turn = ALL - x;
        let mut count: u32 = 0;
        for standing in &self.each {
            count += (*standing + turn) / ALL;
        }
        count
    }

    // The same of a project's least standing, which is counted only where it is not known yet.
    #[tactic(auto, unfolding(crate::specs::Ranks::Known))]
    fn first(&self, known: Option<u32>, least: u32) -> u32
        requires { (least ≤ 268435456) × Known self.now.each least known }
        ensures { result ≡ at_or_after self.now.each least }
    {
        known.unwrap_or_else(|| self.at_or_after(least))
    }

    // Where a kind sits on its project's cards: its rank is how many are its project's least or after
    // it, less how many are its own or after it.
    #[tactic(auto, unfolding(crate::specs::Seats::seat_at))]
    fn seat(&self, first: u32, own: u32, low: u8, end: u8) -> u8
        requires { (own ≤ 268435456) × (at_or_after self.now.each own ≤ first) × (first ≤ 16) }
        ensures { result ≡ seat_at (low + (first - at_or_after self.now.each own)) end }
    {
        let rank = first - self.at_or_after(own);
        let card = u32::from(low) + rank;
        if card < u32::from(end) {
            card as u8 + 1
        } else {
            0
        }
    }
}

// Where every kind sits: the card that it takes, plus 1, or 0. A kind works for its project plus 1,
// or for 0 where it has nothing left; low and end are each project's lowest card and the card
// after its last.
// kept: an array for each fact, as the contract (`seats_by`) has them.
pub fn seats(
    works: &[u8; KINDS],
    until: &[u16; KINDS],
    low: &[u8; PROJECTS],
    end: &[u8; PROJECTS],
    kinds: usize,
) -> [u8; KINDS]
    ensures { result ≡ seats_by works.now until.now low.now end.now kinds }
{
    let mut seats = [0u8; KINDS];
    if KINDS < kinds {
        return seats;
    }
    let standings = AllStandings::of(works, until, kinds);
    let mut firsts = [None; PROJECTS];
    // kept: an index; a zip of the arrays, numbered, is no plainer.
    for i in 0..kinds {
        let number = works[i];
        if number == 0 {
            continue;
        }
        let project = usize::from(number) - 1;
        if PROJECTS <= project {
            continue;
        }
        if end[project] <= low[project] {
            continue;
        }
        let first = standings.first(firsts[project], u32::from(number) * OWN);
        firsts[project] = Some(first);
        let own = standings.each[i];
        seats[i] = standings.seat(first, own, low[project], end[project]);
    }
    seats
}

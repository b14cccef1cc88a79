// The row that a state shows.
//
// Every kind's rank is counted once, and every project's cards are found once. From the two each
// kind has its seat: the card that it takes, plus 1, or 0 where it is not served. The row and the
// state that follows both go by the seats.
//
// Of n kinds, a of them with slices left and a card to their project, on m cards for p projects, that
// is at most 16(a + p) steps for the ranks and 3n + p + m for the rest.
ghost use Rattle.std.specs.Prelude.{◌≡◌, ℕ, ◌≤◌, ◌<◌, length};
ghost use Rattle.plan.specs.Order.{InOrder};
ghost use Rattle.seats.specs.Seats.{at};
ghost use Rattle.rack.specs.Form.{Ready};
ghost use Rattle.rack.specs.Found.{AtWork};
ghost use Rattle.rack.specs.Row.{row_over};
ghost use Rattle.rack.specs.Seat.{ProjectCards, seats_of, seated};

use crate::State;
use layout::cards_below;
use plan::Plan;
use seats::seats;

// Each project's lowest card in this slice, and the card after its last.
#[derive(Clone, Copy)]
struct Cards {
    low: [u8; 8],
    end: [u8; 8],
}

// One walk over the projects: each one's cells begin where the last one's end.
fn project_cards(plan: Plan, slice: u8) -> Cards
    requires { InOrder plan × (slice < plan.frame) }
    ensures { ProjectCards plan slice result.low result.end }
{
    let mut low = [0u8; 8];
    let mut end = [0u8; 8];
    let mut cell: u16 = 0;
    let mut card: u8 = 0;
    let projects = plan.project;
    // kept: an index, since the seats take the lowest and the last cards as two arrays.
    for j in 0..usize::from(plan.projects) {
        low[j] = card;
        cell += projects[j].budget;
        card = cards_below(cell, plan.frame, slice) as u8;
        end[j] = card;
    }
    Cards { low, end }
}

// Each kind's number plus 1 on the card where it sits.
fn seat_kinds(out: &mut [u8], seat: &[u8; 16], kinds: usize)
    requires { (kinds ≤ 16) × ((k : ℕ) → at seat.now k ≤ length out.old) }
    ensures { out.new ≡ seated (at seat.now) kinds out.old }
{
    for (i, number) in seat[..kinds].iter().enumerate() {
        if *number == 0 {
            continue;
        }
        out[usize::from(*number) - 1] = i as u8 + 1;
    }
}

impl State {
    // Where every kind sits in this slice, by what the check found.
    pub(crate) fn seats(self, works: &[u8; 16], until: &[u16; 16]) -> [u8; 16]
        requires { Ready self × AtWork self works.now until.now }
        ensures { result ≡ seats_of self }
    {
        let cards = project_cards(self.plan, self.slice);
        seats(works, until, &cards.low, &cards.end, self.places())
    }

    // Writes the row into a lent one, by the seats.
    pub(crate) fn write_row(self, seat: &[u8; 16], out: &mut [u8])
        requires { Ready self × (self.plan.cards ≤ length out.old) × (seat.now ≡ seats_of self) }
        ensures { out.new ≡ row_over self out.old }
    {
        out[..usize::from(self.plan.cards)].fill(0);
        seat_kinds(out, seat, self.places());
    }
}

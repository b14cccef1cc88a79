// What an operation answers, document 01's number, place and excess of an answer, the bad slice
// beside the excess, and the one number that carries them to another language.
#![tactic(auto)]

ghost use Rattle.std.specs.Prelude.{◌≡◌};
ghost use Rattle.answer.specs.declared.Answer.TheVariants.{No};
ghost use Rattle.answer.specs.Answer.{bare, at_project, at_kind, not_admitted, number, place, excess, slice};
ghost use Rattle.answer.specs.Word.{told};

// Why not: bare, by project, or by kind with its excess and the bad slice. The first field is
// document 01's number.
#[derive(Clone, Copy)]
pub enum Refusal {
    Bare(u8),
    ByProject(u8, u8),
    ByKind(u8, u8, u32, u8),
}

// kept: no Result, since document 01 asks for a refusal enum inside an answer enum.
#[derive(Clone, Copy)]
pub enum Answer {
    Good,
    No(Refusal),
}

// What writing did: the answer, and the count of bytes written.
// kept: no Result, since document 01 has it: "Writers answer with the count of bytes written, 0 on a refusal."
#[derive(Clone, Copy)]
pub struct Written {
    pub answer: Answer,
    pub count: usize,
}

impl Refusal {
    // The refusal that `Answer::bare` answers: of an operation whose result is a `Result`.
    pub fn bare(number: u8) -> Self
        ensures { No result ≡ bare number }
    {
        Self::Bare(number)
    }
}

impl Answer {
    // A refusal with no place.
    // kept: numbers, since the promise is for any number (`bare_one_outcome`), and hosts read them.
    pub fn bare(number: u8) -> Self
        ensures { result ≡ bare number }
    {
        Answer::No(Refusal::Bare(number))
    }

    // A refusal whose place is a project.
    pub fn at_project(number: u8, project: u8) -> Self
        ensures { result ≡ at_project number project }
    {
        Answer::No(Refusal::ByProject(number, project))
    }

    // A refusal whose place is a kind.
    pub fn at_kind(number: u8, kind: u8) -> Self
        ensures { result ≡ at_kind number kind }
    {
        Answer::No(Refusal::ByKind(number, kind, 0, 0))
    }

    // 8, with the excess of the kind and the bad slice.
    pub fn not_admitted(kind: u8, excess: u32, slice: u8) -> Self
        ensures { result ≡ not_admitted kind excess slice }
    {
        Answer::No(Refusal::ByKind(8, kind, excess, slice))
    }

    // kept: four functions of one shape, each with its own promise (number, place, excess, slice).
    pub fn number(self) -> u8
        ensures { result ≡ number self }
    {
        let Answer::No(why) = self else {
            return 0;
        };
        match why {
            Refusal::Bare(number) => number,
            Refusal::ByProject(number, _) => number,
            Refusal::ByKind(number, _, _, _) => number,
        }
    }

    pub fn place(self) -> u8
        ensures { result ≡ place self }
    {
        let Answer::No(why) = self else {
            return 0;
        };
        match why {
            Refusal::Bare(_) => 0,
            Refusal::ByProject(_, place) => place,
            Refusal::ByKind(_, place, _, _) => place,
        }
    }

    pub fn excess(self) -> u32
        ensures { result ≡ excess self }
    {
        let Answer::No(why) = self else {
            return 0;
        };
        match why {
            Refusal::Bare(_) => 0,
            Refusal::ByProject(_, _) => 0,
            Refusal::ByKind(_, _, excess, _) => excess,
        }
    }

    pub fn slice(self) -> u8
        ensures { result ≡ slice self }
    {
        let Answer::No(why) = self else {
            return 0;
        };
        match why {
            Refusal::Bare(_) => 0,
            Refusal::ByProject(_, _) => 0,
            Refusal::ByKind(_, _, _, slice) => slice,
        }
    }

    // The answer and a count of bytes as one number. Of an excess the low 24 bits are all there is.
    pub fn told(self, count: u16) -> u64
        ensures { result ≡ told self count }
    {
        u64::from(self.number())
            + u64::from(self.place()) * 256
            + u64::from(count) * 65536
            + u64::from(self.excess() % 16777216) * 4294967296
            + u64::from(self.slice()) * 72057594037927936
    }
}

// Tells staff, on standard output, what there is to say of a plan and a book.
#![tactic(auto)]

ghost use Rattle.telling.specs.Telling.{Tells, not_told};
ghost use Rattle.telling.specs.declared.NotTold.TheVariants.{NotWritten};
ghost use Rattle.std.specs.Prelude.{◌≡◌};

use listing::Text;
use onward::Judgement;
use plan::{Plan, PlanUnread};
use std::io;

// Why not all was told: not all of it was written, for this reason; or nothing was, since a line of the plan is not understood, by its number from 1, or the
// plan is too long.
#[derive(Drop)]
pub enum NotTold {
    NotWritten(io::Error),
    NotUnderstood(usize),
    TooLong,
}

// The rooms hold every plan that is not too long, so one that does not fit is too long.
impl From<PlanUnread> for NotTold {
    ghost from_gives = { λ why e. e ≡ not_told why };

    fn from(why: PlanUnread) -> NotTold {
        match why {
            PlanUnread::NotUnderstood(line) => NotTold::NotUnderstood(line),
            PlanUnread::NoRoom | PlanUnread::TooLong => NotTold::TooLong,
        }
    }
}

impl From<io::Error> for NotTold {
    ghost from_gives = { λ reason e. e ≡ NotWritten reason };

    fn from(reason: io::Error) -> NotTold {
        NotTold::NotWritten(reason)
    }
}

// How many names there is room for: a name takes 7 bytes of a plan with its word and its line's end, so no plan has more.
#[derive(Drop)]
struct Names;

impl Names {
    const MOST: usize = 16384;
}

// Writes line k.
fn print_line(rt: &impl Print, plan: Plan, judgement: Judgement, k: usize) -> io::Result<()> {
    let text = moves::line(plan.names, plan.ends, plan.steps, plan.lists, judgement, k);
    let mut room = [0u8; Text::MOST];
    let Some(n) = text.put(&mut room) else {
        return Err(io::Error::other("there is no room for a line"));
    };
    rt.write_all(&room[..n])
}

// Writes the lines one after another, and stops at one that is not taken whole.
fn print_lines(rt: &impl Print, plan: Plan, judgement: Judgement) -> io::Result<()> {
    let count = moves::line_count(plan.names, plan.ends, plan.steps, plan.lists, judgement);
    for k in 0..count {
        print_line(rt, plan, judgement, k)?;
    }
    Ok(())
}

// Reads the plan from its text into rooms lent, and the book, and writes what there is to say. The rooms are lent one by one, since the contract of `plan::read` speaks of each by its name.
fn tell_in(
    rt: &impl Print,
    text: &[u8],
    book: &[u8],
    names: &mut [u8],
    ends: &mut [u32],
    steps: &mut [u16],
    lists: &mut [u16],
) -> Result<(), NotTold>
    ensures { Tells text.now result }
{
    let counts = plan::read(text, names, ends, steps, lists)?;
    let plan = Plan {
        names: &names[..counts.names],
        ends: &ends[..counts.ends],
        steps: &steps[..counts.moves],
        lists: &lists[..counts.lists],
    };
    print_lines(rt, plan, onward::read(book))?;
    Ok(())
}

// Reads the plan from its text, and the book, and writes what there is to say.
pub fn tell(rt: &impl Print, text: &[u8], book: &[u8]) -> Result<(), NotTold>
    ensures { Tells text.now result }
{
    let mut names = [0u8; Plan::BYTES];
    let mut ends = [0u32; Names::MOST];
    let mut steps = [0u16; Names::MOST];
    let mut lists = [0u16; Names::MOST];
    tell_in(
        rt, text, book, &mut names, &mut ends, &mut steps, &mut lists,
    )
}

// Opens a register and answers drill calls, one a line of standard input. The answers to the lines that came with one read are written before the
// next read.
#![tactic(auto)]

ghost use Rattle.std.specs.Prelude.{◌≡◌, ◌+◌, ◌≤◌, ◌++◌, length, replicate};
ghost use Rattle.drill.specs.Drill.{applied_of, slip_left};
ghost use Rattle.lines.specs.Defaults.{handed_of};
ghost use Rattle.lines.specs.RangeLines.{first_ranks};
ghost use Rattle.print_answers.specs.Texts.{reply_text};
ghost use Rattle.print_page.specs.Parts.{Printable};
ghost use Rattle.print_ranges.specs.Texts.{range_text};
ghost use Rattle.ranges.specs.Ranges.{range_of, range_slip};

use drill::DrillCall;
use input::{Lines, State};
use lines::{Line, NO_RANKS, first_ranks, handed, read_line};
use lists::MEMBER_ROOM;
use output::{make_room, tell, write_out};
use print_answers::{put_reply, put_unreadable};
use print_page::{latest_of, put_page};
use print_ranges::put_range;
use print_refusal::put_opening;
use print_register::put_register;
use ranges::{Losses, range};
use std::io;
use std::io::{Eprint, Input, Print};
use text::Text;
use waterfall::{Allocation, Register};
use words::Unreadable;

// No answer is longer. Room for one is made before a line is taken, and the answer uses it up, so it is no fact of the drill's type.
const ANSWER_ROOM: usize = 16384;

// A drill: its register as it stands, the latest default, the ranks of the latest line, the slip of the latest call, and the answers that are not written
// yet.
#[derive(Drop)]
struct Drill {
    register: Register,
    latest: Option<Allocation>,
    ranks: [[u8; 64]; 4],
    slip: [u64; 128],
    answers: Text<65536>,
    ghost printable: { Printable latest },
}

impl Drill {
    // The drill after its opening.
    fn open(sheet: &[u8], own: u64) -> Self {
        let opened = waterfall::opening::open(sheet, own);
        let mut answers = Text::new();
        put_opening(&mut answers, opened.refusal);
        Drill {
            register: opened.register,
            latest: None,
            ranks: NO_RANKS,
            slip: [0; 128],
            answers,
        }
    }

    // Makes a call, with those of the ranks that go with it, and answers it.
    #[tactic(auto, using(print_page::proofs::Printing::latest_printable))]
    fn call(&mut self, call: DrillCall)
        requires { length self.old.answers + 16384 ≤ 65536 }
        ensures register_after { self.new.register ≡ (applied_of self.old.register call (handed_of call self.old.ranks) self.old.slip).register }
        ensures answered { let ranks = handed_of call self.old.ranks in
            self.new.answers ≡ self.old.answers ++ reply_text (applied_of self.old.register call ranks self.old.slip).reply
            (slip_left self.old.register call ranks self.old.slip) }
    {
        self.register.given_back();
        let done = drill::apply(
            self.register,
            call,
            handed(call, &self.ranks),
            &mut self.slip,
        );
        self.register = done.register;
        self.latest = latest_of(self.latest, done.reply);
        put_reply(&mut self.answers, done.reply, &self.slip);
    }

    // Answers what a default would take whose loss is known only as a range. The register, the latest default and the slip stay.
    fn range(&mut self, member: u64, losses: Losses)
        requires { length self.old.answers + 16384 ≤ 65536 }
        ensures register_after { self.new.register ≡ self.old.register }
        ensures latest_after { self.new.latest ≡ self.old.latest }
        ensures slip_after { self.new.slip ≡ self.old.slip }
        ensures answered { let ranks = first_ranks self.old.ranks in let lent = replicate 256 0 in
            self.new.answers ≡ self.old.answers ++ range_text (range_of self.old.register member losses ranks lent)
            (range_slip self.old.register member losses ranks lent) }
    {
        let mut slip = [0; 256];
        let answer = range(
            &self.register,
            member,
            losses,
            first_ranks(&self.ranks),
            &mut slip,
        );
        put_range(&mut self.answers, answer, &slip);
    }

    fn answer(&mut self, line: Line)
        requires { length self.old.answers + 16384 ≤ 65536 }
    {
        match line {
            Line::Register => put_register(&mut self.answers, &self.register),
            Line::Page => put_page(&mut self.answers, self.latest),
            Line::Range { member, losses } => self.range(member, losses),
            Line::Call(call) => self.call(call),
        }
    }

    // Reads a line and answers it, where it says something.
    fn take(&mut self, number: u64, line: &[u8])
        requires { length self.old.answers + 16384 ≤ 65536 }
    {
        match read_line(line, &mut self.ranks) {
            Ok(None) => {}
            Ok(Some(line)) => self.answer(line),
            Err(Unreadable) => put_unreadable(&mut self.answers, number),
        }
    }

    // Takes the lines of the input. Its turns are counted, since a loop has to be shown to end: no input has so many lines and reads. (make_sheet has a
    // loop like it, which writes no answers between.)
    fn run(&mut self, rt: &(impl Input + Print + Eprint)) -> io::Result<()> {
        let mut lines = Lines::new();
        for _turn in 0..u64::MAX {
            make_room(rt, &mut self.answers, ANSWER_ROOM)?;
            let number = lines.number();
            match lines.next() {
                Some(Ok(line)) => self.take(number, line),
                Some(Err(Unreadable)) => put_unreadable(&mut self.answers, number),
                None => {
                    write_out(rt, &mut self.answers)?;
                    if lines.state() != State::Open {
                        return Ok(());
                    }
                    lines.read_on(rt);
                }
            }
        }
        Ok(())
    }
}

fn main(rt: HostRuntime) {
    let Some(numbers) = files::numbers::<1>(&rt, 3) else {
        let _ = eprintln!(&rt; "usage: run_drill REGISTER G");
        return;
    };
    let [own] = numbers;
    let mut room = [0; MEMBER_ROOM];
    let Some(sheet) = files::read_sheet(&rt, 1, &mut room) else {
        return;
    };
    tell(&rt, Drill::open(sheet, own).run(&rt));
}

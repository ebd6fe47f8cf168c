// What the console holds between two lines, and how a line changes it.
ghost use Rattle.std.specs.Prelude.{◌≡◌, map, IfOk, OnErr, OnOk};
ghost use Rattle.book.specs.Reading.{read_book};
ghost use Rattle.console.specs.Acts.{LeavesFor, LeavesLog, LeavesRig, entries_for};
ghost use Rattle.console.specs.Answers.{count_kinds, count_parts, rig_answer};
ghost use Rattle.console.specs.Held.{book_after, held_of, nothing_held, replies_after, replies_held, rig_after, script_after, script_read};
ghost use Rattle.console.specs.Plans.{mounted, planned};
ghost use Rattle.console.specs.Transcripts.{Answers, Replies};
ghost use Rattle.console.specs.Views.{IsRig, view};

use crate::answer::Answer;
use crate::line::{Command, Line, NotUnderstood};
use crate::nest::Nest;
use crate::plan::{Plan, build_all};
use crate::stage::MOST_ROOM;
use book::Book;
use device::{Rig, Row};
use faults::Fault;
use player::Player;
use protocol::Entry;
use script::Script;
use std::alloc::{AllocError, Global};

#[derive(Drop)]
pub struct Desk<'a> {
    book: Book<'a>,
    script: Script<'a>,
    player: Player<'a>,
    rig: Option<Row<Nest<'a>>>,
    // of the last go or strike
    log: [Entry; ROOM],
}

// The longest log of a call.
const ROOM: usize = MOST_ROOM as usize;

const BLANK: Entry = Entry {
    port: 0,
    letter: 0,
    answer: 0,
    station: 0,
};

impl<'a> Desk<'a> {
    // The empty book, the empty script, a new player, and no rig.
    pub fn new() -> Desk<'a>
        ensures { held_of result ≡ nothing_held }
    {
        Desk {
            book: Book::new(),
            script: Script::new(),
            player: Player::new(),
            rig: None,
            log: [BLANK; ROOM],
        }
    }

    // How many kinds the book has, which is held from then on without a script, or why it is refused.
    pub fn check_book(&mut self, bytes: &'a [u8]) -> Result<u8, Fault>
        ensures answer { result ≡ count_kinds (read_book bytes.now) }
        ensures held { held_of self.new ≡ book_after (held_of self.old) bytes.now (read_book bytes.now) }
        ensures rig { self.new.rig ≡ self.old.rig }
        ensures log { self.new.log ≡ self.old.log }
        ensures refused { OnErr result (self.new ≡ self.old) }
    {
        self.book.check(bytes)?;
        self.script = Script::new();
        Ok(self.book.kinds())
    }

    // How many parts the script has over the held book, which is held from then on, or why it is refused.
    pub fn check_script(&mut self, bytes: &'a [u8]) -> Result<u8, Fault>
        ensures answer { result ≡ count_parts (script_read (held_of self.old) bytes.now) }
        ensures held { held_of self.new ≡ script_after (held_of self.old) (script_read (held_of self.old) bytes.now) }
        ensures rig { self.new.rig ≡ self.old.rig }
        ensures log { self.new.log ≡ self.old.log }
        ensures refused { OnErr result (self.new ≡ self.old) }
    {
        self.script.check(&self.book, bytes)?;
        Ok(self.script.parts())
    }

    // How many ports the rig has, which is held from then on, or why it is refused; without a device it is none.
    fn hold_rig(
        &mut self,
        heap: Global,
        number: u64,
        plans: &'a [Plan],
    ) -> Result<Answer, AllocError>
        ensures answer { IfOk result (λ answer. answer ≡ rig_answer number (mounted (map planned plans.now))) }
        ensures held { OnOk result (held_of self.new ≡ rig_after (held_of self.old) (mounted (map planned plans.now))) }
        ensures rig { IfOk result (λ answer. LeavesRig answer self.old.rig self.new.rig) }
        ensures log { OnOk result (self.new.log ≡ self.old.log) }
        ensures replies { OnOk result (replies_held self.new ≡ replies_after (replies_held self.old) (map planned plans.now) (mounted (map planned plans.now))) }
        ensures lost { OnErr result (self.new ≡ self.old) }
    {
        let devices = match build_all::<Nest<'a>>(heap, plans)? {
            Ok(devices) => devices,
            Err(fault) => return Ok(Answer::Rig(Err(fault))),
        };
        match Row::new(devices) {
            Ok(rig) => {
                let ports = rig.count();
                self.rig = Some(rig);
                Ok(Answer::Rig(Ok(ports)))
            }
            Err(_) => Ok(Answer::NotUnderstood(number)),
        }
    }

    // The answer to the line of that number, if it asks for one. Without memory the line counts for nothing.
    pub fn answer(
        &mut self,
        heap: Global,
        number: u64,
        line: &'a Line<'a>,
    ) -> Result<Option<Answer>, AllocError>
        ensures answers { IfOk result (λ answer. Answers number (held_of self.old) (view line.now) answer (entries_for self.new answer) (held_of self.new)) }
        ensures rig { IfOk result (λ answer. LeavesFor LeavesRig answer self.old.rig self.new.rig) }
        ensures log { IfOk result (λ answer. LeavesFor LeavesLog answer self.old.log self.new.log) }
        ensures replies { OnOk result (Replies (view line.now) (replies_held self.old) (replies_held self.new)) }
        ensures devices { OnErr result (IsRig (view line.now)) }
        ensures lost { OnErr result (self.new ≡ self.old) }
    {
        match line {
            None => Ok(None),
            Some(Ok(Command::Book(bytes))) => Ok(Some(Answer::Book(self.check_book(bytes)))),
            Some(Ok(Command::Script(bytes))) => Ok(Some(Answer::Script(self.check_script(bytes)))),
            Some(Ok(Command::Rig(plans))) => Ok(Some(self.hold_rig(heap, number, plans)?)),
            Some(Ok(Command::Stage(command))) => Ok(Some(self.act(number, *command))),
            Some(Err(NotUnderstood)) => Ok(Some(Answer::NotUnderstood(number))),
        }
    }
}

mod acts;

// Replaying cases: what is asked of each, line by line, and what differs from the model's answers.
use crate::case::{Ask, Case};
use clearance::answer::Fault;
use records::make::{CatalogueMake, Make, ProbedMake};
use room::room::Room;
use scenefile::make_number::make_number;
use scenefile::read::read;

// What is asked of the cases of a kind, how many answers were compared, and how many differ.
#[derive(Drop)]
pub(crate) struct Replay<'r, A> {
    pub(crate) rt: &'r HostRuntime,
    pub(crate) ask: A,
    pub(crate) all: u32,
    pub(crate) differ: u32,
}

impl<'r, A: Ask> Replay<'r, A> {
    pub(crate) fn new(rt: &'r HostRuntime, ask: A) -> Self {
        Replay {
            rt,
            ask,
            all: 0,
            differ: 0,
        }
    }

    // Counts one answer, and prints its line where it is not what is wanted.
    fn compare(&mut self, name: &str, line: &str, text: &str, wanted: &str) -> anyhow::Result<()> {
        self.all = self.all.saturating_add(1);
        if text != wanted {
            self.differ = self.differ.saturating_add(1);
            println!(self.rt; "{name}: '{line}' does not come to {wanted}")?;
        }
        Ok(())
    }

    // Reads the file of a case and asks of it what is asked; a refusal is its only answer.
    fn make<M: Make>(
        &mut self,
        case: Case<'_>,
        room: &mut Room<M::Solid, M::Joint>,
    ) -> anyhow::Result<()> {
        let heap = self.rt.alloc();
        let name = case.name;
        match read::<M>(case.bytes, room.tables()) {
            Ok(scene) => {
                if !self.ask.file_is_right::<M>(heap, &scene, case.bytes)? {
                    self.differ = self.differ.saturating_add(1);
                    println!(self.rt; "{name}: written back, its bytes differ")?;
                }
                let mut text = String::new(heap);
                for (line, wanted) in case.script.split('\n').zip(case.wanted.split('\n')) {
                    if A::is_line(line, wanted) {
                        text.clear();
                        self.ask.answer(heap, &scene, line, wanted, &mut text)?;
                        self.compare(name, line, text.as_str(), wanted)?;
                    }
                }
                Ok(())
            }
            Err(unread) => {
                let fault = Fault::from(unread.refusal);
                let text = format!(in heap; "{fault}")?;
                self.compare(name, "", text.as_str(), case.wanted)
            }
        }
    }

    pub(crate) fn case(&mut self, case: Case<'_>) -> anyhow::Result<()> {
        let heap = self.rt.alloc();
        // two arms, here and in the other programs: a trait with a generic method would take more lines than it saves
        match make_number(case.bytes) {
            Some(ProbedMake::NUMBER) => self.make::<ProbedMake>(
                case,
                &mut Room::of_defaults(heap)?,
            ),
            _ => self.make::<CatalogueMake>(case, &mut Room::of_defaults(heap)?),
        }
    }
}

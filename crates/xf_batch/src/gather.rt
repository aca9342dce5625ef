//! A phase, line by line.
ghost use Rattle.std.specs.Prelude.{◌≡◌, ℕ, Some, ◌<◌, ◌≤◌, ◌^◌, length, IfErr, IfOk};
ghost use Rattle.xf_read.specs.declared.reader.Item.{Item as ReadItem};
ghost use Rattle.xf_grammar.specs.declared.head.Head.TheVariants as head;
ghost use Rattle.xf_read.specs.Items.{asked_by, fields_read};
ghost use Rattle.xf_batch.specs.Batch.{Gathered, beginning, effect_of, is_list_line, is_over, with_call};
ghost use Rattle.xf_batch.specs.Gathers.{Gathers, Puts};
ghost use Rattle.xf_batch.specs.Shown.{line_of, line_with};

use crate::fault::PhaseFault;
use crate::items::Asked;
use crate::phase::Phase;
use crate::task::{Job, Task};
use std::alloc::Global;
use xf_grammar::Head;
use xf_read::{Item, LineReader};
use xf_types::{Call, Dir, Reason};

// How many call lines a phase may have, and how many lists among them.
const CALLS: u64 = 16_384;

const LISTS: u64 = 256;

/// The call lines so far by thread, the worker whose lines follow, and how many call lines and lists there are.
#[derive(Debug, Drop)]
pub(crate) struct Gather {
    pub threads: Vec<Vec<Task>>,
    pub worker: u32,
    pub calls: u64,
    pub lists: u64,
}

fn is_list(task: &Task) -> bool
    ensures { result ≡ is_list_line (line_of task.now) }
{
    matches!(
        &task.job,
        Job::One(Call::PolicyList(_) | Call::StateList(_))
    )
}

impl Gather {
    /// Before the first line.
    pub(crate) fn new(alloc: Global, workers: u32) -> Result<Gather, PhaseFault>
        ensures gathers { IfOk result (λ s. Gathers workers s beginning) }
        ensures memory { IfErr result (λ e. e ≡ PhaseFault.NoMemory) }
    {
        let mut threads = Vec::new(alloc);
        for _ in 0..workers {
            threads.push(Vec::new(alloc))?;
        }
        Ok(Gather {
            threads,
            worker: 0,
            calls: 0,
            lists: 0,
        })
    }

    // Whether the phase has no more room for the line.
    fn is_full(&self, task: &Task) -> bool
        ensures { result ≡ is_over self.now.calls self.now.lists (line_of task.now) }
    {
        self.calls >= CALLS || is_list(task) && self.lists >= LISTS
    }

    // Puts a call line behind those of its thread, or refuses it.
    #[inline(always)]
    fn push_line(&mut self, line: u64, job: Job) -> Result<bool, PhaseFault>
        requires { 0 < length self.old.threads.items }
        ensures { (workers : ℕ) (g : Gathered) → Gathers workers self.old g
            → Puts workers line g (with_call g (line_with line job)) self.new result }
    {
        let task = Task { line, job };
        if self.is_full(&task) {
            return Err(PhaseFault::Bad {
                line,
                reason: Reason::Phase,
            });
        }
        let lists = is_list(&task);
        let thread = self.worker as usize % self.threads.len();
        self.threads[thread].push(task)?;
        self.calls += 1;
        self.lists += u64::from(lists);
        Ok(true)
    }

    // Flows and packets have functions of their own, which aren't inlined: of those, what is read is small, and a call is made of it
    // where it is kept.

    #[inline(never)]
    fn put_flow(&mut self, lines: &LineReader, line: u64, dir: Dir) -> Result<bool, PhaseFault>
        requires { 0 < length self.old.threads.items }
        ensures { (workers now : ℕ) (g : Gathered) → Gathers workers self.old g
            → Puts workers line g (effect_of now g line (asked_by (Some (head.Flow dir)) (fields_read lines.now))) self.new result }
    {
        match lines.flow(dir) {
            Ok(flow) => self.push_line(line, Job::One(Call::Flow(flow))),
            Err(reason) => Err(PhaseFault::Bad { line, reason }),
        }
    }

    #[inline(never)]
    fn put_packet(&mut self, lines: &LineReader, line: u64) -> Result<bool, PhaseFault>
        requires { 0 < length self.old.threads.items }
        ensures { (workers now : ℕ) (g : Gathered) → Gathers workers self.old g
            → Puts workers line g (effect_of now g line (asked_by (Some head.Packet) (fields_read lines.now))) self.new result }
    {
        match lines.packet() {
            Ok(packet) => self.push_line(line, Job::One(Call::Packet(packet))),
            Err(reason) => Err(PhaseFault::Bad { line, reason }),
        }
    }

    // Puts what a line asks for behind the lines so far, and says whether the phase goes on.
    fn put_item(&mut self, line: u64, item: Item, now: u64) -> Result<bool, PhaseFault>
        requires { 0 < length self.old.threads.items }
        ensures { (workers : ℕ) (g : Gathered) → Gathers workers self.old g
            → Puts workers line g (effect_of now g line (Ok item)) self.new result }
    {
        match item {
            Item::Nothing => Ok(true),
            Item::Worker(worker) => {
                self.worker = worker;
                Ok(true)
            }
            Item::Sync => Ok(false),
            Item::TickNow => self.push_line(line, Job::One(Call::Tick(now))),
            Item::One(call) => self.push_line(line, Job::One(call)),
            Item::Send { flow, len } => self.push_line(line, Job::Send { flow, len }),
        }
    }

    /// Puts what the line asks for that was read last behind the lines so far, and says whether the phase goes on. `now` is what
    /// the clock says.
    pub(crate) fn put_asked(
        &mut self,
        lines: &LineReader,
        asked: Asked,
        now: u64,
    ) -> Result<bool, PhaseFault>
        requires { 0 < length self.old.threads.items }
        ensures { (workers : ℕ) (g : Gathered) → Gathers workers self.old g
            → Puts workers asked.line g (effect_of now g asked.line (asked_by asked.head (fields_read lines.now))) self.new result }
    {
        match asked.head {
            None => Ok(true),
            Some(head) => match head {
                Head::Flow(dir) => self.put_flow(lines, asked.line, dir),
                Head::Packet => self.put_packet(lines, asked.line),
                _ => match lines.asked(head) {
                    Ok(item) => self.put_item(asked.line, item, now),
                    Err(reason) => Err(PhaseFault::Bad {
                        line: asked.line,
                        reason,
                    }),
                },
            },
        }
    }

    /// The phase that was gathered. `synced` says that a `sync` ended it.
    pub(crate) fn finish(self, synced: bool, more: bool) -> Phase
        ensures threads { result.threads ≡ self.threads }
        ensures synced { result.synced ≡ synced }
        ensures more { result.more ≡ more }
    {
        let Gather {
            threads,
            worker: _,
            calls: _,
            lists: _,
        } = self;
        Phase {
            threads,
            synced,
            more,
        }
    }
}

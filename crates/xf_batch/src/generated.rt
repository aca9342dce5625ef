//! A large input that a seed makes, phase by phase.
ghost use Rattle.std.specs.Prelude.{◌≡◌, ◌+◌, ◌-◌, ◌<◌, ◌≤◌, ◌^◌, [], ◌∷◌, ◌++◌, IfOk, OnOk, ℕ, length, map, sum, All, IsTrue, ◌↔◌};
ghost use Rattle.xf_types.specs.Batch.{calls_of_thread, threads_of};
ghost use Rattle.xf_types.specs.Counters.{upwards};
ghost use Rattle.xf_batch.specs.Generated as rule;
ghost use Rattle.xf_batch.specs.Shown.{lines_shown, phase_shown};

use crate::generated_lines::{Making, next_x};
use crate::generated_phases::make_part;
use crate::phase::Phase;
use crate::task::Task;
use std::alloc::Global;
use xf_types::NoMemory;

/// How many lines each worker has in a phase.
fn part_size(phase: u32) -> u64
    requires first { 1 ≤ phase }
    requires last { phase ≤ 4 }
    ensures size { (seed w : ℕ) → rule.part_size seed phase w ≡ result }
    ensures small { result ≤ 1502 }
{
    match phase {
        2 => 1502,
        3 => 501,
        _ => 1001,
    }
}

/// The number of a phase's first line.
fn first_line(phase: u32) -> u64
    requires first { 1 ≤ phase }
    requires last { phase ≤ 4 }
    ensures line { (seed : ℕ) → 1 + sum (map (rule.phase_size seed) (upwards 1 (phase - 1))) ≡ result }
    ensures small { result ≤ 12020 }
{
    match phase {
        1 => 1,
        2 => 4006,
        3 => 10015,
        _ => 12020,
    }
}

/// The number of a phase's line `worker w`.
fn worker_line(phase: u32, worker: u32) -> u64
    requires first { 1 ≤ phase }
    requires last { phase ≤ 4 }
    requires worker { worker < 4 }
    ensures line { (seed : ℕ) → rule.worker_line seed phase worker ≡ result }
    ensures small { result ≤ 20000 }
{
    first_line(phase) + u64::from(worker) * part_size(phase)
}

/// How many values a worker takes in the phases before.
fn values_before(phase: u32) -> u32
    requires first { 1 ≤ phase }
    requires last { phase ≤ 4 }
    ensures { result ≡ sum (map rule.values_of (upwards 1 (phase - 1))) }
{
    match phase {
        1 => 0,
        2 => 500,
        _ => 2000,
    }
}

/// The x of a worker as a phase begins.
fn x_at(seed: u64, phase: u32, worker: u32) -> u64
    requires first { 1 ≤ phase }
    requires last { phase ≤ 4 }
    ensures { result ≡ rule.x_at seed phase worker }
{
    let mut x = seed.wrapping_add(u64::from(worker));
    for _ in 0..values_before(phase) {
        x = next_x(x);
    }
    x
}

/// The lines, and then those of a worker in a phase.
fn with_part(tasks: Vec<Task>, seed: u64, phase: u32, worker: u32) -> Result<Vec<Task>, NoMemory>
    requires first { 1 ≤ phase }
    requires last { phase ≤ 4 }
    requires worker { worker < 4 }
    ensures { IfOk result (λ all. lines_shown all.items
        ≡ lines_shown tasks.items ++ rule.numbered (rule.worker_line seed phase worker + 1) (rule.jobs_in seed phase worker)) }
{
    let mut made = Making {
        tasks,
        line: worker_line(phase, worker) + 1,
        x: x_at(seed, phase, worker),
    };
    make_part(&mut made, phase, worker)?;
    let Making {
        tasks,
        line: _,
        x: _,
    } = made;
    Ok(tasks)
}

/// The call lines of a thread in a phase.
fn thread_tasks(
    alloc: Global,
    seed: u64,
    phase: u32,
    workers: u32,
    thread: u32,
) -> Result<Vec<Task>, NoMemory>
    requires first { 1 ≤ phase }
    requires last { phase ≤ 4 }
    requires some { 1 ≤ workers }
    ensures { IfOk result (λ tasks.
        lines_shown tasks.items ≡ calls_of_thread workers (rule.generated seed phase) thread) }
{
    let mut tasks = Vec::new(alloc);
    for worker in 0..4 {
        if worker % workers == thread {
            tasks = with_part(tasks, seed, phase, worker)?;
        }
    }
    Ok(tasks)
}

fn put_thread(threads: &mut Vec<Vec<Task>>, tasks: Vec<Task>) -> Result<(), NoMemory>
    ensures { OnOk result (threads.new.items ≡ threads.old.items ++ tasks ∷ []) }
{
    match threads.push(tasks) {
        Ok(()) => Ok(()),
        Err(_) => Err(NoMemory),
    }
}

/// One phase, from 1 to 4, of the large input that a seed makes, for the threads of so many workers.
pub fn generate(alloc: Global, seed: u64, phase: u32, workers: u32) -> Result<Phase, NoMemory>
    requires first { 1 ≤ phase }
    requires last { phase ≤ 4 }
    requires some { 1 ≤ workers }
    requires few { workers ≤ 16 }
    ensures threads { IfOk result (λ p.
        (phase_shown p).threads ≡ threads_of workers (rule.generated seed phase)) }
    ensures more { IfOk result (λ p. IsTrue p.more ↔ (phase < 4)) }
    ensures count { IfOk result (λ p.
        sum (map length (phase_shown p).threads) ≡ length (rule.generated seed phase)) }
    ensures small { IfOk result (λ p. sum (map length (phase_shown p).threads) ≤ 6004) }
    // The greatest number of a line is below 2^14.
    ensures numbers { IfOk result (λ p.
        All (λ lines. All (λ l. rule.line_number l ≤ 16023) lines) (phase_shown p).threads) }
{
    let mut threads = Vec::new(alloc);
    for thread in 0..workers {
        let tasks = thread_tasks(alloc, seed, phase, workers, thread)?;
        put_thread(&mut threads, tasks)?;
    }
    Ok(Phase {
        threads,
        synced: phase < 4,
        more: phase < 4,
    })
}

ghost use Rattle.std.specs.Prelude.{◌≡◌, ◌≤◌, ◌++◌, [], ℕ, List};
ghost use Rattle.tg_profiler.specs.Telling.{HasTold, StandForOne};
ghost use Rattle.tg_driver.specs.Calls.{stream_of};
ghost use Rattle.tg_driver.specs.Endings.{end_line};
ghost use Rattle.tg_driver.specs.Statuses.{line_of};
ghost use Rattle.tg_driver.specs.Telling.{IsTold};
ghost use Rattle.tg_driver.specs.glue.PrivateCalls.{IsReported};
ghost use Rattle.tg_driver.specs.glue.Watched.{Tell, TellAfter};

use crate::answers::{Answer, line, status};
use crate::endings::{end_status, write_end};
use crate::faults::{Fault, bad_line, fault_line};
use std::alloc::Global;
use tg_asm::AsmRule;
use tg_base::{Failed, Sink, write_all};
use tg_machine_state::RunEnd;
use tg_profiler::{Watcher, write_reports};

/// Reports an answer on the error sink, after a run what its watchers tell first, and behind the line
/// what explains it, and answers its status. After a run it takes no memory.
pub(crate) fn report<E: Sink>(
    alloc: Global,
    err: &mut E,
    watchers: &[Box<dyn Watcher>],
    answer: Answer,
    explanation: &[u8],
) -> u8
    requires { (reports : List ℕ)
        × TellAfter (λ w. stands w) (λ w. report w) watchers.now answer reports }
    ensures reports { (reports : List ℕ)
        → TellAfter (λ w. stands w) (λ w. report w) watchers.now answer reports
        → IsReported (stream_of E.taken E.faults err.old err.new) reports answer
        explanation.now result }
    ensures later { E.faults err.old ≤ E.faults err.new }
{
    match answer {
        Answer::Faulty(fault) => report_fault(alloc, err, fault, explanation),
        Answer::BadLine(rule, line) => report_line(alloc, err, rule, line, explanation),
        Answer::Finished(end) => tell_run(err, watchers, end, explanation),
        _ => tell(err, answer, line(answer), explanation),
    }
}

/// Reports a fault of a source and what explains it, or out of memory where the fault's line finds
/// none.
fn report_fault<E: Sink>(alloc: Global, err: &mut E, fault: Fault, explanation: &[u8]) -> u8
    ensures reports { IsReported (stream_of E.taken E.faults err.old err.new) []
        (Answer.Faulty fault) explanation.now result }
    ensures later { E.faults err.old ≤ E.faults err.new }
{
    match fault_line(alloc, fault) {
        Ok(text) => tell(err, Answer::Faulty(fault), text.as_str(), explanation),
        Err(_) => tell(err, Answer::OutOfMemory, line(Answer::OutOfMemory), &[]),
    }
}

/// Reports a fault of assembly text and what explains it, or out of memory where its line finds
/// none.
fn report_line<E: Sink>(
    alloc: Global,
    err: &mut E,
    rule: AsmRule,
    at: u64,
    explanation: &[u8],
) -> u8
    ensures reports { IsReported (stream_of E.taken E.faults err.old err.new) []
        (Answer.BadLine rule at) explanation.now result }
    ensures later { E.faults err.old ≤ E.faults err.new }
{
    match bad_line(alloc, rule, at) {
        Ok(text) => tell(err, Answer::BadLine(rule, at), text.as_str(), explanation),
        Err(_) => tell(err, Answer::OutOfMemory, line(Answer::OutOfMemory), &[]),
    }
}

/// Writes the line of an answer and what explains it, and answers its status, or 74 where a write
/// fails.
fn tell<E: Sink>(err: &mut E, answer: Answer, line: &str, explanation: &[u8]) -> u8
    requires { line.now ≡ line_of answer }
    ensures told { IsTold (stream_of E.taken E.faults err.old err.new) [] answer
        explanation.now result }
    ensures later { E.faults err.old ≤ E.faults err.new }
{
    match write_lines(err, line, explanation) {
        Ok(()) => status(answer),
        Err(_) => 74,
    }
}

/// Writes a line and what explains it.
fn write_lines<E: Sink>(err: &mut E, line: &str, explanation: &[u8]) -> Result<(), Failed>
    ensures { HasTold E.taken E.faults err.old err.new result (line.now ++ explanation.now) }
{
    write_all(err, line.as_bytes())?;
    write_all(err, explanation)
}

/// Writes what the watchers of a run tell, the line of its end and what explains it, and answers its
/// status, or 74 where a write fails.
fn tell_run<E: Sink>(
    err: &mut E,
    watchers: &[Box<dyn Watcher>],
    end: RunEnd,
    explanation: &[u8],
) -> u8
    requires { StandForOne (λ w. stands w) watchers.now }
    ensures told { (reports : List ℕ) → Tell (λ w. stands w) (λ w. report w) watchers.now reports
        → IsTold (stream_of E.taken E.faults err.old err.new) reports
        (Answer.Finished end) explanation.now result }
    ensures later { E.faults err.old ≤ E.faults err.new }
{
    match write_run(err, watchers, end, explanation) {
        Ok(()) => end_status(end),
        Err(_) => 74,
    }
}

/// Writes what the watchers of a run tell, the line of its end and what explains it.
fn write_run<E: Sink>(
    err: &mut E,
    watchers: &[Box<dyn Watcher>],
    end: RunEnd,
    explanation: &[u8],
) -> Result<(), Failed>
    requires { StandForOne (λ w. stands w) watchers.now }
    ensures { (reports : List ℕ) → Tell (λ w. stands w) (λ w. report w) watchers.now reports
        → HasTold E.taken E.faults err.old err.new result
        (reports ++ (end_line end ++ explanation.now)) }
{
    write_reports(watchers, err)?;
    write_end_lines(err, end, explanation)
}

/// Writes the line of an end and what explains it.
fn write_end_lines<E: Sink>(err: &mut E, end: RunEnd, explanation: &[u8]) -> Result<(), Failed>
    ensures { HasTold E.taken E.faults err.old err.new result (end_line end ++ explanation.now) }
{
    write_end(err, end)?;
    write_all(err, explanation)
}

//! Moving the steps of a batch behind steps that others have published since.
ghost use Rattle.std.specs.Prelude.{◌≡◌, ◌+◌, ◌<◌, ◌^◌, map};
ghost use Rattle.case_journal.specs.Journal.{lines_of};
ghost use Rattle.journal_laws.specs.Shifts.{shifted_number, shifted_step, shifted};
ghost use Rattle.case_rounds.specs.Events.{AreMovable, AreLinesMovable, AreAllMovable, shifted_event};

use crate::round::Batch;
use case_journal::Event;
use proof_steps::{Line, Step};

/// Moves the number of a step: those up to `base` stay.
fn shift_number(number: &mut u32, base: u32, by: u32)
    requires { base < number.old → number.old + by < 2 ^ 32 }
    ensures { number.new ≡ shifted_number base by number.old }
{
    if *number > base {
        *number += by;
    }
}

fn shift_numbers(numbers: &mut [u32], base: u32, by: u32)
    requires { AreMovable base by numbers.old }
    ensures { numbers.new ≡ map (shifted_number base by) numbers.old }
{
    for number in numbers.iter_mut() {
        shift_number(number, base, by);
    }
}

/// Moves the parents of the step.
fn shift_step(step: &mut Step, base: u32, by: u32)
    requires { AreMovable base by step.old.parents }
    ensures { step.new ≡ shifted_step base by step.old }
{
    shift_numbers(step.parents.as_mut_slice(), base, by);
}

fn shift_lines(lines: &mut [Line], base: u32, by: u32)
    requires { AreLinesMovable base by lines.old }
    ensures { lines.new ≡ shifted base by lines.old }
{
    for line in lines.iter_mut() {
        shift_step(&mut line.step, base, by);
    }
}

/// Moves the parents of the steps that the event adds to the ledger.
fn shift_event(event: &mut Event, base: u32, by: u32)
    requires { AreLinesMovable base by (lines_of event.old) }
    ensures { event.new ≡ shifted_event base by event.old }
{
    match event {
        Event::Publish { chain, .. } => shift_lines(chain.as_mut_slice(), base, by),
        Event::Split { steps, .. } => shift_lines(steps.as_mut_slice(), base, by),
        _ => {}
    }
}

fn shift_events(events: &mut [Event], base: u32, by: u32)
    requires { AreAllMovable base by events.old }
    ensures { events.new ≡ map (shifted_event base by) events.old }
{
    for event in events.iter_mut() {
        shift_event(event, base, by);
    }
}

impl Batch {
    /// Moves the batch behind so many steps that others have published since it was computed: its base, and each number of
    /// a step above it.
    pub fn shift(&mut self, by: u32)
        requires base { self.old.base + by < 2 ^ 32 }
        requires steps { AreAllMovable self.old.base by self.old.events }
        ensures base { self.new.base ≡ self.old.base + by }
        ensures events { self.new.events ≡ map (shifted_event self.old.base by) self.old.events }
    {
        shift_events(self.events.as_mut_slice(), self.base, by);
        self.base += by;
    }
}

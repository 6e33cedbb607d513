//! The words of each refusal: of a world, of a ticket, of an opening, of a renewal, and of what ends the program.

use anyhow::Result;
use journal::JournalError;
use kernel_shared::Stale;
use program_printing::Failure;
use std::alloc::Global;
use std::io::Write;
use volume_renewing::RenewalError;
use world::{OpenError, StepError};

/// Prints the words of each refusal, and the status of one that ends the program.
pub(crate) fn print_refusals<W: Write>(alloc: Global, output: &mut W) -> Result<()> {
    print_of_a_world(output)?;
    writeln!(output, "{Stale}")?;
    print_of_an_opening(output)?;
    print_of_a_renewal(output)?;
    print_of_the_program(alloc, output)
}

fn print_of_a_world<W: Write>(output: &mut W) -> Result<()> {
    for error in [
        StepError::Fault,
        StepError::Memory,
        StepError::Halted,
        StepError::Full,
        StepError::TooManySessions,
        StepError::LaterDirty,
        StepError::LaterOut,
        StepError::NoSession,
        StepError::Exists,
        StepError::NotFound,
    ] {
        writeln!(output, "{error}")?;
    }
    Ok(())
}

fn print_of_an_opening<W: Write>(output: &mut W) -> Result<()> {
    for error in [
        OpenError::Fault,
        OpenError::Memory,
        OpenError::NotAVolume,
        OpenError::Damaged,
    ] {
        writeln!(output, "{error}")?;
    }
    Ok(())
}

fn print_of_a_renewal<W: Write>(output: &mut W) -> Result<()> {
    for error in [
        RenewalError::Device(JournalError::Fault),
        RenewalError::Memory,
        RenewalError::Device(JournalError::Halted),
        RenewalError::Full(3),
        RenewalError::NotNew,
    ] {
        writeln!(output, "{error}")?;
    }
    Ok(())
}

fn print_of_the_program<W: Write>(alloc: Global, output: &mut W) -> Result<()> {
    for failure in [
        Failure::Memory,
        Failure::Bad,
        Failure::bad_word(alloc, "NAME", "a\\\r", "is no name"),
        Failure::NotOpened(OpenError::Fault),
        Failure::NotOpened(OpenError::Memory),
        Failure::NotOpened(OpenError::NotAVolume),
        Failure::NotOpened(OpenError::Damaged),
        Failure::BadEvent(3),
    ] {
        let status = failure.status();
        writeln!(output, "{failure}, status {status}")?;
    }
    Ok(())
}

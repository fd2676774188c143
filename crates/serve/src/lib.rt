//! Reads frames from standard input and prints what the session answers. A frame that is cut short or
//! announces too long a body stops the session here; every other decision is the session's.
#![tactic(auto)]

ghost use Rattle.std.specs.Prelude.{[], IfOk};
ghost use Rattle.serve.specs.Sessions.{SessionLeft};
ghost use Rattle.serve.specs.Taken.{FramesMake};
ghost use Rattle.session.specs.Runs.{new_session};
ghost use Rattle.session.specs.Stops.{account_groups};
ghost use Rattle.session.specs.Views.{view_of};

use service::Service;
use session::session::{ACCOUNT_GROUPS, Session};
use std::alloc::Global;
use std::io;
use std::io::{Read, Write};

pub mod account;
mod input_buffer;
pub mod refuse;
mod service;

/// A whole session on the standard streams, for the eight groups that the program `account` serves.
pub fn run(rt: &HostRuntime) -> io::Result<()> {
    account_session(rt.alloc(), rt.stdin(), rt.stdout())?;
    Ok(())
}

/// A whole session between any input and output, for at most those eight groups, as its last frame
/// left it.
fn account_session<R: Read + Drop, W: Write + Drop>(
    heap: Global,
    input: R,
    output: W,
) -> io::Result<Session>
    ensures { IfOk result (λ s. SessionLeft account_groups new_session (view_of s) (record { bytes = []; rest = R.remaining input })) }
{
    Service::new(heap, ACCOUNT_GROUPS, input, output)?.serve()
}

/// A whole session on the standard streams, for at most so many groups, as its last frame left it.
pub fn run_for(rt: &HostRuntime, most: u8) -> io::Result<Session>
    ensures { IfOk result (λ s. FramesMake most new_session (view_of s)) }
{
    Service::new(rt.alloc(), most, rt.stdin(), rt.stdout())?.serve()
}

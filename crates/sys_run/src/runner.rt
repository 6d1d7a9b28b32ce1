//! One server's process.

ghost use Rattle.std.specs.Prelude.{◌≡◌, false};
ghost use Rattle.lu_base.specs.declared.limits.TheConstants.{CALL_TICKS};
ghost use Rattle.sys_run.specs.Runs.{in_hand, runs, is_idle, runner_in_delivery, runner_after, IsRunBy, server_in_init};

use bm_mem::VecBytes;
use cg_server::{Server, Stop};
use lu_base::Message;
use lu_base::limits::CALL_TICKS;
use sys_mail::Cell;

/// The process that runs a server.
pub type Running<'a> = Server<'a, VecBytes>;

/// A server's process, and the message whose delivery runs in it.
#[derive(Drop)]
pub struct Runner<'a> {
    pub server: Running<'a>,
    pub message: Option<Message>,
}

/// The message whose delivery runs, if one does.
pub fn in_hand(runner: &Runner<'_>) -> Option<Message>
    ensures { result ≡ in_hand runner.now }
{
    if runner.server.idle() {
        None
    } else {
        runner.message
    }
}

/// Whether the server isn't dead and no call of it runs.
pub fn is_idle(runner: &Runner<'_>, cell: &Cell) -> bool
    ensures { result ≡ is_idle runner.now cell.now.value }
{
    runner.server.idle() && cell.trap().is_none()
}

/// Begins the delivery of a message.
pub fn begin(runner: &mut Runner<'_>, message: &Message)
    requires { runs runner.old ≡ false }
    ensures { runner.new ≡ runner_in_delivery runner.old message.now }
{
    runner.server.deliver(message);
    runner.message = Some(*message);
}

/// Goes on with the call that runs, for so many ticks.
pub fn run(runner: &mut Runner<'_>, ticks: u32) -> Stop
    ensures run { IsRunBy ticks runner.old.server result runner.new.server }
    ensures message { runner.new.message ≡ runner.old.message }
{
    runner.server.run(ticks)
}

/// Runs `init` whole.
pub fn run_init(runner: &mut Runner<'_>) -> Stop
    requires { runs runner.old ≡ false }
    ensures run { IsRunBy CALL_TICKS (server_in_init runner.old.server) result runner.new.server }
    ensures message { runner.new.message ≡ runner.old.message }
{
    runner.server.init();
    runner.server.run(CALL_TICKS)
}

/// Ends the delivery where the call has ended.
pub fn leave(runner: &mut Runner<'_>, stop: Stop)
    ensures { runner.new ≡ runner_after stop runner.old.server runner.old.message }
{
    match stop {
        Stop::Returned(_) | Stop::Trapped(_) => {
            runner.server.clear_outbox();
            runner.message = None;
        }
        Stop::Paused | Stop::Memory => {}
    }
}
